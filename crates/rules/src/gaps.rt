// The gap finder: the first gap in a survey, and whether a change or an unbind opens one.
ghost use Rattle.std.specs.Prelude.{◌≡◌, ℕ, ◌&&◌};
ghost use Rattle.model.specs.Search.{any};
ghost use Rattle.model.specs.Config.{required};
ghost use Rattle.model.specs.Bounded.{covered, gap_at};
ghost use Rattle.universe.specs.Sets.{has};
ghost use Rattle.rules.specs.Ports.{EntryOf, now_has};
ghost use Rattle.rules.specs.Finding.{Finds, covered_by_count, does_cover, first_gap_at, foreseen, mover, viewed};
ghost use Rattle.rules.specs.Opening.{Loses, OpensAll, after, alone, change_opens, lacks, opens, unbind_opens, uncovers};

use crate::ports::{Role, has_port, ports, without};
use hosts::survey::Survey;
use model::binding::Binding;
use model::pair::Pair;
use universe::sets::Field;
use universe::tables::State;

// A gap: the instance, and the port that its state requires and nobody provides to it.
#[derive(Clone, Copy, PartialEq, Eq, Debug)]
pub struct FoundGap {
    pub instance: u32,
    pub port: u32,
}

// What is looked at: what stands, or what would stand after a change or an unbind. An enum and no closure, since clauses
// speak of what is foreseen.
#[derive(Clone, Copy)]
pub enum Prospect {
    Present,
    Changed { instance: u32, state: u8 },
    Unbound(Binding),
}

// The entry of what does not stand: it does nothing with any port.
const IDLE: State = State {
    provided: 0,
    required: 0,
    successors: 0,
};

// A survey as it stands, or as it would stand.
#[derive(Drop)]
struct View<'a, S> {
    survey: &'a S,
    prospect: Prospect,
}

impl<S: Survey> View<'_, S> {
    // The survey as it stands.
    fn present(&self) -> View<'_, S>
        ensures survey { result.survey.now ≡ self.now.survey.now }
        ensures prospect { result.prospect ≡ Prospect.Present }
    {
        View {
            survey: self.survey,
            prospect: Prospect::Present,
        }
    }

    // What would stand under the number.
    #[tactic(auto, using(crate::proofs::Foreseeing::at_foreseen))]
    fn at(&self, instance: u32) -> Option<Pair>
        ensures { result ≡ (viewed S.situation self.now).config.inst instance }
    {
        let pair = self.survey.at(instance)?;
        match self.prospect {
            Prospect::Changed {
                instance: changed,
                state,
            } if instance == changed => Some(Pair { state, ..pair }),
            _ => Some(pair),
        }
    }

    // Whether the binding would stand.
    #[tactic(auto, using(crate::proofs::Foreseeing::binding_foreseen))]
    fn is_bound(&self, binding: Binding) -> bool
        ensures { result ≡ (viewed S.situation self.now).config.bound binding.port binding.provider binding.requirer }
    {
        let bound = self.survey.is_bound(binding);
        match self.prospect {
            Prospect::Unbound(unbound) => bound && binding != unbound,
            _ => bound,
        }
    }

    // Whether the instance would have the port in that role.
    fn has_port(&self, role: Role, port: u32, instance: u32) -> bool
        ensures { result ≡ now_has (viewed S.situation self.now).universe role port ((viewed S.situation self.now).config.inst instance) }
    {
        let universe = self.survey.universe();
        self.at(instance).is_some_and(|pair| {
            has_port(
                universe,
                role,
                u32::from(pair.kind),
                u32::from(pair.state),
                port,
            )
        })
    }

    // Whether the provider of the binding would cover its port: it is in a state that provides it, and bound.
    fn does_cover(&self, binding: Binding) -> bool
        ensures { result ≡ does_cover (viewed S.situation self.now).universe (viewed S.situation self.now).config binding.port binding.provider binding.requirer }
    {
        self.has_port(Role::Provider, binding.port, binding.provider) && self.is_bound(binding)
    }

    // The provider whose bindings may come to cover, or cease to.
    fn mover(&self) -> Option<u32>
        ensures { result ≡ mover self.now.prospect }
    {
        match self.prospect {
            Prospect::Present => None,
            Prospect::Changed { instance, .. } => Some(instance),
            Prospect::Unbound(binding) => Some(binding.provider),
        }
    }

    // Whether the mover would cover the port of the instance, or more than the mover cover it now.
    fn is_covered_by_count(&self, port: u32, instance: u32) -> bool
        ensures { result ≡ covered_by_count (mover self.now.prospect) self.now.prospect (S.situation self.now.survey.now) port instance }
    {
        let covers = self.survey.covers(port, instance);
        let Some(provider) = self.mover() else {
            return covers > 0;
        };
        let binding = Binding {
            port,
            provider,
            requirer: instance,
        };
        self.does_cover(binding) || covers > u32::from(self.present().does_cover(binding))
    }

    // Whether some provider would cover the port of the instance.
    #[tactic(auto, using(crate::proofs::Covered::count_covered))]
    fn is_covered(&self, port: u32, instance: u32) -> bool
        ensures { result ≡ covered 256 (viewed S.situation self.now).universe (viewed S.situation self.now).config instance port }
    {
        self.is_covered_by_count(port, instance)
    }

    // Whether the instance would have a gap at the port.
    #[tactic(auto, unfolding(model::specs::Bounded::gap_at))]
    fn has_gap(&self, port: u32, instance: u32) -> bool
        ensures { result ≡ gap_at 256 (viewed S.situation self.now).universe (viewed S.situation self.now).config instance port }
    {
        self.has_port(Role::Requirer, port, instance) && !self.is_covered(port, instance)
    }

    // The first gap that the instance would have.
    fn first_gap_of(&self, instance: u32) -> Option<FoundGap>
        ensures { result ≡ first_gap_at (viewed S.situation self.now).universe (viewed S.situation self.now).config instance }
    {
        self.at(instance)?;
        (0..ports(self.survey))
            .find(|port| self.has_gap(*port, instance))
            .map(|port| FoundGap { instance, port })
    }

    // The first gap that there would be.
    fn first_gap(&self) -> Option<FoundGap>
        ensures { Finds (viewed S.situation self.now).universe (viewed S.situation self.now).config result }
    {
        (0..256).find_map(|instance| self.first_gap_of(instance))
    }

    // What the state of the instance would do with ports.
    #[tactic(auto, using(crate::proofs::Entries::idle_entry, crate::proofs::Entries::told_entry))]
    fn entry(&self, instance: u32) -> State
        ensures { EntryOf (viewed S.situation self.now).universe ((viewed S.situation self.now).config.inst instance) result }
    {
        let Some(pair) = self.at(instance) else {
            return IDLE;
        };
        self.survey
            .universe()
            .entry(u32::from(pair.kind), u32::from(pair.state))
    }

    // Whether the instance, of which this would be the entry, would lack the port.
    fn would_lack_at(&self, instance: u32, entry: State, port: u32) -> bool
        requires { EntryOf (viewed S.situation self.now).universe ((viewed S.situation self.now).config.inst instance) entry }
        ensures { result ≡ lacks self.now.prospect (S.situation self.now.survey.now) instance port }
    {
        let own = Binding {
            port,
            provider: instance,
            requirer: instance,
        };
        entry.required.has(port)
            && self.survey.covers(port, instance) == 0
            && !(entry.provided.has(port) && self.survey.is_bound(own))
    }

    // Whether the instance, of which this would be the entry, would lack some port.
    fn would_lack(&self, instance: u32, entry: State) -> bool
        requires { EntryOf (viewed S.situation self.now).universe ((viewed S.situation self.now).config.inst instance) entry }
        ensures { result ≡ any (lacks self.now.prospect (S.situation self.now.survey.now) instance) (S.situation self.now.survey.now).universe.ports }
    {
        (0..ports(self.survey)).any(|port| self.would_lack_at(instance, entry, port))
    }

    // Whether the provider of the binding alone covers the port of the requirer now.
    fn is_alone(&self, binding: Binding) -> bool
        ensures { result ≡ alone (S.situation self.now.survey.now) binding.port binding.provider binding.requirer }
    {
        self.survey.covers(binding.port, binding.requirer) == 1 && self.survey.is_bound(binding)
    }

    // Whether the provider alone covers a port of the set for the requirer now.
    fn is_alone_in(&self, set: u32, provider: u32, requirer: u32) -> bool
        ensures { result ≡ any (λ p. has 32 set p && alone (S.situation self.now.survey.now) p provider requirer) (S.situation self.now.survey.now).universe.ports }
    {
        set != 0
            && (0..ports(self.survey)).any(|port| {
                set.has(port)
                    && self.is_alone(Binding {
                        port,
                        provider,
                        requirer,
                    })
            })
    }

    // Those ports of the set that the instance would require.
    #[tactic(auto, using(crate::proofs::Masks::has_and))]
    fn required_in(&self, set: u32, instance: u32) -> u32
        ensures { (p : ℕ) → has 32 result p ≡ (required (S.situation self.now.survey.now).universe p (after self.now.prospect (S.situation self.now.survey.now) instance) && has 32 set p) }
    {
        self.entry(instance).required & set
    }

    // Whether the instance, which would lose these ports, would uncover one of the requirer.
    #[tactic(auto, using(crate::proofs::Losing::uncovers_any))]
    fn would_uncover_at(&self, instance: u32, lost: u32, requirer: u32) -> bool
        requires { Loses self.now.prospect (S.situation self.now.survey.now) instance lost }
        ensures { result ≡ any (uncovers self.now.prospect (S.situation self.now.survey.now) instance requirer) (S.situation self.now.survey.now).universe.ports }
    {
        self.is_alone_in(self.required_in(lost, requirer), instance, requirer)
    }

    // Whether the instance, which would lose these ports, would uncover one of some instance.
    fn would_uncover(&self, instance: u32, lost: u32) -> bool
        requires { Loses self.now.prospect (S.situation self.now.survey.now) instance lost }
        ensures { result ≡ any (λ y. any (uncovers self.now.prospect (S.situation self.now.survey.now) instance y) (S.situation self.now.survey.now).universe.ports) 256 }
    {
        lost != 0 && (0..256).any(|requirer| self.would_uncover_at(instance, lost, requirer))
    }

    // The ports that the instance would lose.
    fn lost(&self, instance: u32, entry: State) -> u32
        requires { EntryOf (viewed S.situation self.now).universe ((viewed S.situation self.now).config.inst instance) entry }
        ensures { Loses self.now.prospect (S.situation self.now.survey.now) instance result }
    {
        without(self.present().entry(instance).provided, entry.provided)
    }

    // Whether the change of the instance would open a gap.
    fn would_change_open(&self, instance: u32) -> bool
        ensures { result ≡ change_opens self.now.prospect (S.situation self.now.survey.now) instance }
    {
        let entry = self.entry(instance);
        self.would_lack(instance, entry) || self.would_uncover(instance, self.lost(instance, entry))
    }

    // Whether the end of the binding would open a gap.
    fn would_unbind_open(&self, binding: Binding) -> bool
        ensures { result ≡ unbind_opens (S.situation self.now.survey.now) binding }
    {
        let present = self.present();
        let provides = present.has_port(Role::Provider, binding.port, binding.provider);
        present.has_port(Role::Requirer, binding.port, binding.requirer)
            && self.survey.covers(binding.port, binding.requirer) == u32::from(provides)
    }

    // Whether a gap would open, where what stands has none.
    #[tactic(auto, unfolding(crate::specs::Opening::opens))]
    fn opens_gap(&self) -> bool
        ensures { result ≡ opens self.now.prospect (S.situation self.now.survey.now) }
    {
        match self.prospect {
            Prospect::Present => self.first_gap().is_some(),
            Prospect::Changed { instance, .. } => self.would_change_open(instance),
            Prospect::Unbound(binding) => self.would_unbind_open(binding),
        }
    }
}

// The first gap of what is foreseen, by instance and then by port.
pub fn find_gap<S: Survey>(survey: &S, prospect: Prospect) -> Option<FoundGap>
    ensures { Finds (S.situation survey.now).universe (foreseen prospect (S.situation survey.now).config) result }
{
    View { survey, prospect }.first_gap()
}

// Whether what is foreseen opens a gap. It counts what covers each port that the order may uncover, and takes what stands
// to be gap-free; so it is quicker than the search for the first gap.
#[tactic(auto, using(crate::proofs::Opened::opens_all))]
pub fn opens_gap<S: Survey>(survey: &S, prospect: Prospect) -> bool
    ensures value { result ≡ opens prospect (S.situation survey.now) }
    ensures all { OpensAll (S.situation survey.now) prospect result }
{
    View { survey, prospect }.opens_gap()
}
