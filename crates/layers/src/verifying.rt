// The verifying layer: a host over another that refuses the changes and unbinds which would leave a gap.
ghost use Rattle.std.specs.Prelude.{◌≡◌, cond, false, not, ◌&&◌, is_some, None, Ok, Err, ◌==◌};
ghost use Rattle.model.specs.declared.order.Order.TheVariants.{Create, Bind, Change, Unbind, Delete};
ghost use Rattle.model.specs.Bounded.{any_gap};
ghost use Rattle.hosts.specs.Survey.{has_gap};
ghost use Rattle.hosts.specs.Answers.{Gives, is_tested as is_tested_order, meaning};
ghost use Rattle.rules.specs.Finding.{foreseen};
ghost use Rattle.rules.specs.Opening.{offence_foreseen};
ghost use Rattle.hosts.specs.Service.{above};
ghost use Rattle.layers.specs.Verifying.{Relays, own_refusal, stopped, watched, watched_sane};

pub use crate::state::Verifying;
use hosts::host::{Host, give};
use hosts::load::Load;
use hosts::refusal::{Offence, Reason, Refusal};
use hosts::survey::Survey;
use model::binding::Binding;
use model::order::Order;
use model::pair::Pair;
use rules::gaps::{Prospect, find_gap, opens_gap};
use rules::legality::{change_offence, unbind_offence};
use universe::held::Universe;

// Whether the host below would neither put the order off nor find an offence in it.
fn is_admitted<B: Host>(host: &B, offence: Option<Offence>) -> bool
    ensures { result ≡ ((B.service host.now).load.waits == 0 && not (is_some offence)) }
{
    host.load().waits == 0 && offence.is_none()
}

// Whether the order is one that is tested for gaps.
fn is_tested(order: Order) -> bool
    ensures { result ≡ is_tested_order order }
{
    matches!(order, Order::Change { .. } | Order::Unbind(_))
}

// Whether what is foreseen at the host would leave a gap, where the order that is foreseen has no offence.
fn would_leave_gap<B: Host>(host: &B, is_gap_free: bool, prospect: Prospect) -> bool
    requires { (is_gap_free && has_gap (B.Survey.situation host.now)) ≡ false }
    ensures { offence_foreseen prospect (B.Survey.situation host.now) ≡ None → result ≡ any_gap 256 (B.Survey.situation host.now).universe (foreseen prospect (B.Survey.situation host.now).config) }
{
    if is_gap_free {
        opens_gap(host, prospect)
    } else {
        find_gap(host, prospect).is_some()
    }
}

// Whether the layer over the host stops the order: it would leave a gap, and nothing else refuses it before.
fn does_stop<B: Host>(host: &B, is_gap_free: bool, order: Order) -> bool
    requires { (is_gap_free && has_gap (B.Survey.situation host.now)) ≡ false }
    ensures { result ≡ stopped order (meaning (B.Survey.situation host.now) (B.service host.now)) }
{
    match order {
        Order::Change { instance, state } => {
            is_admitted(host, change_offence(host, instance, state))
                && {
                    // `as`: a state without offence is at most 7.
                    let state = state as u8;
                    would_leave_gap(host, is_gap_free, Prospect::Changed { instance, state })
                }
        }
        Order::Unbind(binding) => {
            is_admitted(host, unbind_offence(host, binding))
                && would_leave_gap(host, is_gap_free, Prospect::Unbound(binding))
        }
        Order::Create { .. } | Order::Bind(_) | Order::Delete { .. } => false,
    }
}

impl<B: Host> Verifying<B> {
    // The layer over the host.
    pub fn over(below: B) -> Self
        ensures { result.below ≡ below }
    {
        Verifying {
            below,
            is_gap_free: false,
        }
    }

    // The height of the layer: one more than below, held at 255.
    fn own_height(&self) -> u8
        ensures { result ≡ above (B.service self.now.below).profile.height }
    {
        self.below.height().saturating_add(1)
    }

    // Stops the order by the layer's own refusal, or lets it pass.
    fn admit(&self, order: Order) -> Result<(), Refusal>
        ensures { let m = meaning (B.Survey.situation self.now.below) (B.service self.now.below) in result ≡ cond (stopped order m) (Err (own_refusal m)) (Ok tt) }
    {
        if does_stop(&self.below, self.is_gap_free, order) {
            return Err(Refusal {
                reason: Reason::Gap,
                height: self.own_height(),
            });
        }
        Ok(())
    }

    // Gives the order, which the layer does not stop, to the host below. If it was tested for gaps and is done, there are
    // none.
    fn pass_on(&mut self, order: Order) -> Result<(), Refusal>
        requires { stopped order (meaning (B.Survey.situation self.old.below) (B.Host.service self.old.below)) ≡ false }
        ensures answered { Gives B.Survey.situation B.Host.service order self.old.below self.new.below result }
        ensures exact { B.Host.does order self.old.below self.new.below result }
    {
        give(&mut self.below, order)?;
        self.is_gap_free |= is_tested(order);
        Ok(())
    }

    // Gives the order to the host below, unless the layer stops it.
    fn relay(&mut self, order: Order) -> Result<(), Refusal>
        ensures answered { Relays B.Survey.situation B.Host.service (Gives B.Survey.situation B.Host.service) order self.old.below self.new.below result }
        ensures exact { Relays B.Survey.situation B.Host.service B.Host.does order self.old.below self.new.below result }
    {
        self.admit(order)?;
        self.pass_on(order)?;
        Ok(())
    }

    // Takes an order: what is relayed is what a host answers.
    fn take(&mut self, order: Order) -> Result<(), Refusal>
        ensures answered { Gives B.Survey.situation (λ h. watched (B.Host.service h)) order self.old.below self.new.below result }
        ensures exact { Relays B.Survey.situation B.Host.service B.Host.does order self.old.below self.new.below result }
        ensures relayed { Relays B.Survey.situation B.Host.service (Gives B.Survey.situation B.Host.service) order self.old.below self.new.below result }
    {
        self.relay(order)
    }
}

impl<B: Host> Survey for Verifying<B> {
    ghost situation = { λ s. B.Survey.situation s.below };

    ghost lawful = { λ s. B.Survey.lawful s.below };

    fn universe(&self) -> &Universe {
        self.below.universe()
    }

    fn at(&self, instance: u32) -> Option<Pair> {
        self.below.at(instance)
    }

    fn is_bound(&self, binding: Binding) -> bool {
        self.below.is_bound(binding)
    }

    fn instances(&self) -> u32 {
        self.below.instances()
    }

    fn bindings(&self) -> u32 {
        self.below.bindings()
    }

    fn covers(&self, port: u32, requirer: u32) -> u32 {
        self.below.covers(port, requirer)
    }
}

impl<B: Host> Host for Verifying<B> {
    ghost service = { λ s. watched (B.Host.service s.below) };

    ghost sane = { λ s. watched_sane (B.Host.service s.below) (B.Host.sane s.below) };

    ghost does = { λ o h k r. Relays B.Survey.situation B.Host.service B.Host.does o h.below k.below r };

    fn load(&self) -> Load {
        self.below.load()
    }

    fn longest_wait(&self) -> u32 {
        self.below.longest_wait()
    }

    fn is_watchful(&self) -> bool {
        true
    }

    fn height(&self) -> u8 {
        self.own_height()
    }

    // The work of the five orders is one, `take`. Each has the trait's two clauses, and one more: with an order that the
    // layer lets pass, the host below keeps to the relation of hosts, and what it answers is answered. A host's own terms
    // (`does`) need not say so much of it.
    fn create(&mut self, instance: u32, kind: u32) -> Result<(), Refusal>
        ensures answered { Gives B.Survey.situation (λ h. watched (B.Host.service h)) (Create instance kind) self.old.below self.new.below result }
        ensures exact { Relays B.Survey.situation B.Host.service B.Host.does (Create instance kind) self.old.below self.new.below result }
        ensures relayed { Relays B.Survey.situation B.Host.service (Gives B.Survey.situation B.Host.service) (Create instance kind) self.old.below self.new.below result }
    {
        self.take(Order::Create { instance, kind })
    }

    fn bind(&mut self, binding: Binding) -> Result<(), Refusal>
        ensures answered { Gives B.Survey.situation (λ h. watched (B.Host.service h)) (Bind binding) self.old.below self.new.below result }
        ensures exact { Relays B.Survey.situation B.Host.service B.Host.does (Bind binding) self.old.below self.new.below result }
        ensures relayed { Relays B.Survey.situation B.Host.service (Gives B.Survey.situation B.Host.service) (Bind binding) self.old.below self.new.below result }
    {
        self.take(Order::Bind(binding))
    }

    fn change(&mut self, instance: u32, state: u32) -> Result<(), Refusal>
        ensures answered { Gives B.Survey.situation (λ h. watched (B.Host.service h)) (Change instance state) self.old.below self.new.below result }
        ensures exact { Relays B.Survey.situation B.Host.service B.Host.does (Change instance state) self.old.below self.new.below result }
        ensures relayed { Relays B.Survey.situation B.Host.service (Gives B.Survey.situation B.Host.service) (Change instance state) self.old.below self.new.below result }
    {
        self.take(Order::Change { instance, state })
    }

    fn unbind(&mut self, binding: Binding) -> Result<(), Refusal>
        ensures answered { Gives B.Survey.situation (λ h. watched (B.Host.service h)) (Unbind binding) self.old.below self.new.below result }
        ensures exact { Relays B.Survey.situation B.Host.service B.Host.does (Unbind binding) self.old.below self.new.below result }
        ensures relayed { Relays B.Survey.situation B.Host.service (Gives B.Survey.situation B.Host.service) (Unbind binding) self.old.below self.new.below result }
    {
        self.take(Order::Unbind(binding))
    }

    fn delete(&mut self, instance: u32) -> Result<(), Refusal>
        ensures answered { Gives B.Survey.situation (λ h. watched (B.Host.service h)) (Delete instance) self.old.below self.new.below result }
        ensures exact { Relays B.Survey.situation B.Host.service B.Host.does (Delete instance) self.old.below self.new.below result }
        ensures relayed { Relays B.Survey.situation B.Host.service (Gives B.Survey.situation B.Host.service) (Delete instance) self.old.below self.new.below result }
    {
        self.take(Order::Delete { instance })
    }
}
