// What the counts of covers tell, and the work of the orders on them. The records are those before the order.
ghost use Rattle.std.specs.Prelude.{◌≡◌, ℕ, ◌+◌, ◌<◌, ◌≤◌, ◌⊎◌, length, slice_index, true, false};
ghost use Rattle.model.specs.declared.order.Order.TheVariants.{Create, Bind, Change, Unbind, Delete};
ghost use Rattle.model.specs.Search.{one};
ghost use Rattle.model.specs.Orders.{result_of};
ghost use Rattle.universe.specs.Sets.{has};
ghost use Rattle.universe.specs.Held.{universe_in};
ghost use Rattle.table.specs.Records.{Able, config_of};
ghost use Rattle.table.specs.Covers.{Cleared, Counted, Ready, ReadyRow, Recounted, by_port, by_provider, by_row, count, count_within, provides};

use crate::covers::Covers;
use crate::ports::{last_of, without};
use crate::records::Records;
use crate::row::Row;
use model::binding::Binding;
use model::order::Order;
use model::pair::Pair;
use universe::held::Universe;
use universe::sets::Field;

// The ports that the state of what stands under a number provides, as a packed set.
#[tactic(auto, using(universe::proofs::Checked::has_zero), unfolding(crate::specs::Covers::provides))]
fn provided(universe: &Universe, pair: Option<Pair>) -> u32
    ensures { (p : ℕ) → has 32 result p ≡ provides (universe_in universe.now) pair p }
{
    pair.map_or(0, |pair| {
        universe
            .entry(u32::from(pair.kind), u32::from(pair.state))
            .provided
    })
}

// The 32 counts from a place on become 0.
fn clear_at(counts: &mut [u16], first: usize)
    requires { first + 32 ≤ length counts.old }
    ensures none { (k : ℕ) → k < 32 → slice_index counts.new (first + k) ≡ 0 }
    ensures others { (k : ℕ) → (k < first) ⊎ (first + 32 ≤ k) → slice_index counts.new k ≡ slice_index counts.old k }
{
    counts[first..first + 32].fill(0);
}

impl Covers {
    // Nothing is covered.
    pub(crate) fn none() -> Covers
        ensures { (p y : ℕ) → p < 32 → y < 256 → count result.counts p y ≡ 0 }
    {
        Covers { counts: [0; 8192] }
    }

    // How many bindings cover the port of the requirer.
    #[tactic(auto, unfolding(crate::specs::Covers::count))]
    pub(crate) fn at(&self, port: u32, requirer: u32) -> u32
        ensures { result ≡ count_within self.now.counts port requirer }
    {
        if port > 31 || requirer > 255 {
            return 0;
        }
        // `as`, here and below where a number is known to fit, as in the records.
        u32::from(self.counts[requirer as usize * 32 + port as usize])
    }

    // A provider of the requirer provided one set of ports, and provides another: so it may cover this port no more, or
    // cover it now.
    #[tactic(auto, unfolding(crate::specs::Covers::by_port, crate::specs::Covers::count))]
    fn recount_port(&mut self, port: u32, requirer: u32, before: u32, after: u32)
        requires low { (port < 32) × (requirer < 256) }
        requires counted { one (has 32 before port) ≤ count self.old.counts port requirer }
        requires room { count self.old.counts port requirer < 65535 }
        ensures { Recounted self.old.counts self.new.counts (by_port port requirer (has 32 before)) (by_port port requirer (has 32 after)) }
    {
        let place = requirer as usize * 32 + port as usize;
        let others = self.counts[place] - u16::from(before.has(port));
        self.counts[place] = others + u16::from(after.has(port));
    }

    // The same for each port of the row that one of the sets has and the other has not.
    fn recount(&mut self, row: Row, before: u32, after: u32)
        requires { ReadyRow self.old.counts row (has 32 before) }
        ensures { Recounted self.old.counts self.new.counts (by_row row (has 32 before)) (by_row row (has 32 after)) }
    {
        let mut left = row.ports & (before ^ after);
        while left != 0 {
            let port = last_of(left);
            self.recount_port(port, u32::from(row.requirer), before, after);
            left = without(left, port);
        }
    }

    // The same for each row of the provider.
    fn recount_rows(&mut self, records: &Records, instance: u32, before: u32, after: u32)
        requires low { instance < 256 }
        requires ready { Ready self.old.counts (by_provider (config_of records.now) instance (has 32 before)) }
        ensures { Recounted self.old.counts self.new.counts (by_provider (config_of records.now) instance (has 32 before)) (by_provider (config_of records.now) instance (has 32 after)) }
    {
        let rows = records.rows_from(instance);
        for row in rows {
            self.recount(*row, before, after);
        }
    }

    // Something else stands under a number, or nothing. Where it provides the same ports, no row is looked at.
    #[tactic(auto, using(crate::proofs::Covered::ready_slot, crate::proofs::Covered::recounted_slot, crate::proofs::Covered::recounted_not))]
    fn replace(&mut self, universe: &Universe, records: &Records, instance: u32, next: Option<Pair>)
        requires low { instance < 256 }
        requires counted { Counted (universe_in universe.now) (config_of records.now) self.old.counts }
        ensures { Recounted self.old.counts self.new.counts (by_provider (config_of records.now) instance (provides (universe_in universe.now) ((config_of records.now).inst instance))) (by_provider (config_of records.now) instance (provides (universe_in universe.now) next)) }
    {
        let before = provided(universe, records.at(instance));
        let after = provided(universe, next);
        if before != after {
            self.recount_rows(records, instance, before, after);
        }
    }

    // The counts of a requirer become 0.
    #[tactic(auto, unfolding(crate::specs::Covers::count))]
    fn clear(&mut self, requirer: u32)
        requires { requirer < 256 }
        ensures { Cleared self.old.counts self.new.counts requirer }
    {
        clear_at(&mut self.counts, requirer as usize * 32);
    }

    // An instance of the type, in its state 0.
    fn create(&mut self, universe: &Universe, records: &Records, instance: u32, kind: u8)
        requires low { instance < 256 }
        requires counted { Counted (universe_in universe.now) (config_of records.now) self.old.counts }
        ensures { Counted (universe_in universe.now) (result_of (Create instance kind) (config_of records.now)) self.new.counts }
    {
        self.replace(universe, records, instance, Some(Pair { kind, state: 0 }));
    }

    // What stands under the number is in the state.
    fn change(&mut self, universe: &Universe, records: &Records, instance: u32, state: u8)
        requires low { instance < 256 }
        requires counted { Counted (universe_in universe.now) (config_of records.now) self.old.counts }
        ensures { Counted (universe_in universe.now) (result_of (Change instance state) (config_of records.now)) self.new.counts }
    {
        let next = records.at(instance).map(|pair| Pair { state, ..pair });
        self.replace(universe, records, instance, next);
    }

    // A binding more.
    #[tactic(auto, using(crate::proofs::Covered::bound_counted, crate::proofs::Covered::counted_room, crate::proofs::Covered::none_least))]
    fn bind(&mut self, universe: &Universe, records: &Records, binding: Binding)
        requires range { (binding.port < 32) × (binding.provider < 256) × (binding.requirer < 256) }
        requires unbound { (config_of records.now).bound binding.port binding.provider binding.requirer ≡ false }
        requires counted { Counted (universe_in universe.now) (config_of records.now) self.old.counts }
        ensures { Counted (universe_in universe.now) (result_of (Bind binding) (config_of records.now)) self.new.counts }
    {
        let now = provided(universe, records.at(binding.provider));
        self.recount_port(binding.port, binding.requirer, 0, now);
    }

    // A binding less.
    #[tactic(auto, using(crate::proofs::Covered::unbound_counted, crate::proofs::Covered::counted_room))]
    fn unbind(&mut self, universe: &Universe, records: &Records, binding: Binding)
        requires range { (binding.port < 32) × (binding.provider < 256) × (binding.requirer < 256) }
        requires bound { (config_of records.now).bound binding.port binding.provider binding.requirer ≡ true }
        requires counted { Counted (universe_in universe.now) (config_of records.now) self.old.counts }
        ensures { Counted (universe_in universe.now) (result_of (Unbind binding) (config_of records.now)) self.new.counts }
    {
        let now = provided(universe, records.at(binding.provider));
        self.recount_port(binding.port, binding.requirer, now, 0);
    }

    // An instance less, and with it the bindings of which it is the requirer.
    fn delete(&mut self, universe: &Universe, records: &Records, instance: u32)
        requires low { instance < 256 }
        requires counted { Counted (universe_in universe.now) (config_of records.now) self.old.counts }
        ensures { Counted (universe_in universe.now) (result_of (Delete instance) (config_of records.now)) self.new.counts }
    {
        self.replace(universe, records, instance, None);
        self.clear(instance);
    }

    // The work of an order.
    pub(crate) fn perform(&mut self, universe: &Universe, records: &Records, order: Order)
        requires able { Able (config_of records.now) order }
        requires counted { Counted (universe_in universe.now) (config_of records.now) self.old.counts }
        ensures { Counted (universe_in universe.now) (result_of order (config_of records.now)) self.new.counts }
    {
        match order {
            Order::Create { instance, kind } => {
                self.create(universe, records, instance, kind as u8);
            }
            Order::Bind(binding) => self.bind(universe, records, binding),
            Order::Change { instance, state } => {
                self.change(universe, records, instance, state as u8);
            }
            Order::Unbind(binding) => self.unbind(universe, records, binding),
            Order::Delete { instance } => self.delete(universe, records, instance),
        }
    }
}
