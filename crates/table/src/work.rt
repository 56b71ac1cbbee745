// What the records tell, and the work of the orders on them.
ghost use Rattle.std.specs.Prelude.{◌≡◌, ◌<◌, ◌*◌, ◌+◌, take, true, false};
ghost use Rattle.model.specs.declared.order.Order.TheVariants.{Create, Bind, Change, Unbind, Delete};
ghost use Rattle.model.specs.Config.{empty, stands};
ghost use Rattle.model.specs.Counts.{instances, bindings};
ghost use Rattle.model.specs.Orders.{result_of};
ghost use Rattle.hosts.specs.Offences.{provider_test};
ghost use Rattle.table.specs.Rows.{Place};
ghost use Rattle.table.specs.Records.{Able, config_of};
ghost use Rattle.table.specs.Covers.{RowsFrom};

use crate::records::Records;
use crate::row::Row;
use crate::rows::{BLANK_ROW, keep_others, put_in, take_out};
use model::binding::Binding;
use model::order::Order;
use model::pair::Pair;
use universe::sets::Field;

impl Records {
    // Nothing stands.
    pub(crate) fn empty() -> Records
        ensures config { config_of result ≡ empty }
        ensures none { result.len ≡ 0 }
    {
        Records {
            slots: [None; 256],
            rows: [BLANK_ROW; 2048],
            len: 0,
            count: 0,
            bindings: 0,
        }
    }

    // What stands under a number, which may be nothing.
    pub(crate) fn at(&self, instance: u32) -> Option<Pair>
        ensures { result ≡ (config_of self.now).inst instance }
    {
        // `as`, here and below where a number is known to fit: `usize` has no `From<u32>`, and `TryFrom` an error that
        // cannot come.
        *self.slots.get(instance as usize)?
    }

    // How many instances stand.
    pub(crate) fn instances(&self) -> u32
        ensures { result ≡ instances 256 (config_of self.now) }
    {
        self.count
    }

    // How many bindings stand.
    pub(crate) fn bindings(&self) -> u32
        ensures { result ≡ bindings 32 256 (config_of self.now) }
    {
        self.bindings
    }

    // The rows that are in use.
    fn used_rows(&self) -> &[Row]
        ensures { result.now ≡ take self.now.len self.now.rows }
    {
        &self.rows[..self.len]
    }

    // Where a row of this rank stands, or would stand.
    fn place_of(&self, rank: u32) -> usize
        ensures { Place self.now.rows self.now.len rank result }
    {
        self.used_rows().partition_point(|row| row.rank() < rank)
    }

    // Whether the binding stands.
    #[tactic(auto, using(crate::proofs::RowSearch::held_found, crate::proofs::RowSearch::held_within))]
    pub(crate) fn is_bound(&self, binding: Binding) -> bool
        ensures { result ≡ (config_of self.now).bound binding.port binding.provider binding.requirer }
    {
        if binding.port > 31 || binding.provider > 255 || binding.requirer > 255 {
            return false;
        }
        let rank = Row::of(binding).rank();
        let place = self.place_of(rank);
        self.used_rows()
            .get(place)
            .is_some_and(|row| row.rank() == rank && row.ports.has(binding.port))
    }

    // Whether some binding has this instance as its provider.
    #[tactic(auto, using(crate::proofs::RowSearch::provider_beyond, crate::proofs::RowSearch::provider_found))]
    pub(crate) fn is_provider(&self, instance: u32) -> bool
        ensures { result ≡ provider_test (config_of self.now) instance }
    {
        if instance > 255 {
            return false;
        }
        let place = self.place_of(instance * 256);
        self.used_rows()
            .get(place)
            .is_some_and(|row| row.starts_at(instance))
    }

    // The rows of the provider.
    #[tactic(auto, using(crate::proofs::RowSearch::rows_between))]
    pub(crate) fn rows_from(&self, instance: u32) -> &[Row]
        requires { instance < 256 }
        ensures { RowsFrom (config_of self.now) instance result.now }
    {
        let first = self.place_of(instance * 256);
        let end = self.place_of((instance + 1) * 256);
        &self.rows[first..end]
    }

    // An instance of the type, in its state 0.
    #[tactic(auto, using(crate::proofs::Performed::count_most, crate::proofs::Performed::created, crate::proofs::Performed::created_fit))]
    pub(crate) fn create(&mut self, instance: u32, kind: u8)
        requires { (instance < 256) × (stands ((config_of self.old).inst instance) ≡ false) }
        ensures { config_of self.new ≡ result_of (Create instance kind) (config_of self.old) }
    {
        self.slots[instance as usize] = Some(Pair { kind, state: 0 });
        self.count += 1;
    }

    // What stands under the number is in the state.
    #[tactic(auto, using(crate::proofs::Performed::changed, crate::proofs::Performed::changed_fit))]
    pub(crate) fn change(&mut self, instance: u32, state: u8)
        requires { instance < 256 }
        ensures { config_of self.new ≡ result_of (Change instance state) (config_of self.old) }
    {
        let place = instance as usize;
        self.slots[place] = self.slots[place].map(|pair| Pair { state, ..pair });
    }

    // A binding more.
    pub(crate) fn bind(&mut self, binding: Binding)
        requires range { (binding.port < 32) × (binding.provider < 256) × (binding.requirer < 256) }
        requires room { bindings 32 256 (config_of self.old) < 2048 }
        requires unbound { (config_of self.old).bound binding.port binding.provider binding.requirer ≡ false }
        ensures { config_of self.new ≡ result_of (Bind binding) (config_of self.old) }
    {
        let place = self.place_of(Row::of(binding).rank());
        self.len = put_in(&mut self.rows, self.len, place, binding);
        self.bindings += 1;
    }

    // A binding less.
    pub(crate) fn unbind(&mut self, binding: Binding)
        requires range { (binding.port < 32) × (binding.provider < 256) × (binding.requirer < 256) }
        requires bound { (config_of self.old).bound binding.port binding.provider binding.requirer ≡ true }
        ensures { config_of self.new ≡ result_of (Unbind binding) (config_of self.old) }
    {
        let place = self.place_of(Row::of(binding).rank());
        self.len = take_out(&mut self.rows, self.len, place, binding);
        self.bindings -= 1;
    }

    // An instance less, and with it the bindings of which it is the requirer.
    #[tactic(auto, using(crate::proofs::Performed::count_some, crate::proofs::Performed::deleted))]
    pub(crate) fn delete(&mut self, instance: u8)
        requires { stands ((config_of self.old).inst instance) ≡ true }
        ensures { config_of self.new ≡ result_of (Delete instance) (config_of self.old) }
    {
        self.slots[usize::from(instance)] = None;
        self.count -= 1;
        let left = keep_others(&mut self.rows, self.len, instance);
        self.len = left.len;
        self.bindings -= left.dropped;
    }

    // The work of an order.
    pub(crate) fn perform(&mut self, order: Order)
        requires { Able (config_of self.old) order }
        ensures { config_of self.new ≡ result_of order (config_of self.old) }
    {
        match order {
            Order::Create { instance, kind } => self.create(instance, kind as u8),
            Order::Bind(binding) => self.bind(binding),
            Order::Change { instance, state } => self.change(instance, state as u8),
            Order::Unbind(binding) => self.unbind(binding),
            Order::Delete { instance } => self.delete(instance as u8),
        }
    }
}
