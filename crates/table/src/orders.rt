// The table is a survey, and takes the orders that no rule refuses.
ghost use Rattle.std.specs.Prelude.{◌≡◌, min, None};
ghost use Rattle.model.specs.Config.{empty};
ghost use Rattle.universe.specs.Held.{universe_in};
ghost use Rattle.hosts.specs.Offences.{delete_offence_of, offence as offence_of};
ghost use Rattle.hosts.specs.Answers.{full_test};
ghost use Rattle.table.specs.Table.{applied, held_of, lawful_of, load_of, situation_of, table_rule, told};

use crate::covers::Covers;
use crate::limits::Limits;
use crate::records::Records;
use crate::table::Table;
use hosts::refusal::{Offence, Reason};
use hosts::survey::Survey;
use model::binding::Binding;
use model::order::Order;
use model::pair::Pair;
use rules::legality::{bind_offence, change_offence, create_offence, is_standing, unbind_offence};
use universe::held::Universe;

impl Survey for Table {
    ghost situation = { situation_of };

    ghost lawful = { lawful_of };

    fn universe(&self) -> &Universe {
        &self.universe
    }

    fn at(&self, instance: u32) -> Option<Pair> {
        self.records.at(instance)
    }

    fn is_bound(&self, binding: Binding) -> bool {
        self.records.is_bound(binding)
    }

    fn instances(&self) -> u32 {
        self.records.instances()
    }

    fn bindings(&self) -> u32 {
        self.records.bindings()
    }

    #[tactic(auto, using(crate::proofs::Covered::counted_within))]
    fn covers(&self, port: u32, requirer: u32) -> u32 {
        self.covers.at(port, requirer)
    }
}

impl Table {
    // An empty table of the universe, with these limits; larger ones count as the largest, 256 and 2048.
    #[tactic(auto, using(crate::proofs::Covered::none_counted))]
    pub fn open(universe: Universe, limits: Limits) -> Self
        ensures { held_of result ≡ record { situation = record { universe = universe_in universe; config = empty }; limits = record { instances = min limits.instances 256; bindings = min limits.bindings 2048 } } }
    {
        let limits = Limits {
            instances: limits.instances.min(256),
            bindings: limits.bindings.min(2048),
        };
        Table {
            universe,
            records: Records::empty(),
            covers: Covers::none(),
            limits,
        }
    }

    // How many instances may still be created.
    pub fn creation_allowance(&self) -> u32
        ensures { result ≡ (load_of 0 (held_of self.now)).creations }
    {
        self.limits.instances.saturating_sub(self.instances())
    }

    // How many bindings may still be made.
    pub fn binding_allowance(&self) -> u32
        ensures { result ≡ (load_of 0 (held_of self.now)).bindings }
    {
        self.limits.bindings.saturating_sub(self.bindings())
    }

    // The first offence of a delete.
    fn delete_offence(&self, instance: u32) -> Option<Offence>
        ensures { result ≡ delete_offence_of (situation_of self.now) instance }
    {
        if instance > 255 {
            return Some(Offence::OutOfRange);
        }
        if !is_standing(self, instance) {
            return Some(Offence::NotStanding);
        }
        if self.records.is_provider(instance) {
            return Some(Offence::Provider);
        }
        None
    }

    // The first offence of the order.
    fn offence(&self, order: Order) -> Option<Offence>
        ensures { result ≡ offence_of order (situation_of self.now) }
    {
        match order {
            Order::Create { instance, kind } => create_offence(self, instance, kind),
            Order::Bind(binding) => bind_offence(self, binding),
            Order::Change { instance, state } => change_offence(self, instance, state),
            Order::Unbind(binding) => unbind_offence(self, binding),
            Order::Delete { instance } => self.delete_offence(instance),
        }
    }

    // Whether the limits leave no room for the order.
    fn is_full(&self, order: Order) -> bool
        ensures { result ≡ full_test order (load_of 0 (held_of self.now)) }
    {
        match order {
            Order::Create { .. } => self.creation_allowance() == 0,
            Order::Bind(_) => self.binding_allowance() == 0,
            Order::Change { .. } | Order::Unbind(_) | Order::Delete { .. } => false,
        }
    }

    // Lets the order pass, or tells why not: its first offence, or that the limits leave no room for it.
    #[tactic(auto, unfolding(crate::specs::Table::table_rule))]
    fn permit(&self, order: Order) -> Result<(), Reason>
        ensures { result ≡ told (table_rule order (held_of self.now)) }
    {
        if let Some(offence) = self.offence(order) {
            return Err(Reason::Illegal(offence));
        }
        if self.is_full(order) {
            return Err(Reason::Full);
        }
        Ok(())
    }

    // The work of an order that no rule refuses.
    fn perform(&mut self, order: Order)
        requires { table_rule order (held_of self.old) ≡ None }
        ensures { held_of self.new ≡ applied order None (held_of self.old) }
    {
        self.covers.perform(&self.universe, &self.records, order);
        self.records.perform(order);
    }

    // Applies the order, or tells why not: its first offence, or that the limits leave no room for it.
    pub fn apply(&mut self, order: Order) -> Result<(), Reason>
        ensures answer { result ≡ told (table_rule order (held_of self.old)) }
        ensures held { held_of self.new ≡ applied order (table_rule order (held_of self.old)) (held_of self.old) }
    {
        self.permit(order)?;
        self.perform(order);
        Ok(())
    }
}
