// The simulated cloud.
#![tactic(auto)]

ghost use Rattle.std.specs.Prelude.{◌≡◌, min};
ghost use Rattle.std.proofs.Common.{lit≤};
ghost use Rattle.model.specs.Config.{empty};
ghost use Rattle.universe.specs.Held.{universe_in};
ghost use Rattle.hosts.specs.Answers.{Gives};
ghost use Rattle.table.specs.Table.{lawful_of};
ghost use Rattle.cloud.specs.Cloud.{CloudTakes, cloud_of, cloud_service, cloud_situation};

mod state;

pub use crate::state::Cloud;
use hosts::host::Host;
use hosts::load::Load;
use hosts::refusal::{Reason, Refusal};
use hosts::survey::Survey;
use model::binding::Binding;
use model::order::Order;
use model::pair::Pair;
use table::limits::Limits;
use table::table::Table;
use universe::held::Universe;

// A refusal by the cloud, which stands at the bottom.
fn at_bottom(reason: Reason) -> Refusal
    ensures { result ≡ record { reason = reason; height = 0 } }
{
    Refusal { reason, height: 0 }
}

impl Cloud {
    // An empty cloud of the universe. Limits above 256 and 2048 and delays above 8 count as these.
    pub fn open(universe: Universe, limits: Limits, delay: u32) -> Self
        ensures { cloud_of result ≡ record { held = record { situation = record { universe = universe_in universe; config = empty }; limits = record { instances = min limits.instances 256; bindings = min limits.bindings 2048 } }; waits = min delay 8; delay = min delay 8 } }
    {
        let delay = delay.min(8);
        Cloud {
            table: Table::open(universe, limits),
            waits: delay,
            delay,
        }
    }

    // Serves an order: puts it off, or gives it to the table.
    fn serve(&mut self, order: Order) -> Result<(), Refusal>
        ensures { CloudTakes order self.old self.new result }
    {
        if self.waits > 0 {
            self.waits -= 1;
            return Err(at_bottom(Reason::Busy));
        }
        self.waits = self.delay;
        self.table.apply(order).map_err(at_bottom)
    }

    // Takes an order: what is served is what a host answers.
    #[tactic(auto, using(crate::proofs::Serving::served))]
    fn take(&mut self, order: Order) -> Result<(), Refusal>
        ensures answered { Gives cloud_situation cloud_service order self.old self.new result }
        ensures exact { CloudTakes order self.old self.new result }
    {
        self.serve(order)
    }
}

impl Survey for Cloud {
    ghost situation = { cloud_situation };

    ghost lawful = { λ s. lawful_of s.table };

    fn universe(&self) -> &Universe {
        self.table.universe()
    }

    fn at(&self, instance: u32) -> Option<Pair> {
        self.table.at(instance)
    }

    fn is_bound(&self, binding: Binding) -> bool {
        self.table.is_bound(binding)
    }

    fn instances(&self) -> u32 {
        self.table.instances()
    }

    fn bindings(&self) -> u32 {
        self.table.bindings()
    }

    fn covers(&self, port: u32, requirer: u32) -> u32 {
        self.table.covers(port, requirer)
    }
}

impl Host for Cloud {
    ghost service = { cloud_service };

    ghost sane = { λ s. record { waits = s.bounds; height = lit≤ tt } };

    ghost does = { CloudTakes };

    fn load(&self) -> Load {
        Load {
            waits: self.waits,
            creations: self.table.creation_allowance(),
            bindings: self.table.binding_allowance(),
        }
    }

    fn longest_wait(&self) -> u32 {
        self.delay
    }

    fn is_watchful(&self) -> bool {
        false
    }

    fn height(&self) -> u8 {
        0
    }

    // The work of the five orders is one, `take`.
    fn create(&mut self, instance: u32, kind: u32) -> Result<(), Refusal> {
        self.take(Order::Create { instance, kind })
    }

    fn bind(&mut self, binding: Binding) -> Result<(), Refusal> {
        self.take(Order::Bind(binding))
    }

    fn change(&mut self, instance: u32, state: u32) -> Result<(), Refusal> {
        self.take(Order::Change { instance, state })
    }

    fn unbind(&mut self, binding: Binding) -> Result<(), Refusal> {
        self.take(Order::Unbind(binding))
    }

    fn delete(&mut self, instance: u32) -> Result<(), Refusal> {
        self.take(Order::Delete { instance })
    }
}
