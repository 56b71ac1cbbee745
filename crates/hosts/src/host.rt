// A host: a survey that also takes orders.
ghost use Rattle.std.specs.Prelude.{◌≡◌};
ghost use Rattle.model.specs.declared.order.Order.{Order};
ghost use Rattle.model.specs.declared.order.Order.TheVariants.{Create, Bind, Change, Unbind, Delete};
ghost use Rattle.hosts.specs.Service.{Sane, Service};
ghost use Rattle.hosts.specs.Answers.{Answer, Gives};

use crate::load::Load;
use crate::refusal::Refusal;
use crate::survey::Survey;
use model::binding::Binding;
use model::order::Order;

pub trait Host: Survey {
    // Waits, allowances, longest wait, watchful and height.
    ghost service: { Self → Service };

    // Waits are up to the longest wait, and the height is up to 255.
    ghost sane: { (x : Self) → Sane (service x) };

    // Just what this host does with an order, in its own terms: it may fix what the relation of hosts leaves free.
    ghost does: { Order → Self → Self → Answer → Type 0 };

    // What orders move: how many are put off, and what is allowed.
    fn load(&self) -> Load
        ensures { result ≡ (service self.now).load };

    // The longest wait.
    fn longest_wait(&self) -> u32
        ensures { result ≡ (service self.now).profile.longest };

    // Whether changes and unbinds that leave a gap are refused.
    fn is_watchful(&self) -> bool
        ensures { result ≡ (service self.now).profile.watchful };

    // Of a cloud 0, and of a layer one more than of the host below it, up to 255.
    fn height(&self) -> u8
        ensures { result ≡ (service self.now).profile.height };

    // The five orders. A rule of the project gives a host a method for each, with its contract; `give` below takes any.
    fn create(&mut self, instance: u32, kind: u32) -> Result<(), Refusal>
        ensures answered { Gives Self.Survey.situation service (Create instance kind) self.old self.new result }
        ensures exact { does (Create instance kind) self.old self.new result };

    fn bind(&mut self, binding: Binding) -> Result<(), Refusal>
        ensures answered { Gives Self.Survey.situation service (Bind binding) self.old self.new result }
        ensures exact { does (Bind binding) self.old self.new result };

    fn change(&mut self, instance: u32, state: u32) -> Result<(), Refusal>
        ensures answered { Gives Self.Survey.situation service (Change instance state) self.old self.new result }
        ensures exact { does (Change instance state) self.old self.new result };

    fn unbind(&mut self, binding: Binding) -> Result<(), Refusal>
        ensures answered { Gives Self.Survey.situation service (Unbind binding) self.old self.new result }
        ensures exact { does (Unbind binding) self.old self.new result };

    fn delete(&mut self, instance: u32) -> Result<(), Refusal>
        ensures answered { Gives Self.Survey.situation service (Delete instance) self.old self.new result }
        ensures exact { does (Delete instance) self.old self.new result };
}

// Gives the host an order.
pub fn give<B: Host>(host: &mut B, order: Order) -> Result<(), Refusal>
    ensures answered { Gives B.Survey.situation B.service order host.old host.new result }
    ensures exact { B.does order host.old host.new result }
{
    match order {
        Order::Create { instance, kind } => host.create(instance, kind),
        Order::Bind(binding) => host.bind(binding),
        Order::Change { instance, state } => host.change(instance, state),
        Order::Unbind(binding) => host.unbind(binding),
        Order::Delete { instance } => host.delete(instance),
    }
}
