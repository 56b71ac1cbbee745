// Starting, stepping and finishing.
ghost use Rattle.std.specs.Prelude.{◌≡◌, ◌+◌, ◌^◌, ◌<◌, IfErr, cond, false};
ghost use Rattle.std.specs.Option.{IfSome};
ghost use Rattle.hosts.specs.Answers.{Gives, is_done};
ghost use Rattle.executor.specs.Stages.{StartedUnless, finished, lines_of, started};
ghost use Rattle.executor.specs.Steps.{Takes, answer_at, counted, order_at, running, ticket_after};

use crate::fault::{StartRefusal, StepFault};
use crate::stages::{Finished, RunningPlan, Ticket};
use checking::check::is_empty;
use checking::stages::CheckedPlan;
use hosts::host::{Host, give};
use hosts::refusal::Refusal;
use hosts::survey::Survey;
use lines::decode;
use model::order::Order;

// The order of the line at the place; none where no line is left, or it tells none.
pub fn order_at(lines: &[u32], place: usize) -> Option<Order>
    ensures { result ≡ order_at lines.now place }
{
    decode(*lines.get(place)?).ok()
}

impl RunningPlan<'_> {
    // The order of the line at the place; none where no line is left.
    fn next_order(&self) -> Option<Order>
        ensures value { result ≡ order_at (lines_of self.now) self.now.place }
        ensures within { IfSome result (λ _. self.now.place < 2 ^ 63) }
    {
        order_at(self.lines(), self.place)
    }
}

impl Ticket {
    // Counts the bindings that an order made and ended, by whether it made one, and how many stood before and stand after it.
    fn count(&mut self, is_made: bool, before: u32, after: u32)
        ensures counted { self.new ≡ counted self.old is_made before after }
        ensures same { is_made ≡ false → before ≡ after → self.new ≡ self.old }
    {
        let made = u64::from(is_made);
        let ended = (u64::from(before) + made).saturating_sub(u64::from(after));
        self.made = self.made.saturating_add(made);
        self.ended = self.ended.saturating_add(ended);
    }
}

// Gives the host the order, and counts on the ticket what it made and ended.
fn give_counted<B: Host>(ticket: &mut Ticket, host: &mut B, order: Order) -> Result<(), Refusal>
    ensures answered { Gives B.Survey.situation B.service order host.old host.new result }
    ensures exact { B.does order host.old host.new result }
    ensures ticket { ticket.new ≡ ticket_after ticket.old order result (B.Survey.situation host.old) (B.Survey.situation host.new) }
    ensures refused { IfErr result (λ _. ticket.new ≡ ticket.old) }
{
    let before = host.bindings();
    let answer = give(host, order);
    let is_made = answer.is_ok() && matches!(order, Order::Bind(_));
    ticket.count(is_made, before, host.bindings());
    answer
}

// Gives the host the order of the line at the place, and moves on where it is done.
fn give_line<B: Host>(
    plan: &mut RunningPlan<'_>,
    ticket: &mut Ticket,
    host: &mut B,
    order: Order,
) -> Result<(), Refusal>
    requires within { plan.old.place < 2 ^ 63 }
    ensures answered { Gives B.Survey.situation B.service order host.old host.new result }
    ensures exact { B.does order host.old host.new result }
    ensures plan { plan.new.plan ≡ plan.old.plan }
    ensures place { plan.new.place ≡ plan.old.place + cond (is_done result) 1 0 }
    ensures ticket { ticket.new ≡ ticket_after ticket.old order result (B.Survey.situation host.old) (B.Survey.situation host.new) }
    ensures refused { IfErr result (λ _. (plan.new ≡ plan.old) × (ticket.new ≡ ticket.old)) }
{
    give_counted(ticket, host, order)?;
    plan.place += 1;
    Ok(())
}

// The answer of a step: with the host's refusal come the place and the order.
fn at_place(answer: Result<(), Refusal>, place: usize, order: Order) -> Result<(), StepFault>
    ensures { result ≡ answer_at place order answer }
{
    answer.map_err(|refusal| StepFault::Refused {
        place,
        order,
        refusal,
    })
}

// Starts the plan at its first line, where nothing stands in the host, and hands out the ticket. The host is asked as a
// survey, so it is given no order.
pub fn start<'a, S: Survey>(
    plan: CheckedPlan<'a>,
    host: &S,
) -> Result<(RunningPlan<'a>, Ticket), StartRefusal>
    ensures answer { result ≡ started (S.situation host.now) plan.entry }
    ensures law { StartedUnless (S.situation host.now) result }
{
    if !is_empty(host) {
        return Err(StartRefusal::NotEmpty);
    }
    Ok((RunningPlan { plan, place: 0 }, Ticket { made: 0, ended: 0 }))
}

// Gives the host the order of the line at the place, and no other; where it is done, the place moves by one. Where no line
// is left, the host is given none.
pub fn step<B: Host>(
    plan: &mut RunningPlan<'_>,
    ticket: &mut Ticket,
    host: &mut B,
) -> Result<(), StepFault>
    ensures taken { Takes B.Survey.situation B.service B.does (order_at (lines_of plan.old) plan.old.place) (running host.old plan.old ticket.old) result (running host.new plan.new ticket.new) }
    ensures plan { plan.new.plan ≡ plan.old.plan }
    ensures refused { IfErr result (λ _. (plan.new ≡ plan.old) × (ticket.new ≡ ticket.old)) }
{
    let place = plan.place;
    let order = plan.next_order().ok_or(StepFault::NoLine)?;
    at_place(give_line(plan, ticket, host, order), place, order)
}

// Finishes the run, at any place: takes plan and ticket back, and answers place and leases.
pub fn finish(plan: RunningPlan<'_>, ticket: Ticket) -> Finished
    ensures { result ≡ finished plan.entry ticket }
{
    let leases = ticket.leases();
    let Ticket { made: _, ended: _ } = ticket;
    Finished {
        place: plan.place,
        leases,
    }
}
