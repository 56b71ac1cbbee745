// The whole run of a request on a host.
ghost use Rattle.std.specs.Prelude.{◌≡◌, IfErr, IfOk, length};
ghost use Rattle.hosts.specs.Answers.{meaning};
ghost use Rattle.checking.specs.Checking.{lines_checked};
ghost use Rattle.executor.specs.Stages.{lines_of};
ghost use Rattle.executor.specs.Steps.{Takes, order_at, running};
ghost use Rattle.runs.specs.Refusals.{OutOfReachUnless, RunUnless, lines_run, list_left, refusal_of, run_refusal, script_refusal};
ghost use Rattle.runs.specs.Promise.{Promised};
ghost use Rattle.runs.specs.Taken.{Acted, IsPlanned, RanOver, request_refusal};

use crate::request::{Act, Action, Ran, Request, RunRefusal};
use checking::check::check;
use checking::stages::Draft;
use executor::fault::StepFault;
use executor::stages::{Finished, RunningPlan, Ticket};
use executor::steps::{finish, start, step};
use hosts::host::Host;
use planner::plan::plan;

// Takes the action.
fn act<B: Host>(
    plan: &mut RunningPlan<'_>,
    ticket: &mut Ticket,
    host: &mut B,
    action: Action,
) -> Result<(), StepFault>
    ensures taken { Takes B.Survey.situation B.service B.does (order_at (lines_of plan.old) plan.old.place) (running host.old plan.old ticket.old) result (running host.new plan.new ticket.new) }
    ensures plan { plan.new.plan ≡ plan.old.plan }
{
    match action {
        Action::Step => step(plan, ticket, host),
    }
}

// Takes the actions one after the other, each with its answer into its place.
fn act_all<B: Host>(plan: &mut RunningPlan<'_>, ticket: &mut Ticket, host: &mut B, acts: &mut [Act])
    ensures acted { Acted B.Survey.situation B.service B.does (lines_of plan.old) (running host.old plan.old ticket.old) (running host.new plan.new ticket.new) acts.old acts.new }
{
    for entry in acts.iter_mut() {
        entry.answer = Some(act(plan, ticket, host, entry.action));
    }
}

// Checks the lines, starts, acts and finishes.
fn run_lines<B: Host>(host: &mut B, lines: &[u32], acts: &mut [Act]) -> Result<Ran, RunRefusal>
    ensures refused { refusal_of result ≡ script_refusal (lines_checked (B.Survey.situation host.old) lines.now) }
    ensures unchanged { IfErr result (λ _. (host.new ≡ host.old) × (acts.new ≡ acts.old)) }
    ensures ran { IfOk result (λ r. RanOver B.Survey.situation B.service B.does lines.now host.old host.new acts.old acts.new r) }
{
    let plan = check(Draft { lines }, host)?;
    let (mut plan, mut ticket) = start(plan, host)?;
    act_all(&mut plan, &mut ticket, host, acts);
    let Finished { place, leases } = finish(plan, ticket);
    Ok(Ran {
        lines: lines.len(),
        place,
        leases,
    })
}

// Plans a goal into the list, and runs the lines. This is the work of `run`, apart from what it means, so that it is proved
// with no proof file.
fn run_request<B: Host>(
    host: &mut B,
    request: Request<'_>,
    list: &mut [u32],
    acts: &mut [Act],
) -> Result<Ran, RunRefusal>
    ensures refused { refusal_of result ≡ request_refusal (B.Survey.situation host.old) request.entry list.old }
    ensures list { list.new ≡ list_left (B.Survey.situation host.old).universe request.entry list.old }
    ensures unchanged { IfErr result (λ _. (host.new ≡ host.old) × (acts.new ≡ acts.old)) }
    ensures ran { IfOk result (λ r. RanOver B.Survey.situation B.service B.does (lines_run request.entry list.new r.lines) host.old host.new acts.old acts.new r) }
    ensures planned { IfOk result (λ r. IsPlanned (B.Survey.situation host.old).universe request.entry (length list.old) r.lines) }
{
    match request {
        Request::Goal(goal) => {
            let lines = plan(host.universe(), goal, list)?;
            run_lines(host, &list[..lines], acts)
        }
        Request::Script(lines) => run_lines(host, lines, acts),
    }
}

// Runs the request on the host: plans a goal into the list, checks the lines, starts, takes the actions, each with its
// answer into its place, and finishes, wherever the run then stands. On a refusal host and actions stay as they were, and
// the list is as planning leaves it.
pub fn run<B: Host>(
    host: &mut B,
    request: Request<'_>,
    list: &mut [u32],
    acts: &mut [Act],
) -> Result<Ran, RunRefusal>
    ensures refused { refusal_of result ≡ run_refusal (B.Survey.situation host.old) request.entry (length list.old) }
    ensures reach { OutOfReachUnless (B.Survey.situation host.old).universe request.entry (refusal_of result) }
    ensures unless { RunUnless (B.Survey.situation host.old) request.entry (length list.old) result }
    ensures list { list.new ≡ list_left (B.Survey.situation host.old).universe request.entry list.old }
    ensures unchanged { IfErr result (λ _. (host.new ≡ host.old) × (acts.new ≡ acts.old)) }
    ensures ran { IfOk result (λ r. RanOver B.Survey.situation B.service B.does (lines_run request.entry list.new r.lines) host.old host.new acts.old acts.new r) }
    ensures promise { IfOk result (λ r. Promised request.entry (meaning (B.Survey.situation host.old) (B.service host.old)) (meaning (B.Survey.situation host.new) (B.service host.new)) list.new acts.old acts.new r) }
{
    run_request(host, request, list, acts)
}
