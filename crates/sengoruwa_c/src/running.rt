// A run of a draft on a host: checked, started, stepped and finished.
ghost use Rattle.std.specs.Prelude.{◌≡◌, IfErr, IfOk};
ghost use Rattle.checking.specs.Checking.{lines_checked};
ghost use Rattle.executor.specs.Stages.{lines_of};
ghost use Rattle.executor.specs.Steps.{running};
ghost use Rattle.sengoruwa_c.specs.Refusals.{done_of};
ghost use Rattle.sengoruwa_c.specs.Runs.{RanOn, Stepped, ended_told};

use crate::filling::fill_standing;
use crate::numbers::step_number;
use crate::records::Ended;
use checking::check::check;
use checking::refusal::CheckRefusal;
use checking::stages::Draft;
use executor::stages::{Finished, RunningPlan, Ticket};
use executor::steps::{finish, start, step};
use hosts::host::Host;

// Takes a step for each place of the answers, and writes there what it answers.
fn step_all<B: Host>(
    plan: &mut RunningPlan<'_>,
    ticket: &mut Ticket,
    host: &mut B,
    answers: &mut [u32],
)
    ensures { Stepped B.Survey.situation B.service B.does (lines_of plan.old) (running host.old plan.old ticket.old) (running host.new plan.new ticket.new) answers.old answers.new }
{
    for answer in answers.iter_mut() {
        *answer = step_number(step(plan, ticket, host));
    }
}

// Where a run was finished, and what the host then tells of itself.
fn ended_of<B: Host>(host: &B, finished: Finished) -> Ended
    ensures { result ≡ ended_told finished.place finished.leases (B.Survey.situation host.now) (B.service host.now).load }
{
    let load = host.load();
    Ended {
        place: finished.place as u64,
        leases: finished.leases,
        instances: u64::from(host.instances()),
        bindings: u64::from(host.bindings()),
        waits: u64::from(load.waits),
        creations: u64::from(load.creations),
        binds: u64::from(load.bindings),
    }
}

// Checks the lines against the host, starts, takes a step for each place of the answers, tells what stands, and finishes.
pub fn run_on<B: Host>(
    host: &mut B,
    lines: &[u32],
    answers: &mut [u32],
    standing: &mut [u32],
) -> Result<Ended, CheckRefusal>
    ensures answer { done_of result ≡ lines_checked (B.Survey.situation host.old) lines.now }
    ensures unchanged { IfErr result (λ _. (answers.new ≡ answers.old) × (standing.new ≡ standing.old)) }
    ensures ran { IfOk result (λ e. RanOn B.Survey.situation B.service B.does lines.now host.old host.new answers.old answers.new standing.old standing.new e) }
{
    let plan = check(Draft { lines }, host)?;
    // What passed the check just before is never refused so.
    let (mut plan, mut ticket) = start(plan, host).map_err(|_| CheckRefusal::NotEmpty)?;
    step_all(&mut plan, &mut ticket, host, answers);
    fill_standing(host, standing);
    Ok(ended_of(host, finish(plan, ticket)))
}
