// Running a request, and what is printed of it.
ghost use Rattle.std.specs.Prelude.{◌≡◌, IfOk, length, string_bytes};
ghost use Rattle.std.specs.Bool.{⊤};
ghost use Rattle.console.specs.Told.{IfTold};
ghost use Rattle.executor.specs.Steps.{order_at};
ghost use Rattle.runs.specs.Promise.{answers_of};
ghost use Rattle.runs.specs.Refusals.{list_left};
ghost use Rattle.run_text.specs.Reports.{Reported, RefusedWith, met_of, refused_text, run_text};

use crate::texts::{answer_lines, end_report};
use console::failure::Failure;
use hosts::host::Host;
use hosts::survey::Survey;
use runs::goals::is_met;
use runs::request::{Act, Ran, Request, RunRefusal};
use runs::run::run;
use std::alloc::{AllocError, Global};

// Of a goal, whether it is met.
fn goal_met<S: Survey>(survey: &S, request: Request<'_>) -> Option<bool>
    ensures { result ≡ met_of request.entry (S.situation survey.now) }
{
    match request {
        Request::Goal(goal) => Some(is_met(survey, goal)),
        Request::Script(_) => None,
    }
}

// The line of a refused request.
fn refused_line(alloc: Global, refusal: RunRefusal) -> Result<String, AllocError>
    ensures { IfOk result (λ s. string_bytes s ≡ refused_text refusal) }
{
    format!(in alloc; "refused {refusal}\n")
}

// The lines of a run that was finished: those of its steps, and the last line.
fn run_text<S: Survey>(
    alloc: Global,
    survey: &S,
    request: Request<'_>,
    lines: &[u32],
    acts: &[Act],
    ran: Ran,
) -> Result<String, AllocError>
    ensures { IfOk result (λ s. string_bytes s ≡ run_text (order_at lines.now) (answers_of acts.now) request.entry (S.situation survey.now) ran) }
{
    let mut text = answer_lines(alloc, lines, acts)?;
    let met = goal_met(survey, request);
    text.push_str(&end_report(alloc, survey, ran, met)?)?;
    Ok(text)
}

// Runs the request on the host, and makes the lines that tell of it; or the line of its refusal, which leaves host and
// actions as they were.
pub fn run_report<B: Host>(
    alloc: Global,
    host: &mut B,
    request: Request<'_>,
    list: &mut [u32],
    acts: &mut [Act],
) -> Result<String, Failure<String>>
    ensures told { IfTold result (λ s. Reported B.Survey.situation B.service B.does request.entry host.old host.new list.old list.new acts.old acts.new (string_bytes s)) (λ s. RefusedWith (B.Survey.situation host.old) request.entry (length list.old) (string_bytes s)) }
    ensures list { list.new ≡ list_left (B.Survey.situation host.old).universe request.entry list.old }
    ensures unchanged { IfTold result (λ _. ⊤) (λ _. (host.new ≡ host.old) × (acts.new ≡ acts.old)) }
{
    match run(host, request, list, acts) {
        Ok(ran) => {
            let lines = request.lines(list, ran.lines);
            Ok(run_text(alloc, host, request, lines, acts, ran)?)
        }
        Err(refusal) => Err(Failure::Refused(refused_line(alloc, refusal)?)),
    }
}
