// The lines of steps, and the last line.
ghost use Rattle.std.specs.Prelude.{◌≡◌, ◌+◌, ◌^◌, ◌<◌, ◌≤◌, IfOk, string_bytes};
ghost use Rattle.executor.specs.Steps.{order_at};
ghost use Rattle.runs.specs.Promise.{answers_of};
ghost use Rattle.run_text.specs.Texts.{answer_text, answers_text, done_line_of, end_line_of, finish_text, met_text, place_after, step_line, survey_line};

use executor::fault::StepFault;
use executor::steps::order_at;
use hosting::stands_text;
use hosts::survey::Survey;
use model::order::Order;
use rules::gaps::{Prospect, find_gap};
use runs::request::{Act, Ran};
use std::alloc::{AllocError, Global};

// The line of a step that was done: `PLACE ORDER: done`.
fn done_line(alloc: Global, place: usize, order: Option<Order>) -> Result<String, AllocError>
    ensures { IfOk result (λ s. string_bytes s ≡ done_line_of place order) }
{
    match order {
        Some(order) => format!(in alloc; "{place} {order}: done\n"),
        None => format!(in alloc; "{place}: done\n"),
    }
}

// The line of a step that was taken at the place: `PLACE ORDER: done`, `PLACE ORDER: refused N by HEIGHT`, or
// `PLACE: refused 52`.
fn step_line(
    alloc: Global,
    lines: &[u32],
    place: usize,
    answer: Result<(), StepFault>,
) -> Result<String, AllocError>
    ensures { IfOk result (λ s. string_bytes s ≡ step_line (order_at lines.now) place answer) }
{
    match answer {
        Ok(()) => done_line(alloc, place, order_at(lines, place)),
        Err(StepFault::NoLine) => format!(in alloc;
            "{place}: refused {}\n",
            StepFault::NoLine.number()
        ),
        Err(
            StepFault::Refused {
                place,
                order,
                refusal,
            },
        ) => format!(in alloc; "{place} {order}: refused {refusal}\n"),
    }
}

// The line of the answer to an action, if there is one.
fn answer_line(
    alloc: Global,
    lines: &[u32],
    place: usize,
    answer: Option<Result<(), StepFault>>,
) -> Result<String, AllocError>
    ensures { IfOk result (λ s. string_bytes s ≡ answer_text (order_at lines.now) place answer) }
{
    match answer {
        Some(answer) => step_line(alloc, lines, place, answer),
        None => Ok(String::new(alloc)),
    }
}

// The place after an answer: one further where the step was done.
fn next_place(place: usize, answer: Option<Result<(), StepFault>>) -> usize
    requires { place < 2 ^ 63 }
    ensures value { result ≡ place_after place answer }
    ensures near { result ≤ place + 1 }
{
    match answer {
        Some(Ok(())) => place + 1,
        Some(Err(_)) | None => place,
    }
}

// The lines of the answers to actions, from the first line on.
pub fn answer_lines(alloc: Global, lines: &[u32], acts: &[Act]) -> Result<String, AllocError>
    ensures { IfOk result (λ s. string_bytes s ≡ answers_text (order_at lines.now) 0 (answers_of acts.now)) }
{
    let mut text = String::new(alloc);
    let mut place = 0;
    for act in acts {
        text.push_str(&answer_line(alloc, lines, place, act.answer)?)?;
        place = next_place(place, act.answer);
    }
    Ok(text)
}

// Whether a goal is met, as the last line has it.
fn met_text(met: Option<bool>) -> &'static str
    ensures { result.now ≡ met_text met }
{
    match met {
        None => "",
        Some(true) => ", goal met",
        Some(false) => ", goal not met",
    }
}

// Where a run was finished: `place P of N, leases L`.
fn finish_text(alloc: Global, ran: Ran) -> Result<String, AllocError>
    ensures { IfOk result (λ s. string_bytes s ≡ finish_text ran) }
{
    let Ran {
        lines,
        place,
        leases,
    } = ran;
    format!(in alloc; "place {place} of {lines}, leases {leases}")
}

// The last line: where the run was finished, what stands, and with a goal whether it is met.
fn end_line(
    alloc: Global,
    ran: Ran,
    instances: u32,
    bindings: u32,
    gap_free: bool,
    met: Option<bool>,
) -> Result<String, AllocError>
    ensures { IfOk result (λ s. string_bytes s ≡ end_line_of ran instances bindings gap_free met) }
{
    let finish = finish_text(alloc, ran)?;
    let stands = stands_text(alloc, instances, bindings, gap_free)?;
    let met = met_text(met);
    format!(in alloc; "{finish}, {stands}{met}\n")
}

// The last line, of what a survey tells.
pub fn end_report<S: Survey>(
    alloc: Global,
    survey: &S,
    ran: Ran,
    met: Option<bool>,
) -> Result<String, AllocError>
    ensures { IfOk result (λ s. string_bytes s ≡ survey_line (S.situation survey.now) ran met) }
{
    let gap_free = find_gap(survey, Prospect::Present).is_none();
    end_line(
        alloc,
        ran,
        survey.instances(),
        survey.bindings(),
        gap_free,
        met,
    )
}
