// What the command `host` prints of the orders that it gives, made from values.
#![tactic(auto)]

ghost use Rattle.std.specs.Prelude.{◌≡◌, IfOk, string_bytes};
ghost use Rattle.hosting.specs.Hosting.{Reported, Told, answer_text_of, end_line_of, order_line_of, stands_text_of, survey_line};

use hosts::host::{Host, give};
use hosts::load::Load;
use hosts::refusal::Refusal;
use hosts::survey::Survey;
use model::order::Order;
use rules::gaps::{Prospect, find_gap};
use std::alloc::{AllocError, Global};

// A host's answer to an order: `done`, or `refused N by HEIGHT`.
pub fn answer_text(alloc: Global, answer: Result<(), Refusal>) -> Result<String, AllocError>
    ensures { IfOk result (λ s. string_bytes s ≡ answer_text_of answer) }
{
    match answer {
        Ok(()) => String::from_str(alloc, "done"),
        Err(refusal) => format!(in alloc; "refused {refusal}"),
    }
}

// The line of an order: its written form, the answer to it, and the load after it.
pub fn order_line(
    alloc: Global,
    order: Order,
    answer: Result<(), Refusal>,
    load: Load,
) -> Result<String, AllocError>
    ensures { IfOk result (λ s. string_bytes s ≡ order_line_of order answer load) }
{
    let answer = answer_text(alloc, answer)?;
    format!(in alloc; "{order}: {answer} {load}\n")
}

// Gives the host the order, and makes the line that tells of it.
pub fn order_report<B: Host>(
    alloc: Global,
    host: &mut B,
    order: Order,
) -> Result<String, AllocError>
    ensures { IfOk result (λ s. Told B.Survey.situation B.service B.does order host.old host.new (string_bytes s)) }
{
    let answer = give(host, order);
    order_line(alloc, order, answer, host.load())
}

// What stands: how much, and whether it is gap-free.
pub fn stands_text(
    alloc: Global,
    instances: u32,
    bindings: u32,
    gap_free: bool,
) -> Result<String, AllocError>
    ensures { IfOk result (λ s. string_bytes s ≡ stands_text_of instances bindings gap_free) }
{
    let gap_free = if gap_free { "yes" } else { "no" };
    format!(in alloc; "instances {instances}, bindings {bindings}, gap-free {gap_free}")
}

// The last line: what stands.
pub fn end_line(
    alloc: Global,
    instances: u32,
    bindings: u32,
    gap_free: bool,
) -> Result<String, AllocError>
    ensures { IfOk result (λ s. string_bytes s ≡ end_line_of instances bindings gap_free) }
{
    let stands = stands_text(alloc, instances, bindings, gap_free)?;
    format!(in alloc; "{stands}\n")
}

// The last line for what a survey tells.
pub fn end_report<S: Survey>(alloc: Global, survey: &S) -> Result<String, AllocError>
    ensures { IfOk result (λ s. string_bytes s ≡ survey_line (S.situation survey.now)) }
{
    let gap_free = find_gap(survey, Prospect::Present).is_none();
    end_line(alloc, survey.instances(), survey.bindings(), gap_free)
}

// Gives the host the orders one by one, and makes the lines that tell of them and the last line.
pub fn host_report<B: Host>(
    alloc: Global,
    host: &mut B,
    orders: &[Order],
) -> Result<String, AllocError>
    ensures { IfOk result (λ s. Reported B.Survey.situation B.service B.does orders.now host.old host.new (string_bytes s)) }
{
    let mut text = String::new(alloc);
    for order in orders {
        text.push_str(&order_report(alloc, host, *order)?)?;
    }
    text.push_str(&end_report(alloc, host)?)?;
    Ok(text)
}
