// Rows of drafts, which are checked against an empty host, or against a cloud in which something may stand.
use crate::host_rows::LARGEST;
use crate::rows::{Lack, report_text};
use crate::words::{word_bytes, word_lines};
use check_text::{answer_line, check_report};
use checking::check::check;
use checking::stages::Draft;
use cloud::Cloud;
use console::failure::Failure;
use console::report::read_universe;
use hosts::host::give;
use hosts::survey::Survey;
use layers::verifying::Verifying;
use lines::decode;
use std::alloc::{AllocError, Global};
use table::limits::Limits;
use universe::held::Universe;

// Limits that leave no room.
const NO_ROOM: Limits = Limits {
    instances: 0,
    bindings: 0,
};

// The check of the draft against the host, and what then stands in it.
fn checked_text<S: Survey>(alloc: Global, host: &S, draft: &[u32]) -> Result<String, AllocError> {
    let answer = check(Draft { lines: draft }, host).map(|_| ());
    let answer = report_text(answer_line(alloc, draft.len(), answer))?;
    let (instances, bindings) = (host.instances(), host.bindings());
    format!(in alloc; "{answer}instances {instances}, bindings {bindings}\n")
}

// The check of the draft against a cloud of the universe that was given the orders. Where there are none, it
// is a slow cloud with no room, under a layer: waits and allowances are not regarded.
fn cloud_text(
    alloc: Global,
    universe: Universe,
    orders: &[u32],
    draft: &[u32],
) -> Result<String, AllocError> {
    if orders.is_empty() {
        let host = Verifying::over(Cloud::open(universe, NO_ROOM, 8));
        return checked_text(alloc, &host, draft);
    }
    let mut cloud = Cloud::open(universe, LARGEST, 0);
    for line in orders {
        if let Ok(order) = decode(*line) {
            // A refused order changes nothing, and is passed over.
            let _ = give(&mut cloud, order);
        }
    }
    checked_text(alloc, &cloud, draft)
}

// What the check answers to a universe and a draft, which have a blank between them.
pub(crate) fn draft_text(alloc: Global, row: &str) -> Result<String, Failure<Lack>> {
    let (universe, draft) = row.split_once(" ").ok_or(Lack::Word)?;
    let universe = word_bytes(alloc, universe)?;
    let draft = word_lines(alloc, draft)?;
    Ok(report_text(check_report(alloc, &universe, &draft))?)
}

// What the check answers to a universe, the orders that a cloud of it is given first, and a draft, with blanks
// between them.
pub(crate) fn standing_text(alloc: Global, row: &str) -> Result<String, Failure<Lack>> {
    let (universe, rest) = row.split_once(" ").ok_or(Lack::Word)?;
    let (orders, draft) = rest.split_once(" ").ok_or(Lack::Word)?;
    let universe = word_bytes(alloc, universe)?;
    let orders = word_lines(alloc, orders)?;
    let draft = word_lines(alloc, draft)?;
    match read_universe(alloc, &universe) {
        Ok(universe) => Ok(cloud_text(alloc, universe, &orders, &draft)?),
        Err(failure) => Ok(failure.into_refusal()?),
    }
}
