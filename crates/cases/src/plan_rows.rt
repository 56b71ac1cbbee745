// Rows of universes, of which the closing order is shown, and of universes with goals and rooms, of which the plan is.
use crate::rows::{Lack, report_text};
use crate::words::{word_bytes, word_number};
use console::failure::Failure;
use console::report::read_universe;
use planner::plan::plan;
use planning::closing_text::closing_report;
use planning::plan_lines::plan_lines;
use scripts::{lines_report, script_bytes};
use std::alloc::{AllocError, Global};
use universe::held::Universe;

// What every place of the list holds before a script is planned into it.
const MARK: u32 = 0xa5a5a5a5;

// The most lines that are shown; of a longer script a checksum is shown.
const SHOWN: usize = 40;

// The 32-bit FNV-1a checksum of the bytes.
fn checksum(bytes: &[u8]) -> u32 {
    bytes.iter().fold(0x811c9dc5, |sum: u32, byte| {
        (sum ^ u32::from(*byte)).wrapping_mul(0x01000193)
    })
}

// The lines of a script, or its checksum.
fn shown_lines(alloc: Global, lines: &[u32]) -> Result<String, AllocError> {
    if lines.len() > SHOWN {
        let bytes = script_bytes(alloc, lines)?;
        format!(in alloc; "checksum {:08x}\n", checksum(&bytes))
    } else {
        report_text(lines_report(alloc, lines))
    }
}

// The script of a plan.
fn script_text(alloc: Global, lines: &[u32]) -> Result<String, AllocError> {
    let shown = shown_lines(alloc, lines)?;
    format!(in alloc; "{} lines\n{shown}", lines.len())
}

// Whether planning into a list leaves what is behind the script as it was, or all on a refusal.
fn rest_text(
    alloc: Global,
    universe: &Universe,
    goal: &[u8],
    room: usize,
) -> Result<String, AllocError> {
    let mut list = vec![in alloc; MARK; room]?;
    let written = plan(universe, goal, &mut list).unwrap_or(0);
    let is_unchanged = list.iter().skip(written).all(|line| *line == MARK);
    let rest = if is_unchanged { "unchanged" } else { "changed" };
    format!(in alloc; "rest {rest}\n")
}

// The script or the refusal, and what planning leaves of a list of so many places.
fn planned_text(
    alloc: Global,
    universe: &[u8],
    goal: &[u8],
    room: usize,
) -> Result<String, AllocError> {
    let mut text = match plan_lines(alloc, universe, goal, room) {
        Ok(lines) => script_text(alloc, &lines)?,
        Err(failure) => failure.into_refusal()?,
    };
    match read_universe(alloc, universe) {
        Ok(universe) => text.push_str(&rest_text(alloc, &universe, goal, room)?)?,
        Err(failure) => {
            failure.into_refusal()?;
        }
    }
    Ok(text)
}

// The closing order of a universe.
pub(crate) fn closing_text(alloc: Global, row: &str) -> Result<String, Failure<Lack>> {
    let universe = word_bytes(alloc, row)?;
    Ok(report_text(closing_report(alloc, &universe))?)
}

// The plan of a universe, a goal and a number of places, with blanks between them.
pub(crate) fn plan_text(alloc: Global, row: &str) -> Result<String, Failure<Lack>> {
    let (universe, rest) = row.split_once(" ").ok_or(Lack::Word)?;
    let (goal, room) = rest.split_once(" ").ok_or(Lack::Word)?;
    let universe = word_bytes(alloc, universe)?;
    let goal = word_bytes(alloc, goal)?;
    let room = word_number(room)?;
    Ok(planned_text(alloc, &universe, &goal, room as usize)?)
}
