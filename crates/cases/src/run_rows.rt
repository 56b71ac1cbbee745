// Rows of whole runs.
use crate::rows::{Lack, report_text};
use crate::words::{listed_options, word_bytes, word_lines, word_number};
use console::failure::Failure;
use pile_runs::command::run_command_report;
use runs::request::Request;
use std::alloc::Global;

// What is run, as a row writes it.
#[derive(Drop)]
enum Wanted {
    Goal(Vec<u8>),
    Script(Vec<u32>),
}

// The request of a word: `goal:` and its bytes, or `script:` and its lines.
fn word_request(alloc: Global, word: &str) -> Result<Wanted, Failure<Lack>> {
    if let Some(goal) = word.strip_prefix("goal:") {
        return Ok(Wanted::Goal(word_bytes(alloc, goal)?));
    }
    let script = word.strip_prefix("script:").ok_or(Lack::Word)?;
    Ok(Wanted::Script(word_lines(alloc, script)?))
}

// The number of steps of a word; a dash for the usual number.
fn word_steps(word: &str) -> Result<Option<u32>, Lack> {
    match word {
        "-" => Ok(None),
        _ => Ok(Some(word_number(word)?)),
    }
}

// What the command `run` prints of a universe, a request, the options of a host and a number of steps, with blanks
// between them.
pub(crate) fn run_text(alloc: Global, row: &str) -> Result<String, Failure<Lack>> {
    let (universe, rest) = row.split_once(" ").ok_or(Lack::Word)?;
    let (request, rest) = rest.split_once(" ").ok_or(Lack::Word)?;
    let (options, steps) = rest.rsplit_once(" ").ok_or(Lack::Word)?;
    let universe = word_bytes(alloc, universe)?;
    let wanted = word_request(alloc, request)?;
    if options.split(' ').count() > 4 {
        return Err(Failure::Refused(Lack::Word));
    }
    let options = listed_options(options)?;
    let steps = word_steps(steps)?;
    let request = match &wanted {
        Wanted::Goal(goal) => Request::Goal(goal),
        Wanted::Script(lines) => Request::Script(lines),
    };
    Ok(report_text(run_command_report(alloc, &universe, options, request, steps))?)
}
