// What the command `check` prints.
#![tactic(auto)]

ghost use Rattle.std.specs.Prelude.{◌≡◌, string_bytes};
ghost use Rattle.universe.specs.Reading.{tables_read};
ghost use Rattle.console.specs.Told.{Told};
ghost use Rattle.check_text.specs.Checks.{answer_line_of, check_report_of};

use checking::judge::judge;
use checking::refusal::CheckRefusal;
use console::failure::Failure;
use console::report::read_universe;
use std::alloc::Global;

// The line of an answer: `passes, N lines`, or the refusal.
pub fn answer_line(
    alloc: Global,
    lines: usize,
    answer: Result<(), CheckRefusal>,
) -> Result<String, Failure<String>>
    ensures { Told string_bytes string_bytes result (answer_line_of lines answer) }
{
    match answer {
        Ok(()) => Ok(format!(in alloc; "passes, {lines} lines\n")?),
        Err(refusal) => Err(Failure::Refused(format!(in alloc; "refused {refusal}\n")?)),
    }
}

// What is printed of the lines in the universe of a packed file: whether they pass, or the refusal of
// the file or of the lines.
pub fn check_report(
    alloc: Global,
    universe: &[u8],
    lines: &[u32],
) -> Result<String, Failure<String>>
    ensures { Told string_bytes string_bytes result (check_report_of lines.now (tables_read universe.now)) }
{
    let universe = read_universe(alloc, universe)?;
    answer_line(alloc, lines.len(), judge(&universe, lines))
}
