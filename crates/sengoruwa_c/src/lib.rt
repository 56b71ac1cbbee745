// The library for callers in C: reading a universe, planning, checking, and a run on a simulated cloud. No memory is
// allocated, and nothing is kept from call to call. A slice passes as a pointer and then a length. No pointer is null, also
// where its length is 0, and what a call writes to overlaps nothing else that it is passed.
#![tactic(auto)]

ghost use Rattle.std.specs.Prelude.{◌≡◌, length};
ghost use Rattle.universe.specs.Reading.{tables_read};
ghost use Rattle.sengoruwa_c.specs.Refusals.{RefusedAsChecked, fault_told, judged_in, number_told, planned_in, ran_in, read_in};
ghost use Rattle.sengoruwa_c.specs.Numbers.{PlacesLaw};
ghost use Rattle.sengoruwa_c.specs.Calls.{RunTold, entries_left, lines_left, list_left};

mod calls;
mod filling;
mod numbers;
pub mod records;
mod refusal;
mod running;

use crate::calls::{entries_of_file, judge_file, plan_file, run_file};
use crate::records::{Ended, Fault, NOTHING_ENDED, Settings};
use crate::refusal::{fault_of, number_of};

// Reads a universe file, and writes what is told of the universe, as far as the list has places.
#[unsafe(no_mangle)]
pub extern "C" fn sengoruwa_read(file: &[u8], entries: &mut [u32]) -> u32
    ensures answer { result ≡ number_told (read_in (tables_read file.now)) }
    ensures entries { entries.new ≡ entries_left (tables_read file.now) entries.old }
    ensures places { PlacesLaw }
{
    number_of(entries_of_file(file, entries))
}

// Plans the goal in the file's universe into the list, and writes how many lines there are.
#[unsafe(no_mangle)]
pub extern "C" fn sengoruwa_plan(file: &[u8], goal: &[u8], list: &mut [u32], lines: &mut u64) -> u32
    ensures answer { result ≡ number_told (planned_in (tables_read file.now) goal.now (length list.old)) }
    ensures list { list.new ≡ list_left (tables_read file.now) goal.now list.old }
    ensures lines { lines.new ≡ lines_left (planned_in (tables_read file.now) goal.now (length list.old)) lines.old }
{
    number_of(plan_file(file, goal, list, lines))
}

// Judges the draft in the file's universe, and writes where it is bad.
#[unsafe(no_mangle)]
pub extern "C" fn sengoruwa_check(file: &[u8], lines: &[u32], fault: &mut Fault) -> u32
    ensures answer { result ≡ number_told (judged_in (tables_read file.now) lines.now) }
    ensures fault { fault.new ≡ fault_told (judged_in (tables_read file.now) lines.now) }
{
    let answer = judge_file(file, lines);
    *fault = fault_of(answer);
    number_of(answer)
}

// Runs the draft on a fresh simulated cloud of the file's universe: writes what each step answers, what then stands, where
// the run ended, and where a refused draft is bad.
#[unsafe(no_mangle)]
pub extern "C" fn sengoruwa_run(
    file: &[u8],
    lines: &[u32],
    settings: &Settings,
    answers: &mut [u32],
    standing: &mut [u32],
    fault: &mut Fault,
    ended: &mut Ended,
) -> u32
    ensures answer { result ≡ number_told (ran_in (tables_read file.now) lines.now) }
    ensures as_checked { RefusedAsChecked (tables_read file.now) lines.now }
    ensures fault { fault.new ≡ fault_told (ran_in (tables_read file.now) lines.now) }
    ensures run { RunTold (ran_in (tables_read file.now) lines.now) (tables_read file.now) settings.now lines.now answers.old answers.new standing.old standing.new ended.new }
{
    let ran = run_file(file, *settings, lines, answers, standing);
    *ended = ran.unwrap_or(NOTHING_ENDED);
    let answer = ran.map(|_| ());
    *fault = fault_of(answer);
    number_of(answer)
}
