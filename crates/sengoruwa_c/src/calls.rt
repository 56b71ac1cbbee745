// The work of the calls from C, each up to its first refusal.
ghost use Rattle.std.specs.Prelude.{◌≡◌, IfErr, IfOk, length};
ghost use Rattle.model.specs.Config.{empty};
ghost use Rattle.universe.specs.Held.{universe_in};
ghost use Rattle.universe.specs.Reading.{tables_read};
ghost use Rattle.checking.specs.Checking.{lines_checked};
ghost use Rattle.checking.specs.Judging.{situation};
ghost use Rattle.cloud.specs.Cloud.{cloud_of};
ghost use Rattle.sengoruwa_c.specs.Refusals.{by_file, done_of, judged_in, planned_in, ran_in, read_in};
ghost use Rattle.sengoruwa_c.specs.Calls.{RanFrom, RanUnder, cloud_opened, entries_left, lines_left, list_left, tables_held};

use crate::filling::fill_entries;
use crate::records::{Ended, Settings};
use crate::refusal::Refused;
use crate::running::run_on;
use checking::judge::judge;
use checking::refusal::CheckRefusal;
use cloud::Cloud;
use layers::verifying::Verifying;
use planner::plan::plan;
use table::limits::Limits;
use universe::held::Universe;
use universe::reading::read;

// The universe that the file packs.
fn read_file(file: &[u8]) -> Result<Universe, Refused>
    ensures { tables_held result ≡ by_file (tables_read file.now) }
{
    let mut universe = Universe::least();
    read(file, &mut universe)?;
    Ok(universe)
}

// Reads the universe, and writes what is told of it.
pub fn entries_of_file(file: &[u8], entries: &mut [u32]) -> Result<(), Refused>
    ensures answer { result ≡ read_in (tables_read file.now) }
    ensures entries { entries.new ≡ entries_left (tables_read file.now) entries.old }
{
    let universe = read_file(file)?;
    fill_entries(&universe, entries);
    Ok(())
}

// Reads the universe and plans the goal into the list, and writes how many lines there are.
pub fn plan_file(file: &[u8], goal: &[u8], list: &mut [u32], lines: &mut u64) -> Result<(), Refused>
    ensures answer { result ≡ done_of (planned_in (tables_read file.now) goal.now (length list.old)) }
    ensures list { list.new ≡ list_left (tables_read file.now) goal.now list.old }
    ensures lines { lines.new ≡ lines_left (planned_in (tables_read file.now) goal.now (length list.old)) lines.old }
{
    let universe = read_file(file)?;
    *lines = plan(&universe, goal, list)? as u64;
    Ok(())
}

// Reads the universe and judges the draft in it.
pub fn judge_file(file: &[u8], lines: &[u32]) -> Result<(), Refused>
    ensures { result ≡ judged_in (tables_read file.now) lines.now }
{
    let universe = read_file(file)?;
    judge(&universe, lines)?;
    Ok(())
}

// An empty cloud of the universe, as the settings choose it.
fn open_cloud(universe: Universe, settings: Settings) -> Cloud
    ensures { cloud_of result ≡ cloud_opened (universe_in universe) settings }
{
    let limits = Limits {
        instances: settings.instances,
        bindings: settings.bindings,
    };
    Cloud::open(universe, limits, settings.delay)
}

// Runs the draft on a fresh cloud of the universe, under as many verifying layers as the settings choose.
fn run_fresh(
    universe: Universe,
    settings: Settings,
    lines: &[u32],
    answers: &mut [u32],
    standing: &mut [u32],
) -> Result<Ended, CheckRefusal>
    ensures answer { done_of result ≡ lines_checked (situation (universe_in universe) empty) lines.now }
    ensures unchanged { IfErr result (λ _. (answers.new ≡ answers.old) × (standing.new ≡ standing.old)) }
    ensures ran { IfOk result (λ e. RanUnder (universe_in universe) settings lines.now answers.old answers.new standing.old standing.new e) }
{
    let mut cloud = open_cloud(universe, settings);
    match settings.layers {
        0 => run_on(&mut cloud, lines, answers, standing),
        1 => run_on(&mut Verifying::over(cloud), lines, answers, standing),
        _ => run_on(
            &mut Verifying::over(Verifying::over(cloud)),
            lines,
            answers,
            standing,
        ),
    }
}

// Reads the universe and runs the draft on a fresh cloud of it.
pub fn run_file(
    file: &[u8],
    settings: Settings,
    lines: &[u32],
    answers: &mut [u32],
    standing: &mut [u32],
) -> Result<Ended, Refused>
    ensures answer { done_of result ≡ ran_in (tables_read file.now) lines.now }
    ensures unchanged { IfErr result (λ _. (answers.new ≡ answers.old) × (standing.new ≡ standing.old)) }
    ensures ran { IfOk result (λ e. RanFrom (tables_read file.now) settings lines.now answers.old answers.new standing.old standing.new e) }
{
    let universe = read_file(file)?;
    Ok(run_fresh(universe, settings, lines, answers, standing)?)
}
