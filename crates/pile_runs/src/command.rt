// The command `run`: a request run on a fresh pile.
ghost use Rattle.std.specs.Prelude.{◌≡◌, IfOk, string_bytes};
ghost use Rattle.universe.specs.Reading.{tables_read};
ghost use Rattle.universe.specs.Held.{universe_in};
ghost use Rattle.console.specs.Told.{IfTold, Told};
ghost use Rattle.pile_runs.specs.Runs.{StepsReported, command_text, line_count, most_lines, pile_run_text, steps_for, usual_steps};
ghost use Rattle.run_text.specs.Reports.{RefusedWith};

use console::failure::Failure;
use console::report::read_universe;
use hosts::host::Host;
use layers::verifying::Verifying;
use options::{HostOptions, Layers};
use piles::fresh_cloud;
use planner::plan::{MOST_LINES, plan};
use run_text::report::run_report;
use runs::request::{Act, Action, Request};
use std::alloc::{AllocError, Global};
use universe::held::Universe;

// How many lines the request has: of a goal, those of its script, and none where it is refused.
fn line_count(alloc: Global, universe: &Universe, request: Request<'_>) -> Result<usize, AllocError>
    ensures { IfOk result (λ n. n ≡ line_count (universe_in universe.now) request.entry) }
{
    match request {
        Request::Goal(goal) => {
            let mut list = vec![in alloc; 0; MOST_LINES]?;
            Ok(plan(universe, goal, &mut list).unwrap_or(0))
        }
        Request::Script(lines) => Ok(lines.len()),
    }
}

// The check lets no more lines pass.
const MOST_CHECKED: usize = 32768;

// No cloud puts more orders off.
const LONGEST_DELAY: u32 = 8;

// As many steps as bring every script to its end which the host's allowances cover: its lines × (longest wait + 1). More
// than 32,768 lines are refused.
fn usual_steps(lines: usize, options: HostOptions) -> usize
    ensures { result ≡ usual_steps lines options }
{
    lines.min(MOST_CHECKED) * (options.delay.min(LONGEST_DELAY) as usize + 1)
}

// Runs the request on the host, so many steps, with a list that has room for every script; and makes the lines that tell of
// it, or that of its refusal.
fn run_steps<B: Host>(
    alloc: Global,
    host: &mut B,
    request: Request<'_>,
    steps: usize,
) -> Result<String, Failure<String>>
    ensures { IfTold result (λ s. StepsReported B.Survey.situation B.service B.does request.entry host.old host.new steps (string_bytes s)) (λ s. RefusedWith (B.Survey.situation host.old) request.entry most_lines (string_bytes s)) }
{
    let mut list = vec![in alloc; 0; MOST_LINES]?;
    let act = Act {
        action: Action::Step,
        answer: None,
    };
    let mut acts = vec![in alloc; act; steps]?;
    run_report(alloc, host, request, &mut list, &mut acts)
}

// Runs the request on a fresh pile, so many steps, and makes the lines that tell of it; or the line of its refusal.
pub fn pile_run(
    alloc: Global,
    universe: Universe,
    options: HostOptions,
    request: Request<'_>,
    steps: usize,
) -> Result<String, Failure<String>>
    ensures { Told string_bytes string_bytes result (pile_run_text (universe_in universe) options request.entry steps) }
{
    let mut cloud = fresh_cloud(universe, options);
    match options.layers {
        Layers::None => run_steps(alloc, &mut cloud, request, steps),
        Layers::Verifying => run_steps(alloc, &mut Verifying::over(cloud), request, steps),
        Layers::VerifyingTwice => run_steps(
            alloc,
            &mut Verifying::over(Verifying::over(cloud)),
            request,
            steps,
        ),
    }
}

// How many steps are taken: as many as are asked for, else the usual number.
fn steps_for(
    alloc: Global,
    universe: &Universe,
    options: HostOptions,
    request: Request<'_>,
    steps: Option<u32>,
) -> Result<usize, AllocError>
    ensures { IfOk result (λ n. n ≡ steps_for (universe_in universe.now) options request.entry steps) }
{
    match steps {
        Some(steps) => Ok(steps as usize),
        None => Ok(usual_steps(line_count(alloc, universe, request)?, options)),
    }
}

// Reads the universe and runs the request on a fresh pile of it: the lines that tell of the run, or that of a refusal.
pub fn run_command_report(
    alloc: Global,
    file: &[u8],
    options: HostOptions,
    request: Request<'_>,
    steps: Option<u32>,
) -> Result<String, Failure<String>>
    ensures { Told string_bytes string_bytes result (command_text options request.entry steps (tables_read file.now)) }
{
    let universe = read_universe(alloc, file)?;
    let steps = steps_for(alloc, &universe, options, request, steps)?;
    pile_run(alloc, universe, options, request, steps)
}
