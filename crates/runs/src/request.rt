// What a caller wants to run, and what comes of it.
ghost use Rattle.std.specs.Prelude.{◌≡◌, Some};
ghost use Rattle.runs.specs.Refusals.{lines_run, run_number, run_refusal_text};
ghost use Rattle.runs.specs.declared.request.RunRefusal.TheVariants.{Check, Plan, Start};

use checking::refusal::CheckRefusal;
use executor::fault::{StartRefusal, StepFault};
use planner::refusal::PlanRefusal;
use std::fmt;

// What is to be run.
#[derive(Clone, Copy, Debug)]
pub enum Request<'a> {
    // A goal, a line in each byte, for which a script is planned.
    Goal(&'a [u8]),
    // A script that the caller wrote.
    Script(&'a [u32]),
}

impl<'a> Request<'a> {
    // The lines that are run, as many as `count`, where the list was left so: of a goal, those that planning wrote into it.
    pub fn lines(self, list: &'a [u32], count: usize) -> &'a [u32]
        ensures { result.now ≡ lines_run self.entry list.now count }
    {
        match self {
            Request::Goal(_) => &list[..count.min(list.len())],
            Request::Script(lines) => lines,
        }
    }
}

// What a caller can do with a run.
#[derive(Clone, Copy, PartialEq, Eq, Debug)]
pub enum Action {
    // Take a step.
    Step,
}

// An action of the caller, and the place for its answer.
#[derive(Clone, Copy, PartialEq, Eq, Debug)]
pub struct Act {
    pub action: Action,
    pub answer: Option<Result<(), StepFault>>,
}

// A run that took its actions and was finished: how many lines it had, its place, and the leases.
#[derive(Clone, Copy, PartialEq, Eq, Debug)]
pub struct Ran {
    pub lines: usize,
    pub place: usize,
    pub leases: u64,
}

// Why a request is not run.
#[derive(Clone, Copy, PartialEq, Eq, Debug)]
pub enum RunRefusal {
    Plan(PlanRefusal),
    Check(CheckRefusal),
    // What passed the check just before is never refused so.
    Start(StartRefusal),
}

impl From<PlanRefusal> for RunRefusal {
    ghost from_gives = { λ e r. r ≡ Plan e };

    fn from(refusal: PlanRefusal) -> RunRefusal {
        RunRefusal::Plan(refusal)
    }
}

impl From<CheckRefusal> for RunRefusal {
    ghost from_gives = { λ e r. r ≡ Check e };

    fn from(refusal: CheckRefusal) -> RunRefusal {
        RunRefusal::Check(refusal)
    }
}

impl From<StartRefusal> for RunRefusal {
    ghost from_gives = { λ e r. r ≡ Start e };

    fn from(refusal: StartRefusal) -> RunRefusal {
        RunRefusal::Start(refusal)
    }
}

impl RunRefusal {
    // The number that is shown for the refusal.
    pub fn number(self) -> u8
        ensures { result ≡ run_number self }
    {
        match self {
            RunRefusal::Plan(refusal) => refusal.number(),
            RunRefusal::Check(refusal) => refusal.number(),
            RunRefusal::Start(refusal) => refusal.number(),
        }
    }
}

// It is shown as planning, check or start show it.
impl fmt::Display for RunRefusal {
    ghost output = { λ r. Some (run_refusal_text r) };

    fn fmt<W: fmt::Write>(&self, f: &mut fmt::Formatter<W>) -> fmt::Result {
        match self {
            RunRefusal::Plan(refusal) => write!(f, "{refusal}"),
            RunRefusal::Check(refusal) => write!(f, "{refusal}"),
            RunRefusal::Start(refusal) => write!(f, "{refusal}"),
        }
    }
}
