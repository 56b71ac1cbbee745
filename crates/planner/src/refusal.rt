// Why a goal is not planned.
ghost use Rattle.std.specs.Prelude.{◌≡◌, Some, decimal};
ghost use Rattle.planner.specs.Refusals.{plan_number};

use std::fmt;

#[derive(Clone, Copy, PartialEq, Eq, Debug)]
pub enum PlanRefusal {
    // The goal has no line, or more than 16.
    GoalLength = 11,
    // A line names no pair of the universe, or has its zero bit set.
    NoPair = 12,
    // No run reaches the goal.
    OutOfReach = 14,
    // The list has fewer places than the script has lines.
    Room = 15,
}

impl PlanRefusal {
    // The number by which the refusal is reported.
    pub fn number(self) -> u8
        ensures { result ≡ plan_number self }
    {
        self as u8
    }
}

// The refusal is shown as its number.
impl fmt::Display for PlanRefusal {
    ghost output = { λ r. Some (decimal (plan_number r)) };

    fn fmt<W: fmt::Write>(&self, f: &mut fmt::Formatter<W>) -> fmt::Result {
        write!(f, "{}", self.number())
    }
}
