// Why a plan is not started, and why a step is not done.
ghost use Rattle.std.specs.Prelude.{◌≡◌, Some, decimal};
ghost use Rattle.executor.specs.Refusals.{fault_number, start_number};

use hosts::refusal::Refusal;
use model::order::Order;
use std::fmt;

// Why a plan is not started.
#[derive(Clone, Copy, PartialEq, Eq, Debug)]
pub enum StartRefusal {
    // An instance or a binding stands in the host.
    NotEmpty = 51,
}

impl StartRefusal {
    // The number that is shown for the refusal.
    pub fn number(self) -> u8
        ensures { result ≡ start_number self }
    {
        self as u8
    }
}

// The refusal is shown as its number.
impl fmt::Display for StartRefusal {
    ghost output = { λ r. Some (decimal (start_number r)) };

    fn fmt<W: fmt::Write>(&self, f: &mut fmt::Formatter<W>) -> fmt::Result {
        write!(f, "{}", self.number())
    }
}

// Why a step is not done.
#[derive(Clone, Copy, PartialEq, Eq, Debug)]
pub enum StepFault {
    // No line is left.
    NoLine,
    // The host refuses the order of the line at the place.
    Refused {
        place: usize,
        order: Order,
        refusal: Refusal,
    },
}

impl StepFault {
    // The number that is shown for the fault: of a refusal, that of the host.
    pub fn number(self) -> u8
        ensures { result ≡ fault_number self }
    {
        match self {
            StepFault::NoLine => 52,
            StepFault::Refused { refusal, .. } => refusal.reason.number(),
        }
    }
}
