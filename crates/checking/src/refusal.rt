// Why a draft does not pass.
ghost use Rattle.std.specs.Prelude.{◌≡◌, Some};
ghost use Rattle.checking.specs.Refusals.{check_number, check_text, fault_number};

use hosts::refusal::Offence;
use std::fmt;

// Why a line is bad.
#[derive(Clone, Copy, PartialEq, Eq, Debug)]
pub enum LineFault {
    // It is not a line of the code.
    NotALine,
    // Its order is not legal where it stands.
    Illegal(Offence),
    // Its result has a gap.
    Gap,
    // It is a bind past 2,048 standing bindings.
    TooManyBindings,
}

impl LineFault {
    // The number that is shown for the fault.
    pub fn number(self) -> u8
        ensures { result ≡ fault_number self }
    {
        match self {
            LineFault::NotALine => 43,
            LineFault::Illegal(_) => 44,
            LineFault::Gap => 45,
            LineFault::TooManyBindings => 46,
        }
    }
}

// Why a draft is refused.
#[derive(Clone, Copy, PartialEq, Eq, Debug)]
pub enum CheckRefusal {
    // It has no lines, or more than 32,768.
    Length,
    // An instance or a binding stands in the host.
    NotEmpty,
    // The line at the place is bad, and none before it.
    AtLine { place: usize, fault: LineFault },
}

impl CheckRefusal {
    // The number that is shown for the refusal.
    pub fn number(self) -> u8
        ensures { result ≡ check_number self }
    {
        match self {
            CheckRefusal::Length => 41,
            CheckRefusal::NotEmpty => 42,
            CheckRefusal::AtLine { fault, .. } => fault.number(),
        }
    }
}

// The number, and of a bad line its place, and why its order is not legal: `44 at 3: 22`.
impl fmt::Display for CheckRefusal {
    ghost output = { λ r. Some (check_text r) };

    fn fmt<W: fmt::Write>(&self, f: &mut fmt::Formatter<W>) -> fmt::Result {
        let number = self.number();
        match self {
            CheckRefusal::Length | CheckRefusal::NotEmpty => write!(f, "{number}"),
            CheckRefusal::AtLine {
                place,
                fault: LineFault::Illegal(offence),
            } => write!(f, "{number} at {place}: {offence}"),
            CheckRefusal::AtLine { place, .. } => write!(f, "{number} at {place}"),
        }
    }
}
