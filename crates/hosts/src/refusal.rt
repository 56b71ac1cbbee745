// Why an order is refused.
ghost use Rattle.std.specs.Prelude.{◌≡◌, Some, decimal};
ghost use Rattle.hosts.specs.Refusals.{offence_number, reason_number, refusal_text};

use std::fmt;

// Why an order is not legal where it was given.
#[derive(Clone, Copy, PartialEq, Eq, Debug)]
pub enum Offence {
    // An instance is above 255, there is no such type or port, or the state is above 7.
    OutOfRange = 22,
    // Create: the instance stands.
    Standing = 23,
    // The other orders: an instance does not stand.
    NotStanding = 24,
    // Bind: provider and requirer are one, or their types never provide or never require the port.
    Unfit = 25,
    // Bind: the binding stands.
    Bound = 26,
    // Unbind: the binding does not stand.
    Unbound = 27,
    // Change: the state is no successor.
    NoSuccessor = 28,
    // Delete: the instance is the provider of a binding.
    Provider = 29,
}

impl Offence {
    // The number that is shown for the offence.
    pub fn number(self) -> u8
        ensures { result ≡ offence_number self }
    {
        self as u8
    }
}

// The offence is shown as its number.
impl fmt::Display for Offence {
    ghost output = { λ o. Some (decimal (offence_number o)) };

    fn fmt<W: fmt::Write>(&self, f: &mut fmt::Formatter<W>) -> fmt::Result {
        write!(f, "{}", self.number())
    }
}

// Why a host refuses an order.
#[derive(Clone, Copy, PartialEq, Eq, Debug)]
pub enum Reason {
    // The host puts the order off.
    Busy,
    // The order is not legal.
    Illegal(Offence),
    // Change and unbind, in a watchful host: the result has a gap.
    Gap,
    // Create and bind: no allowance is left.
    Full,
}

impl Reason {
    // The number that is shown for the reason.
    pub fn number(self) -> u8
        ensures { result ≡ reason_number self }
    {
        match self {
            Reason::Busy => 21,
            Reason::Illegal(offence) => offence.number(),
            Reason::Gap => 30,
            Reason::Full => 31,
        }
    }
}

// The reason is shown as its number.
impl fmt::Display for Reason {
    ghost output = { λ r. Some (decimal (reason_number r)) };

    fn fmt<W: fmt::Write>(&self, f: &mut fmt::Formatter<W>) -> fmt::Result {
        let number = self.number();
        write!(f, "{number}")
    }
}

// A host's refusal: the reason, and the height of the layer that gave it.
#[derive(Clone, Copy, PartialEq, Eq, Debug)]
pub struct Refusal {
    pub reason: Reason,
    pub height: u8,
}

// The number of the reason, and the height: `30 by 1`.
impl fmt::Display for Refusal {
    ghost output = { λ r. Some (refusal_text r) };

    fn fmt<W: fmt::Write>(&self, f: &mut fmt::Formatter<W>) -> fmt::Result {
        write!(f, "{} by {}", self.reason, self.height)
    }
}
