// Why a file is refused as a universe.
ghost use Rattle.std.specs.Prelude.{◌≡◌, Some};
ghost use Rattle.std.specs.Fmt.{decimal};
ghost use Rattle.universe.specs.Refusals.{universe_number};

use std::fmt;

#[derive(Clone, Copy, PartialEq, Eq, Debug)]
pub enum UniverseRefusal {
    // Bytes are missing, or left over at the end.
    Length = 1,
    // A count of types, ports or states is out of range.
    Count = 2,
    // A bit that has to be zero is set.
    ZeroBit = 3,
    // A port is not below the port count.
    Port = 4,
    // A successor is the state itself, or not below the state count.
    Successor = 5,
    // State 0 requires a port.
    InitialState = 6,
}

impl UniverseRefusal {
    // The number that is shown for the refusal.
    pub fn number(self) -> u8
        ensures { result ≡ universe_number self }
    {
        self as u8
    }
}

// A refusal is shown as its number.
impl fmt::Display for UniverseRefusal {
    ghost output = { λ refusal. Some (decimal (universe_number refusal)) };

    fn fmt<W: fmt::Write>(&self, f: &mut fmt::Formatter<W>) -> fmt::Result {
        write!(f, "{}", self.number())
    }
}
