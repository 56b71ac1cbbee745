// Why an order has no line, or a number is none.
ghost use Rattle.std.specs.Prelude.{◌≡◌, Some, decimal};
ghost use Rattle.lines.specs.Line.{line_number};

use std::fmt;

#[derive(Clone, Copy, PartialEq, Eq, Debug)]
pub enum LineRefusal {
    // The order is too large for its fields, or the number is no line.
    NotALine = 43,
}

impl LineRefusal {
    // The number by which the refusal is reported.
    pub fn number(self) -> u8
        ensures { result ≡ line_number self }
    {
        self as u8
    }
}

// The refusal is shown as its number.
impl fmt::Display for LineRefusal {
    ghost output = { λ r. Some (decimal (line_number r)) };

    fn fmt<W: fmt::Write>(&self, f: &mut fmt::Formatter<W>) -> fmt::Result {
        write!(f, "{}", self.number())
    }
}
