// A binding: a port, and the instances that provide it and require it.
ghost use Rattle.std.specs.Prelude.{Some};
ghost use Rattle.model.specs.Written.{binding_text};

use std::fmt;

#[derive(Clone, Copy, PartialEq, Eq, Debug)]
pub struct Binding {
    pub port: u32,
    pub provider: u32,
    pub requirer: u32,
}

impl fmt::Display for Binding {
    ghost output = { λ b. Some (binding_text b) };

    fn fmt<W: fmt::Write>(&self, f: &mut fmt::Formatter<W>) -> fmt::Result {
        write!(f, "{} {} {}", self.port, self.provider, self.requirer)
    }
}
