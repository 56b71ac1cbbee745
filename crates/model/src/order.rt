// The five orders. Every number has 32 bits, so that what is out of range can be named and refused.
ghost use Rattle.std.specs.Prelude.{Some};
ghost use Rattle.model.specs.Written.{written};

use crate::binding::Binding;
use std::fmt;

#[derive(Clone, Copy, PartialEq, Eq, Debug)]
pub enum Order {
    Create { instance: u32, kind: u32 },
    Bind(Binding),
    Change { instance: u32, state: u32 },
    Unbind(Binding),
    Delete { instance: u32 },
}

// The written form: the letter of the order, then its numbers, with single blanks between them.
impl fmt::Display for Order {
    ghost output = { λ o. Some (written o) };

    fn fmt<W: fmt::Write>(&self, f: &mut fmt::Formatter<W>) -> fmt::Result {
        match self {
            Order::Create { instance, kind } => write!(f, "c {instance} {kind}"),
            Order::Bind(binding) => write!(f, "b {binding}"),
            Order::Change { instance, state } => write!(f, "s {instance} {state}"),
            Order::Unbind(binding) => write!(f, "u {binding}"),
            Order::Delete { instance } => write!(f, "d {instance}"),
        }
    }
}
