// The rules that a survey's questions answer: whether an order is legal, where the first gap is, and whether an order
// opens one.
#![tactic(auto)]

pub mod gaps;
pub mod legality;
mod ports;
