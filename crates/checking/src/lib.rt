// The check of a script that nobody has checked: it is replayed from empty, before any host is given an order.
#![tactic(auto)]

pub mod check;
pub mod judge;
pub mod refusal;
pub mod stages;
