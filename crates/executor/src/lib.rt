// The executor: it starts a checked plan, gives a host one of its lines at each step, and finishes.
#![tactic(auto)]

pub mod fault;
pub mod stages;
pub mod steps;
