// The closing order of a universe, kept so that ranks, parents and suppliers can be looked up.
#![tactic(auto)]

mod listing;
mod lookup;
pub mod order;
mod ranks;
