// Runs on piles of layers over a fresh cloud, as the command `run` makes them, and the laws that fresh piles are starts.
#![tactic(auto)]

pub mod command;
pub mod laws;
