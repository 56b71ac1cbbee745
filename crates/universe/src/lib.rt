// Universes as the product holds them, and the reading of their packed files.
#![tactic(auto)]

mod entries;
mod groups;
pub mod held;
pub mod reading;
pub mod refusal;
pub mod sets;
pub mod tables;
