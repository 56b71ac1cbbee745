// What the commands print, as text made from values.
#![tactic(auto)]

pub mod describe;
pub mod failure;
pub mod hex;
pub mod report;
