// Running a request, and what the command `run` prints of it.
#![tactic(auto)]

pub mod report;
pub mod texts;
