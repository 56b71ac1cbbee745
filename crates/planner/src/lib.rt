// The planner: from a goal to the lines of a script that brings it about.
#![tactic(auto)]

pub mod goal;
mod needs;
mod path;
pub mod plan;
pub mod refusal;
mod writing;
