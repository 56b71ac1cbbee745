// What the commands `closing` and `plan` print.
#![tactic(auto)]

pub mod closing_text;
pub mod plan_lines;
