// A whole run of a request: it is planned, checked, started, stepped and finished, on whatever host.
#![tactic(auto)]

pub mod goals;
pub mod request;
pub mod run;
