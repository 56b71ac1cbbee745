// The interface that every host keeps: what a survey tells, what a host means besides, and what an order does.
#![tactic(auto)]

pub mod host;
pub mod laws;
pub mod load;
pub mod refusal;
pub mod survey;
