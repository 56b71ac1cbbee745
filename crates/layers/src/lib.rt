// Layers: hosts that stand over others.
#![tactic(auto)]

mod state;
pub mod verifying;
