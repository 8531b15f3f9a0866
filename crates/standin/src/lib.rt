// The stand-in: one received byte a call, power-on, and feeding many bytes.
#![tactic(auto)]

pub mod call;
pub mod feeding;
pub mod opening;
