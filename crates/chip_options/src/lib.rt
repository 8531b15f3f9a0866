// The option bits: read and shown, changed, and what they protect.
#![tactic(auto)]

pub mod change;
pub mod protect;
pub mod read;
