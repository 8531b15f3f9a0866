// A rig that keeps its device record: the byte call over a lent record, and the same by value.
#![tactic(auto)]

pub mod entry;
pub mod lending;
