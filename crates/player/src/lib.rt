// The player call: the next frame from the last reply, over a record by value.
#![tactic(auto)]

pub mod call;
pub mod report;
