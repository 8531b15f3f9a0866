// Text lines: what the programs over scripts share to write one, and room for a script.
#![tactic(auto)]

pub mod lines;
pub mod output;
pub mod told;
