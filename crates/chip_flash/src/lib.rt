// Erasing one block; a page written or left, and a page compared. Everything is said once over the size and number of parts;
// code and data flash are uses of it.
#![tactic(auto)]

pub mod erase;
pub mod pages;
