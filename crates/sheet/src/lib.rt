// The sheet reader: the verdict on any bytes, and the steps of an accepted sheet.
#![tactic(auto)]

pub mod judge;
pub mod read;
pub mod steps;
pub mod table;
pub mod twice;
