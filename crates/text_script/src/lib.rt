// A script of text lines for the stand-in: what a line says, what it does to the chip, and what is written.
#![tactic(auto)]

pub mod chip_file;
pub mod handed;
pub mod script_line;
pub mod send;
pub mod session;
pub mod show;
