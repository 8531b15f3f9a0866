// A lent text, read in place: parts and lines, hex digits, rows of bytes, numbers, and the sheet that lines put together.
#![tactic(auto)]

pub mod chips;
pub mod hex;
pub mod in_hand;
pub mod line;
pub mod number;
pub mod part;
pub mod rows;
