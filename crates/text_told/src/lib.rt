// What is told of a play, put into a lent buffer: words, lines, the whole text. The text of a play is 01's trial 16, byte for byte.
#![tactic(auto)]

pub mod lines;
pub mod notes;
pub mod play;
pub mod words;

// Room for the text of any play (proofs/Room.antt).
pub const ROOM: usize = 2048;
