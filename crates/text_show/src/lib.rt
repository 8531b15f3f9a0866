// A sheet told to a person, in a lent buffer: its form and chip, a line for each step, the most frames that a play sends and a map of both flashes; or
// the rule that refuses it.
#![tactic(auto)]

pub mod entries;
pub mod map;
pub mod refused;
pub mod steps;
pub mod told;
pub mod words;

// Room for the text of any sheet (proofs/Room.antt).
pub const ROOM: usize = 8192;
