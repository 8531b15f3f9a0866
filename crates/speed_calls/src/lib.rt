// What a driver in C measures of the engine and the player, through the entries of `speed_calls_c`. Each answers a digest of all that it was answered, so that two sides
// can be compared. They are a measuring rig: of themselves they promise only that they are safe and end.
#![tactic(auto)]

pub mod byte_calls;
pub mod digest;
pub mod player_calls;
