// A sheet played, and its text: by the joined call to any stand-in, and to a fresh chip that is powered on and opened for it.
#![tactic(auto)]

pub mod fresh;
pub mod told;
