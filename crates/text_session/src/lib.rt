// A session kept as lines of text (02, M-111): a line by itself, and answers compared with its row as they come.
#![tactic(auto)]

pub mod line;
pub mod matching;
