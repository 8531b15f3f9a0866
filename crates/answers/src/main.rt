// The stand-in by itself: reads a script of text lines from standard input and writes what the chip answers. With an argument, whatever it is, a rig keeps
// the chip's record and lends it for each byte; that is said on standard error, since nothing else tells the two ways apart.
#![tactic(auto)]

mod run;

use std::env::{Env, FillError};
use text_lines::lines;
use text_read::part;

// stays: `is_ok` would say none of an argument that is longer than the buffer.
// Whether there is an argument, whatever it is.
fn has_argument<R: Env>(rt: &R) -> bool {
    let mut word = [0u8; 1];
    match rt.arg(1, &mut word) {
        Ok(_) => true,
        Err(FillError::TooLong) => true,
        Err(FillError::NotPresent) => false,
    }
}

// stays: `main` of `frames` reads its script so too; one function for both would be public, and no contract can say what standard input gives.
fn main(rt: HostRuntime) {
    let rig = has_argument(&rt);
    if rig {
        io::write_all(2, b"answers: by a rig\n");
    }
    let mut input = lines::room();
    let n = io::read_full(0, &mut input);
    // a longer input ends within a line: its last byte is no LF
    input[lines::LIMIT] = 0;
    run::script(rig, part::between(&input, 0, n));
}
