// The player by itself: reads a script of text lines from standard input, replies among them, and writes the frames that the player gives.
#![tactic(auto)]

mod hand;
mod run;
mod script_line;
mod show;

use text_lines::lines;
use text_read::part;

// stays: `main` of `answers` reads its script so too; one function for both would be public, and no contract can say what standard input gives.
fn main() {
    let mut input = lines::room();
    let n = io::read_full(0, &mut input);
    // a longer input ends within a line: its last byte is no LF
    input[lines::LIMIT] = 0;
    run::script(part::between(&input, 0, n));
}
