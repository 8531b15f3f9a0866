// The program: a sheet from standard input, and what it is told as on standard output. What stands in the buffer that is written is promised by `tell` for
// every input.
#![tactic(auto)]

use text_read::part;
use text_show::told::tell;

// Room for the longest sheet, and for one byte more, by which a longer input is seen as such.
const ROOM: usize = 65541;

// stays: `main` of `play` is like it; one function for both would take the two rooms and the function that writes the text, and be no shorter.
fn main(rt: HostRuntime) {
    let mut sheet = [0u8; ROOM];
    let mut text = [0u8; text_show::ROOM];
    let Ok(n) = text_input::read(&rt, &mut sheet) else {
        io::write_all(2, b"show: the input cannot be read\n");
        return;
    };
    let size = tell(part::between(&sheet, 0, n), &mut text);
    io::write_all(1, part::between(&text, 0, size));
}
