// The program: a HEX text from standard input, and the sheet made of it on standard output; or, where it is refused, one line on standard error. What
// stands in either buffer that is written is promised by `make` and `put_refusal` for every input.
#![tactic(auto)]

ghost use Rattle.std.specs.Prelude.{◌≡◌, length};

use text_hex::told::{ROOM, put_refusal};
use text_read::part;

// The longest text that is taken, and room for one byte more, by which a longer input is seen as such.
const LONGEST: usize = 1048576;

// stays: tried as `[0u8; ROOM]` in `main`: the proof did not close at the bounds of `part::between`, since so long a list was counted out.
fn room() -> [u8; 1048577]
    ensures { 1048577 ≡ length result }
{
    [0; 1048577]
}

// The largest sheet.
const SHEET_ROOM: usize = 65536;

fn make(text: &[u8]) {
    let mut sheet = [0u8; SHEET_ROOM];
    match text_hex::make(text, &mut sheet) {
        Ok(n) => {
            io::write_all(1, part::between(&sheet, 0, n));
        }
        Err(h) => {
            let mut line = [0u8; ROOM];
            let n = put_refusal(&mut line, h);
            io::write_all(2, part::between(&line, 0, n));
        }
    }
}

fn main(rt: HostRuntime) {
    let mut text = room();
    let Ok(n) = text_input::read(&rt, &mut text) else {
        io::write_all(2, b"hex: the input cannot be read\n");
        return;
    };
    if n > LONGEST {
        io::write_all(2, b"hex: input over 1,048,576 bytes\n");
        return;
    }
    make(part::between(&text, 0, n));
}
