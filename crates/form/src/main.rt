// The program: a sheet from standard input, and on standard output that sheet in the other form, by the way that its argument says, `up` or `down`; or,
// where it is refused, one line on standard error. What stands in either buffer that is written is promised by `move_up`, `move_down` and
// `put_refused` for every input.
#![tactic(auto)]

use octets::same_bytes;
use rules::Refusal;
use sheet_moves::{move_down, move_up};
use std::env::Env;
use std::io::Input;
use text_read::part;
use text_told::lines::put_refused;

// The longest sheet of either form.
const LONGEST: usize = 65540;

// Room for it, and for one byte more, by which a longer input is seen as such.
const ROOM: usize = 65541;

#[derive(Clone, Copy)]
enum Way {
    Up,
    Down,
}

// `form: refused J15`
fn tell(refusal: Refusal) {
    let mut line = [0u8; text_told::ROOM];
    let n = put_refused(&mut line, refusal);
    io::write_all(2, b"form: ");
    io::write_all(2, part::between(&line, 0, n));
}

fn moved(way: Way, sheet: &[u8], out: &mut [u8]) -> Result<usize, Refusal> {
    match way {
        Way::Up => move_up(sheet, out),
        Way::Down => move_down(sheet, out),
    }
}

fn go(way: Way, sheet: &[u8]) {
    let mut out = [0u8; LONGEST];
    match moved(way, sheet, &mut out) {
        Ok(n) => {
            io::write_all(1, part::between(&out, 0, n));
        }
        Err(refusal) => tell(refusal),
    }
}

// The sheet is read, and goes that way.
fn read<R: Input>(rt: &R, way: Way) {
    let mut sheet = [0u8; ROOM];
    let Ok(n) = text_input::read(rt, &mut sheet) else {
        io::write_all(2, b"form: the input cannot be read\n");
        return;
    };
    go(way, part::between(&sheet, 0, n));
}

fn way_named(word: &[u8]) -> Option<Way> {
    if same_bytes(word, b"up") {
        return Some(Way::Up);
    }
    if same_bytes(word, b"down") {
        return Some(Way::Down);
    }
    None
}

// The way that the argument says, if there is one that says a way.
fn argued<R: Env>(rt: &R) -> Option<Way> {
    let mut word = [0u8; 8];
    let n = rt.arg(1, &mut word).ok()?;
    way_named(part::between(&word, 0, n))
}

fn main(rt: HostRuntime) {
    let Some(way) = argued(&rt) else {
        io::write_all(2, b"form: neither up nor down\n");
        return;
    };
    read(&rt, way);
}
