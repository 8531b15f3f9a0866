// The program: a capture from standard input, looked over from a fresh small chip, or from the chip that a file states whose name is the argument. The
// verdict is one line on standard output. What stands in that line is promised by `look_over` and `put_verdict` for every input.
#![tactic(auto)]

ghost use Rattle.std.specs.Prelude.{◌≡◌, length};

use rules::Flash;
use rules::capture::CaptureFault;
use std::env::{Env, FillError};
use std::io::Input;
use std::rt::Files;
use text_capture::look_over;
use text_capture::told::{ROOM, put_verdict};
use text_input::Unread;
use text_lines::lines;
use text_read::part;
use text_script::chip_file;
use text_script::chip_file::{BadLine, Stated, lent};

// The longest capture that is taken, and room for one byte more, by which a longer input is seen as such.
const LONGEST: usize = 4194304;

fn room() -> [u8; 4194305]
    ensures { 4194305 ≡ length result }
{
    [0; 4194305]
}

// Room for the flashes of the larger chip.
const CODE_ROOM: usize = 131072;

const DATA_ROOM: usize = 8192;

// Why there is no chip: its file cannot be read, or that line of it states nothing.
#[derive(Clone, Copy)]
enum NoChip {
    Unread,
    BadLine(BadLine),
}

impl From<Unread> for NoChip {
    fn from(_unread: Unread) -> NoChip {
        NoChip::Unread
    }
}

impl From<BadLine> for NoChip {
    fn from(line: BadLine) -> NoChip {
        NoChip::BadLine(line)
    }
}

// The text of the chip file; where none is named, nothing.
fn read_file<R: Env + Files>(rt: &R, buffer: &mut [u8]) -> Result<usize, Unread> {
    let mut name = [0u8; 4096];
    match rt.arg(1, &mut name) {
        Ok(size) => text_input::read_file(rt, part::between(&name, 0, size), buffer),
        Err(FillError::TooLong) => Err(Unread),
        Err(FillError::NotPresent) => Ok(0),
    }
}

// What the file states.
// stays: a twin of the one in the program `serve`, which takes an empty name as none: a shared function would be public, and no contract can say what a
// file gives.
fn read_chip<R: Env + Files>(rt: &R, code: &mut [u8], data: &mut [u8]) -> Result<Stated, NoChip> {
    let mut file = lines::room();
    let n = read_file(rt, &mut file)?;
    // a longer file ends within a line: its last byte is no LF
    file[lines::LIMIT] = 0;
    let stated = chip_file::read(part::between(&file, 0, n), code, data)?;
    Ok(stated)
}

fn tell(v: Result<(), CaptureFault>) {
    let mut line = [0u8; ROOM];
    let size = put_verdict(&mut line, v);
    io::write_all(1, part::between(&line, 0, size));
}

// Looks a capture over, with the chip's own part of the flashes.
fn look(s: Stated, text: &[u8], code: &mut [u8], data: &mut [u8]) {
    let chip = s.chip;
    let o = s.options;
    let m = lent(chip, Flash::Code, code.len());
    let n = lent(chip, Flash::Data, data.len());
    let looked = look_over(chip, o, text, &mut code[0..m], &mut data[0..n]);
    let v = looked.verdict;
    tell(v);
}

fn look_at_input<R: Input>(rt: &R, s: Stated, code: &mut [u8], data: &mut [u8]) {
    let mut text = room();
    let Ok(n) = text_input::read(rt, &mut text) else {
        io::write_all(2, b"capture: the input cannot be read\n");
        return;
    };
    if n > LONGEST {
        io::write_all(2, b"capture: input over 4,194,304 bytes\n");
        return;
    }
    look(s, part::between(&text, 0, n), code, data);
}

// Says why there is no chip.
fn no_chip(why: NoChip) {
    match why {
        NoChip::Unread => {
            io::write_all(2, b"capture: CHIPFILE: cannot be read\n");
        }
        NoChip::BadLine(line) => {
            io::write_all(2, b"capture: CHIPFILE: bad line ");
            io::print_decimal(2, line.0 as u64);
            io::write_all(2, b"\n");
        }
    }
}

fn main(rt: HostRuntime) {
    let mut code = [0u8; CODE_ROOM];
    let mut data = [0u8; DATA_ROOM];
    match read_chip(&rt, &mut code, &mut data) {
        Ok(s) => look_at_input(&rt, s, &mut code, &mut data),
        Err(why) => no_chip(why),
    }
}
