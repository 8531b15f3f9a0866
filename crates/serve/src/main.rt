// The program: the stand-in on a byte stream. Bytes from standard input go to a chip that was just powered on, a fresh small one or the one that a file
// states, and each answer is written to standard output as soon as it is given. The first argument names the chip file and the second a log; where one is
// missing or empty there is no such file. What goes to the chip, what it answers and the lines of the log are promised by `serve` and `put_turn`.
#![tactic(auto)]

mod end;
mod files;
mod stream;

use end::Stop;
use rules::{Chip, Flash, Options};
use standin::call::{off, power_on};
use std::env::Env;
use std::io::{Input, Read, Write};
use std::rt::Files;
use text_script::chip_file::lent;

// Room for the flashes of the larger chip.
const CODE_ROOM: usize = 131072;

const DATA_ROOM: usize = 8192;

// Power-on, and the bytes of the stream. A chip that is not known is refused here, before a byte is read.
fn session<I: Read, W: Write>(
    chip: Chip,
    o: Options,
    input: &mut I,
    log: &mut Option<W>,
    code: &mut [u8],
    data: &mut [u8],
) -> Result<(), Stop> {
    let powered = power_on(off(chip), o, &*code, &*data);
    powered.call?;
    files::keep(log, b"!\n")?;
    stream::serve_all(powered.device, input, log, code, data)
}

// The session has the chip's own part of the flashes.
fn run<R: Env + Files + Input>(rt: &R, code: &mut [u8], data: &mut [u8]) -> Result<(), Stop> {
    let s = files::read_chip(rt, code, data)?;
    let chip = s.chip;
    let o = s.options;
    let m = lent(chip, Flash::Code, code.len());
    let n = lent(chip, Flash::Data, data.len());
    let mut log = files::open_log(rt)?;
    session(
        chip,
        o,
        &mut rt.reader(),
        &mut log,
        &mut code[0..m],
        &mut data[0..n],
    )
}

fn main(rt: HostRuntime) {
    let mut code = [0u8; CODE_ROOM];
    let mut data = [0u8; DATA_ROOM];
    end::tell(run(&rt, &mut code, &mut data));
}
