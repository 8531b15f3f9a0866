// The stream: each read takes what is there, and what it took goes to the chip turn by turn.
use crate::end::Stop;
use crate::files;
use standin::call::Device;
use std::io::{Read, Write};
use text_read::part;
use text_serve::log::put_turn;
use text_serve::serve;

// The most bytes that are taken. A line of 1,000,000 bytes a second comes to it in 292,000 years.
const MOST: u64 = 9223372036854775807;

// The most bytes of a read; and room for the lines of a turn: three bytes of text for each byte that was read and for each of an answer's 16, and four.
const READ: usize = 1024;

const ROOM: usize = 3124;

// A turn is kept in the log, if there is one; and then its answer is written.
fn told<W: Write>(log: &mut Option<W>, sent: &[u8], answer: &[u8]) -> Result<(), Stop> {
    let mut text = [0u8; ROOM];
    let size = put_turn(&mut text, sent, answer);
    files::keep(log, part::between(&text, 0, size))?;
    if !io::write_all(1, answer) {
        return Err(Stop::NoOutput);
    }
    Ok(())
}

// What a read took, turn by turn; the chip after it. No call is refused: power-on has looked at the flashes, and a reply has the room that it needs.
fn serve_read<W: Write>(
    d: Device,
    bytes: &[u8],
    log: &mut Option<W>,
    code: &mut [u8],
    data: &mut [u8],
) -> Result<Device, Stop> {
    let mut device = d;
    let mut reply = [0u8; 16];
    let mut left = bytes;
    while !left.is_empty() {
        let t = serve(device, left, code, data, &mut reply);
        device = t.device;
        let size = t.call.unwrap_or(0);
        let (sent, rest) = left.split_at(t.sent);
        told(log, sent, part::between(&reply, 0, size))?;
        left = rest;
    }
    Ok(device)
}

// Read after read, until the input ends.
// stays: a range would count the reads, and the most is of bytes, of which a read takes one or many.
pub(crate) fn serve_all<I: Read, W: Write>(
    d: Device,
    input: &mut I,
    log: &mut Option<W>,
    code: &mut [u8],
    data: &mut [u8],
) -> Result<(), Stop> {
    let mut device = d;
    let mut bytes = [0u8; READ];
    let mut taken: u64 = 0;
    while taken < MOST {
        let Ok(n) = input.read(&mut bytes) else {
            return Err(Stop::NoInput);
        };
        if n == 0 {
            return Ok(());
        }
        device = serve_read(device, part::between(&bytes, 0, n), log, code, data)?;
        taken += n as u64;
    }
    Ok(())
}
