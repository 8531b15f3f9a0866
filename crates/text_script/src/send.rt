// `> HH HH ..`: written out again, sent byte by byte, and the line of the answers if there are any; a note that is not empty has a line of its own
// behind the answer that it goes with.
ghost use Rattle.std.specs.Prelude.{◌≡◌};
ghost use Rattle.rules.specs.StandIn.{byte_call};
ghost use Rattle.chip_finder.specs.LentFlashes.{memory};
ghost use Rattle.standin.specs.Shows.{shows, answered_as};

use crate::session::Session;
use rules::{Note, Refusal};
use standin::call::{Answered, Device, byte_call};
use standin_rig::lending::byte_lent;
use text_lines::output;
use text_read::{part, rows};
use text_told::notes::put_note;

// stays: the flag is a fact of its own, and the chip is there in both cases.
// The chip while bytes are sent, and whether it has answered any of them.
#[derive(Clone, Copy)]
struct Sent {
    device: Device,
    answered: bool,
}

// Writes a row out again, its digits in upper case, in pieces of 256 bytes; and ends the line.
// stays, here and in `send_row`: the row is text, its bytes are read from it by number, and there is no slice of them to go over.
pub(crate) fn echo(row: &[u8]) {
    let mut line = [b' '; 768];
    let mut at: usize = 0;
    for k in 0..rows::row_count(row) {
        if at > 765 {
            io::write_all(1, part::between(&line, 0, at));
            at = 0;
        }
        at = output::byte(&mut line, at, rows::row_byte(row, k));
    }
    io::write_all(1, part::between(&line, 0, at));
    io::write_all(1, b"\n");
}

pub(crate) fn size_of(call: Result<usize, Refusal>) -> usize {
    call.unwrap_or(0)
}

// Writes the first `size` bytes of a reply: they begin the answer line, or go on with it.
pub(crate) fn answer(reply: &[u8], size: usize, answered: bool) {
    let mut line = [b'<'; 64];
    let mut from: usize = 1;
    if answered {
        from = 0;
    }
    let end = output::row(&mut line, from, part::between(reply, 0, size));
    io::write_all(1, part::between(&line, 0, end));
}

// Writes the note's line, if there is one: it ends the answer line, and a later answer begins a new one.
pub(crate) fn noted(note: Option<Note>) -> bool {
    let mut line = [0u8; 64];
    let size = put_note(&mut line, 0, note);
    if size == 0 {
        return false;
    }
    io::write_all(1, b"\n");
    io::write_all(1, part::between(&line, 0, size));
    true
}

// One received byte, with the record lent to the entry or by value: the promise is the same.
fn received(
    lent: bool,
    d: Device,
    byte: u8,
    code: &mut [u8],
    data: &mut [u8],
    reply: &mut [u8],
) -> Answered
    ensures chip_value { result.device.chip ≡ d.chip }
    ensures reply_after { answered_as result (memory code.new «data».new) reply.new ≡ byte_call d.chip (shows d (memory code.old «data».old)) reply.old byte }
{
    if lent {
        return byte_lent(d, byte, code, data, reply);
    }
    byte_call(d, byte, code, data, reply)
}

// One byte to the chip; what it answers is written, and its note.
fn send_byte(lent: bool, s: Sent, byte: u8, code: &mut [u8], data: &mut [u8]) -> Sent {
    let mut reply = [0u8; 16];
    let d = s.device;
    let told = received(lent, d, byte, code, data, &mut reply);
    let said = told.answer;
    let call = said.call;
    let note = said.note;
    let size = size_of(call);
    let after = told.device;
    if size == 0 {
        return Sent {
            device: after,
            answered: s.answered,
        };
    }
    answer(&reply, size, s.answered);
    Sent {
        device: after,
        answered: !noted(note),
    }
}

// The bytes of a row, one after the other.
fn send_row(lent: bool, d: Device, row: &[u8], code: &mut [u8], data: &mut [u8]) -> Sent {
    let mut s = Sent {
        device: d,
        answered: false,
    };
    let count = rows::row_count(row);
    for k in 0..count {
        s = send_byte(lent, s, rows::row_byte(row, k), code, data);
    }
    s
}

pub(crate) fn end_line(answered: bool) {
    if answered {
        io::write_all(1, b"\n");
    }
}

// With the power off the line is only written out again. `lent`: every byte goes by way of the entry over a lent record.
pub fn line(lent: bool, s: Session, row: &[u8], code: &mut [u8], data: &mut [u8]) -> Session {
    io::write_all(1, b">");
    echo(row);
    if !s.on {
        return s;
    }
    let d = s.device;
    let sent = send_row(lent, d, row, code, data);
    end_line(sent.answered);
    let after = sent.device;
    Session {
        on: true,
        device: after,
    }
}
