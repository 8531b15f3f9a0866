// `frame HH HH ..`: written out again, handed over whole, and what is answered or refused.
use crate::send;
use crate::session::Session;
use rules::{Note, Refusal};
use standin_frames::frame_call;
use text_lines::told;
use text_read::{part, rows};

// Room for the longest frame and for one byte more, by which a longer row is seen to be none.
const ROOM: usize = 261;

// How much of a row's text is read: three bytes for each byte that there is room for.
fn read_of(row: &[u8]) -> usize {
    row.len().min(783)
}

// Writes the refusal, or the answer with its note.
fn tell(call: Result<usize, Refusal>, note: Option<Note>, reply: &[u8]) {
    if let Err(refusal) = call {
        told::refused(refusal);
        return;
    }
    let size = send::size_of(call);
    if size == 0 {
        return;
    }
    send::answer(reply, size, false);
    send::end_line(!send::noted(note));
}

// With the power off the chip is Silent, and so it awaits no frame.
pub fn line(s: Session, row: &[u8], code: &mut [u8], data: &mut [u8]) -> Session {
    io::write_all(1, b"frame");
    send::echo(row);
    let mut bytes = [0u8; ROOM];
    let end = rows::store(&mut bytes, 0, part::between(row, 0, read_of(row)));
    let mut reply = [0u8; 16];
    let d = s.device;
    let told = frame_call(d, part::between(&bytes, 0, end), code, data, &mut reply);
    let said = told.answer;
    let call = said.call;
    let note = said.note;
    tell(call, note, &reply);
    let after = told.device;
    Session {
        on: s.on,
        device: after,
    }
}
