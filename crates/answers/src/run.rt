// A whole script: its lines one after the other, up to its end or the first bad one.
use rules::{Chip, Flash};
use standin::call::Device;
use text_lines::lines::{bad_line, room_for_bytes};
use text_lines::told;
use text_play::told::play_told;
use text_read::in_hand::InHand;
use text_read::line::line_end;
use text_read::{in_hand, part};
use text_script::chip_file::lent;
use text_script::script_line::Line;
use text_script::session::Session;
use text_script::{handed, script_line, send, session, show};

// What stands between two lines.
#[derive(Clone, Copy)]
struct Between {
    session: Session,
    sheet: InHand,
}

// The bytes of a row stored, and the power off.
fn store(s: Session, f: Flash, at: usize, row: &[u8], code: &mut [u8], data: &mut [u8]) -> Session {
    session::store(f, at, row, code, data);
    let d = s.device;
    let c = d.core;
    let o = c.options;
    session::off(s, o)
}

fn power_on(s: Session, code: &[u8], data: &[u8]) -> Session {
    io::write_all(1, b"!\n");
    let powered = session::power_on(s, code, data);
    if let Err(refusal) = powered.call {
        told::refused(refusal);
    }
    powered.session
}

fn show<'a>(s: Session, code: &'a [u8], data: &'a [u8]) -> Session {
    show::all(s, code, data);
    s
}

// The sheet played to the chip as it stands. With the power off it is Silent, and so it does not wait for a command.
fn play(s: Session, sheet: &[u8], code: &mut [u8], data: &mut [u8]) -> Session {
    let d = s.device;
    let chip = d.chip;
    let c = d.core;
    let mut held = d.held;
    let mut text = [0u8; text_told::ROOM];
    let told = play_told(chip, sheet, c, &mut held, code, data, &mut text);
    io::write_all(1, part::between(&text, 0, told.size));
    let core = told.core;
    Session {
        on: s.on,
        device: Device { chip, core, held },
    }
}

// What a line does to the chip as it stands; one of a sheet does nothing.
fn act(
    said: Line,
    rig: bool,
    text: &[u8],
    s: Session,
    sheet: &[u8],
    code: &mut [u8],
    data: &mut [u8],
) -> Session {
    match said {
        Line::OfChip(_) => s,
        Line::Stored(o) => session::off(s, o),
        Line::Store(f, at) => store(s, f, at, part::rest(text, script_line::STORED), code, data),
        Line::PowerOn => power_on(s, &*code, &*data),
        Line::Bytes => send::line(rig, s, part::rest(text, script_line::SENT), code, data),
        Line::Frame => handed::line(s, part::rest(text, script_line::FRAME), code, data),
        Line::Show => show(s, &*code, &*data),
        Line::Sheet => s,
        Line::Play => play(s, sheet, code, data),
    }
}

// A line that names a chip begins a fresh one; any other has the chip's own part of the flashes.
fn on_chip(
    said: Line,
    rig: bool,
    text: &[u8],
    s: Session,
    sheet: &[u8],
    code: &mut [u8],
    data: &mut [u8],
) -> Session {
    if let Line::OfChip(chip) = said {
        return session::fresh(chip, code, data);
    }
    let d = s.device;
    let m = lent(d.chip, Flash::Code, code.len());
    let n = lent(d.chip, Flash::Data, data.len());
    act(said, rig, text, s, sheet, &mut code[0..m], &mut data[0..n])
}

// A line is run: it adds to the sheet in hand or closes it, and does what it says.
fn run(
    said: Line,
    rig: bool,
    text: &[u8],
    b: Between,
    sheet: &mut [u8],
    code: &mut [u8],
    data: &mut [u8],
) -> Between {
    let before = b.sheet;
    let put = in_hand::after(before, text, sheet);
    let s = b.session;
    let after = on_chip(said, rig, text, s, in_hand::bytes(put, &*sheet), code, data);
    Between {
        session: after,
        sheet: put,
    }
}

// What a line says, with so much room for the flashes.
fn said_by(line: &[u8], b: Between, code: usize, data: usize) -> Option<Line> {
    let s = b.session;
    let d = s.device;
    script_line::parse(
        line,
        lent(d.chip, Flash::Code, code),
        lent(d.chip, Flash::Data, data),
    )
}

// The lines of a script; the number of the bad one that ended it, if one did. One without its LF is bad.
// stays: no `split_inclusive` here, whose pieces have no contract in this program: each line is cut by `line_end`, which says where it ends.
fn lines(
    rig: bool,
    chip: Chip,
    text: &[u8],
    sheet: &mut [u8],
    code: &mut [u8],
    data: &mut [u8],
) -> Option<usize> {
    let mut b = Between {
        session: session::fresh(chip, code, data),
        sheet: in_hand::empty(),
    };
    let mut at: usize = 0;
    let mut number: usize = 0;
    while at < text.len() {
        number += 1;
        let end = line_end(text, at);
        if end >= text.len() {
            return Some(number);
        }
        let line = part::between(text, at, end);
        let Some(said) = said_by(line, b, code.len(), data.len()) else {
            return Some(number);
        };
        b = run(said, rig, line, b, sheet, code, data);
        at = end + 1;
    }
    None
}

// Room for the flashes of the larger chip.
const CODE_ROOM: usize = 131072;

const DATA_ROOM: usize = 8192;

// A whole script, on a fresh small chip with the power off and with an empty sheet in hand. `rig`: its bytes go by way of the entry over a lent
// record, and what is written has to be the same.
pub(crate) fn script(rig: bool, text: &[u8]) {
    let mut sheet = room_for_bytes();
    let mut code = [0u8; CODE_ROOM];
    let mut data = [0u8; DATA_ROOM];
    bad_line(lines(
        rig,
        chip_finder::small(),
        text,
        &mut sheet,
        &mut code,
        &mut data,
    ));
}
