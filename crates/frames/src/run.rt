// A whole script: its lines one after the other, up to its end or the first bad one.
use crate::hand::Hand;
use crate::script_line::Line;
use crate::{hand, script_line};
use text_lines::lines::{bad_line, room_for_bytes};
use text_read::line::line_end;
use text_read::{in_hand, part};

// What a line does with the bytes of the sheet in hand; one of a sheet does nothing more.
fn act(
    said: Line,
    text: &[u8],
    h: Hand,
    sheet: &[u8],
    reply: &mut [u8],
    frame: &mut [u8],
    sums: &mut [u16],
) -> Hand {
    match said {
        Line::OfChip(chip) => hand::use_chip(h, chip),
        Line::Sheet => h,
        Line::Sums(n) => hand::lend_sums(h, n, sums),
        Line::Room(n) => hand::lend_room(h, n),
        Line::Go => {
            let row = part::rest(text, script_line::GO);
            hand::call(hand::begin(h), row, sheet, reply, frame, sums)
        }
        Line::Reply => {
            let row = part::rest(text, script_line::REPLY);
            hand::call(h, row, sheet, reply, frame, sums)
        }
    }
}

// A line is run: it adds to the sheet in hand or closes it, and does what it says.
fn run(
    said: Line,
    text: &[u8],
    h: Hand,
    sheet: &mut [u8],
    reply: &mut [u8],
    frame: &mut [u8],
    sums: &mut [u16],
) -> Hand {
    let mut h = h;
    let before = h.sheet;
    let held = in_hand::after(before, text, sheet);
    h.sheet = held;
    act(
        said,
        text,
        h,
        in_hand::bytes(held, &*sheet),
        reply,
        frame,
        sums,
    )
}

// The lines of a script; the number of the bad one that ended it, if one did. One without its LF is bad.
// stays: no `split_inclusive` here, whose pieces have no contract in this program: each line is cut by `line_end`, which says where it ends.
fn lines(
    text: &[u8],
    sheet: &mut [u8],
    reply: &mut [u8],
    frame: &mut [u8],
    sums: &mut [u16],
) -> Option<usize> {
    let mut h = hand::empty();
    let mut at: usize = 0;
    let mut number: usize = 0;
    while at < text.len() {
        number += 1;
        let end = line_end(text, at);
        if end >= text.len() {
            return Some(number);
        }
        let line = part::between(text, at, end);
        let Some(said) = script_line::parse(line, h.begun) else {
            return Some(number);
        };
        h = run(said, line, h, sheet, reply, frame, sums);
        at = end + 1;
    }
    None
}

// A whole script, with an empty sheet in hand.
pub(crate) fn script(text: &[u8]) {
    let mut sheet = room_for_bytes();
    let mut reply = room_for_bytes();
    let mut frame = [0u8; 300];
    let mut sums = [0u16; 64];
    bad_line(lines(text, &mut sheet, &mut reply, &mut frame, &mut sums));
}
