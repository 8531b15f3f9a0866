// What a line of the script says.
use rules::Chip;
use text_read::part::starts_with;
use text_read::{chips, in_hand, number, part, rows};

#[derive(Clone, Copy)]
pub(crate) enum Line {
    OfChip(Chip),
    Sheet,
    Sums(usize),
    Room(usize),
    Go,
    Reply,
}

// Where the row begins in `go HH ..` and in `< HH ..`; it may be empty.
pub(crate) const GO: usize = 2;

pub(crate) const REPLY: usize = 1;

// stays, here and in `chip_line` and `go_line`: `text_script::script_line` reads such lines too, each gives a line of its own, and what both share is in `text_read`.
// `sheet HH HH ..`
fn of_sheet(text: &[u8]) -> Option<Line> {
    rows::is_bytes(part::rest(text, in_hand::ROW)).then_some(Line::Sheet)
}

// `chip small`, `chip large`, `chip C D`
fn chip_line(text: &[u8]) -> Option<Line> {
    Some(Line::OfChip(chips::chip(part::rest(text, 5))?))
}

// The count behind `sums ` and behind `room `.
fn count_of(text: &[u8], most: u32) -> Option<usize> {
    Some(number::decimal(part::rest(text, 5), most)? as usize)
}

// `go`, `go HH HH ..`
fn go_line(text: &[u8]) -> Option<Line> {
    rows::is_row(part::rest(text, GO)).then_some(Line::Go)
}

// `<`, `< HH HH ..`: only where a play has begun.
fn reply_line(text: &[u8], begun: bool) -> Option<Line> {
    (begun && rows::is_row(part::rest(text, REPLY))).then_some(Line::Reply)
}

// A line without its end.
pub(crate) fn parse(text: &[u8], begun: bool) -> Option<Line> {
    if in_hand::begins(text) {
        return of_sheet(text);
    }
    if starts_with(text, b"sums ") {
        return Some(Line::Sums(count_of(text, 64)?));
    }
    if starts_with(text, b"room ") {
        return Some(Line::Room(count_of(text, 300)?));
    }
    if starts_with(text, b"go") {
        return go_line(text);
    }
    if starts_with(text, b"<") {
        return reply_line(text, begun);
    }
    if starts_with(text, b"chip ") {
        return chip_line(text);
    }
    None
}
