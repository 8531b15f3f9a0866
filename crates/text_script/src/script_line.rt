// What a line of the script says.
ghost use Rattle.std.specs.Prelude.{◌≡◌, drop};
ghost use Rattle.text_read.specs.Chips.{chip_named};
ghost use Rattle.text_script.specs.Script.{place_of, store_of, field_of, options_of, chip_of, handed_of, word_of, row_line, line_of};
ghost use Rattle.text_script.specs.Answers.{Bytes, Sheet};

use rules::{Block, Chip, Flash, Options};
use text_read::part::starts_with;
use text_read::{chips, in_hand, number, part, rows};

#[derive(Clone, Copy)]
pub enum Line {
    OfChip(Chip),
    Stored(Options),
    Store(Flash, usize),
    PowerOn,
    Bytes,
    Frame,
    Show,
    Sheet,
    Play,
}

// Where the row begins in a line that stores bytes, `code AAAAA HH ..`, and in one that sends them, `> HH ..`.
pub const STORED: usize = 10;

pub const SENT: usize = 1;

// And in one that hands over a frame, `frame HH ..`.
pub const FRAME: usize = 5;

// Where so many bytes go that are stored from an address, if they all lie in the flash.
#[tactic(auto, using(crate::proofs::Says::below, crate::proofs::Says::outside, crate::proofs::Says::inside))]
fn place(f: Flash, size: usize, address: u32, count: usize) -> Option<Line>
    ensures { result ≡ place_of f size address count }
{
    let first = chip_finder::first_byte(f, Block(0));
    let at = address.checked_sub(first.0)? as usize;
    if size.checked_sub(at)? < count {
        return None;
    }
    Some(Line::Store(f, at))
}

// `code AAAAA HH HH ..` and `data AAAAA HH HH ..`, for a flash of that size.
#[tactic(auto, using(crate::proofs::Says::no_row, crate::proofs::Says::no_address, crate::proofs::Says::at_address))]
fn store_line(text: &[u8], f: Flash, size: usize) -> Option<Line>
    ensures { result ≡ store_of f size text.now }
{
    let row = part::rest(text, STORED);
    if !rows::is_bytes(row) {
        return None;
    }
    let address = number::hex_word(part::between(text, 5, 10), 5)?;
    place(f, size, address, rows::row_count(row))
}

// The number of so many digits behind the space at that place.
#[tactic(auto, using(crate::proofs::Says::field_past, crate::proofs::Says::field_no, crate::proofs::Says::field_some))]
fn field(text: &[u8], space: usize, digits: usize) -> Option<u32>
    ensures { result ≡ field_of space digits text.now }
{
    if space >= text.len() {
        return None;
    }
    if text[space] != b' ' {
        return None;
    }
    let word = part::between(part::rest(text, space + 1), 0, digits);
    number::hex_word(word, digits)
}

// `options SF1 SF2 SWS SWE`: two flag bytes and two window words, if all four are numbers.
#[tactic(auto, using(crate::proofs::Says::options_other, crate::proofs::Says::options_four), unfolding(crate::specs::Script::with_options))]
fn options_line(text: &[u8]) -> Option<Line>
    ensures { result ≡ options_of text.now }
{
    if text.len() != 23 {
        return None;
    }
    let sf1 = field(text, 7, 2)?;
    let sf2 = field(text, 10, 2)?;
    let sws = field(text, 13, 4)?;
    let swe = field(text, 18, 4)?;
    Some(Line::Stored(Options {
        sf1: (sf1 % 256) as u8,
        sf2: (sf2 % 256) as u8,
        sws: (sws % 65536) as u16,
        swe: (swe % 65536) as u16,
    }))
}

// `chip small`, `chip large`, `chip C D`
fn chip_line(text: &[u8]) -> Option<Line>
    ensures { result ≡ chip_of (chip_named (drop 5 text.now)) }
{
    Some(Line::OfChip(chips::chip(part::rest(text, 5))?))
}

// `frame HH HH ..`, or `frame` alone for nothing.
#[tactic(auto, using(crate::proofs::Says::handed_said))]
fn handed(text: &[u8]) -> Option<Line>
    ensures { result ≡ handed_of (drop 5 text.now) }
{
    rows::is_row(part::rest(text, FRAME)).then_some(Line::Frame)
}

// A line of one word, or one that names a chip or hands over a frame.
#[tactic(auto, using(crate::proofs::Says::word_on, crate::proofs::Says::word_show, crate::proofs::Says::word_play, crate::proofs::Says::word_fresh, crate::proofs::Says::word_chip, crate::proofs::Says::word_frame, crate::proofs::Says::word_none))]
fn word(text: &[u8]) -> Option<Line>
    ensures { result ≡ word_of text.now }
{
    if octets::same_bytes(text, b"!") {
        return Some(Line::PowerOn);
    }
    if octets::same_bytes(text, b"?") {
        return Some(Line::Show);
    }
    if octets::same_bytes(text, b"play") {
        return Some(Line::Play);
    }
    if octets::same_bytes(text, b"fresh") {
        return Some(Line::OfChip(chip_finder::small()));
    }
    if starts_with(text, b"chip ") {
        return chip_line(text);
    }
    if starts_with(text, b"frame") {
        return handed(text);
    }
    None
}

// `> HH HH ..`
#[tactic(auto, using(crate::proofs::Says::row_said))]
fn sent(text: &[u8]) -> Option<Line>
    ensures { result ≡ row_line Bytes (drop 1 text.now) }
{
    rows::is_bytes(part::rest(text, SENT)).then_some(Line::Bytes)
}

// `sheet HH HH ..`
#[tactic(auto, using(crate::proofs::Says::row_said))]
fn of_sheet(text: &[u8]) -> Option<Line>
    ensures { result ≡ row_line Sheet (drop 5 text.now) }
{
    rows::is_bytes(part::rest(text, in_hand::ROW)).then_some(Line::Sheet)
}

// A line without its end, for flashes of these sizes.
#[tactic(auto, using(crate::proofs::Says::says_sent, crate::proofs::Says::says_sheet, crate::proofs::Says::says_options, crate::proofs::Says::says_code, crate::proofs::Says::says_data, crate::proofs::Says::says_word))]
pub fn parse(text: &[u8], code_size: usize, data_size: usize) -> Option<Line>
    ensures { result ≡ line_of code_size data_size text.now }
{
    if starts_with(text, b">") {
        return sent(text);
    }
    if in_hand::begins(text) {
        return of_sheet(text);
    }
    if starts_with(text, b"options ") {
        return options_line(text);
    }
    if starts_with(text, b"code ") {
        return store_line(text, Flash::Code, code_size);
    }
    if starts_with(text, b"data ") {
        return store_line(text, Flash::Data, data_size);
    }
    word(text)
}
