// The head and the entries of a sheet, for any bytes and any number of an entry.
ghost use Rattle.std.specs.Prelude.{◌≡◌, ◌+◌, ◌*◌, ◌<◌, ◌≤◌, length, drop};
ghost use Rattle.rules.specs.Sheet.{form_two, against, head_size, count, entry_size, table_end, flags_of, offset_due};
ghost use Rattle.sheet.specs.Entry.{length_of, end_of, entry_in, fields_of, IsTable};
ghost use Rattle.sheet.specs.Head.{head_in};

use chip_finder::{large, small};
use octets::numbers::{address_of, byte_at, low_byte, middle_byte, word_at};
use rules::{Address, Chip, Flags};

// The bytes of an entry.
pub(crate) const ENTRY_SIZE: usize = 12;

// ---- the head ----

// FEh 02h begins form 2.
#[tactic(auto, unfolding(rules::specs::Sheet::form_two))]
pub fn form_two(sheet: &[u8]) -> bool
    ensures { result ≡ form_two sheet.now }
{
    matches!(sheet, [0xFE, 0x02, ..])
}

// The chip that the sheet names, which it is judged against.
#[tactic(auto, unfolding(rules::specs::Sheet::against))]
pub fn against(sheet: &[u8]) -> Chip
    ensures { result ≡ against sheet.now }
{
    if form_two(sheet) && byte_at(sheet, 2) == 2 {
        large()
    } else {
        small()
    }
}

// The head: whether it is of form 2, how many bytes stand before the entries, and how many steps it says. Whatever asks for a place asks here.
#[derive(Clone, Copy)]
pub struct Head {
    pub two: bool,
    pub size: usize,
    pub count: usize,
}

pub fn head_of(sheet: &[u8]) -> Head
    ensures { (result ≡ head_in sheet.now) × (result.size ≤ 12) × (result.count < 65536) }
{
    let two = form_two(sheet);
    let size = if two { 6 } else { 2 };
    Head {
        two,
        size,
        count: usize::from(word_at(sheet, size - 2)),
    }
}

// A sheet whose head was read.
#[derive(Clone, Copy)]
pub(crate) struct Headed<'a> {
    pub(crate) bytes: &'a [u8],
    pub(crate) head: Head,
    ghost head_value: { head ≡ head_in bytes.now },
    ghost size_bound: { head.size ≤ 12 },
    ghost count_bound: { head.count < 65536 },
}

impl<'a> Headed<'a> {
    pub(crate) fn new(bytes: &'a [u8]) -> Headed<'a>
        ensures { result.bytes.now ≡ bytes.now }
    {
        Headed {
            bytes,
            head: head_of(bytes),
        }
    }

    // Where the table ends.
    pub(crate) fn table_end(self) -> usize
        ensures { result ≡ table_end self.entry.bytes.now }
    {
        self.head.size + ENTRY_SIZE * self.head.count
    }

    // The entries of a table that is all there, each by its bytes.
    pub(crate) fn entries(self) -> &'a [[u8; ENTRY_SIZE]]
        requires { table_end self.bytes.now ≤ length self.bytes.now }
        ensures { IsTable self.entry.bytes.now result.now }
    {
        let (table, _) = self.bytes[self.head.size..].as_chunks();
        &table[..self.head.count]
    }
}

// stays: `head_size` and `count` are two fields of the head, for callers that need no other.
// How many bytes stand before the entries.
pub fn head_size(sheet: &[u8]) -> usize
    ensures { (result ≡ head_size sheet.now) × (result ≤ 12) }
{
    head_of(sheet).size
}

// How many steps the sheet says it has.
pub fn count(sheet: &[u8]) -> usize
    ensures { (result ≡ count sheet.now) × (result < 65536) }
{
    head_of(sheet).count
}

// Where the table ends and the bodies begin.
pub fn table_end(sheet: &[u8]) -> usize
    ensures { result ≡ table_end sheet.now }
{
    Headed::new(sheet).table_end()
}

// ---- entries ----

// The numbers of the kinds that the table or its rules tell apart.
// stays: an entry says any number, and `entry_at` and `body_end` answer for each (`entry_in` and `length_of` of specs/Entry); a Kind has six.
pub(crate) const WRITE: u8 = 2;

pub(crate) const VERIFY: u8 = 3;

pub(crate) const LOCK: u8 = 6;

// An entry as it stands in the table.
#[derive(Clone, Copy)]
pub struct Entry {
    pub kind: u8,
    pub sad: Address,
    pub ead: Address,
    pub zero: u8,
    pub offset: u32,
}

// The sheet from entry i on, behind a head of that size; empty where it ends before that. i can be any number.
fn from_entry<'a>(sheet: &'a [u8], head: usize, i: usize) -> &'a [u8]
    ensures { result.now ≡ drop (head + entry_size * i) sheet.now }
{
    let at = ENTRY_SIZE.saturating_mul(i).saturating_add(head);
    &sheet[at.min(sheet.len())..]
}

// An entry that is all there.
pub(crate) fn whole_entry(e: &[u8; ENTRY_SIZE]) -> Entry
    ensures { result ≡ fields_of e.now }
{
    Entry {
        kind: e[0],
        sad: address_of(e[1], e[2], e[3]),
        ead: address_of(e[4], e[5], e[6]),
        zero: e[7],
        offset: u32::from_le_bytes([e[8], e[9], e[10], e[11]]),
    }
}

// Entry i behind a head of that size.
fn entry_behind(sheet: &[u8], head: usize, i: usize) -> Entry
    ensures { result ≡ fields_of (drop (head + entry_size * i) sheet.now) }
{
    let rest = from_entry(sheet, head, i);
    if let Some(e) = rest.first_chunk() {
        return whole_entry(e);
    }
    // it is cut short: past the end its bytes read as 0
    let mut e = [0; ENTRY_SIZE];
    for (k, byte) in e.iter_mut().enumerate() {
        *byte = byte_at(rest, k);
    }
    whole_entry(&e)
}

pub fn entry_at(sheet: &[u8], i: usize) -> Entry
    ensures { result ≡ entry_in sheet.now i }
{
    entry_behind(sheet, head_size(sheet), i)
}

// The flags of a lock, which stand where the other kinds have their first address.
pub fn flags_of(sad: Address) -> Flags
    ensures { result ≡ flags_of sad }
{
    Flags {
        sf1: low_byte(sad.0),
        sf2: middle_byte(sad.0),
    }
}

// ---- bodies ----

// The length of a body: write and verify have one, and a pair that is turned round counts as one byte.
#[tactic(auto, unfolding(crate::specs::Entry::length_of))]
fn body_length(kind: u8, sad: Address, ead: Address) -> usize
    ensures { (result ≡ length_of kind sad ead) × (result ≤ 4294967296) }
{
    if kind == WRITE || kind == VERIFY {
        ead.0.saturating_sub(sad.0) as usize + 1
    } else {
        0
    }
}

// Where the body of an entry ends.
pub fn body_end(e: Entry) -> usize
    ensures { result ≡ end_of e }
{
    e.offset as usize + body_length(e.kind, e.sad, e.ead)
}

// The offset that entry i must say; that of the entry after the last is the length of the sheet.
pub fn offset_due(sheet: &[u8], i: usize) -> usize
    ensures { result ≡ offset_due sheet.now i }
{
    match i.checked_sub(1) {
        Some(before) => body_end(entry_at(sheet, before)),
        None => table_end(sheet),
    }
}
