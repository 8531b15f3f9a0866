// A line of a HEX text by itself: a record, or what is wrong with it.
#![tactic(auto)]

ghost use Rattle.std.specs.Prelude.{◌≡◌, ◌+◌, ◌*◌, ◌%◌, ◌<◌};
ghost use Rattle.rules.specs.Chip.{total};
ghost use Rattle.rules.specs.Lines.{pair_bytes};
ghost use Rattle.rules.specs.Hex.{without_cr, type_form, typed, record_kind, line_kind};

use octets::numbers::byte_at;
use rules::hex::{HexFault, HexLine};
use text_read::part;
use text_read::rows::{is_pairs, pairs_byte, pairs_count};

// A line without one CR at its end.
#[tactic(auto, unfolding(rules::specs::Hex::without_cr))]
pub fn without_cr<'a>(line: &'a [u8]) -> &'a [u8]
    ensures { result.now ≡ without_cr line.now }
{
    match line {
        [rest @ .., last] if *last == b'\r' => rest,
        _ => line,
    }
}

// A byte as a wider number, and a number of two bytes, high byte first.
pub fn wide(x: u8) -> usize
    ensures { (result ≡ x) × (result < 256) }
{
    x as usize
}

pub fn joined(high: u8, low: u8) -> usize
    ensures { (result ≡ 256 * high + low) × (result < 65536) }
{
    256 * wide(high) + wide(low)
}

// One byte added, modulo 256.
fn plus(sum: u8, byte: u8) -> u8
    ensures { result ≡ (sum + byte) % 256 }
{
    sum.wrapping_add(byte)
}

// What a record's bytes come to, modulo 256.
fn sum_of(row: &[u8]) -> u8
    ensures { result ≡ total (pair_bytes row.now) % 256 }
{
    let mut sum: u8 = 0;
    // stays: the bytes are read from the row's text by their places; a chain over the places is no plainer
    for k in 0..pairs_count(row) {
        sum = plus(sum, pairs_byte(row, k));
    }
    sum
}

// The form that a type asks for: bytes up to offset FFFFh, no bytes, two bytes.
fn type_form(row: &[u8]) -> bool
    ensures { result ≡ type_form (pair_bytes row.now) }
{
    let kind = pairs_byte(row, 3);
    let n = wide(pairs_byte(row, 0));
    match kind {
        0 => joined(pairs_byte(row, 1), pairs_byte(row, 2)) + n <= 0x10000,
        1 => n == 0,
        4 => n == 2,
        _ => true,
    }
}

#[tactic(auto, using(crate::proofs::Records::typed_bytes, crate::proofs::Records::typed_end, crate::proofs::Records::typed_upper, crate::proofs::Records::typed_other))]
// stays: no `TryFrom`, since the rules make one answer of a record's type and of what is wrong with its line (`typed` of rules).
fn typed(kind: u8) -> Result<HexLine, HexFault>
    ensures { result ≡ typed kind }
{
    match kind {
        0 => Ok(HexLine::Bytes),
        1 => Ok(HexLine::End),
        4 => Ok(HexLine::Upper),
        _ => Err(HexFault::OtherType),
    }
}

fn record_kind(row: &[u8]) -> Result<HexLine, HexFault>
    ensures { result ≡ record_kind (pair_bytes row.now) }
{
    if pairs_count(row) != wide(pairs_byte(row, 0)) + 5 {
        return Err(HexFault::BadForm);
    }
    if !type_form(row) {
        return Err(HexFault::BadForm);
    }
    if sum_of(row) != 0 {
        return Err(HexFault::WrongSum);
    }
    typed(pairs_byte(row, 3))
}

// What a line is, without its LF and CR.
pub fn kind_of(line: &[u8]) -> Result<HexLine, HexFault>
    ensures { result ≡ line_kind line.now }
{
    if byte_at(line, 0) != b':' {
        return Err(HexFault::BadForm);
    }
    let row = part::rest(line, 1);
    if !is_pairs(row) {
        return Err(HexFault::BadForm);
    }
    record_kind(row)
}
