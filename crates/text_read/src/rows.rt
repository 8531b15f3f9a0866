// Rows of bytes: ` HH HH ..` and `HHHH..`. Their form is asked once; then a row acts as the list of its bytes.
ghost use Rattle.std.specs.Prelude.{◌≡◌, ℕ, ◌/◌, ◌<◌, ◌≤◌, List, length, get_or};
ghost use Rattle.std.proofs.Common.{rules};
ghost use Rattle.rules.specs.Lines.{pair, spaced_pair, values, is_row, row_bytes, is_pairs, pair_bytes};
ghost use Rattle.text_read.specs.Bytes.{below, is_good, is_bytes, Stored, stored};
ghost use Rattle.text_read.specs.Units.{pair_bounded, spaced_pair_bounded};

use crate::{hex, part};

// How a row writes a byte: a unit of so many bytes of text.
trait Unit {
    ghost unit: { List ℕ → ℕ };

    ghost SIZE: { ℕ };

    const SIZE: usize;

    // The byte that a text begins with.
    fn byte(text: &[u8]) -> Option<u8>
        ensures { result ≡ below 256 (unit text.now) };

    ghost sized: { 0 < SIZE };

    ghost bounded: { (r : List ℕ) → unit r ≤ 256 };
}

// ` HH`
struct SpacedPair;

impl Unit for SpacedPair {
    ghost unit = { spaced_pair };

    ghost SIZE = { 3 };

    const SIZE: usize = 3;

    fn byte(text: &[u8]) -> Option<u8> {
        hex::spaced_pair(text)
    }

    ghost sized = { Prim.search rules };

    ghost bounded = { spaced_pair_bounded };
}

// `HH`
struct Pair;

impl Unit for Pair {
    ghost unit = { pair };

    ghost SIZE = { 2 };

    const SIZE: usize = 2;

    fn byte(text: &[u8]) -> Option<u8> {
        hex::pair(text)
    }

    ghost sized = { Prim.search rules };

    ghost bounded = { pair_bounded };
}

// How many units a text has.
fn count<U: Unit>(row: &[u8]) -> usize
    ensures { result ≡ length row.now / U.SIZE }
{
    row.len() / U::SIZE
}

// Whether the text is a row of such units; the empty text is a row of none.
fn is_good<U: Unit>(row: &[u8]) -> bool
    ensures { result ≡ is_good U.unit U.SIZE row.now }
{
    if row.len() % U::SIZE != 0 {
        return false;
    }
    // stays: a unit is told by what the row begins with at its place (`all_good`); places of so many bytes each are no list to go over
    for k in 0..count::<U>(row) {
        if U::byte(part::rest(row, k * U::SIZE)).is_none() {
            return false;
        }
    }
    true
}

// Byte `k` of such a row; 0 past its end.
fn byte<U: Unit>(row: &[u8], k: usize) -> u8
    ensures { result ≡ get_or (values U.unit U.SIZE (length row.now / U.SIZE) row.now) k 0 }
{
    if k >= count::<U>(row) {
        return 0;
    }
    U::byte(part::rest(row, k * U::SIZE)).unwrap_or(0)
}

// stays: the functions below name the two rows, for crates that speak of a row and not of its unit; calls with the unit are no plainer.

// Whether the text is a row ` HH HH ..`; the empty text is a row of none.
#[tactic(auto, unfolding(rules::specs::Lines::is_row))]
pub fn is_row(row: &[u8]) -> bool
    ensures { result ≡ is_row row.now }
{
    is_good::<SpacedPair>(row)
}

// Whether it is such a row of at least one byte.
#[tactic(auto, using(crate::proofs::Digits::some_bytes, crate::proofs::Digits::no_bytes))]
pub fn is_bytes(row: &[u8]) -> bool
    ensures { result ≡ is_bytes row.now }
{
    !row.is_empty() && is_row(row)
}

// How many bytes such a row has.
#[tactic(auto, using(crate::proofs::Units::values_length), unfolding(rules::specs::Lines::row_bytes))]
pub fn row_count(row: &[u8]) -> usize
    ensures { result ≡ length (row_bytes row.now) }
{
    count::<SpacedPair>(row)
}

// Byte `k` of such a row; 0 past its end.
#[tactic(auto, unfolding(rules::specs::Lines::row_bytes))]
pub fn row_byte(row: &[u8], k: usize) -> u8
    ensures { result ≡ get_or (row_bytes row.now) k 0 }
{
    byte::<SpacedPair>(row, k)
}

// Whether the text is a row `HHHH..`; the empty text is a row of none.
#[tactic(auto, unfolding(rules::specs::Lines::is_pairs))]
pub fn is_pairs(row: &[u8]) -> bool
    ensures { result ≡ is_pairs row.now }
{
    is_good::<Pair>(row)
}

// How many bytes such a row has.
#[tactic(auto, using(crate::proofs::Units::values_length), unfolding(rules::specs::Lines::pair_bytes))]
pub fn pairs_count(row: &[u8]) -> usize
    ensures { result ≡ length (pair_bytes row.now) }
{
    count::<Pair>(row)
}

// Byte `k` of such a row; 0 past its end.
#[tactic(auto, unfolding(rules::specs::Lines::pair_bytes))]
pub fn pairs_byte(row: &[u8], k: usize) -> u8
    ensures { result ≡ get_or (pair_bytes row.now) k 0 }
{
    byte::<Pair>(row, k)
}

// The bytes of a row ` HH HH ..` into just so many.
fn put(bytes: &mut [u8], row: &[u8])
    requires { length bytes.old ≡ length (row_bytes row.now) }
    ensures { bytes.new ≡ row_bytes row.now }
{
    for (k, byte) in bytes.iter_mut().enumerate() {
        *byte = row_byte(row, k);
    }
}

// Puts the bytes of a row ` HH HH ..` into a lent buffer from `at` on, if it has room for them all; where the next would go.
pub fn store(buffer: &mut [u8], at: usize, row: &[u8]) -> usize
    ensures { ◌≡◌ {A = Stored} (record { end = result; bytes = buffer.new }) (stored at (row_bytes row.now) buffer.old) }
{
    let count = row_count(row);
    if at > buffer.len() {
        return at;
    }
    if count > buffer.len() - at {
        return at;
    }
    put(&mut buffer[at..at + count], row);
    at + count
}
