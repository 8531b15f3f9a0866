// The chip that a line names: `small`, `large`, or its counts of blocks `C D`.
ghost use Rattle.std.specs.Prelude.{◌≡◌, ◌≤◌};
ghost use Rattle.text_read.specs.Chips.{space_in, counts_of, counts_named, chip_named};

use crate::number::decimal;
use crate::part;
use octets::numbers::byte_at;
use rules::Chip;

// Where the space behind the first count stands: a count has at most three digits.
fn space_in(text: &[u8]) -> usize
    ensures { (result ≡ space_in text.now) × (result ≤ 3) }
{
    if byte_at(text, 1) == b' ' {
        return 1;
    }
    if byte_at(text, 2) == b' ' {
        return 2;
    }
    3
}

#[tactic(auto, unfolding(crate::specs::Chips::counts_of))]
fn counts(c: Option<u32>, d: Option<u32>) -> Option<Chip>
    ensures { result ≡ counts_of c d }
{
    let (code, data) = (c?, d?);
    Some(Chip {
        code: (code % 65536) as u16,
        data: (data % 65536) as u16,
    })
}

// The chip of the counts `C D`.
fn counted(text: &[u8]) -> Option<Chip>
    ensures { result ≡ counts_named text.now }
{
    let k = space_in(text);
    if byte_at(text, k) != b' ' {
        return None;
    }
    let code = decimal(part::between(text, 0, k), 255);
    let data = decimal(part::rest(text, k + 1), 255);
    counts(code, data)
}

pub fn chip(text: &[u8]) -> Option<Chip>
    ensures { result ≡ chip_named text.now }
{
    if text == b"small".as_slice() {
        return Some(chip_finder::small());
    }
    if text == b"large".as_slice() {
        return Some(chip_finder::large());
    }
    counted(text)
}
