// Numbers of digits, most significant first.
ghost use Rattle.std.specs.Prelude.{◌≡◌, ◌+◌, ◌*◌, ◌≤◌};
ghost use Rattle.text_read.specs.Numerals.{numeral, decimal_of, hex_of};

use crate::hex;

// A number with one digit more.
fn longer(n: u32, base: u8, digit: u8) -> u64
    ensures { result ≡ n * base + digit }
{
    n as u64 * base as u64 + digit as u64
}

// The number that the digits say, if it is no more than `most`.
fn numeral(text: &[u8], base: u8, most: u32) -> Option<u32>
    requires { base ≤ 16 }
    ensures { result ≡ numeral base most 0 text.now }
{
    let mut n: u32 = 0;
    for &b in text {
        let digit = hex::digit(b)?;
        if digit >= base {
            return None;
        }
        let next = longer(n, base, digit);
        if next > most as u64 {
            return None;
        }
        n = next as u32;
    }
    Some(n)
}

// A decimal number without a zero in front, no more than `most`.
#[tactic(auto, using(crate::proofs::Numerals::decimal_empty, crate::proofs::Numerals::decimal_one, crate::proofs::Numerals::decimal_zero, crate::proofs::Numerals::decimal_many))]
pub fn decimal(text: &[u8], most: u32) -> Option<u32>
    ensures { result ≡ decimal_of most text.now }
{
    match text {
        [] => None,
        [first, _, ..] if *first == b'0' => None,
        _ => numeral(text, 10, most),
    }
}

// A number of just so many hex digits, no more than eight.
pub fn hex_word(text: &[u8], digits: usize) -> Option<u32>
    ensures { result ≡ hex_of digits text.now }
{
    if text.len() != digits {
        return None;
    }
    numeral(text, 16, 0xFFFF_FFFF)
}
