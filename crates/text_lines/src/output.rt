// Bytes as text, put into a lent line from `at` on: each answers where the next goes. What the line has no room for is left out.
ghost use Rattle.std.specs.Prelude.{◌≡◌};
ghost use Rattle.text_out.specs.Out.{out, add};
ghost use Rattle.text_lines.specs.Rows.{byte_text, word_text, row_text};

use text_out::{put, put_hex2, put_hex4};

// A space and two digits.
#[tactic(auto, using(crate::proofs::Spaced::spaced), unfolding(crate::specs::Rows::byte_text))]
pub fn byte(line: &mut [u8], at: usize, byte: u8) -> usize
    ensures { out result line.new ≡ add (byte_text byte) (out at line.old) }
{
    let at = put(line, at, b' ');
    put_hex2(line, at, byte)
}

// A space and four digits.
#[tactic(auto, using(crate::proofs::Spaced::spaced), unfolding(crate::specs::Rows::word_text))]
pub fn word(line: &mut [u8], at: usize, word: u16) -> usize
    ensures { out result line.new ≡ add (word_text word) (out at line.old) }
{
    let at = put(line, at, b' ');
    put_hex4(line, at, word)
}

// A space and two digits for each byte.
#[tactic(auto, using(crate::proofs::Spaced::row_more, crate::proofs::Spaced::row_end))]
pub fn row(line: &mut [u8], from: usize, bytes: &[u8]) -> usize
    ensures { out result line.new ≡ add (row_text bytes.now) (out from line.old) }
{
    let mut at = from;
    for &b in bytes {
        at = byte(line, at, b);
    }
    at
}
