// The words of a line.
ghost use Rattle.std.specs.Prelude.{◌≡◌};
ghost use Rattle.rules.specs.Text.{decimal, flash_text, status_text, kind_text};
ghost use Rattle.text_out.specs.Out.{out, add};

use rules::{Flash, Kind, Status};
use text_out::{put_bytes, put_decimal, put_hex2};

// Two digits, or L1.
#[tactic(auto, unfolding(rules::specs::Text::status_text))]
pub fn put_status(buf: &mut [u8], at: usize, status: Status) -> usize
    ensures { out result buf.new ≡ add (status_text status) (out at buf.old) }
{
    match status {
        Status::Byte(b) => put_hex2(buf, at, b),
        Status::L1 => put_bytes(buf, at, b"L1"),
    }
}

#[tactic(auto, unfolding(rules::specs::Text::kind_text))]
pub fn put_kind(buf: &mut [u8], at: usize, kind: Kind) -> usize
    ensures { out result buf.new ≡ add (kind_text kind) (out at buf.old) }
{
    match kind {
        Kind::Erase => put_bytes(buf, at, b"erase"),
        Kind::Write => put_bytes(buf, at, b"write"),
        Kind::Verify => put_bytes(buf, at, b"verify"),
        Kind::Sum => put_bytes(buf, at, b"sum"),
        Kind::Blank => put_bytes(buf, at, b"blank"),
        Kind::Lock => put_bytes(buf, at, b"lock"),
    }
}

#[tactic(auto, unfolding(rules::specs::Text::flash_text))]
pub fn put_flash(buf: &mut [u8], at: usize, f: Flash) -> usize
    ensures { out result buf.new ≡ add (flash_text f) (out at buf.old) }
{
    match f {
        Flash::Code => put_bytes(buf, at, b"code"),
        Flash::Data => put_bytes(buf, at, b"data"),
    }
}

// A word and a number.
pub fn put_count(buf: &mut [u8], at: usize, word: &[u8], n: usize) -> usize
    ensures { out result buf.new ≡ add (decimal n) (add word.now (out at buf.old)) }
{
    let at = put_bytes(buf, at, word);
    put_decimal(buf, at, n)
}
