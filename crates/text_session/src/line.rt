// A line of a capture by itself.
ghost use Rattle.std.specs.Prelude.{◌≡◌, cond, [], ◌∷◌, eqb};
ghost use Rattle.rules.specs.Chip.{same};
ghost use Rattle.rules.specs.Lines.{row_bytes};
ghost use Rattle.rules.specs.Capture.{is_line, given};
ghost use Rattle.text_session.specs.Session.{has_sign};

use text_read::{part, rows};

// Whether a line begins as one that has pairs.
fn has_sign(line: &[u8]) -> bool
    ensures { result ≡ has_sign line.now }
{
    matches!(line, [b'>' | b'<', ..])
}

// Whether a line is of good form, without its LF.
pub fn is_line(line: &[u8]) -> bool
    ensures { result ≡ is_line line.now }
{
    if line == b"!".as_slice() {
        return true;
    }
    if !has_sign(line) {
        return false;
    }
    rows::is_bytes(part::rest(line, 1))
}

// The row of an answer line; that of any other line has no bytes.
pub fn given_row<'a>(line: &'a [u8]) -> &'a [u8]
    ensures { row_bytes result.now ≡ given line.now }
{
    line.strip_prefix(b"<").unwrap_or(&[])
}

// Whether a line fits behind so many lines: the first is a power-on, a later one gives just what is due.
pub fn fits(done: usize, line: &[u8], right: bool) -> bool
    ensures { result ≡ cond (eqb done 0) (same line.now (0x21 ∷ [])) right }
{
    if done == 0 {
        return line == b"!".as_slice();
    }
    right
}
