// The sheet in hand: the lines `sheet HH HH ..` put it together in a lent buffer.
ghost use Rattle.std.specs.Prelude.{◌≡◌, cond};
ghost use Rattle.rules.specs.Text.{ascii};
ghost use Rattle.rules.specs.Lines.{between, starts_with};
ghost use Rattle.text_read.specs.Sheets.{no_sheet, beginning, Held, after_line};

use crate::{part, rows};

// How many bytes it has. It grows from its first line up to a line of another kind.
// stays: no flag with its value, since the size is kept when the sheet no longer grows (`after_line`).
#[derive(Clone, Copy)]
pub struct InHand {
    pub growing: bool,
    pub size: usize,
}

// Where the row begins in `sheet HH ..`.
pub const ROW: usize = 5;

// Before the first line.
pub fn empty() -> InHand
    ensures { result ≡ no_sheet }
{
    InHand {
        growing: false,
        size: 0,
    }
}

// Whether a line is one of a sheet, if it is a good one.
pub fn begins(line: &[u8]) -> bool
    ensures { result ≡ starts_with (ascii "sheet") line.now }
{
    part::starts_with(line, b"sheet")
}

// Where the bytes of the next such line go: behind those of a sheet that grows.
fn beginning(h: InHand) -> usize
    ensures { result ≡ beginning h }
{
    if h.growing {
        return h.size;
    }
    0
}

// After a good line: one of a sheet adds its bytes, or begins a new sheet; any other closes the sheet.
pub fn after(h: InHand, line: &[u8], buffer: &mut [u8]) -> InHand
    ensures { ◌≡◌ {A = Held} (record { hand = result; bytes = buffer.new }) (after_line h line.now buffer.old) }
{
    if !begins(line) {
        return InHand {
            growing: false,
            size: h.size,
        };
    }
    let end = rows::store(buffer, beginning(h), part::rest(line, ROW));
    InHand {
        growing: true,
        size: end,
    }
}

// Its bytes, in the buffer that was lent.
pub fn bytes<'a>(h: InHand, buffer: &'a [u8]) -> &'a [u8]
    ensures { result.now ≡ between 0 h.size buffer.now }
{
    part::between(buffer, 0, h.size)
}
