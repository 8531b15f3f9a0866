// The words of a line.
ghost use Rattle.std.specs.Prelude.{◌≡◌};
ghost use Rattle.text_out.specs.Out.{out, add};
ghost use Rattle.text_show.specs.Words.{hex5, form_line, chip_line};

use rules::Chip;
use sheet::table::form_two;
use text_out::{hex_digit, put, put_bytes, put_hex4};

// An address as five hex digits.
pub(crate) fn put_hex5(buf: &mut [u8], at: usize, n: u32) -> usize
    ensures { out result buf.new ≡ add (hex5 n) (out at buf.old) }
{
    let first = hex_digit((n / 65536) as u16);
    let at = put(buf, at, first);
    put_hex4(buf, at, (n % 65536) as u16)
}

// `form 2`
pub(crate) fn put_form(buf: &mut [u8], at: usize, sheet: &[u8]) -> usize
    ensures { out result buf.new ≡ add (form_line sheet.now) (out at buf.old) }
{
    if form_two(sheet) {
        return put_bytes(buf, at, b"form 2\n");
    }
    put_bytes(buf, at, b"form 1\n")
}

// `chip 2: 64 code blocks, 32 data blocks`
pub(crate) fn put_chip(buf: &mut [u8], at: usize, chip: Chip) -> usize
    ensures { out result buf.new ≡ add (chip_line chip) (out at buf.old) }
{
    if chip.code == 64 {
        return put_bytes(buf, at, b"chip 2: 64 code blocks, 32 data blocks\n");
    }
    put_bytes(buf, at, b"chip 1: 16 code blocks, 8 data blocks\n")
}
