// A refusal as text.
ghost use Rattle.std.specs.Prelude.{◌≡◌};
ghost use Rattle.text_out.specs.Out.{out, add, Filled};
ghost use Rattle.text_hex.specs.Told.{line_told, refusal_told};

use rules::hex::HexRefusal;
use text_out::{put_bytes, put_decimal};

// Room for the longest: 78 bytes beside the number of a line, which has at most 20 digits.
pub const ROOM: usize = 128;

fn put_line(buf: &mut [u8], n: usize, words: &[u8]) -> usize
    ensures { out result buf.new ≡ add (line_told n words.now) (out 0 buf.old) }
{
    let number = put_bytes(buf, 0, b"hex: line ");
    let fault = put_decimal(buf, number, n);
    put_bytes(buf, fault, words)
}

// The line that tells of a refusal, from the first byte of a buffer on.
pub fn put_refusal(buf: &mut [u8], h: HexRefusal) -> usize
    ensures { Filled (refusal_told h) buf.old result buf.new }
{
    match h {
        HexRefusal::BadForm(n) => put_line(buf, n, b": bad form\n"),
        HexRefusal::WrongSum(n) => put_line(buf, n, b": wrong sum\n"),
        HexRefusal::OtherType(n) => put_line(
            buf,
            n,
            b": record type other than 00, 01, 04: write the file with 04 records\n",
        ),
        HexRefusal::Outside(n) => put_line(buf, n, b": byte outside the flashes\n"),
        HexRefusal::Twice(n) => put_line(buf, n, b": byte given twice\n"),
        HexRefusal::AfterEnd(n) => put_line(buf, n, b": a line after the end record\n"),
        HexRefusal::NoEnd => put_bytes(buf, 0, b"hex: no end record\n"),
        HexRefusal::ManySteps => put_bytes(
            buf,
            0,
            b"hex: over 64 steps: at most 21 blocks a sheet, split the image\n",
        ),
        HexRefusal::ManyBytes => put_bytes(
            buf,
            0,
            b"hex: over 65,536 bytes: at most 15 code blocks a sheet, split the image\n",
        ),
        HexRefusal::ShortBuffer => put_bytes(buf, 0, b"hex: output buffer too short\n"),
    }
}
