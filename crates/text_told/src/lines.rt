// The lines, each with its LF: that of a step and the end line, which stand in the text of a play; and those that stand alone.
ghost use Rattle.std.specs.Prelude.{◌≡◌};
ghost use Rattle.rules.specs.Text.{ascii, decimal, kind_text, step_line, end_line, refused_line, busy_line};
ghost use Rattle.text_out.specs.Out.{out, add, Filled};

use crate::words::{put_count, put_kind, put_status};
use rules::numbers::refusal_number;
use rules::{Kind, Refusal, Report, Status};
use text_out::{put, put_bytes, put_decimal, put_hex4};

// `3 sum`
pub fn put_name(buf: &mut [u8], at: usize, number: usize, kind: Kind) -> usize
    ensures { out result buf.new ≡ add (kind_text kind) (add (ascii " ") (add (decimal number) (out at buf.old))) }
{
    let at = put_decimal(buf, at, number);
    let at = put(buf, at, b' ');
    put_kind(buf, at, kind)
}

// `3 sum 06 1 5B00`
pub fn put_step(
    buf: &mut [u8],
    at: usize,
    number: usize,
    kind: Kind,
    status: Status,
    frames: usize,
    sum: u16,
) -> usize
    ensures { out result buf.new ≡ add (step_line number kind status frames sum) (out at buf.old) }
{
    let at = put_name(buf, at, number, kind);
    let at = put(buf, at, b' ');
    let at = put_status(buf, at, status);
    let at = put_count(buf, at, b" ", frames);
    let at = put(buf, at, b' ');
    let at = put_hex4(buf, at, sum);
    put(buf, at, b'\n')
}

// `end SS steps N frames N pieces N`
pub fn put_end(buf: &mut [u8], at: usize, report: Report) -> usize
    ensures { out result buf.new ≡ add (end_line report) (out at buf.old) }
{
    let status = report.status;
    let at = put_bytes(buf, at, b"end ");
    let at = put_status(buf, at, status);
    let at = put_count(buf, at, b" steps ", report.steps);
    let at = put_count(buf, at, b" frames ", report.frames);
    let at = put_count(buf, at, b" pieces ", report.pieces);
    put(buf, at, b'\n')
}

// `refused J7`, over the first bytes of the buffer; how many there are.
pub fn put_refused(buf: &mut [u8], refusal: Refusal) -> usize
    ensures { Filled (refused_line refusal) buf.old result buf.new }
{
    let name = refusal_number(refusal);
    let at = put_bytes(buf, 0, b"refused ");
    let at = put(buf, at, name.letter);
    let at = put_decimal(buf, at, name.number as usize);
    put(buf, at, b'\n')
}

// The refusal that has no number, in the same way.
pub fn put_busy(buf: &mut [u8]) -> usize
    ensures { Filled busy_line buf.old result buf.new }
{
    put_bytes(buf, 0, b"refused busy\n")
}
