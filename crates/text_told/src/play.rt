// The text of a play: heading, a line for each step that was begun, end line.
ghost use Rattle.std.specs.Prelude.{◌≡◌, ◌<◌, get_or};
ghost use Rattle.rules.specs.Sheet.{count};
ghost use Rattle.rules.specs.Text.{stopped, line_at, lines_from, play_text};
ghost use Rattle.text_out.specs.Out.{out, add, Filled};

use crate::lines::{put_end, put_step};
use rules::{Chip, Report, Status};
use sheet::steps::step_at;
use sheet::table::count;
use text_out::put_bytes;

#[tactic(auto, unfolding(rules::specs::Text::stopped))]
fn is_stopped(status: Status) -> bool
    ensures { result ≡ stopped status }
{
    !matches!(status, Status::Byte(0x06))
}

// The entry of step i in a list of what each step came to; past its end, none was.
fn entry_of<T: Copy>(list: &[T], i: usize, none: T) -> T
    ensures { result ≡ get_or list.now i none }
{
    list.get(i).copied().unwrap_or(none)
}

// The line of step i: finished, stopped, or none.
fn put_line(
    buf: &mut [u8],
    at: usize,
    chip: Chip,
    sheet: &[u8],
    report: Report,
    sums: &[u16],
    frames: &[usize],
    i: usize,
) -> usize
    requires { i < 65536 }
    ensures { out result buf.new ≡ add (line_at chip sheet.now report sums.now frames.now i) (out at buf.old) }
{
    let t = step_at(chip, sheet, i);
    let kind = t.kind;
    let sent = entry_of(frames, i, 0);
    let sum = entry_of(sums, i, 0);
    let status = report.status;
    if i < report.steps {
        return put_step(buf, at, i + 1, kind, Status::Byte(0x06), sent, sum);
    }
    if report.steps < i {
        return at;
    }
    if is_stopped(status) {
        return put_step(buf, at, i + 1, kind, status, sent, 0);
    }
    at
}

// The lines of all steps.
fn put_lines(
    buf: &mut [u8],
    at: usize,
    chip: Chip,
    sheet: &[u8],
    report: Report,
    sums: &[u16],
    frames: &[usize],
) -> usize
    ensures { out result buf.new ≡ add (lines_from chip sheet.now report sums.now frames.now 0 (count sheet.now)) (out at buf.old) }
{
    let mut next = at;
    // stays: an entry is read from the sheet by its number; there is no slice of entries to go over
    for i in 0..count(sheet) {
        next = put_line(buf, next, chip, sheet, report, sums, frames, i);
    }
    next
}

// The whole text over the first bytes of the buffer; how many there are.
pub fn put_play(
    buf: &mut [u8],
    chip: Chip,
    sheet: &[u8],
    report: Report,
    sums: &[u16],
    frames: &[usize],
) -> usize
    ensures { Filled (play_text chip sheet.now report sums.now frames.now) buf.old result buf.new }
{
    let at = put_bytes(buf, 0, b"step kind status frames sum\n");
    let at = put_lines(buf, at, chip, sheet, report, sums, frames);
    put_end(buf, at, report)
}
