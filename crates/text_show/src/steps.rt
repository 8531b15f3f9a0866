// A line for each step, and the most frames that a play sends.
ghost use Rattle.std.specs.Prelude.{◌≡◌};
ghost use Rattle.rules.specs.Run.{most_from};
ghost use Rattle.rules.specs.Sheet.{count};
ghost use Rattle.text_out.specs.Out.{out, add};
ghost use Rattle.text_show.specs.Steps.{blocks_text, span_text, range_line, clears_text, lock_line, step_text, steps_from, frames_line};

use crate::words::put_hex5;
use chip_finder::{first_byte, last_byte};
use rules::{Block, Chip, Flags, Flash, Kind, Step};
use sheet::steps::{most_frames, step_at, step_pages};
use sheet::table::count;
use text_out::{put, put_bytes, put_decimal, put_hex2};
use text_told::lines::put_name;
use text_told::words::{put_count, put_flash};

// The bytes of a page.
const PAGE_SIZE: usize = 256;

// `data blocks 0..3`
fn put_blocks(buf: &mut [u8], at: usize, f: Flash, first: Block, last: Block) -> usize
    ensures { out result buf.new ≡ add (blocks_text f first last) (out at buf.old) }
{
    let at = put_flash(buf, at, f);
    let at = put_count(buf, at, b" blocks ", first.0 as usize);
    put_count(buf, at, b"..", last.0 as usize)
}

// `F1000-F13FF`
fn put_span(buf: &mut [u8], at: usize, f: Flash, first: Block, last: Block) -> usize
    ensures { out result buf.new ≡ add (span_text f first last) (out at buf.old) }
{
    let from = first_byte(f, first);
    let to = last_byte(f, last);
    let at = put_hex5(buf, at, from.0);
    let at = put(buf, at, b'-');
    put_hex5(buf, at, to.0)
}

// `2 write data blocks 0..3  F1000-F13FF  1024 bytes`
fn put_range(buf: &mut [u8], at: usize, number: usize, t: Step) -> usize
    ensures { out result buf.new ≡ add (range_line number t) (out at buf.old) }
{
    let pages = step_pages(t);
    let f = t.flash;
    let first = t.first;
    let last = t.last;
    let at = put_name(buf, at, number, t.kind);
    let at = put(buf, at, b' ');
    let at = put_blocks(buf, at, f, first, last);
    let at = put_bytes(buf, at, b"  ");
    let at = put_span(buf, at, f, first, last);
    let at = put_count(buf, at, b"  ", pages * PAGE_SIZE);
    put_bytes(buf, at, b" bytes\n")
}

// ` clears IFPR` (bit 2 of SF2), and the end of the line.
#[tactic(auto, unfolding(crate::specs::Steps::clears_text))]
fn put_clears(buf: &mut [u8], at: usize, flags: Flags) -> usize
    ensures { out result buf.new ≡ add (clears_text flags) (out at buf.old) }
{
    if flags.clears_ifpr() {
        return put_bytes(buf, at, b" clears IFPR\n");
    }
    put_bytes(buf, at, b"\n")
}

// `5 lock SF1 FF SF2 FB clears IFPR`
fn put_lock(buf: &mut [u8], at: usize, number: usize, flags: Flags) -> usize
    ensures { out result buf.new ≡ add (lock_line number flags) (out at buf.old) }
{
    let at = put_decimal(buf, at, number);
    let at = put_bytes(buf, at, b" lock SF1 ");
    let at = put_hex2(buf, at, flags.sf1);
    let at = put_bytes(buf, at, b" SF2 ");
    let at = put_hex2(buf, at, flags.sf2);
    put_clears(buf, at, flags)
}

#[tactic(auto, unfolding(crate::specs::Steps::step_text, rules::specs::Numbers::kind_number))]
fn put_step(buf: &mut [u8], at: usize, number: usize, t: Step) -> usize
    ensures { out result buf.new ≡ add (step_text number t) (out at buf.old) }
{
    match t.kind {
        Kind::Lock => put_lock(buf, at, number, t.flags),
        _ => put_range(buf, at, number, t),
    }
}

// The lines of all steps.
pub(crate) fn put_steps(buf: &mut [u8], at: usize, chip: Chip, sheet: &[u8]) -> usize
    ensures { out result buf.new ≡ add (steps_from chip sheet.now 0 (count sheet.now)) (out at buf.old) }
{
    let mut next = at;
    // stays: an entry is read from the sheet by its number; there is no slice of entries to go over
    for i in 0..count(sheet) {
        next = put_step(buf, next, i + 1, step_at(chip, sheet, i));
    }
    next
}

fn most_sent(chip: Chip, sheet: &[u8]) -> usize
    ensures { result ≡ most_from chip sheet.now 0 (count sheet.now) }
{
    let mut sent = 0;
    // stays: an entry is read from the sheet by its number; there is no slice of entries to go over
    for i in 0..count(sheet) {
        sent += most_frames(step_at(chip, sheet, i));
    }
    sent
}

// `at most 4 frames`
pub(crate) fn put_frames(buf: &mut [u8], at: usize, chip: Chip, sheet: &[u8]) -> usize
    ensures { out result buf.new ≡ add (frames_line chip sheet.now) (out at buf.old) }
{
    let sent = most_sent(chip, sheet);
    let at = put_count(buf, at, b"at most ", sent);
    put_bytes(buf, at, b" frames\n")
}
