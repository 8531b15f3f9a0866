// The whole text of a sheet.
ghost use Rattle.std.specs.Prelude.{◌≡◌, ◌≤◌, length, take};
ghost use Rattle.text_out.specs.Out.{out, add, Filled};
ghost use Rattle.text_show.specs.Show.{job_text, judged_text, show_text};

use crate::map::put_map;
use crate::refused::put_refused;
use crate::steps::{put_frames, put_steps};
use crate::words::{put_chip, put_form};
use rules::Refusal;
use sheet::judge::sheet_verdict;
use sheet::table::against;

// Of an accepted sheet: its chip, its steps, the most frames, the map.
fn put_job(buf: &mut [u8], at: usize, sheet: &[u8]) -> usize
    ensures { out result buf.new ≡ add (job_text sheet.now) (out at buf.old) }
{
    let chip = against(sheet);
    let at = put_chip(buf, at, chip);
    let at = put_steps(buf, at, chip, sheet);
    let at = put_frames(buf, at, chip, sheet);
    put_map(buf, at, chip, sheet)
}

fn put_judged(buf: &mut [u8], at: usize, sheet: &[u8], verdict: Result<(), Refusal>) -> usize
    ensures { out result buf.new ≡ add (judged_text sheet.now verdict) (out at buf.old) }
{
    match verdict {
        Ok(()) => put_job(buf, at, sheet),
        Err(refusal) => put_refused(buf, at, sheet, refusal),
    }
}

// The text over the first bytes of the buffer; how many there are. A buffer of 8,192 bytes has room for all of it.
pub fn tell(sheet: &[u8], text: &mut [u8]) -> usize
    ensures filled { Filled (show_text sheet.now) text.old result text.new }
    ensures text_after { 8192 ≤ length text.old → take result text.new ≡ show_text sheet.now }
{
    let verdict = sheet_verdict(sheet);
    let at = put_form(text, 0, sheet);
    put_judged(text, at, sheet, verdict)
}
