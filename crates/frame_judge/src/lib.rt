// Judging the whole frame that a buffer holds by its own LEN, in the order of the status table.
#![tactic(auto)]

ghost use Rattle.std.specs.Prelude.{◌≡◌, ◌≤◌, cond, eqb};
ghost use Rattle.rules.specs.Faults.{Well, EndByte, Sum};
ghost use Rattle.rules.specs.First.{first_fault};
ghost use Rattle.rules.specs.Frame.{body_size, frame_size, end_of, end_due, sum_holds, status_byte, note_of, data_fault};
ghost use Rattle.rules.specs.Command.{phase_number, frame_checks};
ghost use Rattle.frame_build.specs.Buffer.{frame_in};

use crate::table::row_of;
use frame_build::adds_up;
use rules::{Fault, Note, Phase};

pub mod table;

// How many bytes the body has, and the frame: LEN 00h means 256.
pub fn body_size(len: u8) -> usize
    ensures { (result ≡ body_size len) × (result ≤ 256) }
{
    usize::from(len.wrapping_sub(1)) + 1
}

pub fn frame_size(len: u8) -> usize
    ensures { (result ≡ frame_size len) × (result ≤ 260) × (5 ≤ result) }
{
    body_size(len) + 4
}

// stays: the byte of each row of the status table (`status_byte` of rules, in the order of 01's table); two rows have one byte, so no discriminants.
pub fn status_byte(v: Result<(), Fault>) -> u8
    ensures { result ≡ status_byte v }
{
    match v {
        Ok(()) => 0x06,
        Err(Fault::EndByte | Fault::Length(_, _)) => 0x15,
        Err(Fault::Sum) => 0x07,
        Err(Fault::Code) => 0x04,
        Err(Fault::Parameter) => 0x05,
        Err(Fault::Ident) => 0x24,
        Err(Fault::NotBlank(_)) => 0x1B,
        Err(Fault::Protected) => 0x10,
        Err(Fault::PageNotBlank) => 0x1C,
        Err(Fault::Difference) => 0x0F,
    }
}

// What the note tells of a verdict.
pub fn note_of(v: Result<(), Fault>) -> Option<Note>
    ensures { result ≡ note_of v }
{
    match v {
        Err(Fault::EndByte) => Some(Note::EndByte),
        Err(Fault::Length(due, found)) => Some(Note::Length(due, found)),
        Err(Fault::NotBlank(note)) => note,
        _ => None,
    }
}

pub fn phase_number(p: Phase) -> u8
    ensures { result ≡ phase_number p }
{
    p as u8
}

// The byte that stands where LEN looks for the end byte.
fn end_of(frame: &[u8; 260]) -> u8
    ensures { result ≡ end_of frame.now }
{
    frame[body_size(frame[1]) + 3]
}

// The end byte that is due: 03h for the last data frame, 17h where more follow.
pub fn end_due(last: bool) -> u8
    ensures { result ≡ end_due last }
{
    if last { 0x03 } else { 0x17 }
}

// Whether the frame's line of additions comes to 00h: from LEN up to and with SUM, which stands before the end byte.
fn sum_holds(frame: &[u8; 260]) -> bool
    ensures { result ≡ sum_holds frame.now }
{
    adds_up(&frame[1..body_size(frame[1]) + 3])
}

// Rows 1 and 2 of the status table, which every frame has: the end byte against the one due, then SUM.
fn judge_ends(frame: &[u8; 260], end: u8) -> Result<(), Fault>
    ensures { result ≡ cond (eqb (end_of frame.now) end) (cond (sum_holds frame.now) Well Sum) EndByte }
{
    if end_of(frame) != end {
        return Err(Fault::EndByte);
    }
    if !sum_holds(frame) {
        return Err(Fault::Sum);
    }
    Ok(())
}

// Rows 1 to 4 of the status table for a command frame: end byte, SUM, code and phase, LEN; the first that applies.
pub fn judge_command(frame: &[u8; 260], phase: Phase) -> Result<(), Fault>
    ensures { result ≡ first_fault (frame_checks phase (frame_in frame.now)) }
{
    judge_ends(frame, 0x03)?;
    let len = frame[1];
    let (due, number) = row_of(frame[2]).ok_or(Fault::Code)?;
    if number != phase_number(phase) {
        return Err(Fault::Code);
    }
    if len != due {
        return Err(Fault::Length(due, len));
    }
    Ok(())
}

// The verdict on a data frame, the last one due or one before it.
pub fn judge_data(frame: &[u8; 260], last: bool) -> Result<(), Fault>
    ensures { result ≡ data_fault last (frame_in frame.now) }
{
    judge_ends(frame, end_due(last))?;
    let len = frame[1];
    if len != 0x00 {
        return Err(Fault::Length(0x00, len));
    }
    Ok(())
}
