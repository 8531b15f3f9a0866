// A whole command frame: its own faults are answered (rows 1 to 4 of the status table); else its command is refused or done.
#![tactic(auto)]

ghost use Rattle.std.specs.Prelude.{◌≡◌, ◌≤◌, length, Err};
ghost use Rattle.rules.specs.declared.Task.TheVariants.{Idle};
ghost use Rattle.rules.specs.Chip.{Memory};
ghost use Rattle.rules.specs.Frame.{one, status_byte, note_of};
ghost use Rattle.rules.specs.StandIn.{out, noted, rest, phase_after, on_command, lent_verdict};
ghost use Rattle.chip_finder.specs.LentFlashes.{memory};
ghost use Rattle.frame_build.specs.Buffer.{frame_in};
ghost use Rattle.standin_state.specs.View.{idle, Comes, Fits, handed};

use rules::{Chip, Fault, Note, Options, Phase, REPLY_ROOM, Task};
use standin_state::lent::lent_verdict;
use standin_state::resting::unanswered;
use standin_state::{Core, Response};
use standin_verdict::phases::phase_after;

mod orders;

// A status byte answered, with that note: flash and options stand.
// stays: (speed, docs/SPEED.md, "Who answers a refusal") it takes byte and note, and no fault: it is small, so that the compiler puts it where a
// command is refused and the answer of one that is done does not go through memory; nor does its empty note.
pub(crate) fn refuse_with(
    phase: Phase,
    o: Options,
    status: u8,
    note: Option<Note>,
    reply: &mut [u8; REPLY_ROOM],
) -> Response
    ensures { (m : Memory) → Comes result m reply.new (noted note (out (rest phase Idle o m) (one status))) reply.old }
{
    let n = frame_build::put_one(reply, status);
    Response::resting(phase, Task::Idle, o, n, note)
}

// A fault answered.
fn refuse(phase: Phase, o: Options, fault: Fault, reply: &mut [u8; REPLY_ROOM]) -> Response
    ensures { (m : Memory) → Comes result m reply.new (noted (note_of (Err fault)) (out (rest (phase_after phase (Err fault)) Idle o m) (one (status_byte (Err fault))))) reply.old }
{
    let v = Err(fault);
    let status = frame_judge::status_byte(v);
    let after = phase_after(phase, v);
    let note = frame_judge::note_of(v);
    refuse_with(after, o, status, note, reply)
}

// The frame judged by its own rows, then by its command.
fn judged(
    chip: Chip,
    c: Core,
    frame: &[u8; 260],
    code: &mut [u8],
    data: &mut [u8],
    reply: &mut [u8; REPLY_ROOM],
) -> Response
    requires { Fits chip code.old «data».old reply.old }
    ensures { Comes result (memory code.new «data».new) reply.new (on_command chip (idle c (memory code.old «data».old)) (frame_in frame.now)) reply.old }
{
    let phase = c.phase;
    let o = c.options;
    if let Err(fault) = frame_judge::judge_command(frame, phase) {
        return refuse(phase, o, fault, reply);
    }
    let buffer: &[u8] = frame;
    // the frame alone: past its end every field reads as 0, in code as in the definition
    let f = &buffer[0..frame_judge::frame_size(buffer[1])];
    orders::obey(chip, c, f, code, data, reply)
}

// A whole command frame. Where what is lent does not fit (D1 to D3) all stands and nothing is answered.
pub fn on_command(
    chip: Chip,
    c: Core,
    frame: &[u8; 260],
    code: &mut [u8],
    data: &mut [u8],
    reply: &mut [u8],
) -> Response
    ensures { Comes result (memory code.new «data».new) reply.new (handed (lent_verdict chip (length code.old) (length «data».old) (length reply.old)) (idle c (memory code.old «data».old)) (on_command chip (idle c (memory code.old «data».old)) (frame_in frame.now))) reply.old }
{
    match lent_verdict(chip, code.len(), data.len(), reply.len()) {
        Ok(()) => match reply.first_chunk_mut() {
            Some(room) => judged(chip, c, frame, code, data, room),
            None => unanswered(c),
        },
        Err(_) => unanswered(c),
    }
}
