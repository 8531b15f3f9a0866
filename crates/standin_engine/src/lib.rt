// One received byte: the small state by value, the frame in hand in a lent buffer, both flashes and the reply buffer lent.
#![tactic(auto)]

ghost use Rattle.std.specs.Prelude.{◌≡◌, ℕ, ◌+◌, ◌<◌, ◌≤◌, List, [], length};
ghost use Rattle.rules.specs.Answers.{Answer};
ghost use Rattle.rules.specs.Notes.{Empty};
ghost use Rattle.rules.specs.Chip.{Memory};
ghost use Rattle.rules.specs.Frame.{frame_size, len_of};
ghost use Rattle.rules.specs.Numbers.{call_number};
ghost use Rattle.rules.specs.StandIn.{byte_call, receive, answered, received, listening};
ghost use Rattle.chip_finder.specs.LentFlashes.{memory};
ghost use Rattle.standin_engine.specs.View.{view, call_outcome, held_count, holds};
ghost use Rattle.standin_engine.specs.Change.{Takes, call_of, change_outcome, core_outcome};
ghost use Rattle.standin_engine.specs.Stands.{Stands};

use rules::{Chip, Note, Phase, Refusal, Task};
use standin_state::{Core, Response, lent, resting, tasks};

pub mod frames;

// What a byte that is not refused changes: how many bytes of a frame are held, with nothing answered or noted, or the device by a whole frame or a mode
// byte. So a byte that only goes on with a frame does not hand the device about.
#[derive(Clone, Copy)]
pub enum Change {
    Held(usize),
    Whole(Response),
}

// What a byte call answers: refused, or so many bytes; and the note.
#[derive(Clone, Copy)]
pub struct ByteAnswer {
    pub call: Result<usize, Refusal>,
    pub note: Option<Note>,
}

// The small state after a call, and what the call answered.
#[derive(Clone, Copy)]
pub struct CoreAfter {
    pub core: Core,
    pub answer: ByteAnswer,
}

impl CoreAfter {
    // What a call came to, by what it changed in the record given: refused, the record stands.
    pub fn by_change(c: Core, changed: Result<Change, Refusal>) -> CoreAfter
        ensures outcome { (frame : List ℕ) (m : Memory) (reply : List ℕ) → core_outcome result frame m reply ≡ change_outcome c changed frame m reply }
        ensures call_value { result.answer.call ≡ call_of changed }
        ensures stands { Stands (call_number (call_of changed)) c result.core }
    {
        let (core, call, note) = match changed {
            Ok(Change::Held(n)) => {
                // changed in place: put together by `Core { have: n, ..c }` it goes field by field, and around it `answers` zeroes and copies whole records
                let mut held = c;
                held.have = n;
                (held, Ok(0), None)
            }
            Ok(Change::Whole(h)) => (h.core, Ok(h.answered), h.note),
            Err(refusal) => (c, Err(refusal), None),
        };
        CoreAfter {
            core,
            answer: ByteAnswer { call, note },
        }
    }
}

// How many bytes of a frame the buffer holds: a count that no buffer holds, or at or past its LEN's end, is none.
pub fn held_count(have: usize, held: &[u8; 260]) -> usize
    ensures { (result ≡ held_count have held.now) × (result < 260) }
{
    if have < 2 || have < frame_judge::frame_size(held[1]) {
        have
    } else {
        0
    }
}

// Where the last byte of the frame in hand stands, once its LEN has come.
fn last_place(held: &[u8; 260]) -> usize
    ensures { (result + 1 ≡ frame_size (len_of held.now)) × (result < 260) }
{
    frame_judge::frame_size(held[1]) - 1
}

// Nothing is held: the byte begins a frame if it is the start byte awaited, else it is skipped. How many bytes are then held.
fn begin(chip: Chip, c: Core, byte: u8, held: &mut [u8; 260]) -> usize
    requires { received c.have held.old ≡ [] }
    ensures { (m : Memory) (reply : List ℕ) → call_outcome (view (holds c result) held.new m) (Answer 0) Empty reply ≡ answered (receive chip (view c held.old m) [] byte) reply }
{
    if byte != tasks::start_of(tasks::task_now(chip, c.phase, c.task)) {
        return 0;
    }
    held[0] = byte;
    1
}

// A byte past the LEN of a frame: it goes on with the frame, which is the way of most bytes and so the first, or completes it. A count past the
// frame's end holds nothing. Answered is how many bytes of a frame are then held, or none where the frame is whole: nothing of the device, so a byte
// that only goes on with a frame is a number also where the engine is not put into its caller.
fn go_on(chip: Chip, c: Core, byte: u8, held: &mut [u8; 260]) -> Option<usize>
    requires { 2 ≤ c.have }
    ensures { Takes chip c byte held.old held.new result }
{
    let have = c.have;
    let last = last_place(&*held);
    if have < last {
        held[have] = byte;
        Some(have + 1)
    } else if have == last {
        held[have] = byte;
        None
    } else {
        Some(begin(chip, c, byte, held))
    }
}

// A byte in a phase that takes frames: it goes on with one or completes one, or begins one. With two bytes no frame is whole.
// stays: no match over the count, which asks for none and one first; most bytes come behind LEN.
fn receive(chip: Chip, c: Core, byte: u8, held: &mut [u8; 260]) -> Option<usize>
    ensures { Takes chip c byte held.old held.new result }
{
    if 2 <= c.have {
        return go_on(chip, c, byte, held);
    }
    if c.have == 1 {
        held[1] = byte;
        return Some(2);
    }
    Some(begin(chip, c, byte, held))
}

// The phases that take frames: not the one that waits for a mode byte, nor silence.
pub fn listens(phase: Phase) -> bool
    ensures { result ≡ listening phase }
{
    matches!(phase, Phase::Speed | Phase::Ident | Phase::Command)
}

// The byte call, answered by what it changes: the refusals first, then the byte by its phase. Each way answers by itself: where all are joined in one value,
// an engine that stays a call fills the whole of it for a byte that only goes on.
// stays: (speed, docs/DESIGN-PASS.md) asked first whether the phase takes frames, which is one comparison; a match over all phases made the phase a wider number at each byte.
// stays: both flashes and the reply buffer are parameters one by one, here and in the calls above (public signatures; C lends each by itself: `rattle_called`).
pub fn byte_change(
    chip: Chip,
    c: Core,
    byte: u8,
    held: &mut [u8; 260],
    code: &mut [u8],
    data: &mut [u8],
    reply: &mut [u8],
) -> Result<Change, Refusal>
    ensures reply_after { change_outcome c result held.new (memory code.new «data».new) reply.new ≡ byte_call chip (view c held.old (memory code.old «data».old)) reply.old byte }
    ensures stands { Stands (call_number (call_of result)) held.old held.new }
{
    lent::lent_verdict(chip, code.len(), data.len(), reply.len())?;
    if !listens(c.phase) {
        match c.phase {
            Phase::Silent => return Ok(Change::Held(c.have)),
            _ => {
                return Ok(Change::Whole(Response {
                    core: resting::at_rest(tasks::after_mode(byte), Task::Idle, c.options),
                    answered: 0,
                    note: None,
                }));
            }
        }
    }
    if let Some(n) = receive(chip, c, byte, held) {
        return Ok(Change::Held(n));
    }
    Ok(Change::Whole(frames::on_frame(chip, c, &*held, code, data, reply)))
}

// The byte call, answered by the whole small state.
pub fn byte_core(
    chip: Chip,
    c: Core,
    byte: u8,
    held: &mut [u8; 260],
    code: &mut [u8],
    data: &mut [u8],
    reply: &mut [u8],
) -> CoreAfter
    ensures reply_after { core_outcome result held.new (memory code.new «data».new) reply.new ≡ byte_call chip (view c held.old (memory code.old «data».old)) reply.old byte }
    ensures stands { Stands (call_number result.answer.call) c result.core }
    ensures stands_2 { Stands (call_number result.answer.call) held.old held.new }
{
    CoreAfter::by_change(c, byte_change(chip, c, byte, held, code, data, reply))
}
