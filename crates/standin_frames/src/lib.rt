// The second engine: one whole frame of the kind awaited a call, answered at once (02, M-109). What is not such a frame is refused, with nothing
// changed.
#![tactic(auto)]

ghost use Rattle.std.specs.Prelude.{◌≡◌, true, ◌≤◌, length};
ghost use Rattle.rules.specs.Frame.{whole};
ghost use Rattle.rules.specs.Numbers.{call_number, note_numbers};
ghost use Rattle.rules.specs.StandIn.{received};
ghost use Rattle.rules.specs.WholeFrame.{awaited, frame_call};
ghost use Rattle.chip_finder.specs.LentFlashes.{memory};
ghost use Rattle.standin_engine.specs.View.{view};
ghost use Rattle.standin_engine.specs.Change.{call_of, change_outcome, core_outcome};
ghost use Rattle.standin_engine.specs.Stands.{Stands};
ghost use Rattle.standin.specs.Shows.{shows, answered_as};

use rules::{Chip, Refusal};
use standin::call::{Answered, Device};
use standin_engine::frames::on_frame;
use standin_engine::{Change, CoreAfter};
use standin_state::{Core, lent, tasks};

// One whole frame by its own LEN; it then has no more bytes than a frame can have.
fn is_whole(input: &[u8]) -> bool
    ensures { (result ≡ whole input.now) × (result ≡ true → length input.now ≤ 260) }
{
    input.len() >= 2 && input.len() == frame_judge::frame_size(input[1])
}

// A whole frame of the kind awaited, while the chip takes frames and has none half received.
fn is_awaited(chip: Chip, c: Core, input: &[u8], held: &[u8; 260]) -> bool
    ensures value { result ≡ awaited chip c.phase c.task (received c.have held.now) input.now }
    ensures input_len_bound { result ≡ true → length input.now ≤ 260 }
{
    standin_engine::listens(c.phase)
        && standin_engine::held_count(c.have, held) == 0
        && is_whole(input)
        && input[0] == tasks::start_of(tasks::task_now(chip, c.phase, c.task))
}

// The frame call, answered by what it changes: the refusals D0 to D3, then E1, then the frame.
fn frame_change(
    chip: Chip,
    c: Core,
    input: &[u8],
    held: &mut [u8; 260],
    code: &mut [u8],
    data: &mut [u8],
    reply: &mut [u8],
) -> Result<Change, Refusal>
    ensures reply_after { change_outcome c result held.new (memory code.new «data».new) reply.new ≡ frame_call chip (view c held.old (memory code.old «data».old)) reply.old input.now }
    ensures stands { Stands (call_number (call_of result)) held.old held.new }
{
    lent::lent_verdict(chip, code.len(), data.len(), reply.len())?;
    if !is_awaited(chip, c, input, &*held) {
        return Err(Refusal::E1);
    }
    octets::copy(&mut held[..input.len()], input);
    Ok(Change::Whole(on_frame(chip, c, &*held, code, data, reply)))
}

// The frame call, by lent state: answered by the whole small state.
pub fn frame_core(
    chip: Chip,
    c: Core,
    input: &[u8],
    held: &mut [u8; 260],
    code: &mut [u8],
    data: &mut [u8],
    reply: &mut [u8],
) -> CoreAfter
    ensures reply_after { core_outcome result held.new (memory code.new «data».new) reply.new ≡ frame_call chip (view c held.old (memory code.old «data».old)) reply.old input.now }
    ensures stands { Stands (call_number result.answer.call) c result.core }
    ensures stands_2 { Stands (call_number result.answer.call) held.old held.new }
{
    CoreAfter::by_change(c, frame_change(chip, c, input, held, code, data, reply))
}

// The frame call, by value. Record and buffers stand where it is refused.
// stays: its clauses are those of `byte_call` (crates/standin/src/call.rt, why).
pub fn frame_call(
    d: Device,
    input: &[u8],
    code: &mut [u8],
    data: &mut [u8],
    reply: &mut [u8],
) -> Answered
    ensures chip_value { result.device.chip ≡ d.chip }
    ensures reply_after { answered_as result (memory code.new «data».new) reply.new ≡ frame_call d.chip (shows d (memory code.old «data».old)) reply.old input.now }
    ensures call_value { call_number result.answer.call ≡ call_number (frame_call d.chip (shows d (memory code.old «data».old)) reply.old input.now).call }
    ensures note_value { note_numbers result.answer.note ≡ note_numbers (frame_call d.chip (shows d (memory code.old «data».old)) reply.old input.now).note }
    ensures stands { Stands (call_number result.answer.call) d result.device }
{
    let mut held = d.held;
    let after = frame_core(d.chip, d.core, input, &mut held, code, data, reply);
    Answered {
        device: Device {
            core: after.core,
            held,
            ..d
        },
        answer: after.answer,
    }
}
