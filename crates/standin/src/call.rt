// A device by value: the byte call over the engine, and power-on.
ghost use Rattle.std.specs.Prelude.{◌≡◌};
ghost use Rattle.rules.specs.declared.Phase.TheVariants.{Silent};
ghost use Rattle.rules.specs.declared.Task.TheVariants.{Idle};
ghost use Rattle.rules.specs.Chip.{Memory};
ghost use Rattle.rules.specs.Numbers.{call_number, note_numbers};
ghost use Rattle.rules.specs.Options.{fresh_options};
ghost use Rattle.rules.specs.StandIn.{byte_call, power_on, rest};
ghost use Rattle.chip_finder.specs.LentFlashes.{memory};
ghost use Rattle.standin_engine.specs.Stands.{Stands};
ghost use Rattle.standin.specs.Shows.{shows, answered_as, powered_as};

use rules::{Chip, Options, Phase, Refusal, Task};
use standin_engine::ByteAnswer;
use standin_state::{Core, lent, resting};

// The record between two calls: which chip it is, the small state, and the bytes of the frame in hand.
// stays: how many bytes are in hand is `core.have`, beside the buffer (the definition `received`, rules/specs/StandIn, is of the two).
#[derive(Clone, Copy)]
pub struct Device {
    pub chip: Chip,
    pub core: Core,
    pub held: [u8; 260],
}

// The record after a byte call, and what the call answered.
#[derive(Clone, Copy)]
pub struct Answered {
    pub device: Device,
    pub answer: ByteAnswer,
}

// The record after a power-on, and what that answered.
#[derive(Clone, Copy)]
pub struct PoweredOn {
    pub device: Device,
    pub call: Result<usize, Refusal>,
}

// A device that has not been powered on.
pub fn off(chip: Chip) -> Device
    ensures chip_value { result.chip ≡ chip }
    ensures m_value { (m : Memory) → shows result m ≡ rest Silent Idle fresh_options m }
{
    Device {
        chip,
        core: resting::at_rest(Phase::Silent, Task::Idle, chip_options::read::fresh()),
        held: [0u8; 260],
    }
}

// Power-on, with options and flash as they stand; refused, the record given comes back.
pub fn power_on(d: Device, o: Options, code: &[u8], data: &[u8]) -> PoweredOn
    ensures chip_value { result.device.chip ≡ d.chip }
    ensures data_value { powered_as result (memory code.now «data».now) ≡ power_on d.chip (shows d (memory code.now «data».now)) o (memory code.now «data».now) }
    ensures call_value { call_number result.call ≡ call_number (power_on d.chip (shows d (memory code.now «data».now)) o (memory code.now «data».now)).call }
    ensures stands { Stands (call_number result.call) d result.device }
{
    match lent::flash_verdict(d.chip, code.len(), data.len()) {
        Ok(()) => PoweredOn {
            device: Device {
                core: resting::powered(o),
                ..d
            },
            call: Ok(0),
        },
        Err(refusal) => PoweredOn {
            device: d,
            call: Err(refusal),
        },
    }
}

// The byte call: one received byte. Record and buffers stand where it is refused.
// stays: its five clauses stand in `frame_call` and `byte_lent` too (public contracts, of which crates above cite clauses by name: text_serve/proofs/serve).
pub fn byte_call(
    d: Device,
    byte: u8,
    code: &mut [u8],
    data: &mut [u8],
    reply: &mut [u8],
) -> Answered
    ensures chip_value { result.device.chip ≡ d.chip }
    ensures reply_after { answered_as result (memory code.new «data».new) reply.new ≡ byte_call d.chip (shows d (memory code.old «data».old)) reply.old byte }
    ensures call_value { call_number result.answer.call ≡ call_number (byte_call d.chip (shows d (memory code.old «data».old)) reply.old byte).call }
    ensures note_value { note_numbers result.answer.note ≡ note_numbers (byte_call d.chip (shows d (memory code.old «data».old)) reply.old byte).note }
    ensures stands { Stands (call_number result.answer.call) d result.device }
{
    // taken apart and put together: a record changed in place would be copied whole, its 260 bytes too, around the engine
    let mut held = d.held;
    let after = standin_engine::byte_core(d.chip, d.core, byte, &mut held, code, data, reply);
    Answered {
        device: Device {
            core: after.core,
            held,
            ..d
        },
        answer: after.answer,
    }
}
