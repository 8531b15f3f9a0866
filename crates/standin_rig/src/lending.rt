// The entry for a program: a record of its own is lent to it, and comes back with the answer.
ghost use Rattle.std.specs.Prelude.{◌≡◌};
ghost use Rattle.rules.specs.Numbers.{call_number, note_numbers};
ghost use Rattle.rules.specs.StandIn.{byte_call};
ghost use Rattle.chip_finder.specs.LentFlashes.{memory};
ghost use Rattle.standin_engine.specs.Stands.{Stands};
ghost use Rattle.standin.specs.Shows.{shows, answered_as};

use super::entry::byte_entry;
use standin::call::{Answered, Device};

// The promise of the byte call by value, kept by way of the entry.
// stays: its clauses are those of `byte_call` (crates/standin/src/call.rt, why).
pub fn byte_lent(
    d: Device,
    byte: u8,
    code: &mut [u8],
    data: &mut [u8],
    reply: &mut [u8],
) -> Answered
    ensures chip_value { result.device.chip ≡ d.chip }
    ensures reply_after { answered_as result (memory code.new «data».new) reply.new ≡ byte_call d.chip (shows d (memory code.old «data».old)) reply.old byte }
    ensures call_value { call_number result.answer.call ≡ call_number (byte_call d.chip (shows d (memory code.old «data».old)) reply.old byte).call }
    ensures note_value { note_numbers result.answer.note ≡ note_numbers (byte_call d.chip (shows d (memory code.old «data».old)) reply.old byte).note }
    ensures stands { Stands (call_number result.answer.call) d result.device }
{
    let mut lent = d;
    let answer = byte_entry(&mut lent, byte, code, data, reply);
    Answered {
        device: lent,
        answer,
    }
}
