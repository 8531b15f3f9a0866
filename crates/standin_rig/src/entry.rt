// The entry for a rig that keeps its record (02, M-112): record, flash and reply buffer lent.
ghost use Rattle.std.specs.Prelude.{◌≡◌};
ghost use Rattle.rules.specs.Numbers.{call_number, note_numbers};
ghost use Rattle.rules.specs.StandIn.{byte_call};
ghost use Rattle.chip_finder.specs.LentFlashes.{memory};
ghost use Rattle.standin_engine.specs.Stands.{Stands};
ghost use Rattle.standin_engine.specs.View.{call_outcome};
ghost use Rattle.standin.specs.Shows.{shows};

use standin::call::{Device, byte_call};
use standin_engine::ByteAnswer;

// One received byte: the byte call on the record as lent, which then holds what the call left; refused, it is the record that was lent.
// stays: its clauses are those of `byte_call` (crates/standin/src/call.rt, why).
pub fn byte_entry(
    d: &mut Device,
    byte: u8,
    code: &mut [u8],
    data: &mut [u8],
    reply: &mut [u8],
) -> ByteAnswer
    ensures chip_unchanged { d.new.chip ≡ d.old.chip }
    ensures reply_after { call_outcome (shows d.new (memory code.new «data».new)) result.call result.note reply.new ≡ byte_call d.old.chip (shows d.old (memory code.old «data».old)) reply.old byte }
    ensures call_value { call_number result.call ≡ call_number (byte_call d.old.chip (shows d.old (memory code.old «data».old)) reply.old byte).call }
    ensures note_value { note_numbers result.note ≡ note_numbers (byte_call d.old.chip (shows d.old (memory code.old «data».old)) reply.old byte).note }
    ensures stands { Stands (call_number result.call) d.old d.new }
{
    let t = byte_call(*d, byte, code, data, reply);
    *d = t.device;
    t.answer
}
