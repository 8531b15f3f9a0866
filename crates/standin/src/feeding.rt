// Feeding a slice of bytes: one byte call after the other.
ghost use Rattle.std.specs.Prelude.{◌≡◌};
ghost use Rattle.rules.specs.Numbers.{call_number};
ghost use Rattle.chip_finder.specs.LentFlashes.{memory};
ghost use Rattle.standin_engine.specs.View.{view};
ghost use Rattle.standin.specs.Feeding.{fed_as, fed_into, Roomy};

use rules::{Chip, Refusal};
use standin_engine::Change;
use standin_state::Core;

// The device after the bytes, how many bytes it answered or the first refusal, and how many bytes it took.
#[derive(Clone, Copy)]
pub struct Fed {
    pub core: Core,
    pub call: Result<usize, Refusal>,
    pub taken: usize,
}

// Every answer stands in `answers`, one behind the other; a byte call has the rest of that buffer for its reply, so the feeding ends
// with D3 where fewer than 16 bytes are left. A byte that is refused leaves record and receive buffer as after the bytes before it,
// and as they were given where it is the first; with 16 bytes of room for each byte none is refused.
pub fn feed(
    chip: Chip,
    c: Core,
    bytes: &[u8],
    held: &mut [u8; 260],
    code: &mut [u8],
    data: &mut [u8],
    answers: &mut [u8],
) -> Fed
    ensures answers_after { fed_as result held.new (memory code.new «data».new) answers.new ≡ fed_into chip (view c held.old (memory code.old «data».old)) answers.old bytes.now }
    ensures call_value { call_number result.call ≡ call_number (fed_into chip (view c held.old (memory code.old «data».old)) answers.old bytes.now).call }
    ensures core_value { result.taken ≡ 0 → (result.core ≡ c) × (held.new ≡ held.old) }
    ensures call_value_2 { Roomy chip code.old «data».old answers.old bytes.now → (call_number result.call).letter ≡ 0 }
{
    let mut core = c;
    let mut w = 0;
    for (i, &byte) in bytes.iter().enumerate() {
        let room = &mut answers[w..];
        let change = match standin_engine::byte_change(chip, core, byte, held, code, data, room) {
            Ok(change) => change,
            Err(refusal) => {
                return Fed {
                    core,
                    call: Err(refusal),
                    taken: i,
                };
            }
        };
        match change {
            // a way back of its own: the room for answers and the rest of the device are then known to stand, and no byte asks for them again
            Change::Held(n) => {
                core.have = n;
                continue;
            }
            Change::Whole(h) => {
                core = h.core;
                w = w + h.answered;
            }
        }
    }
    Fed {
        core,
        call: Ok(w),
        taken: bytes.len(),
    }
}
