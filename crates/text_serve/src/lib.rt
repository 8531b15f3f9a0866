// The stand-in on a stream of bytes: what was read goes to it up to the first answer, and is written down with that answer.
#![tactic(auto)]

pub mod log;

ghost use Rattle.std.specs.Prelude.{◌≡◌, ◌<◌, ◌≤◌, length};
ghost use Rattle.rules.specs.Numbers.{call_number};
ghost use Rattle.chip_finder.specs.LentFlashes.{memory};
ghost use Rattle.standin.specs.Shows.{shows};
ghost use Rattle.text_serve.specs.Serving.{stops, served_as, served};

use rules::Refusal;
use standin::call::{Device, byte_call};

// The chip after those bytes, what the last call answered, and how many bytes went to it.
#[derive(Clone, Copy)]
pub struct Served {
    pub device: Device,
    pub call: Result<usize, Refusal>,
    pub sent: usize,
}

// Whether a call ends a turn: by an answer, or refused.
#[tactic(auto, unfolding(crate::specs::Serving::stops))]
fn ends(call: Result<usize, Refusal>) -> bool
    ensures { result ≡ stops call }
{
    !matches!(call, Ok(0))
}

// A turn: the bytes one after the other, up to the first that is answered, or all of them where none is.
#[tactic(auto, using(crate::proofs::Turns::numbered, crate::proofs::Turns::turn_end))]
pub fn serve(d: Device, bytes: &[u8], code: &mut [u8], data: &mut [u8], reply: &mut [u8]) -> Served
    ensures chip_value { result.device.chip ≡ d.chip }
    ensures reply_after { served_as result (memory code.new «data».new) reply.new ≡ served d.chip (shows d (memory code.old «data».old)) reply.old bytes.now }
    ensures call_value { call_number result.call ≡ call_number (served d.chip (shows d (memory code.old «data».old)) reply.old bytes.now).call }
    ensures sent_in_bounds { (result.sent ≤ length bytes.now) × (0 < length bytes.now → 0 < result.sent) }
{
    let mut device = d;
    for (i, &byte) in bytes.iter().enumerate() {
        let t = byte_call(device, byte, code, data, reply);
        device = t.device;
        let said = t.answer;
        let call = said.call;
        if ends(call) {
            return Served {
                device,
                call,
                sent: i + 1,
            };
        }
    }
    Served {
        device,
        call: Ok(0),
        sent: bytes.len(),
    }
}
