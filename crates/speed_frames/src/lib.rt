// The entry that measures the whole-frame engine. It stands alone in its archive, as that of the call by value does.
#![tactic(auto)]

ghost use Rattle.std.specs.Prelude.{◌<◌, ◌≤◌, length};

use speed_calls::byte_calls::{answered, starting};
use standin_frames::frame_core;

// Where the frame that begins at `at` ends by its own LEN, or the input where that comes first.
fn frame_end(bytes: &[u8], at: usize) -> usize
    requires { at < length bytes.now }
    ensures { (at < result) × (result ≤ length bytes.now) }
{
    let left = bytes.len() - at;
    if left < 2 {
        return bytes.len();
    }
    let size = frame_judge::frame_size(bytes[at + 1]);
    if left < size {
        return bytes.len();
    }
    at + size
}

// The input cut into frames, each handed over whole. Of each answer the first `shown` bytes go into the digest.
#[unsafe(no_mangle)]
pub extern "C" fn rattle_frames(
    bytes: &[u8],
    start: usize,
    shown: usize,
    held: &mut [u8; 260],
    code: &mut [u8],
    data: &mut [u8],
    reply: &mut [u8],
) -> usize {
    let chip = chip_finder::small();
    let mut core = starting(start);
    let mut sum: usize = 0;
    let mut at: usize = 0;
    // stays: frames differ in length, so the place goes on by where the frame ends
    while at < bytes.len() {
        let end = frame_end(bytes, at);
        let t = frame_core(chip, core, &bytes[at..end], held, code, data, reply);
        core = t.core;
        let said = t.answer;
        let call = said.call;
        sum = answered(sum, call, &*reply, shown);
        at = end;
    }
    sum
}
