// The entry that measures the call by value. It stands alone in its archive: with two callers in one module the compiler would not put
// the engine into either of them.
#![tactic(auto)]

use speed_calls::byte_calls::{answered, starting};
use standin::call::{Device, byte_call};

// Each byte by one call by value; the frame in hand is in the record, and the buffer lent for it is not used.
#[unsafe(no_mangle)]
pub extern "C" fn rattle_by_value(
    bytes: &[u8],
    start: usize,
    shown: usize,
    _held: &mut [u8; 260],
    code: &mut [u8],
    data: &mut [u8],
    reply: &mut [u8],
) -> usize {
    let mut d = Device {
        chip: chip_finder::small(),
        core: starting(start),
        held: [0u8; 260],
    };
    let mut sum: usize = 0;
    for &byte in bytes {
        let t = byte_call(d, byte, code, data, reply);
        d = t.device;
        let said = t.answer;
        let call = said.call;
        sum = answered(sum, call, &*reply, shown);
    }
    sum
}
