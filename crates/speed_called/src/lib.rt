// The entry that measures the engine as a call: it has a second caller in this archive, so that the compiler puts it into neither, as in a
// program that calls it from two places.
#![tactic(auto)]

use speed_calls::byte_calls::{each_byte, starting};
use standin_engine::{Change, byte_change};

// Each byte by one call of the engine. Of each answer the first `shown` bytes go into the digest.
#[unsafe(no_mangle)]
pub extern "C" fn rattle_called(
    bytes: &[u8],
    start: usize,
    shown: usize,
    held: &mut [u8; 260],
    code: &mut [u8],
    data: &mut [u8],
    reply: &mut [u8],
) -> usize {
    each_byte(bytes, start, shown, held, code, data, reply)
}

// One byte: the second caller.
#[unsafe(no_mangle)]
pub extern "C" fn rattle_called_once(
    byte: u8,
    start: usize,
    held: &mut [u8; 260],
    code: &mut [u8],
    data: &mut [u8],
    reply: &mut [u8],
) -> usize {
    let changed = byte_change(
        chip_finder::small(),
        starting(start),
        byte,
        held,
        code,
        data,
        reply,
    );
    match changed {
        Err(_) => 0,
        Ok(Change::Held(n)) => n,
        Ok(Change::Whole(h)) => h.answered,
    }
}
