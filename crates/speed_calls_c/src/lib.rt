// Entries for a driver in C: those of `speed_calls`, in an archive.
#![tactic(auto)]

use speed_calls::{byte_calls, player_calls};

#[unsafe(no_mangle)]
pub extern "C" fn rattle_engine(
    bytes: &[u8],
    start: usize,
    shown: usize,
    held: &mut [u8; 260],
    code: &mut [u8],
    data: &mut [u8],
    reply: &mut [u8],
) -> usize {
    byte_calls::rattle_engine(bytes, start, shown, held, code, data, reply)
}

// `calls` calls; a new play begins after each `again` of them. Of each frame the first `shown` bytes go into the digest.
#[unsafe(no_mangle)]
pub extern "C" fn rattle_player(
    sheet: &[u8],
    replies: &[u8],
    calls: usize,
    again: usize,
    shown: usize,
    frame: &mut [u8],
    sums: &mut [u16],
) -> usize {
    player_calls::rattle_player(sheet, replies, calls, again, shown, frame, sums)
}
