// Player calls on a sheet, with replies that are given.
use crate::digest::{mixed, mixed_bytes, number_of};
use player::call::next;
use player_absorb::new_player;
use rules::{Player, Refusal, Report, Status};

// The reply to a frame, by its start byte and, of a command, its code: the ACK, a pair of 06h, or the ACK and a sum, which stand in this
// order in `all`.
fn reply_in<'a>(all: &'a [u8], start: u8, code: u8) -> &'a [u8] {
    if all.len() < 11 {
        return &all[0..0];
    }
    if start == 0x02 {
        return &all[5..11];
    }
    if code == 0xB0 {
        return &all[11..];
    }
    &all[0..5]
}

// The last call of a play has replies of its own, behind the 22 bytes of the others.
fn reply_to<'a>(replies: &'a [u8], last: bool, start: u8, code: u8) -> &'a [u8] {
    if replies.len() < 22 {
        return &replies[0..0];
    }
    if last {
        return reply_in(&replies[22..], start, code);
    }
    reply_in(&replies[0..22], start, code)
}

// What a call gave, as a number.
fn given_number(next: Result<Option<usize>, Refusal>) -> usize {
    match next {
        Err(refusal) => number_of(refusal),
        Ok(size) => size.unwrap_or(0),
    }
}

fn status_of(status: Status) -> usize {
    match status {
        Status::Byte(b) => b as usize,
        Status::L1 => 0x100,
    }
}

// A report's four numbers.
pub fn reported(sum: usize, r: Report) -> usize {
    let status = r.status;
    mixed(
        mixed(mixed(mixed(sum, status_of(status)), r.steps), r.frames),
        r.pieces,
    )
}

// The player after a call, and the digest with what it gave.
#[derive(Clone, Copy)]
struct Turn {
    player: Player,
    sum: usize,
}

// One call, with the reply to the frame that stands in the buffer.
fn call_once(
    sheet: &[u8],
    t: Turn,
    replies: &[u8],
    last: bool,
    shown: usize,
    frame: &mut [u8],
    sums: &mut [u16],
) -> Turn {
    let p = t.player;
    if frame.len() < 260 {
        return t;
    }
    let reply = reply_to(replies, last, frame[0], frame[2]);
    let c = next(chip_finder::small(), sheet, p, reply, frame, sums);
    let given = c.next;
    let n = given.ok().flatten().unwrap_or(0);
    let r = c.report;
    let sum = mixed_bytes(
        reported(mixed(t.sum, given_number(given)), r),
        &*frame,
        n.min(shown),
    );
    let player = c.player;
    Turn { player, sum }
}

// `calls` calls; a new play begins after each `again` of them. Of each frame the first `shown` bytes go into the digest.
pub fn rattle_player(
    sheet: &[u8],
    replies: &[u8],
    calls: usize,
    again: usize,
    shown: usize,
    frame: &mut [u8],
    sums: &mut [u16],
) -> usize {
    let mut t = Turn {
        player: new_player(),
        sum: 0,
    };
    let mut left: usize = 0;
    for _ in 0..calls {
        if left == 0 {
            let sum = t.sum;
            t = Turn {
                player: new_player(),
                sum,
            };
            left = again;
        }
        t = call_once(sheet, t, replies, left == 1, shown, frame, sums);
        if 0 < left {
            left -= 1;
        }
    }
    t.sum
}
