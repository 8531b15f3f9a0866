// Replies: exactly what is due, or L1. A reply is compared with the fixed frame of `frame_build` first; only what differs from it is decoded.
#![tactic(auto)]

ghost use Rattle.std.specs.Prelude.{◌≡◌, ◌≤◌};
ghost use Rattle.rules.specs.Sheet.{clears};
ghost use Rattle.rules.specs.Player.{framed, command_reply, sum_reply, sum_in, no_reply, lock_reply, data_reply, is_well};

use frame_build::{ACK, WELL, adds_up};
use octets::numbers::{byte_at, word_at};
use rules::{Flags, Status, Step};

// One data frame of n bytes and nothing more, correct in start, LEN, SUM and end.
#[tactic(auto, using(frame_build::proofs::Sum::line_added), unfolding(rules::specs::Player::framed))]
fn is_framed(n: usize, r: &[u8]) -> bool
    requires { n ≤ 2 }
    ensures { result ≡ framed n r.now }
{
    r.len() == n + 4
        && r[0] == 0x02
        && r[1] as usize == n
        // LEN, body and SUM
        && adds_up(&r[1..n + 3])
        && r[n + 3] == 0x03
}

// The status that a frame of one byte tells.
#[tactic(auto, unfolding(rules::specs::Player::command_reply))]
fn decode_one(r: &[u8]) -> Status
    ensures { result ≡ command_reply r.now }
{
    if !is_framed(1, r) {
        return Status::L1;
    }
    Status::Byte(byte_at(r, 2))
}

// The status that a frame of two bytes tells: the first unless that is 06h, then the second.
#[tactic(auto, unfolding(rules::specs::Player::data_reply))]
fn decode_pair(r: &[u8]) -> Status
    ensures { result ≡ data_reply r.now }
{
    if !is_framed(2, r) {
        return Status::L1;
    }
    match byte_at(r, 2) {
        0x06 => Status::Byte(byte_at(r, 3)),
        line => Status::Byte(line),
    }
}

// The reply to a command frame.
#[tactic(auto, using(crate::proofs::Framing::equal_ACK))]
pub fn command_reply(r: &[u8]) -> Status
    ensures { result ≡ command_reply r.now }
{
    if r == ACK.as_slice() {
        return Status::Byte(0x06);
    }
    decode_one(r)
}

// The reply to a sum: the ACK, and a frame of two bytes behind it; or one frame that tells why not.
#[tactic(auto, using(crate::proofs::Framing::sum_by_first))]
pub fn sum_reply(r: &[u8]) -> Status
    ensures { result ≡ sum_reply r.now }
{
    let Some(rest) = r.strip_prefix(&ACK) else {
        return decode_one(r);
    };
    if is_framed(2, rest) {
        return Status::Byte(0x06);
    }
    Status::L1
}

// The sum in such a reply.
pub fn sum_in(r: &[u8]) -> u16
    ensures { result ≡ sum_in r.now }
{
    word_at(r, 7)
}

// Exactly no reply is due.
fn no_reply(r: &[u8]) -> Status
    ensures { result ≡ no_reply r.now }
{
    if r.is_empty() {
        return Status::Byte(0x06);
    }
    Status::L1
}

// The reply to a lock: none to one that clears IFPR, for the chip then answers nothing more; one byte to any other.
#[tactic(auto, unfolding(rules::specs::Player::lock_reply))]
pub fn lock_reply(t: Step, r: &[u8]) -> Status
    ensures { result ≡ lock_reply t r.now }
{
    if t.flags.clears_ifpr() {
        return no_reply(r);
    }
    command_reply(r)
}

// The reply to a data frame.
// stays: beside `command_reply`, which compares with another fixed frame and decodes another way; one function for both takes both as parameters, and
// each of the two is a test and a call.
#[tactic(auto, using(crate::proofs::Framing::equal_WELL))]
pub fn data_reply(r: &[u8]) -> Status
    ensures { result ≡ data_reply r.now }
{
    if r == WELL.as_slice() {
        return Status::Byte(0x06);
    }
    decode_pair(r)
}

pub fn is_well(status: Status) -> bool
    ensures { result ≡ is_well status }
{
    matches!(status, Status::Byte(0x06))
}
