// The stand-in takes bytes one by one, through the engine.
use crate::digest::{mixed, mixed_bytes, number_of};
use rules::{Options, Phase, Refusal, Task};
use standin_engine::{Change, byte_change};
use standin_state::Core;
use standin_state::resting::{at_rest, powered};

// Phase Command, fresh options, nothing begun and nothing received.
pub fn waiting() -> Core {
    at_rest(Phase::Command, Task::Idle, chip_options::read::fresh())
}

// `start` 0: waiting for a command; else just powered on, with SF1 and SF2 in the low bytes of `start`.
pub fn starting(start: usize) -> Core {
    if start == 0 {
        return waiting();
    }
    let o = Options {
        sf1: (start % 256) as u8,
        sf2: (start / 256 % 256) as u8,
        sws: 0xFFFF,
        swe: 0xFFFF,
    };
    powered(o)
}

// An answer: its size and its first `shown` bytes where it has any.
fn told(sum: usize, n: usize, reply: &[u8], shown: usize) -> usize {
    if n == 0 {
        return sum;
    }
    mixed_bytes(mixed(sum, n), reply, n.min(shown))
}

// What a byte call answered: its size and its bytes, or its refusal.
pub fn answered(sum: usize, call: Result<usize, Refusal>, reply: &[u8], shown: usize) -> usize {
    match call {
        Ok(n) => told(sum, n, reply, shown),
        Err(refusal) => mixed(sum, number_of(refusal)),
    }
}

// Each byte by one call of the engine, as the feeding does. Of each answer the first `shown` bytes go into the digest.
pub fn each_byte(
    bytes: &[u8],
    start: usize,
    shown: usize,
    held: &mut [u8; 260],
    code: &mut [u8],
    data: &mut [u8],
    reply: &mut [u8],
) -> usize {
    let chip = chip_finder::small();
    let mut core = starting(start);
    let mut sum: usize = 0;
    for &byte in bytes {
        match byte_change(chip, core, byte, held, code, data, reply) {
            Err(refusal) => {
                sum = mixed(sum, number_of(refusal));
            }
            Ok(Change::Held(n)) => {
                core.have = n;
            }
            Ok(Change::Whole(h)) => {
                core = h.core;
                sum = told(sum, h.answered, &*reply, shown);
            }
        }
    }
    sum
}

// The same, as it is measured.
pub fn rattle_engine(
    bytes: &[u8],
    start: usize,
    shown: usize,
    held: &mut [u8; 260],
    code: &mut [u8],
    data: &mut [u8],
    reply: &mut [u8],
) -> usize {
    each_byte(bytes, start, shown, held, code, data, reply)
}
