// The options changed: the named bits, as a command asks. Every other stored bit keeps its value.
ghost use Rattle.std.specs.Prelude.{◌≡◌, ◌+◌, ◌*◌, ◌/◌, ◌<◌};
ghost use Rattle.rules.specs.Options.{with_bit, and_bit, security_set, release, window_set};

use crate::read::{bit, window_block, window_flag};
use rules::{Block, Options};

// A flag byte with its bit K made `v`, between the bits above it and those below it as they were.
fn with_bit<const K: u32>(n: u8, v: u8) -> u8
    requires { (K < 7) × (v < 2) }
    ensures { result ≡ with_bit K v n }
{
    let weight: u8 = 1 << K;
    n / (weight * 2) * (weight * 2) + v * weight + n % weight
}

// A flag byte whose bit K is the AND of old and sent.
fn and_bit<const K: u32>(old: u8, sent: u8) -> u8
    requires { K < 7 }
    ensures { result ≡ and_bit K sent old }
{
    with_bit::<K>(old, bit::<K>(old) * bit::<K>(sent))
}

// A window word with its block number (bits 8 to 0) and its flag (bit 15) anew: bits 14 to 9 have no name and stay.
fn window_word(old: u16, b: Block, flag: u16) -> u16
    requires { (b.0 < 512) × (flag < 2) }
    ensures { result ≡ with_bit 15 flag (old / 512 * 512 + b.0) }
{
    flag * 32768 + old % 32768 / 512 * 512 + b.0
}

// The five flags, each the AND of old and sent: sent bits for SWPR, CMPR and bits with no name are not looked at.
pub fn security_set(o: Options, sf1: u8, sf2: u8) -> Options
    ensures { result ≡ security_set sf1 sf2 o }
{
    Options {
        sf1: and_bit::<4>(and_bit::<2>(and_bit::<1>(o.sf1, sf1), sf1), sf1),
        sf2: and_bit::<2>(and_bit::<0>(o.sf2, sf2), sf2),
        ..o
    }
}

// Every named bit but IDEN becomes 1, and IDEN stays: an ID once asked for is asked for ever after. Block number 511 is nine of the bits.
pub fn release(o: Options) -> Options
    ensures { result ≡ release o }
{
    Options {
        sf1: with_bit::<4>(with_bit::<2>(with_bit::<1>(o.sf1, 1), 1), 1),
        sf2: with_bit::<4>(with_bit::<3>(with_bit::<2>(o.sf2, 1), 1), 1),
        sws: window_word(o.sws, Block(511), 1),
        swe: window_word(o.swe, Block(511), 1),
    }
}

// The named bits as sent. Whether the words may be set (FSPR) is the command's to ask.
pub fn window_set(o: Options, sws: u16, swe: u16) -> Options
    ensures { result ≡ window_set sws swe o }
{
    Options {
        sws: window_word(o.sws, window_block(sws), window_flag(sws)),
        swe: window_word(o.swe, window_block(swe), window_flag(swe)),
        ..o
    }
}
