// The options as they are stored: the named bits, and what reads back.
ghost use Rattle.std.specs.Prelude.{◌≡◌, cond, ◌&&◌, ◌+◌, ◌-◌, ◌*◌, ◌%◌, ◌<◌, eqb};
ghost use Rattle.rules.specs.Options.{bit, BTPR, SEPR, WRPR, IDEN, IFPR, SWPR, CMPR, FSPR, FSWC, FSWS, FSWE, blank_options, fresh_options, shownSF1, shownSF2, shownFSWS, shownFSWE, shownSWS, shownSWE};
ghost use Rattle.rules.specs.Chip.{block, blocks};
ghost use Rattle.rules.specs.declared.Flash.TheVariants.{Code};

use rules::{Block, Chip, Options};

pub fn fresh() -> Options
    ensures { result ≡ fresh_options }
{
    Options {
        sf1: 0xFF,
        sf2: 0xFF,
        sws: 0xFFFF,
        swe: 0xFFFF,
    }
}

// ---- the named bits ----

// Bit K of a flag byte.
pub(crate) fn bit<const K: u32>(n: u8) -> u8
    requires { K < 8 }
    ensures { result ≡ bit K n }
{
    (n >> K) % 2
}

// The flag of a window word, its bit 15.
pub(crate) fn window_flag(word: u16) -> u16
    ensures { result ≡ bit 15 word }
{
    word / 32768 % 2
}

// The block of a window word, its bits 8 to 0.
pub(crate) fn window_block(word: u16) -> Block
    ensures { result ≡ block (word % 512) }
{
    Block(word % 512)
}

// stays: a function for each bit that 001 names, over `bit`; crates above ask for a bit by its name.
pub fn btpr(o: Options) -> u8
    ensures { result ≡ BTPR o }
{
    bit::<1>(o.sf1)
}

pub fn sepr(o: Options) -> u8
    ensures { result ≡ SEPR o }
{
    bit::<2>(o.sf1)
}

pub fn wrpr(o: Options) -> u8
    ensures { result ≡ WRPR o }
{
    bit::<4>(o.sf1)
}

pub fn iden(o: Options) -> u8
    ensures { result ≡ IDEN o }
{
    bit::<0>(o.sf2)
}

pub fn ifpr(o: Options) -> u8
    ensures { result ≡ IFPR o }
{
    bit::<2>(o.sf2)
}

pub fn swpr(o: Options) -> u8
    ensures { result ≡ SWPR o }
{
    bit::<3>(o.sf2)
}

pub fn cmpr(o: Options) -> u8
    ensures { result ≡ CMPR o }
{
    bit::<4>(o.sf2)
}

pub fn fspr(o: Options) -> u16
    ensures { result ≡ FSPR o }
{
    window_flag(o.sws)
}

pub fn fswc(o: Options) -> u16
    ensures { result ≡ FSWC o }
{
    window_flag(o.swe)
}

// The window's blocks, as blocks.
pub fn fsws(o: Options) -> Block
    ensures { result ≡ FSWS o }
{
    window_block(o.sws)
}

pub fn fswe(o: Options) -> Block
    ensures { result ≡ FSWE o }
{
    window_block(o.swe)
}

// ---- the bits that a blank check counts in ----

// The flags of SF1 and SF2 that are counted in are 1: IFPR is not.
fn blank_sf1(o: Options) -> bool
    ensures { result ≡ (eqb (BTPR o) 1 && eqb (SEPR o) 1 && eqb (WRPR o) 1) }
{
    btpr(o) == 1 && sepr(o) == 1 && wrpr(o) == 1
}

fn blank_sf2(o: Options) -> bool
    ensures { result ≡ (eqb (IDEN o) 1 && eqb (SWPR o) 1 && eqb (CMPR o) 1) }
{
    iden(o) == 1 && swpr(o) == 1 && cmpr(o) == 1
}

// A window word's block number is 511 and its flag 1: nine bits and one.
fn blank_window(b: Block, flag: u16) -> bool
    ensures { result ≡ (eqb b.0 511 && eqb flag 1) }
{
    b == Block(511) && flag == 1
}

// Every option bit that a blank check counts in is 1.
pub fn blank_options(o: Options) -> bool
    ensures { result ≡ blank_options o }
{
    blank_sf1(o) && blank_sf2(o) && blank_window(fsws(o), fspr(o)) && blank_window(fswe(o), fswc(o))
}

// ---- what reads back ----

pub fn shown_sf1(o: Options) -> u8
    ensures { result ≡ shownSF1 o }
{
    1 + 2 * btpr(o) + 4 * sepr(o) + 16 * wrpr(o)
}

pub fn shown_sf2(o: Options) -> u8
    ensures { result ≡ shownSF2 o }
{
    iden(o) + 4 * ifpr(o) + 8 * swpr(o) + 16 * cmpr(o)
}

// The last block of code flash; block 0 of a chip that has none.
fn last_code_block(chip: Chip) -> Block
    ensures { result ≡ block (blocks chip Code - 1) }
{
    Block(chip.code.saturating_sub(1))
}

// One end of the window as it reads back: where FSWS equals FSWE, the end of a window over all of code flash.
fn shown_end(o: Options, stored: Block, of_all: Block) -> Block
    ensures { result ≡ cond (eqb (FSWS o).0 (FSWE o).0) of_all stored }
{
    if fsws(o) == fswe(o) { of_all } else { stored }
}

pub fn shown_fsws(o: Options) -> Block
    ensures { result ≡ shownFSWS o }
{
    shown_end(o, fsws(o), Block(0))
}

pub fn shown_fswe(chip: Chip, o: Options) -> Block
    ensures { result ≡ shownFSWE chip o }
{
    let last = last_code_block(chip);
    shown_end(o, fswe(o), last)
}

// A window word of that block and flag, bits 14 to 9 at 0.
fn shown_word(b: Block, flag: u16) -> u32
    ensures { result ≡ b.0 + 32768 * flag }
{
    u32::from(b.0) + 32768 * u32::from(flag)
}

pub fn shown_sws(o: Options) -> u32
    ensures { result ≡ shownSWS o }
{
    shown_word(shown_fsws(o), fspr(o))
}

pub fn shown_swe(chip: Chip, o: Options) -> u32
    ensures { result ≡ shownSWE chip o }
{
    shown_word(shown_fswe(chip, o), fswc(o))
}
