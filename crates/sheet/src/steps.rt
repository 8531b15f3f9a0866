// The steps of a sheet, for any bytes and any number of a step, and what a step has.
ghost use Rattle.std.specs.Prelude.{◌≡◌, ◌≤◌};
ghost use Rattle.rules.specs.Sheet.{kind_of, step_of, step_at, step_blocks, step_pages};
ghost use Rattle.rules.specs.Run.{most_frames};

use crate::table::{entry_at, flags_of};
use rules::{Block, Chip, Flags, Flash, Kind, Step};

// stays: no `From`, since every number without a kind is Sum here (`kind_of` of rules), which no conversion should say.
fn kind_of(k: u8) -> Kind
    ensures { result ≡ kind_of k }
{
    match k {
        1 => Kind::Erase,
        2 => Kind::Write,
        3 => Kind::Verify,
        5 => Kind::Blank,
        6 => Kind::Lock,
        _ => Kind::Sum,
    }
}

// A lock names no blocks, and is given the first.
#[tactic(auto, unfolding(rules::specs::Sheet::step_of))]
fn step_of(kind: Kind, range: Option<(Flash, Block, Block)>, flags: Flags, body: usize) -> Step
    ensures { result ≡ step_of kind range flags body }
{
    let (flash, first, last) = range.unwrap_or((Flash::Code, Block(0), Block(0)));
    Step {
        kind,
        flash,
        first,
        last,
        flags,
        body,
    }
}

// Step i as its entry says it; the caller has judged the sheet, or takes what stands there.
pub fn step_at(chip: Chip, sheet: &[u8], i: usize) -> Step
    ensures { result ≡ step_at chip sheet.now i }
{
    let e = entry_at(sheet, i);
    let range = chip_finder::range(chip, e.sad, e.ead);
    step_of(kind_of(e.kind), range, flags_of(e.sad), e.offset as usize)
}

// How many blocks, and how many pages, a step has.
pub fn step_blocks(t: Step) -> usize
    ensures { (result ≡ step_blocks t) × (result ≤ 65536) }
{
    (usize::from(t.last.0) + 1).saturating_sub(usize::from(t.first.0))
}

pub fn step_pages(t: Step) -> usize
    ensures { (result ≡ step_pages t) × (result ≤ 524288) }
{
    step_blocks(t) * chip_finder::pages_per_block(t.flash)
}

// The most frames that a step can take.
#[tactic(auto, unfolding(rules::specs::Run::most_frames, rules::specs::Run::most_for))]
pub fn most_frames(t: Step) -> usize
    ensures { (result ≡ most_frames t) × (result ≤ 524289) }
{
    match t.kind {
        Kind::Erase => step_blocks(t),
        Kind::Write | Kind::Verify => 1 + step_pages(t),
        Kind::Sum | Kind::Blank | Kind::Lock => 1,
    }
}
