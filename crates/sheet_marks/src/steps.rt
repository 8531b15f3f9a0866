// A step over the rows of marks of both flashes: an erase clears its blocks, any other kind marks them.
ghost use Rattle.std.specs.Prelude.{◌≡◌};
ghost use Rattle.chip_finder.specs.LentFlashes.{memory};
ghost use Rattle.sheet_marks.specs.Marks.{Marked};
ghost use Rattle.sheet_marks.specs.Taken.{row_taken, Taken, step_taken};

use crate::{clear_marks, put_marks};
use rules::{Block, Flash};

// The kind of an erase, by its number.
// stays: `step_taken` answers for any number of a kind (`row_taken` of specs/Taken: every other number marks); a Kind would ask more of callers.
const ERASE: u8 = 1;

// An erase or a write over the marks of its flash; whether a write meets a block that stands written.
#[tactic(auto, unfolding(crate::specs::Taken::row_taken))]
fn row_taken(kind: u8, first: Block, last: Block, row: &mut [u8]) -> bool
    ensures { ◌≡◌ {A = Marked} (record { again = result; row = row.new }) (row_taken kind first last row.old) }
{
    if kind == ERASE {
        clear_marks(row, first, last);
        false
    } else {
        put_marks(row, first, last)
    }
}

// Over the marks of both flashes.
#[tactic(auto, unfolding(crate::specs::Taken::step_taken))]
pub fn step_taken(
    kind: u8,
    blocks: Option<(Flash, Block, Block)>,
    code: &mut [u8],
    data: &mut [u8],
) -> bool
    ensures { ◌≡◌ {A = Taken} (record { again = result; rows = memory code.new «data».new }) (step_taken kind blocks (memory code.old «data».old)) }
{
    match blocks {
        Some((Flash::Code, first, last)) => row_taken(kind, first, last, code),
        Some((Flash::Data, first, last)) => row_taken(kind, first, last, data),
        None => false,
    }
}
