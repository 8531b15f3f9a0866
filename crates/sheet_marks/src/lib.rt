// Rows of marks, one byte a block of a flash: which blocks stand written (02, M-107). A block that has no byte there is passed over.
#![tactic(auto)]

pub mod steps;

ghost use Rattle.std.specs.Prelude.{◌≡◌, ◌+◌, ◌≤◌, eqb, min, length};
ghost use Rattle.std.specs.List.{prefix_len};
ghost use Rattle.rules.specs.Chip.{blocks_from};
ghost use Rattle.sheet_marks.specs.Marks.{cleared, Marked, marked};

use rules::Block;
use std::ops::Range;

// The mark of a block that does not stand written, and of one that does.
// stays: `clear_marks` and `put_marks` answer on any bytes (`cleared` and `marked` of specs/Marks); a row of bool, or of an enum, would ask more of callers.
pub const FREE: u8 = 0;

const WRITTEN: u8 = 1;

// Where the marks of the blocks from `first` to `last` stand, in a row of so many.
fn places(first: Block, last: Block, marks: usize) -> Range<usize>
    ensures { (result.start ≡ min first.0 result.end) × (result.end ≡ min (last.0 + 1) marks) }
{
    let end = marks.min(last.0 as usize + 1);
    end.min(first.0 as usize)..end
}

// An erase: the blocks from `first` to `last` do not stand written.
pub fn clear_marks(row: &mut [u8], first: Block, last: Block)
    ensures { row.new ≡ cleared first.0 (blocks_from first last) row.old }
{
    let marks = places(first, last, row.len());
    row[marks].fill(FREE);
}

// How many marks are free before the first that is not.
fn free_marks(marks: &[u8]) -> usize
    ensures value { result ≡ prefix_len (λ m. eqb m 0) marks.now }
    ensures bound { result ≤ length marks.now }
{
    marks.iter().take_while(|&&mark| mark == FREE).count()
}

// A write: they stand written. Whether one of them did already; the marks behind that one then stay.
pub fn put_marks(row: &mut [u8], first: Block, last: Block) -> bool
    ensures { ◌≡◌ {A = Marked} (record { again = result; row = row.new }) (marked first.0 (blocks_from first last) row.old) }
{
    let Range { start, end } = places(first, last, row.len());
    let free = free_marks(&row[start..end]);
    row[start..start + free].fill(WRITTEN);
    free < end - start
}
