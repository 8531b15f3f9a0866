// J13: a step writes a block that stands written (02, M-107). The steps are gone through once, with two rows of marks, one byte a block. It is asked of a
// sheet whose entries were accepted, so their pairs are not judged again, and no body is read.
ghost use Rattle.std.specs.Prelude.{◌≡◌, ℕ, List, ◌+◌, ◌*◌, ◌<◌, ◌≤◌, length, replicate};
ghost use Rattle.rules.specs.Answers.{Accepted};
ghost use Rattle.rules.specs.Sheet.{against, table_end, count, entries_verdict, J13};
ghost use Rattle.chip_finder.specs.LentFlashes.{memory};
ghost use Rattle.sheet_marks.specs.Taken.{Taken};
ghost use Rattle.sheet.specs.Entry.{IsTable};
ghost use Rattle.sheet.specs.Head.{head_in};
ghost use Rattle.sheet.specs.Taken.{entry_taken};

use crate::table::{ENTRY_SIZE, Entry, Headed, WRITE, whole_entry};
use chip_finder::blocks_held;
use sheet_marks::FREE;
use sheet_marks::steps::step_taken;

// The blocks of the larger chip: a row has a mark for each.
const CODE_BLOCKS: usize = 64;

const DATA_BLOCKS: usize = 32;

// An entry over the marks; verify, sum, blank check and lock do not count.
#[tactic(auto, unfolding(crate::specs::Taken::entry_taken))]
fn entry_taken(e: Entry, code: &mut [u8], data: &mut [u8]) -> bool
    ensures { ◌≡◌ {A = Taken} (record { again = result; rows = memory code.new «data».new }) (entry_taken e (memory code.old «data».old)) }
{
    if e.kind > WRITE {
        return false;
    }
    step_taken(e.kind, blocks_held(e.sad, e.ead), code, data)
}

// The entries one after another, up to the first that writes a block again.
fn any_taken(table: &[[u8; ENTRY_SIZE]], code: &mut [u8], data: &mut [u8]) -> bool
    ensures { (s : List ℕ) → IsTable s table.now → entries_verdict (against s) s 0 (count s) ≡ Accepted → code.old ≡ replicate 64 0 → «data».old ≡ replicate 32 0 → result ≡ J13 s }
{
    for e in table {
        if entry_taken(whole_entry(e), code, data) {
            return true;
        }
    }
    false
}

// J13, of a sheet whose head and entries were accepted. One step alone writes no block twice, and no marks are made for it.
pub(crate) fn written_twice(sheet: Headed) -> bool
    requires table_there { table_end sheet.bytes.now ≤ length sheet.bytes.now }
    requires accepted { entries_verdict (against sheet.bytes.now) sheet.bytes.now 0 (count sheet.bytes.now) ≡ Accepted }
    ensures { result ≡ J13 sheet.entry.bytes.now }
{
    if sheet.head.count < 2 {
        return false;
    }
    let mut code = [FREE; CODE_BLOCKS];
    let mut data = [FREE; DATA_BLOCKS];
    any_taken(sheet.entries(), &mut code, &mut data)
}
