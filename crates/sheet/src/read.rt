// The steps of a sheet that was not judged.
ghost use Rattle.std.specs.Prelude.{◌≡◌};
ghost use Rattle.sheet.specs.Reading.{reading_at, reading_number};

use crate::judge::sheet_verdict;
use crate::steps::step_at;
use crate::table::{against, count};
use rules::Step;

// Step i of an accepted sheet, on the chip that it names.
#[tactic(auto, unfolding(crate::specs::Reading::reading_at))]
pub fn read_step(sheet: &[u8], i: usize) -> Option<Step>
    ensures value { result ≡ reading_at sheet.now i }
    ensures result_value { reading_number result ≡ reading_number (reading_at sheet.now i) }
{
    sheet_verdict(sheet).ok()?;
    if count(sheet) <= i {
        return None;
    }
    Some(step_at(against(sheet), sheet, i))
}
