// Answers compared with a row as they come: how many bytes of the row stand answered so far, none where an answer was wrong; 0 before the first.
ghost use Rattle.std.specs.Prelude.{◌≡◌, List, [], ◌++◌, ℕ};
ghost use Rattle.rules.specs.Lines.{row_bytes};
ghost use Rattle.text_session.specs.Session.{matches};

use text_read::rows::{row_byte, row_count};

// One answer more.
#[tactic(auto, unfolding(crate::specs::Session::matches))]
pub fn compare(stands: Option<usize>, answer: &[u8], row: &[u8]) -> Option<usize>
    ensures { (later : List ℕ) → matches result later (row_bytes row.now) ≡ matches stands (answer.now ++ later) (row_bytes row.now) }
{
    let mut at = stands?;
    for &byte in answer {
        if at >= row_count(row) {
            return None;
        }
        if row_byte(row, at) != byte {
            return None;
        }
        at += 1;
    }
    Some(at)
}

// Whether the row has no more than that.
#[tactic(auto, unfolding(crate::specs::Session::matches), using(crate::proofs::Matches::all_matched))]
pub fn is_all(stands: Option<usize>, row: &[u8]) -> bool
    ensures { result ≡ matches stands [] (row_bytes row.now) }
{
    let Some(at) = stands else {
        return false;
    };
    at >= row_count(row)
}
