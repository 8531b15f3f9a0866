// A sheet moved to the other form (02, M-106), byte by byte: its entries and bodies as they stand, but for the offset in each entry.
#![tactic(auto)]

mod put;
mod way;

ghost use Rattle.std.specs.Prelude.{◌≡◌, length};
ghost use Rattle.rules.specs.Move.{Moving, moved_number, move_verdict, move_by, move_up, move_down};
ghost use Rattle.sheet_moves.specs.Way.{closed, moved};

use put::put_moved;
use rules::Refusal;
use sheet::judge::sheet_verdict;
use way::Way;

// A sheet as one of the other form, over the first bytes of a buffer; a refusal writes nothing.
fn move_by(way: Way, sheet: &[u8], buf: &mut [u8]) -> Result<usize, Refusal>
    ensures { ◌≡◌ {A = Moving} (record { moved = result; out = buf.new }) (move_by (move_verdict sheet.now (closed way sheet.now) (moved way sheet.now) (length buf.old)) (moved way sheet.now) buf.old) }
{
    sheet_verdict(sheet)?;
    if way.is_closed(sheet) {
        return Err(Refusal::J15);
    }
    let size = way.moved_size(sheet);
    if buf.len() < size {
        return Err(Refusal::J16);
    }
    put_moved(buf, sheet, way);
    Ok(size)
}

// A form 1 sheet as a form 2 sheet for chip 1.
#[tactic(auto, unfolding(rules::specs::Move::move_up))]
pub fn move_up(sheet: &[u8], buf: &mut [u8]) -> Result<usize, Refusal>
    ensures fact { ◌≡◌ {A = Moving} (record { moved = result; out = buf.new }) (move_up sheet.now buf.old) }
    ensures result_value { moved_number result ≡ moved_number (move_up sheet.now buf.old).moved }
{
    move_by(Way::Up, sheet, buf)
}

// A form 2 sheet for chip 1 with no new kind as a form 1 sheet.
#[tactic(auto, unfolding(rules::specs::Move::move_down))]
pub fn move_down(sheet: &[u8], buf: &mut [u8]) -> Result<usize, Refusal>
    ensures fact { ◌≡◌ {A = Moving} (record { moved = result; out = buf.new }) (move_down sheet.now buf.old) }
    ensures result_value { moved_number result ≡ moved_number (move_down sheet.now buf.old).moved }
{
    move_by(Way::Down, sheet, buf)
}
