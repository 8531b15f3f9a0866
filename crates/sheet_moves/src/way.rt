// The two ways that a sheet can be moved.
ghost use Rattle.std.specs.Prelude.{◌≡◌, length};
ghost use Rattle.rules.specs.Sheet.{count};
ghost use Rattle.rules.specs.Move.{is_new, any_new, down_closed};
ghost use Rattle.sheet_moves.specs.Way.{closed, shifted, is_up};

use octets::numbers::byte_at;
use sheet::table::{count, entry_at, form_two};

#[derive(Clone, Copy)]
pub(crate) enum Way {
    Up,
    Down,
}

// What the head of form 2 has before the count.
const HEAD_MORE: usize = 4;

impl Way {
    // J15. The way up is closed to a sheet of form 2.
    pub(crate) fn is_closed(self, sheet: &[u8]) -> bool
        ensures { result ≡ closed self sheet.now }
    {
        match self {
            Way::Up => form_two(sheet),
            Way::Down => down_closed(sheet),
        }
    }

    // The size of the moved sheet.
    pub(crate) fn moved_size(self, sheet: &[u8]) -> usize
        ensures { result ≡ shifted (is_up self) (length sheet.now) }
    {
        match self {
            Way::Up => sheet.len() + HEAD_MORE,
            Way::Down => sheet.len().saturating_sub(HEAD_MORE),
        }
    }

    // The offset that a moved entry says.
    pub(crate) fn moved_offset(self, offset: u32) -> usize
        ensures { result ≡ shifted (is_up self) offset }
    {
        match self {
            Way::Up => offset as usize + HEAD_MORE,
            Way::Down => (offset as usize).saturating_sub(HEAD_MORE),
        }
    }
}

// stays: an entry says any number, and this is asked of each (`is_new` of rules); a Kind has six.
// The kinds that form 1 does not have.
fn is_new(kind: u8) -> bool
    ensures { result ≡ is_new kind }
{
    matches!(kind, 5 | 6)
}

fn any_new(sheet: &[u8]) -> bool
    ensures { result ≡ any_new sheet.now 0 (count sheet.now) }
{
    (0..count(sheet)).any(|i| is_new(entry_at(sheet, i).kind))
}

// The way down is closed to a sheet of form 1, and to one of form 2 that names another chip or has a new kind.
fn down_closed(sheet: &[u8]) -> bool
    ensures { result ≡ down_closed sheet.now }
{
    !form_two(sheet) || byte_at(sheet, 2) != 1 || any_new(sheet)
}
