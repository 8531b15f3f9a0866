// Cells, one for every byte of a flash: the byte where it is given, 256 where it is not.
ghost use Rattle.std.specs.Prelude.{◌≡◌, ◌+◌, ◌≤◌, length};
ghost use Rattle.rules.specs.Lines.{pair_bytes};
ghost use Rattle.rules.specs.Hex.{data_of, any_given};
ghost use Rattle.text_cells.specs.OneFlash.{Held, held_in};

use rules::hex::{HexRead, HexRefusal};
use text_read::rows::pairs_byte;

// The least number that is no byte.
// stays: the definitions have cells as numbers (`not_given`), and `read_cells` promises its cells by them.
pub const NOT_GIVEN: u16 = 256;

// Whether some of these cells are given.
pub fn any_given(cells: &[u16]) -> bool
    ensures { result ≡ any_given cells.now }
{
    cells.iter().any(|&cell| cell < NOT_GIVEN)
}

// The bytes of a record into just so many cells.
fn put_bytes(row: &[u8], cells: &mut [u16])
    requires { length cells.old ≡ length (data_of (pair_bytes row.now)) }
    ensures { cells.new ≡ data_of (pair_bytes row.now) }
{
    for (i, cell) in cells.iter_mut().enumerate() {
        *cell = u16::from(pairs_byte(row, 4 + i));
    }
}

// The bytes of a record into the cells from `at` on; refused where one of those is given.
pub(crate) fn bytes_in(
    number: usize,
    at: usize,
    n: usize,
    row: &[u8],
    cells: &mut [u16],
) -> Result<HexRead, HexRefusal>
    requires { (n ≡ length (data_of (pair_bytes row.now))) × (at + n ≤ length cells.old) }
    ensures { ◌≡◌ {A = Held} (record { read = result; cells = cells.new }) (held_in number at (data_of (pair_bytes row.now)) cells.old) }
{
    if any_given(&cells[at..at + n]) {
        return Err(HexRefusal::Twice(number));
    }
    put_bytes(row, &mut cells[at..at + n]);
    Ok(HexRead::On)
}
