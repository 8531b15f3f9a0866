// A HEX text made into a sheet (02, M-103): its bytes are gathered in cells, and every block that holds one is erased, written and verified.
#![tactic(auto)]

mod bodies;
mod named;
mod table;
pub mod told;

ghost use Rattle.std.specs.Prelude.{◌≡◌, ◌+◌, ◌*◌, ◌≤◌, length};
ghost use Rattle.rules.specs.Hex.{Making, making_of, blocks_named, sheet_of, sheet_made, hex_made};
ghost use Rattle.text_hex.specs.Gathered.{memory_of};
ghost use Rattle.text_out.specs.Out.{out, add};

use named::Cells;
use rules::Flash;
use rules::hex::{HexRead, HexRefusal};

// The sheet of these cells, which name `n` blocks, into a buffer: count, table, bodies.
fn put_sheet(buf: &mut [u8], n: u32, cells: &Cells) -> usize
    requires { (n ≡ length (blocks_named (memory_of cells.now))) × (n ≤ 24) }
    ensures { out result buf.new ≡ add (sheet_of (memory_of cells.now)) (out 0 buf.old) }
{
    let counted = table::put_count(buf, 0, 3 * n);
    let tabled = table::put_table(buf, counted, 2 + 36 * n, cells);
    bodies::put_bodies(buf, tabled, cells)
}

// How many bytes a sheet of so many code blocks and data blocks has.
fn sheet_size(c: usize, d: usize) -> usize
    requires { (c ≤ 16) × (d ≤ 16) }
    ensures { result ≡ 2 + 36 * (c + d) + 4096 * c + 512 * d }
{
    2 + 36 * (c + d) + 4096 * c + 512 * d
}

// The sheet of these cells, if it is not too large.
fn make_sheet(cells: &Cells, buf: &mut [u8]) -> Result<usize, HexRefusal>
    ensures { ◌≡◌ {A = Making} (record { made = result; out = buf.new }) (making_of (sheet_made (memory_of cells.now) (length buf.old)) (sheet_of (memory_of cells.now)) buf.old) }
{
    // asked for their lengths, the cells are known to be as many as their type says
    let _code = cells.code.len();
    let _data = cells.data.len();
    let c = cells.count_named(Flash::Code);
    let d = cells.count_named(Flash::Data);
    if 3 * (c + d) > 64 {
        return Err(HexRefusal::ManySteps);
    }
    let size = sheet_size(c, d);
    if size > 65536 {
        return Err(HexRefusal::ManyBytes);
    }
    if buf.len() < size {
        return Err(HexRefusal::ShortBuffer);
    }
    put_sheet(buf, (c + d) as u32, cells);
    Ok(size)
}

// A HEX text made into a sheet in the first bytes of a buffer; a refusal writes nothing.
pub fn make(text: &[u8], buf: &mut [u8]) -> Result<usize, HexRefusal>
    ensures { ◌≡◌ {A = Making} (record { made = result; out = buf.new }) (hex_made text.now buf.old) }
{
    let mut cells = Cells::none();
    match text_cells::read_cells(text, &mut cells.code, &mut cells.data)? {
        HexRead::On => Err(HexRefusal::NoEnd),
        HexRead::Ended => make_sheet(&cells, buf),
    }
}
