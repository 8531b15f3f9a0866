// The bodies of the sheet: of each block that is named its bytes twice, for the write and for the verify; bytes not given are FFh.
ghost use Rattle.std.specs.Prelude.{◌≡◌, List, ◌++◌, ◌<◌, length};
ghost use Rattle.rules.specs.Chip.{small, blocks};
ghost use Rattle.rules.specs.Hex.{Named, cell_byte, cell_bytes, blocks_named, named_from, bodies_of};
ghost use Rattle.text_hex.specs.Gathered.{memory_of};
ghost use Rattle.text_out.specs.Out.{out, add};

use crate::named::{Cells, count_of};
use rules::Flash;
use text_out::put;

fn cell_byte(cell: u16) -> u8
    ensures { result ≡ cell_byte cell }
{
    u8::try_from(cell).unwrap_or(0xFF)
}

#[tactic(auto, using(crate::proofs::NamedBlocks::cells_more, crate::proofs::NamedBlocks::cells_end))]
fn put_body(buf: &mut [u8], at: usize, cells: &[u16]) -> usize
    ensures { out result buf.new ≡ add (cell_bytes cells.now) (out at buf.old) }
{
    let mut next = at;
    for &cell in cells {
        next = put(buf, next, cell_byte(cell));
    }
    next
}

// The bodies of one block, if it is named.
// stays beside the table's `put_named`: that one keeps an offset with its place and bounds it, and what each writes differs; one function of both is no plainer.
fn put_named(buf: &mut [u8], at: usize, f: Flash, i: u16, cells: &Cells) -> usize
    ensures { (later : List Named) → add (bodies_of (memory_of cells.now) later) (out result buf.new) ≡ add (bodies_of (memory_of cells.now) (named_from (memory_of cells.now) f i 1 ++ later)) (out at buf.old) }
{
    if !cells.is_named(f, i) {
        return at;
    }
    let body = cells.of_block(f, i);
    let written = put_body(buf, at, body);
    put_body(buf, written, body)
}

// The bodies of a flash.
fn put_flash(buf: &mut [u8], at: usize, f: Flash, cells: &Cells) -> usize
    ensures { (later : List Named) → add (bodies_of (memory_of cells.now) later) (out result buf.new) ≡ add (bodies_of (memory_of cells.now) (named_from (memory_of cells.now) f 0 (blocks small f) ++ later)) (out at buf.old) }
{
    let mut next = at;
    for i in 0..count_of(f) {
        next = put_named(buf, next, f, i, cells);
    }
    next
}

pub(crate) fn put_bodies(buf: &mut [u8], at: usize, cells: &Cells) -> usize
    ensures { out result buf.new ≡ add (bodies_of (memory_of cells.now) (blocks_named (memory_of cells.now))) (out at buf.old) }
{
    let next = put_flash(buf, at, Flash::Code, cells);
    put_flash(buf, next, Flash::Data, cells)
}
