// The table of the sheet: an erase, a write and a verify of each block that is named.
ghost use Rattle.std.specs.Prelude.{◌≡◌, List, ◌++◌, ℕ, ◌+◌, ◌*◌, ◌<◌, ◌≤◌, length};
ghost use Rattle.rules.specs.Chip.{small, blocks, block_size, word_bytes, address_bytes};
ghost use Rattle.rules.specs.Hex.{Named, named, blocks_named, named_from, offset_bytes, entry_of, entries_of};
ghost use Rattle.text_hex.specs.Gathered.{memory_of};
ghost use Rattle.text_out.specs.Out.{out, add};

use crate::named::{Cells, count_of};
use chip_finder::{first_byte, last_byte};
use rules::{Address, Block, Flash};
use text_out::{put, put_bytes};

// Where the next entry goes, and the offset of the next body.
#[derive(Clone, Copy)]
struct Next {
    at: usize,
    offset: u32,
}

pub(crate) fn put_count(buf: &mut [u8], at: usize, n: u32) -> usize
    ensures { out result buf.new ≡ add (word_bytes n) (out at buf.old) }
{
    let bytes = n.to_le_bytes();
    put_bytes(buf, at, &bytes[..2])
}

fn put_address(buf: &mut [u8], at: usize, a: Address) -> usize
    ensures { out result buf.new ≡ add (address_bytes a) (out at buf.old) }
{
    let bytes = a.0.to_le_bytes();
    put_bytes(buf, at, &bytes[..3])
}

fn put_offset(buf: &mut [u8], at: usize, n: u32) -> usize
    ensures { out result buf.new ≡ add (offset_bytes n) (out at buf.old) }
{
    put_bytes(buf, at, &n.to_le_bytes())
}

// stays: the number of a kind, which is the byte that is put (`entry_of`).
#[tactic(auto, unfolding(text_out::specs::Out::add, rules::specs::Hex::entry_of))]
fn put_entry(buf: &mut [u8], at: usize, kind: u8, f: Flash, b: Block, offset: u32) -> usize
    ensures { out result buf.new ≡ add (entry_of kind (record { flash = f; block = b }) offset) (out at buf.old) }
{
    let sad = put(buf, at, kind);
    let ead = put_address(buf, sad, first_byte(f, b));
    let zero = put_address(buf, ead, last_byte(f, b));
    let body = put(buf, zero, 0);
    put_offset(buf, body, offset)
}

fn size_of(f: Flash) -> u32
    ensures { (result ≡ block_size f) × (result ≤ 2048) }
{
    match f {
        Flash::Code => 2048,
        Flash::Data => 256,
    }
}

// The entries of one block, if it is named.
fn put_named(buf: &mut [u8], next: Next, f: Flash, i: u16, cells: &Cells) -> Next
    requires { next.offset ≤ 1000000 }
    ensures buf_after { (later : List Named) → add (entries_of result.offset later) (out result.at buf.new) ≡ add (entries_of next.offset (named_from (memory_of cells.now) f i 1 ++ later)) (out next.at buf.old) }
    ensures offset_bound { result.offset ≤ next.offset + 4096 }
{
    if !cells.is_named(f, i) {
        return next;
    }
    let size = size_of(f);
    let offset = next.offset;
    let erased = put_entry(buf, next.at, 1, f, Block(i), offset);
    let written = put_entry(buf, erased, 2, f, Block(i), offset);
    let verified = put_entry(buf, written, 3, f, Block(i), offset + size);
    Next {
        at: verified,
        offset: offset + 2 * size,
    }
}

// The entries of a flash.
// stays: its loop goes over numbers of blocks, and no list of them stands in memory; so it is with `put_flash` of the bodies.
fn put_flash(buf: &mut [u8], start: Next, f: Flash, cells: &Cells) -> Next
    requires { start.offset ≤ 100000 }
    ensures buf_after { (later : List Named) → add (entries_of result.offset later) (out result.at buf.new) ≡ add (entries_of start.offset (named_from (memory_of cells.now) f 0 (blocks small f) ++ later)) (out start.at buf.old) }
    ensures offset_bound { result.offset ≤ start.offset + 65536 }
{
    let mut next = start;
    for i in 0..count_of(f) {
        next = put_named(buf, next, f, i, cells);
    }
    next
}

// The table, with the offset of the first body.
pub(crate) fn put_table(buf: &mut [u8], at: usize, offset: u32, cells: &Cells) -> usize
    requires { offset ≤ 1000 }
    ensures { out result buf.new ≡ add (entries_of offset (blocks_named (memory_of cells.now))) (out at buf.old) }
{
    let start = Next { at, offset };
    let next = put_flash(buf, start, Flash::Code, cells);
    let end = put_flash(buf, next, Flash::Data, cells);
    end.at
}
