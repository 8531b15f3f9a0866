// The bytes of the moved sheet, put into a buffer.
ghost use Rattle.std.specs.Prelude.{◌≡◌, false, ◌<◌, ◌≤◌, length, take, drop};
ghost use Rattle.rules.specs.Sheet.{head_size, count, table_end, entry_at, offset_at};
ghost use Rattle.rules.specs.Move.{long_bytes, entries_moved, moved_up, moved_down};
ghost use Rattle.text_out.specs.Out.{out, add};
ghost use Rattle.sheet_moves.specs.Way.{is_up, moved, shifted};

use crate::way::Way;
use sheet::table::{count, entry_at, head_size, table_end};
use text_out::put_bytes;

// A number as four bytes, low byte first.
fn put_long(buf: &mut [u8], at: usize, n: usize) -> usize
    ensures { out result buf.new ≡ add (long_bytes n) (out at buf.old) }
{
    let bytes = n.to_le_bytes();
    put_bytes(buf, at, &bytes[..4])
}

// An entry: the bytes before its offset as they stand.
fn put_entry(buf: &mut [u8], at: usize, sheet: &[u8], i: usize, way: Way) -> usize
    requires { (table_end sheet.now ≤ length sheet.now) × (i < count sheet.now) × (i < 65536) }
    ensures { out result buf.new ≡ add (long_bytes (shifted (is_up way) (offset_at sheet.now i))) (add (take 8 (drop (entry_at sheet.now i) sheet.now)) (out at buf.old)) }
{
    let start = head_size(sheet) + 12 * i;
    let offset = put_bytes(buf, at, &sheet[start..start + 8]);
    let e = entry_at(sheet, i);
    put_long(buf, offset, way.moved_offset(e.offset))
}

fn put_entries(buf: &mut [u8], at: usize, sheet: &[u8], way: Way) -> usize
    requires { table_end sheet.now ≤ length sheet.now }
    ensures { out result buf.new ≡ add (entries_moved (shifted (is_up way)) sheet.now 0 (count sheet.now)) (out at buf.old) }
{
    let mut next = at;
    // stays: i is the number of an entry, which `entries_moved` goes by; entries are read from the sheet by number
    for i in 0..count(sheet) {
        next = put_entry(buf, next, sheet, i, way);
    }
    next
}

// The entries and the bodies.
fn put_table(buf: &mut [u8], at: usize, sheet: &[u8], way: Way) -> usize
    requires { table_end sheet.now ≤ length sheet.now }
    ensures { out result buf.new ≡ add (drop (table_end sheet.now) sheet.now) (add (entries_moved (shifted (is_up way)) sheet.now 0 (count sheet.now)) (out at buf.old)) }
{
    let bodies = put_entries(buf, at, sheet, way);
    let end = table_end(sheet);
    put_bytes(buf, bodies, &sheet[end..])
}

// A form 1 sheet, behind FEh 02h, chip 1 and a zero byte.
fn put_up(buf: &mut [u8], sheet: &[u8]) -> usize
    requires { table_end sheet.now ≤ length sheet.now }
    ensures { out result buf.new ≡ add (moved_up sheet.now) (out 0 buf.old) }
{
    let head = [0xFE, 0x02, 0x01, 0x00];
    let counted = put_bytes(buf, 0, &head);
    let entries = put_bytes(buf, counted, &sheet[0..2]);
    put_table(buf, entries, sheet, Way::Up)
}

// A form 2 sheet, without what stands before its count.
fn put_down(buf: &mut [u8], sheet: &[u8]) -> usize
    requires { (table_end sheet.now ≤ length sheet.now) × (6 ≤ head_size sheet.now) }
    ensures { out result buf.new ≡ add (moved_down sheet.now) (out 0 buf.old) }
{
    let entries = put_bytes(buf, 0, &sheet[4..6]);
    put_table(buf, entries, sheet, Way::Down)
}

// The moved sheet.
pub(crate) fn put_moved(buf: &mut [u8], sheet: &[u8], way: Way) -> usize
    requires { (table_end sheet.now ≤ length sheet.now) × (is_up way ≡ false → 6 ≤ head_size sheet.now) }
    ensures { out result buf.new ≡ add (moved way sheet.now) (out 0 buf.old) }
{
    match way {
        Way::Up => put_up(buf, sheet),
        Way::Down => put_down(buf, sheet),
    }
}
