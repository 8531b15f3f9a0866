// The map of both flashes, a character a page.
ghost use Rattle.std.specs.Prelude.{◌≡◌, ◌+◌, ◌*◌, ◌≤◌};
ghost use Rattle.rules.specs.declared.Kind.TheVariants.{Verify};
ghost use Rattle.rules.specs.Chip.{start, page_size, pages, block_of_page, same_flash};
ghost use Rattle.rules.specs.Sheet.{count};
ghost use Rattle.text_out.specs.Out.{out, add};
ghost use Rattle.text_show.specs.Map.{looked_at, touched, mark_by, mark_after, page_mark, marks_from, row_text, code_rows, map_text};

use crate::words::put_hex5;
use chip_finder::{first_byte, page_count};
use rules::{Block, Chip, Flash, Kind, Step};
use sheet::steps::step_at;
use sheet::table::count;
use text_out::{put, put_bytes};
use text_told::words::put_flash;

// The characters of a page.
const UNTOUCHED: u8 = b'.';

const ERASED: u8 = b'e';

const WRITTEN: u8 = b'w';

const VERIFIED: u8 = b'v';

const CHECKED: u8 = b'c';

// The pages of a row.
const ROW_PAGES: usize = 64;

// The bytes of a page.
const PAGE_SIZE: u32 = 256;

// ---- a page ----

fn looked_at(c: u8) -> u8
    ensures { result ≡ looked_at c }
{
    if c == UNTOUCHED {
        return CHECKED;
    }
    c
}

fn verified(c: u8) -> u8
    ensures { result ≡ touched Verify c }
{
    if c == WRITTEN {
        return VERIFIED;
    }
    looked_at(c)
}

// A step of that kind, over a page of which c was told before.
#[tactic(auto, unfolding(crate::specs::Map::touched))]
fn touched(kind: Kind, c: u8) -> u8
    ensures { result ≡ touched kind c }
{
    match kind {
        Kind::Erase => ERASED,
        Kind::Write => WRITTEN,
        Kind::Verify => verified(c),
        Kind::Sum => looked_at(c),
        Kind::Blank => looked_at(c),
        Kind::Lock => c,
    }
}

#[tactic(auto, unfolding(rules::specs::Chip::same_flash))]
fn same_flash(f: Flash, g: Flash) -> bool
    ensures { result ≡ same_flash f g }
{
    f == g
}

// A step over block b of a flash.
fn mark_by(t: Step, f: Flash, b: usize, c: u8) -> u8
    ensures { result ≡ mark_by t f b c }
{
    let kind = t.kind;
    let flash = t.flash;
    let first = t.first;
    let last = t.last;
    if !same_flash(flash, f) {
        return c;
    }
    if b < first.0 as usize {
        return c;
    }
    if (last.0 as usize) < b {
        return c;
    }
    touched(kind, c)
}

// All steps over it.
fn block_mark(chip: Chip, sheet: &[u8], f: Flash, b: usize) -> u8
    ensures { result ≡ mark_after chip sheet.now f b (count sheet.now) }
{
    let mut c = UNTOUCHED;
    // stays: an entry is read from the sheet by its number; there is no slice of entries to go over
    for i in 0..count(sheet) {
        c = mark_by(step_at(chip, sheet, i), f, b, c);
    }
    c
}

fn block_of(f: Flash, page: usize) -> usize
    ensures { result ≡ (block_of_page f page).0 }
{
    match f {
        Flash::Code => page / 8,
        Flash::Data => page,
    }
}

fn page_mark(chip: Chip, sheet: &[u8], f: Flash, page: usize) -> u8
    ensures { result ≡ page_mark chip sheet.now f page }
{
    block_mark(chip, sheet, f, block_of(f, page))
}

// ---- rows ----

// The characters of n pages from page `from` on.
fn put_marks(
    buf: &mut [u8],
    at: usize,
    chip: Chip,
    sheet: &[u8],
    f: Flash,
    from: usize,
    n: usize,
) -> usize
    requires { (from ≤ 1048576) × (n ≤ 1048576) }
    ensures { out result buf.new ≡ add (marks_from chip sheet.now f from n) (out at buf.old) }
{
    let mut next = at;
    // stays: a page is told by its number, which `marks_from` goes by
    for i in 0..n {
        next = put(buf, next, page_mark(chip, sheet, f, from + i));
    }
    next
}

// The address of a page.
fn address_of(f: Flash, page: usize) -> u32
    requires { page ≤ 1048576 }
    ensures { result ≡ start f + page * page_size }
{
    let first = first_byte(f, Block(0));
    first.0 + page as u32 * PAGE_SIZE
}

// `data F1000 eewv....`
fn put_row(
    buf: &mut [u8],
    at: usize,
    chip: Chip,
    sheet: &[u8],
    f: Flash,
    from: usize,
    n: usize,
) -> usize
    requires { (from ≤ 1048576) × (n ≤ 1048576) }
    ensures { out result buf.new ≡ add (row_text chip sheet.now f from n) (out at buf.old) }
{
    let address = address_of(f, from);
    let at = put_flash(buf, at, f);
    let at = put(buf, at, b' ');
    let at = put_hex5(buf, at, address);
    let at = put(buf, at, b' ');
    let at = put_marks(buf, at, chip, sheet, f, from, n);
    put(buf, at, b'\n')
}

// The first rows of code flash, so many.
fn put_code_rows(buf: &mut [u8], at: usize, chip: Chip, sheet: &[u8], rows: usize) -> usize
    requires { rows ≤ 8192 }
    ensures { out result buf.new ≡ add (code_rows chip sheet.now 0 rows) (out at buf.old) }
{
    let mut next = at;
    // stays: a row of the map is told by its number, which `code_rows` goes by
    for row in 0..rows {
        next = put_row(
            buf,
            next,
            chip,
            sheet,
            Flash::Code,
            row * ROW_PAGES,
            ROW_PAGES,
        );
    }
    next
}

// The legend, code flash row by row, and data flash in one row.
pub(crate) fn put_map(buf: &mut [u8], at: usize, chip: Chip, sheet: &[u8]) -> usize
    ensures { out result buf.new ≡ add (map_text chip sheet.now) (out at buf.old) }
{
    let rows = page_count(chip, Flash::Code) / ROW_PAGES;
    let pages = page_count(chip, Flash::Data);
    let at = put_bytes(
        buf,
        at,
        b". untouched  e erased  w written  v written and verified  c checked only\n",
    );
    let at = put_code_rows(buf, at, chip, sheet, rows);
    put_row(buf, at, chip, sheet, Flash::Data, 0, pages)
}
