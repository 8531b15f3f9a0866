// The finder: only here a block number becomes an address or an address a block number, and only here a block or page
// gets its place in a lent flash. Each rule is said once, over the start, the size and the number of parts.
#![tactic(auto)]

ghost use Rattle.std.specs.Prelude.{Some, ◌≡◌, ◌+◌, ◌-◌, ◌*◌, ◌<◌, ◌≤◌, eqb, length};
ghost use Rattle.rules.specs.Chip.{same_counts, known, block_size, start, blocks, flash_size, pages_per_block, page_size, pages, flash_of, first_byte, last_byte, erase_address, range, nowhere, invalid, shown, block_shown, page_shown};
ghost use Rattle.chip_finder.specs.LentFlashes.{memory, range_shown};
ghost use Rattle.chip_finder.specs.OneFlash.{spot_in, spot_of, byte_in, pair_of, held_in, place_of, parts_shown};
ghost use Rattle.chip_finder.specs.Held.{blocks_held};

use rules::{Address, Block, Chip, Flash};

// The bytes of a page.
pub const PAGE_SIZE: usize = 256;

// stays: two functions, for the two chips that 01 and 02 name; a number of a chip would have to be refused.
// The two chips that are known.
pub fn small() -> Chip
    ensures { result ≡ Rattle.rules.specs.Chip.small }
{
    Chip { code: 16, data: 8 }
}

pub fn large() -> Chip
    ensures { result ≡ Rattle.rules.specs.Chip.large }
{
    Chip { code: 64, data: 32 }
}

// Both counts as one number.
fn both_counts(chip: Chip) -> u32
    ensures { result ≡ chip.«data» * 65536 + chip.code }
{
    chip.data as u32 * 65536 + chip.code as u32
}

// Whether two chips have the same counts. They are compared at once: a chip stands in one register, and each byte that comes asks for it.
// stays: no derived `==` here, which asks for one count after the other: 11 instructions a byte where the engine stays a call (docs/SPEED.md).
pub fn same_counts(a: Chip, b: Chip) -> bool
    ensures { result ≡ same_counts a b }
{
    both_counts(a) == both_counts(b)
}

// A chip with other counts than these two is none.
pub fn is_known(chip: Chip) -> bool
    ensures { result ≡ known chip }
{
    same_counts(chip, small()) || same_counts(chip, large())
}

// stays: this, `start_of` and `pages_per_block` are three facts of a flash, a number each by 01; a table of them would be read by number.
pub fn block_size(f: Flash) -> usize
    ensures { result ≡ block_size f }
{
    match f {
        Flash::Code => 2048,
        Flash::Data => 256,
    }
}

// The address of a flash's first byte.
fn start_of(f: Flash) -> u32
    ensures { result ≡ start f }
{
    match f {
        Flash::Code => 0,
        Flash::Data => 0xF1000,
    }
}

pub fn block_count(chip: Chip, f: Flash) -> u16
    ensures { result ≡ blocks chip f }
{
    match f {
        Flash::Code => chip.code,
        Flash::Data => chip.data,
    }
}

pub fn pages_per_block(f: Flash) -> usize
    ensures { result ≡ pages_per_block f }
{
    match f {
        Flash::Code => 8,
        Flash::Data => 1,
    }
}

pub fn page_count(chip: Chip, f: Flash) -> usize
    ensures { result ≡ pages chip f }
{
    block_count(chip, f) as usize * pages_per_block(f)
}

// A flash of that length is that of the chip.
pub fn has_size(chip: Chip, f: Flash, len: usize) -> bool
    ensures { result ≡ eqb len (flash_size chip f) }
{
    len == block_count(chip, f) as usize * block_size(f)
}

// ---- from a block to its addresses ----

pub fn first_byte(f: Flash, b: Block) -> Address
    ensures { result ≡ first_byte f b }
{
    Address(start_of(f) + b.0 as u32 * block_size(f) as u32)
}

pub fn last_byte(f: Flash, b: Block) -> Address
    ensures { result ≡ last_byte f b }
{
    let first = first_byte(f, b);
    Address(first.0 + last_offset(f))
}

// The offset of the last byte of a block in it.
fn last_offset(f: Flash) -> u32
    ensures { result ≡ block_size f - 1 }
{
    block_size(f) as u32 - 1
}

// ---- from an address to its block ----

// The byte with that address, by its block and its offset in it, in a flash of `count` blocks of `size` bytes from `from` on.
fn spot_in(from: u32, size: u32, count: u16, a: u32) -> Option<(Block, u32)>
    requires { (0 < size) × (size ≤ 2048) }
    ensures { result ≡ spot_in from size count a }
{
    let o = a.checked_sub(from)?;
    if o < count as u32 * size {
        return Some((Block((o / size) as u16), o % size));
    }
    None
}

fn spot_of(chip: Chip, f: Flash, a: Address) -> Option<(Block, u32)>
    ensures { result ≡ spot_of chip f a }
{
    spot_in(start_of(f), block_size(f) as u32, block_count(chip, f), a.0)
}

// The block of one flash whose byte at `offset` an address is.
fn byte_in(chip: Chip, f: Flash, offset: u32, a: Address) -> Option<(Flash, Block)>
    ensures { result ≡ byte_in chip f offset a }
{
    let (b, o) = spot_of(chip, f, a)?;
    (o == offset).then_some((f, b))
}

// The blocks of one flash that a pair of addresses names.
fn pair_in(chip: Chip, f: Flash, sad: Address, ead: Address) -> Option<(Flash, Block, Block)>
    ensures { result ≡ pair_of chip f sad ead }
{
    if ead.0 < sad.0 {
        return None;
    }
    let (_, first) = byte_in(chip, f, 0, sad)?;
    let (_, last) = byte_in(chip, f, last_offset(f), ead)?;
    Some((f, first, last))
}

// The block whose first byte an address is.
pub fn erase_address(chip: Chip, a: Address) -> Option<(Flash, Block)>
    ensures { result ≡ erase_address chip a }
{
    byte_in(chip, Flash::Code, 0, a).or_else(|| byte_in(chip, Flash::Data, 0, a))
}

// The blocks from the one that `sad` begins to the one that `ead` ends, where both lie in one flash.
pub fn range(chip: Chip, sad: Address, ead: Address) -> Option<(Flash, Block, Block)>
    ensures { result ≡ range chip sad ead }
{
    pair_in(chip, Flash::Code, sad, ead).or_else(|| pair_in(chip, Flash::Data, sad, ead))
}

// The blocks of one flash that two addresses behind its start lie in, as if it had no end.
fn held_in(f: Flash, sad: Address, ead: Address) -> (Flash, Block, Block)
    requires { (start f ≤ sad.0) × (start f ≤ ead.0) × (sad.0 < 16777216) × (ead.0 < 16777216) }
    ensures { Some result ≡ held_in f sad ead }
{
    let size = block_size(f) as u32;
    let from = start_of(f);
    let first = (sad.0 - from) / size;
    let last = (ead.0 - from) / size;
    (f, Block(first as u16), Block(last as u16))
}

// The blocks that two addresses of three bytes lie in: of a valid pair its range, found without judging the pair again.
pub fn blocks_held(sad: Address, ead: Address) -> Option<(Flash, Block, Block)>
    ensures { result ≡ blocks_held sad ead }
{
    if ead.0 < sad.0 || 0xFFFFFF < ead.0 {
        return None;
    }
    if sad.0 < start_of(Flash::Data) {
        return Some(held_in(Flash::Code, sad, ead));
    }
    Some(held_in(Flash::Data, sad, ead))
}

// There is no such block.
pub fn is_nowhere(found: Option<(Flash, Block)>) -> bool
    ensures { result ≡ nowhere found }
{
    found.is_none()
}

// An address pair that is not valid.
pub fn is_invalid(range: Option<(Flash, Block, Block)>) -> bool
    ensures { result ≡ invalid range }
{
    range.is_none()
}

// ---- from a block or page to its part of a flash ----

// The place of the parts `first` to `last`, from and up to which byte, in a flash of `len` bytes that is to have `count` parts of `size` bytes.
fn place_of(
    len: usize,
    size: usize,
    count: usize,
    first: usize,
    last: usize,
) -> Option<(usize, usize)>
    requires { (size ≤ 2048) × (count ≤ 524288) }
    ensures { result ≡ place_of len size count first last }
{
    if len != count * size || count <= last || last < first {
        return None;
    }
    Some((first * size, (last + 1) * size))
}

// The place of a block, and of a page, in a flash of `len` bytes that is to be the chip's.
pub fn block_place(chip: Chip, f: Flash, len: usize, b: Block) -> Option<(usize, usize)>
    ensures { result ≡ place_of len (block_size f) (blocks chip f) b.0 b.0 }
{
    let size = block_size(f);
    let count = block_count(chip, f) as usize;
    let n = b.0 as usize;
    place_of(len, size, count, n, n)
}

pub fn page_place(chip: Chip, f: Flash, len: usize, k: usize) -> Option<(usize, usize)>
    ensures { result ≡ place_of len page_size (pages chip f) k k }
{
    let count = page_count(chip, f);
    place_of(len, PAGE_SIZE, count, k, k)
}

// The parts `first` to `last` of a flash of `count` parts of `size` bytes, themselves; empty where they are not all there
// or the flash has another length.
fn parts_of<'a>(flash: &'a [u8], size: usize, count: usize, first: usize, last: usize) -> &'a [u8]
    requires { (size ≤ 2048) × (count ≤ 524288) }
    ensures { result.now ≡ parts_shown size count first last flash.now }
{
    match place_of(flash.len(), size, count, first, last) {
        Some((at, end)) => &flash[at..end],
        None => &flash[0..0],
    }
}

// Part `n` of a flash.
fn part_of<'a>(flash: &'a [u8], size: usize, count: usize, n: usize) -> &'a [u8]
    requires { (size ≤ 2048) × (count ≤ 524288) }
    ensures { result.now ≡ shown size count n flash.now }
{
    parts_of(flash, size, count, n, n)
}

// One of the two flashes.
// stays: a chip and its two flashes come apart here and below, as public functions that crates above call take them (`block_part`, `range_part`, `page_mut`).
fn flash_of<'a>(code: &'a [u8], data: &'a [u8], f: Flash) -> &'a [u8]
    ensures { result.now ≡ flash_of (memory code.now «data».now) f }
{
    match f {
        Flash::Code => code,
        Flash::Data => data,
    }
}

// The block as a part of one of the two flashes.
pub fn block_part<'a>(chip: Chip, code: &'a [u8], data: &'a [u8], f: Flash, b: Block) -> &'a [u8]
    ensures { result.now ≡ block_shown chip (memory code.now «data».now) f b }
{
    let flash = flash_of(code, data, f);
    let size = block_size(f);
    let count = block_count(chip, f) as usize;
    part_of(flash, size, count, b.0 as usize)
}

// The page as a part of the one flash that is lent.
pub fn page_in<'a>(chip: Chip, f: Flash, flash: &'a [u8], k: usize) -> &'a [u8]
    ensures { result.now ≡ shown page_size (pages chip f) k flash.now }
{
    part_of(flash, PAGE_SIZE, page_count(chip, f), k)
}

// The page as a part of one of the two flashes, for reading.
pub fn page_part<'a>(chip: Chip, code: &'a [u8], data: &'a [u8], f: Flash, k: usize) -> &'a [u8]
    ensures { result.now ≡ page_shown chip (memory code.now «data».now) f k }
{
    page_in(chip, f, flash_of(code, data, f), k)
}

// The bytes of several blocks as a part of one of the two flashes.
pub fn range_part<'a>(
    chip: Chip,
    code: &'a [u8],
    data: &'a [u8],
    f: Flash,
    first: Block,
    last: Block,
) -> &'a [u8]
    ensures { result.now ≡ range_shown chip (memory code.now «data».now) f first last }
{
    let flash = flash_of(code, data, f);
    let size = block_size(f);
    let count = block_count(chip, f) as usize;
    parts_of(flash, size, count, first.0 as usize, last.0 as usize)
}

// ---- the page itself for writing ----

// The page itself for writing: what is lent where it is a page, else empty. Where it is a page it is the very reference, so
// that the lender knows what it holds after it was written through.
pub fn page_for_writing<'a>(part: &'a mut [u8]) -> &'a mut [u8]
    ensures value { length part.old ≡ page_size → result ≡ part.entry }
    ensures result_len { (length part.old ≡ page_size → ⊥) → length result.now ≡ 0 }
{
    if part.len() == PAGE_SIZE {
        part
    } else {
        &mut part[0..0]
    }
}

// stays: `parts_of` once more, for a loan to write through: a shared and a mutable slice are two types, and no one function gives both.
// In the literal form, over both lent flashes: what is known of a lent flash after it is written through is said in docs/DECISIONS.md.
fn part_of_mut<'a>(flash: &'a mut [u8], size: usize, count: usize, n: usize) -> &'a mut [u8]
    requires { (size ≤ 2048) × (count ≤ 524288) }
    ensures { result.now ≡ shown size count n flash.old }
{
    match place_of(flash.len(), size, count, n, n) {
        Some((at, end)) => &mut flash[at..end],
        None => &mut flash[0..0],
    }
}

pub fn page_mut<'a>(
    chip: Chip,
    code: &'a mut [u8],
    data: &'a mut [u8],
    f: Flash,
    k: usize,
) -> &'a mut [u8]
    ensures { result.now ≡ page_shown chip (memory code.old «data».old) f k }
{
    let count = page_count(chip, f);
    match f {
        Flash::Code => part_of_mut(code, PAGE_SIZE, count, k),
        Flash::Data => part_of_mut(data, PAGE_SIZE, count, k),
    }
}
