// What the options protect: a block against erasing, a page against writing.
ghost use Rattle.std.specs.Prelude.{◌≡◌, ◌&&◌, ◌||◌, eqb};
ghost use Rattle.chip_options.specs.Boot.{boot_pages};
ghost use Rattle.rules.specs.Options.{BTPR, erase_protected, write_protected};
ghost use Rattle.rules.specs.Chip.{block_of_page, in_boot_cluster};

use crate::read::{btpr, sepr, wrpr};
use rules::{Block, Flash, Options};

// Boot cluster 0 is code blocks 0 to 7.
const BOOT_BLOCKS: u16 = 8;

// Its pages: eight to a block.
const BOOT_PAGES: usize = 64;

// Boot cluster 0 lies in code flash alone: a data block of the same number is not in it.
pub fn in_boot_cluster(f: Flash, b: Block) -> bool
    ensures { result ≡ in_boot_cluster f b }
{
    f == Flash::Code && b.0 < BOOT_BLOCKS
}

// What a command names is protected when the flag of the command is 0 (SEPR to erase, WRPR to write), or BTPR is 0 and it lies in
// boot cluster 0.
fn protected(o: Options, flag: u8, boot: bool) -> bool
    ensures { result ≡ eqb flag 0 || (eqb (BTPR o) 0 && boot) }
{
    flag == 0 || (btpr(o) == 0 && boot)
}

// stays: beside `page_protected`; each names its flag, and `protected` is what both have in common.
pub fn erase_protected(o: Options, f: Flash, b: Block) -> bool
    ensures { result ≡ erase_protected o f b }
{
    protected(o, sepr(o), in_boot_cluster(f, b))
}

// How many pages of a flash lie in boot cluster 0: eight blocks of eight pages of code flash, and no data page.
fn boot_pages(f: Flash) -> usize
    ensures { result ≡ boot_pages f }
{
    match f {
        Flash::Code => BOOT_PAGES,
        Flash::Data => 0,
    }
}

// A page, by the block that it lies in.
pub fn page_in_boot_cluster(f: Flash, page: usize) -> bool
    ensures { result ≡ in_boot_cluster f (block_of_page f page) }
{
    page < boot_pages(f)
}

pub fn page_protected(o: Options, f: Flash, page: usize) -> bool
    ensures { result ≡ write_protected o f (block_of_page f page) }
{
    protected(o, wrpr(o), page_in_boot_cluster(f, page))
}
