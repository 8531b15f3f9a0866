// Erasing one block.
ghost use Rattle.std.specs.Prelude.{◌≡◌};
ghost use Rattle.rules.specs.Chip.{block_size, blocks};
ghost use Rattle.chip_finder.specs.LentFlashes.{memory};
ghost use Rattle.chip_flash.specs.Writing.{erased_at, erased_part};

use chip_finder::block_place;
use octets::fill;
use rules::{Block, Chip, Flash};

// A block of the one flash that is lent is filled with FFh; where it is not there nothing changes.
fn erase_in(chip: Chip, f: Flash, flash: &mut [u8], b: Block)
    ensures { flash.new ≡ erased_part (block_size f) (blocks chip f) b.0 flash.old }
{
    let Some((at, end)) = block_place(chip, f, flash.len(), b) else {
        return;
    };
    fill(&mut flash[at..end], 0xFF);
}

// The block is filled with FFh; where it is not there nothing changes.
// stays: a call for each flash (tried: one call on the flash chosen by a match): no proof is made for a `&mut` that is one of two by the way taken.
pub fn erase_block(chip: Chip, code: &mut [u8], data: &mut [u8], f: Flash, b: Block)
    ensures { memory code.new «data».new ≡ erased_at chip (memory code.old «data».old) f b }
{
    match f {
        Flash::Code => erase_in(chip, f, code, b),
        Flash::Data => erase_in(chip, f, data, b),
    }
}
