// The blocks that hold a given byte.
ghost use Rattle.std.specs.Prelude.{◌≡◌, ◌≤◌, length};
ghost use Rattle.rules.specs.Chip.{small, blocks};
ghost use Rattle.rules.specs.Hex.{no_cells, any_given, block_cells, named_from};
ghost use Rattle.text_hex.specs.Gathered.{memory_of};

use rules::Flash;
use text_cells::cells::{NOT_GIVEN, any_given};
use text_cells::{CODE_SIZE, DATA_SIZE};

pub(crate) fn count_of(f: Flash) -> u16
    ensures { (result ≡ blocks small f) × (result ≤ 16) }
{
    match f {
        Flash::Code => 16,
        Flash::Data => 8,
    }
}

// The cells of our flashes, one for each byte.
#[derive(Drop)]
pub(crate) struct Cells {
    pub(crate) code: [u16; CODE_SIZE],
    pub(crate) data: [u16; DATA_SIZE],
}

impl Cells {
    // Cells of which none is given.
    pub(crate) fn none() -> Cells
        ensures { memory_of result ≡ no_cells }
    {
        Cells {
            code: [NOT_GIVEN; CODE_SIZE],
            data: [NOT_GIVEN; DATA_SIZE],
        }
    }

    // The cells of a block; none past the last.
    pub(crate) fn of_block(&self, f: Flash, i: u16) -> &[u16]
        ensures { result.now ≡ block_cells (memory_of self.now) f i }
    {
        let at = i as usize;
        match f {
            Flash::Code => self.code.get(at * 2048..at * 2048 + 2048).unwrap_or(&[]),
            Flash::Data => self.data.get(at * 256..at * 256 + 256).unwrap_or(&[]),
        }
    }

    pub(crate) fn is_named(&self, f: Flash, i: u16) -> bool
        ensures { result ≡ any_given (block_cells (memory_of self.now) f i) }
    {
        any_given(self.of_block(f, i))
    }

    // How many blocks of a flash are named.
    pub(crate) fn count_named(&self, f: Flash) -> usize
        ensures { (result ≡ length (named_from (memory_of self.now) f 0 (blocks small f))) × (result ≤ 16) }
    {
        (0..count_of(f)).filter(|&i| self.is_named(f, i)).count()
    }
}
