// The first byte of a range that is in use, by its block and its page.
#![tactic(auto)]

ghost use Rattle.std.specs.Prelude.{◌≡◌, ◌*◌, ◌≤◌, length};
ghost use Rattle.rules.specs.Chip.{block_size, blocks_from};
ghost use Rattle.rules.specs.Command.{used_from};
ghost use Rattle.chip_finder.specs.LentFlashes.{memory, range_shown};

use rules::{Block, Chip, Flash, Note};

// The search over the bytes of the blocks `first` to `last`, which are all there.
// stays: 01 names its form, nested loops over blocks, pages and bytes left by a label at the first hit (docs/FORMS.md); `position` was tried, and proves.
fn search(f: Flash, first: Block, last: Block, part: &[u8]) -> Option<Note>
    requires { (first.0 ≤ last.0) × (length part.now ≡ blocks_from first last * block_size f) }
    ensures { result ≡ used_from f first part.now }
{
    let pages = chip_finder::pages_per_block(f);
    let end = last.0 as usize + 1;
    let mut found = None;
    let mut at: usize = 0;
    'search: for b in first.0 as usize..end {
        for p in 0..pages {
            for _ in 0..chip_finder::PAGE_SIZE {
                if part[at] != 0xFF {
                    found = Some(Note::Used(f, Block(b as u16), p));
                    break 'search;
                }
                at += 1;
            }
        }
    }
    found
}

// Nothing is in use where the blocks are not all there.
pub fn first_used<'a>(
    chip: Chip,
    code: &'a [u8],
    data: &'a [u8],
    f: Flash,
    first: Block,
    last: Block,
) -> Option<Note>
    ensures { result ≡ used_from f first (range_shown chip (memory code.now «data».now) f first last) }
{
    let part = chip_finder::range_part(chip, code, data, f, first, last);
    if part.len() == 0 {
        return None;
    }
    search(f, first, last, part)
}
