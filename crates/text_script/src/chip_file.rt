// A chip stated in lines of a script: `chip ..`, `fresh`, `options ..`, `code ..`, `data ..` and no others.
ghost use Rattle.std.specs.Prelude.{◌≡◌, ◌≤◌, Some};
ghost use Rattle.chip_finder.specs.LentFlashes.{memory};
ghost use Rattle.text_script.specs.ChipFiles.{stating, lent_of, fresh_in, is_stating, stated_by, file_read, file_states};

use crate::script_line::{Line, STORED, parse};
use crate::session;
use chip_options::read::fresh;
use rules::{Chip, Flash, Options};
use text_read::line::line_end;
use text_read::part;

// What is stated beside the flashes.
#[derive(Clone, Copy)]
pub struct Stated {
    pub chip: Chip,
    pub options: Options,
}

// The number of the first line that states nothing of a chip; so there is none.
#[derive(Clone, Copy)]
pub struct BadLine(pub usize);

// How many bytes of a lent flash are the chip's; of a chip that is not known none are.
#[tactic(auto, using(crate::proofs::FileLines::lent_none, crate::proofs::FileLines::lent_short, crate::proofs::FileLines::lent_whole))]
pub fn lent(chip: Chip, f: Flash, room: usize) -> usize
    ensures { (result ≡ lent_of chip f room) × (result ≤ room) }
{
    if !chip_finder::is_known(chip) {
        return 0;
    }
    let size = chip_finder::block_count(chip, f) as usize * chip_finder::block_size(f);
    if size > room {
        return room;
    }
    size
}

// A fresh chip, in the room that is lent for its flashes.
fn fresh_chip(chip: Chip, code: &mut [u8], data: &mut [u8]) -> Stated
    ensures { stating result (memory code.new «data».new) ≡ fresh_in chip (memory code.old «data».old) }
{
    octets::fill(code, 0xFF);
    octets::fill(data, 0xFF);
    Stated {
        chip,
        options: fresh(),
    }
}

// Whether a line states something of a chip.
fn states(said: Line) -> bool
    ensures { result ≡ is_stating (Some said) }
{
    matches!(said, Line::OfChip(_) | Line::Stored(_) | Line::Store(_, _))
}

// What is stated after such a line; any other states nothing.
#[tactic(auto, using(crate::proofs::FileLines::stated_as), unfolding(crate::specs::ChipFiles::stated_by))]
fn after(said: Line, text: &[u8], s: Stated, code: &mut [u8], data: &mut [u8]) -> Stated
    ensures { stating result (memory code.new «data».new) ≡ stated_by (Some said) text.now (stating s (memory code.old «data».old)) }
{
    let chip = s.chip;
    match said {
        Line::OfChip(named) => fresh_chip(named, code, data),
        Line::Stored(o) => Stated { chip, options: o },
        Line::Store(f, at) => {
            session::store(f, at, part::rest(text, STORED), code, data);
            s
        }
        _ => s,
    }
}

// The lines one after the other, from a fresh small chip on. The flashes lent have room for either chip, and the chip's own are their first bytes.
// stays: tried with `for (k, ended) in text.split_inclusive(|&b| b == b'\n').enumerate()`: the proof
// did not close at the loop's step and at its four returns, which need that each piece is the next line of `lines_of`.
#[tactic(auto, using(crate::proofs::FileLines::from_fresh, crate::proofs::FileLines::said_as, crate::proofs::FileLines::file_end, crate::proofs::FileLines::file_unended, crate::proofs::FileLines::file_bad, crate::proofs::FileLines::file_more))]
pub fn read(text: &[u8], code: &mut [u8], data: &mut [u8]) -> Result<Stated, BadLine>
    ensures { file_read result (memory code.new «data».new) ≡ file_states text.now (memory code.old «data».old) }
{
    let mut s = fresh_chip(chip_finder::small(), code, data);
    let mut at: usize = 0;
    let mut number: usize = 0;
    while at < text.len() {
        number += 1;
        let end = line_end(text, at);
        if end >= text.len() {
            return Err(BadLine(number));
        }
        let line = &text[at..end];
        let Some(said) = parse(
            line,
            lent(s.chip, Flash::Code, code.len()),
            lent(s.chip, Flash::Data, data.len()),
        ) else {
            return Err(BadLine(number));
        };
        if !states(said) {
            return Err(BadLine(number));
        }
        s = after(said, line, s, code, data);
        at = end + 1;
    }
    Ok(s)
}
