// A HEX text read into cells, one for every byte of the small chip's flashes: line by line, in one pass (02, M-103).
#![tactic(auto)]

pub mod cells;

ghost use Rattle.std.specs.Prelude.{◌≡◌, ℕ, ◌+◌, ◌*◌, ◌<◌, length};
ghost use Rattle.rules.specs.Lines.{pair_bytes};
ghost use Rattle.rules.specs.Hex.{length_of, data_of, taken, reading, bytes_at, line_taken, hex_read};
ghost use Rattle.chip_finder.specs.LentFlashes.{memory};
ghost use Rattle.text_cells.specs.OneFlash.{refusal_at};

use cells::bytes_in;
use rules::hex::{HexFault, HexLine, HexRead, HexRefusal};
use text_read::line::line_end;
use text_read::part;
use text_read::rows::pairs_byte;
use text_record::{joined, kind_of, wide, without_cr};

// The flashes of the small chip: their sizes, and where data flash begins.
pub const CODE_SIZE: usize = 32768;

pub const DATA_SIZE: usize = 2048;

const DATA_START: usize = 0xF1000;

// The bytes of a record, from an address on: outside, given twice, or put into their cells.
fn bytes_at(
    number: usize,
    address: usize,
    row: &[u8],
    code: &mut [u16; CODE_SIZE],
    data: &mut [u16; DATA_SIZE],
) -> Result<HexRead, HexRefusal>
    requires row_len { length (pair_bytes row.now) ≡ length_of (pair_bytes row.now) + 5 }
    requires address_bound { address < 4294967296 }
    ensures { (u : ℕ) → taken result u (memory code.new «data».new) ≡ bytes_at number address (data_of (pair_bytes row.now)) u (memory code.old «data».old) }
{
    let n = wide(pairs_byte(row, 0));
    if n == 0 {
        return Ok(HexRead::On);
    }
    if address + n <= CODE_SIZE {
        return bytes_in(number, address, n, row, code);
    }
    if address < DATA_START {
        return Err(HexRefusal::Outside(number));
    }
    if address + n <= DATA_START + DATA_SIZE {
        return bytes_in(number, address - DATA_START, n, row, data);
    }
    Err(HexRefusal::Outside(number))
}

// What is wrong with a line, as the refusal that names it.
#[tactic(auto, unfolding(crate::specs::OneFlash::refusal_at))]
fn refusal_at(number: usize, fault: HexFault) -> HexRefusal
    ensures { result ≡ refusal_at number fault }
{
    match fault {
        HexFault::BadForm => HexRefusal::BadForm(number),
        HexFault::WrongSum => HexRefusal::WrongSum(number),
        HexFault::OtherType => HexRefusal::OtherType(number),
    }
}

// One line, without its LF: how far the text is read then. `upper` is the upper half of addresses.
#[tactic(auto, unfolding(rules::specs::Hex::line_taken, rules::specs::Hex::taken_as), using(crate::proofs::TakenLines::refused_line))]
fn take_line(
    number: usize,
    line: &[u8],
    upper: &mut usize,
    code: &mut [u16; CODE_SIZE],
    data: &mut [u16; DATA_SIZE],
) -> Result<HexRead, HexRefusal>
    requires { upper.old < 65536 }
    ensures data_after { taken result upper.new (memory code.new «data».new) ≡ line_taken number line.now upper.old (memory code.old «data».old) }
    ensures upper_bound { upper.new < 65536 }
{
    let line = without_cr(line);
    let row = part::rest(line, 1);
    let kind = match kind_of(line) {
        Ok(kind) => kind,
        Err(fault) => return Err(refusal_at(number, fault)),
    };
    match kind {
        HexLine::Bytes => {
            let offset = joined(pairs_byte(row, 1), pairs_byte(row, 2));
            bytes_at(number, *upper * 0x10000 + offset, row, code, data)
        }
        HexLine::End => Ok(HexRead::Ended),
        HexLine::Upper => {
            *upper = joined(pairs_byte(row, 4), pairs_byte(row, 5));
            Ok(HexRead::On)
        }
    }
}

// The lines one after the other, up to the end record or the first that is faulty.
fn read_lines(
    text: &[u8],
    code: &mut [u16; CODE_SIZE],
    data: &mut [u16; DATA_SIZE],
) -> Result<HexRead, HexRefusal>
    ensures { reading result (memory code.new «data».new) ≡ hex_read text.now (memory code.old «data».old) }
{
    let mut upper: usize = 0;
    let mut done: usize = 0;
    let mut at: usize = 0;
    // stays: `split` at LF gives what stands behind the last LF as one more line, and `split_inclusive` gives each line with its LF, to be asked for and taken off again: no plainer
    while at < text.len() {
        let end = line_end(text, at);
        if end >= text.len() {
            return Err(HexRefusal::BadForm(done + 1));
        }
        match take_line(done + 1, &text[at..end], &mut upper, code, data)? {
            HexRead::On => {}
            HexRead::Ended => {
                if end + 1 < text.len() {
                    return Err(HexRefusal::AfterEnd(done + 2));
                }
                return Ok(HexRead::Ended);
            }
        }
        at = end + 1;
        done += 1;
    }
    Ok(HexRead::On)
}

// A HEX text into cells: `On` where its end record is missing.
pub fn read_cells(
    text: &[u8],
    code: &mut [u16; CODE_SIZE],
    data: &mut [u16; DATA_SIZE],
) -> Result<HexRead, HexRefusal>
    ensures data_after { reading result (memory code.new «data».new) ≡ hex_read text.now (memory code.old «data».old) }
    ensures code_len { (length code.new ≡ 32768) × (length «data».new ≡ 2048) }
{
    read_lines(text, code, data)
}
