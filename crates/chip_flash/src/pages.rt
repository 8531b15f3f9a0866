// A page written or left, and a page compared.
ghost use Rattle.std.specs.Prelude.{◌≡◌, length, take, drop};
ghost use Rattle.rules.specs.Chip.{same, pages, page_shown};
ghost use Rattle.chip_finder.specs.LentFlashes.{memory};
ghost use Rattle.chip_flash.specs.Writing.{programmed, wrote, written, page_status, programmed_part};

use chip_finder::{page_for_writing, page_part, page_place};
use octets::{copy, is_blank, same_bytes};
use rules::{Chip, Flash, Pages};

// The 256 bytes of a data frame between its LEN and its SUM.
fn body_of<'a>(frame: &'a [u8; 260]) -> &'a [u8]
    ensures result_value { result.now ≡ take 256 (drop 2 frame.now) }
    ensures result_len { length result.now ≡ 256 }
{
    &frame[2..258]
}

// The write status that a page gets: a guarded page is told as such, whatever it holds.
// stays: a status byte and no Result, since the clause of `program_page` names the byte (`wrote`, `programmed`), which is sent as it is.
#[tactic(auto, using(crate::proofs::Writes::status_guarded, crate::proofs::Writes::status_well, crate::proofs::Writes::status_used))]
fn page_status(guarded: bool, page: &[u8]) -> u8
    ensures { result ≡ page_status guarded page.now }
{
    if guarded {
        0x10
    } else if is_blank(page) {
        0x06
    } else {
        0x1C
    }
}

// Page `k` of the one flash that is lent gets the body of a data frame, unless it is guarded or not blank; its write status.
fn program_in(
    chip: Chip,
    f: Flash,
    flash: &mut [u8],
    k: usize,
    guarded: bool,
    frame: &[u8; 260],
) -> u8
    ensures { written result flash.new ≡ programmed_part (pages chip f) k guarded (take 256 (drop 2 frame.now)) flash.old }
{
    let Some((at, end)) = page_place(chip, f, flash.len(), k) else {
        return 0x05;
    };
    let status = page_status(guarded, &flash[at..end]);
    if status != 0x06 {
        return status;
    }
    let body = body_of(frame);
    let part = &mut flash[at..end];
    let page = page_for_writing(part);
    copy(page, body);
    // The part is used once more: only so its loan comes back with what the page holds.
    let _n = part.len();
    0x06
}

// The page in hand gets the 256 bytes of a received data frame, unless it is guarded or not blank; its write status.
// stays: a call for each flash, as in `erase_block` (tried there).
pub fn program_page(
    chip: Chip,
    guarded: bool,
    p: Pages,
    code: &mut [u8],
    data: &mut [u8],
    frame: &[u8; 260],
) -> u8
    ensures { wrote result (memory code.new «data».new) ≡ programmed chip guarded (memory code.old «data».old) p (take 256 (drop 2 frame.now)) }
{
    let f = p.flash;
    match f {
        Flash::Code => program_in(chip, f, code, p.page, guarded, frame),
        Flash::Data => program_in(chip, f, data, p.page, guarded, frame),
    }
}

// The page in hand holds the 256 bytes of a received data frame.
pub fn page_equals(chip: Chip, p: Pages, code: &[u8], data: &[u8], frame: &[u8; 260]) -> bool
    ensures { result ≡ same (page_shown chip (memory code.now «data».now) p.flash p.page) (take 256 (drop 2 frame.now)) }
{
    same_bytes(page_part(chip, code, data, p.flash, p.page), body_of(frame))
}
