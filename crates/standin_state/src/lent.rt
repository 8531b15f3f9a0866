// What is lent with a call: the refusals D, asked here and nowhere else.
ghost use Rattle.std.specs.Prelude.{◌≡◌, true};
ghost use Rattle.rules.specs.Chip.{known};
ghost use Rattle.rules.specs.StandIn.{flash_verdict, lent_verdict};

use rules::{Chip, Flash, REPLY_ROOM, Refusal};

// D1 and D2, of a chip that is known.
#[tactic(auto, using(crate::proofs::Lending::no_code, crate::proofs::Lending::no_data, crate::proofs::Lending::flashes_fit))]
fn sizes_verdict(chip: Chip, code: usize, data: usize) -> Result<(), Refusal>
    requires { known chip ≡ true }
    ensures { result ≡ flash_verdict chip code «data» }
{
    if !chip_finder::has_size(chip, Flash::Code, code) {
        return Err(Refusal::D1);
    }
    if !chip_finder::has_size(chip, Flash::Data, data) {
        return Err(Refusal::D2);
    }
    Ok(())
}

// D0, D1 and D2, by the chip and the lengths of the lent flashes.
// stays: (speed, docs/SPEED.md, "Each chip is asked for by itself") its sizes are then numbers, and no byte has to work them out.
pub fn flash_verdict(chip: Chip, code: usize, data: usize) -> Result<(), Refusal>
    ensures { result ≡ flash_verdict chip code «data» }
{
    let small = chip_finder::small();
    if chip_finder::same_counts(chip, small) {
        return sizes_verdict(small, code, data);
    }
    let large = chip_finder::large();
    if chip_finder::same_counts(chip, large) {
        return sizes_verdict(large, code, data);
    }
    Err(Refusal::D0)
}

// The same, then D3 by the length of the reply buffer.
#[tactic(auto, using(crate::proofs::Lending::no_room, crate::proofs::Lending::all_lent))]
pub fn lent_verdict(chip: Chip, code: usize, data: usize, reply: usize) -> Result<(), Refusal>
    ensures { result ≡ lent_verdict chip code «data» reply }
{
    flash_verdict(chip, code, data)?;
    if reply < REPLY_ROOM {
        return Err(Refusal::D3);
    }
    Ok(())
}
