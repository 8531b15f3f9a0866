// Whether a joined call plays, and why not.
ghost use Rattle.std.specs.Prelude.{◌≡◌, length};
ghost use Rattle.rules.specs.Chip.{Memory};
ghost use Rattle.rules.specs.Run.{waits};
ghost use Rattle.standin_engine.specs.View.{view};
ghost use Rattle.joined_checks.specs.Checks.{joined_verdict};
ghost use Rattle.joined.specs.Plays.{play_answer};

use crate::{NotPlayed, Rig};
use joined_checks::LentSizes;
use rules::Chip;

// How long all is that a call is lent.
pub(crate) fn lent_sizes(
    code: &[u8],
    data: &[u8],
    reply: &[u8],
    frame: &[u8],
    sums: &[u16],
) -> LentSizes
    ensures { result ≡ record { code = length code.now; «data» = length «data».now; reply = length reply.now; frame = length frame.now; sums = length sums.now } }
{
    LentSizes {
        code: code.len(),
        data: data.len(),
        reply: reply.len(),
        frame: frame.len(),
        sums: sums.len(),
    }
}

// Nothing is refused, the player may start where it stands, and the stand-in waits for a command.
#[tactic(auto, unfolding(crate::specs::Plays::judged))]
pub(crate) fn may_play(
    chip: Chip,
    sheet: &[u8],
    rig: Rig,
    starts: bool,
    held: &[u8; 260],
    lent: LentSizes,
) -> Result<(), NotPlayed>
    ensures { (m : Memory) → result ≡ play_answer (joined_verdict chip sheet.now rig.player lent) starts (waits chip (view rig.core held.now m)) }
{
    joined_checks::refusal(chip, sheet, rig.player, lent).map_err(NotPlayed::Refused)?;
    if !starts {
        return Err(NotPlayed::NotAtStep);
    }
    if !joined_checks::waits(chip, rig.core, held) {
        return Err(NotPlayed::Busy);
    }
    Ok(())
}
