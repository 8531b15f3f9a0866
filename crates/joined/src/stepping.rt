// One step of a sheet, turn by turn.
ghost use Rattle.std.specs.Prelude.{◌≡◌};
ghost use Rattle.rules.specs.Run.{clean, step_run};
ghost use Rattle.joined.specs.Rigs.{rigged};
ghost use Rattle.joined.specs.Turn.{StepReady};

use crate::{Rig, turn};
use rules::Chip;
use sheet::steps::{most_frames, step_at};

// From the beginning of a step to the beginning of the next, or the end.
// stays: what is lent goes on one by one, for the ground given at `turn::turn`.
pub(crate) fn step_through(
    chip: Chip,
    sheet: &[u8],
    r: Rig,
    held: &mut [u8; 260],
    code: &mut [u8],
    data: &mut [u8],
    reply: &mut [u8],
    frame: &mut [u8],
    sums: &mut [u16],
) -> Rig
    requires { StepReady chip sheet.now (rigged r held.old code.old «data».old reply.old frame.old sums.old) }
    ensures { rigged result held.new code.new «data».new reply.new frame.new sums.new ≡ (step_run clean chip sheet.now 0 (rigged r held.old code.old «data».old reply.old frame.old sums.old)).reached }
{
    let most = most_frames(step_at(chip, sheet, r.player.step));
    let mut rig = r;
    for _turn in 0..most {
        rig = turn::turn(chip, sheet, rig, held, code, data, reply, frame, sums);
        if turn::between(rig.player) {
            return rig;
        }
    }
    rig
}
