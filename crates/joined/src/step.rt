// One step of a sheet.
ghost use Rattle.std.specs.Prelude.{◌≡◌};
ghost use Rattle.joined.specs.Rigs.{rigged};
ghost use Rattle.joined.specs.Plays.{answer_number, outcome, step_played, given, Stands};

use crate::checks::{lent_sizes, may_play};
use crate::stepping::step_through;
use crate::{Played, Rig};
use rules::{Chip, Player};
use standin_state::Core;

// The step at whose beginning the player stands. Where it is not played, all stands, to the byte.
// stays: what is lent goes on one by one, for the ground given at `turn::turn`.
pub fn play_step(
    chip: Chip,
    sheet: &[u8],
    p: Player,
    c: Core,
    held: &mut [u8; 260],
    code: &mut [u8],
    data: &mut [u8],
    reply: &mut [u8],
    frame: &mut [u8],
    sums: &mut [u16],
) -> Played
    ensures sums_after { outcome result.answer (rigged result.rig held.new code.new «data».new reply.new frame.new sums.new) ≡ step_played chip sheet.now (rigged (record { player = p; core = c; arrived = 0 }) held.old code.old «data».old reply.old frame.old sums.old) }
    ensures answer_value { answer_number result.answer ≡ answer_number (step_played chip sheet.now (rigged (record { player = p; core = c; arrived = 0 }) held.old code.old «data».old reply.old frame.old sums.old)).answer }
    ensures stands { Stands result.answer (given (record { player = p; core = c; arrived = 0 }) held.old code.old «data».old reply.old frame.old sums.old) (given result.rig held.new code.new «data».new reply.new frame.new sums.new) }
{
    let rig = Rig {
        player: p,
        core: c,
        arrived: 0,
    };
    let lent = lent_sizes(&*code, &*data, &*reply, &*frame, &*sums);
    let starts = joined_checks::starts_step(chip, sheet, p);
    if let Err(why) = may_play(chip, sheet, rig, starts, &*held, lent) {
        return Played {
            rig,
            answer: Err(why),
        };
    }
    let end = step_through(chip, sheet, rig, held, code, data, reply, frame, sums);
    Played {
        rig: end,
        answer: Ok(()),
    }
}
