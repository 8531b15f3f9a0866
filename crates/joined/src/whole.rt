// A whole sheet, step by step.
ghost use Rattle.std.specs.Prelude.{◌≡◌, ◌-◌, set};
ghost use Rattle.rules.specs.Player.{new_player};
ghost use Rattle.joined.specs.Rigs.{rigged};
ghost use Rattle.joined.specs.Plays.{is_over, answer_number, sheet_outcome, played_to, all_played, sheet_played, given, Stands};
ghost use Rattle.joined.specs.Ready.{PlayReady};

use crate::checks::{lent_sizes, may_play};
use crate::stepping::step_through;
use crate::{Played, Rig};
use player_absorb::{absorb, new_player};
use rules::{Chip, Player, Stage};
use sheet::table::count;
use standin_state::Core;

// The play is over.
pub fn is_over(p: Player) -> bool
    ensures { result ≡ is_over p.stage }
{
    matches!(p.stage, Stage::Over)
}

// All steps of an accepted sheet, up to the first that fails, and the frames of each.
// stays: what is lent goes on one by one, for the ground given at `turn::turn`.
fn steps_through(
    chip: Chip,
    sheet: &[u8],
    r: Rig,
    held: &mut [u8; 260],
    code: &mut [u8],
    data: &mut [u8],
    reply: &mut [u8],
    frame: &mut [u8],
    sums: &mut [u16],
    each: &mut [usize; 64],
) -> Rig
    requires { PlayReady chip sheet.now (rigged r held.old code.old «data».old reply.old frame.old sums.old) }
    ensures { played_to (rigged result held.new code.new «data».new reply.new frame.new sums.new) each.new ≡ all_played chip sheet.now (rigged r held.old code.old «data».old reply.old frame.old sums.old) each.old }
{
    // the first call of a play reads no reply
    let begun = absorb(chip, sheet, r.player, &[], sums);
    let mut rig = Rig { player: begun, ..r };
    let n = count(sheet);
    for took in each[..n].iter_mut() {
        if is_over(rig.player) {
            return rig;
        }
        let before = rig.player.frames;
        rig = step_through(chip, sheet, rig, held, code, data, reply, frame, sums);
        *took = rig.player.frames.saturating_sub(before);
    }
    rig
}

// A new player plays the whole sheet, and each step's frames are kept. Where it is not played, all stands, to the byte.
// stays: what is lent goes on one by one, for the ground given at `turn::turn`.
pub fn play(
    chip: Chip,
    sheet: &[u8],
    c: Core,
    held: &mut [u8; 260],
    code: &mut [u8],
    data: &mut [u8],
    reply: &mut [u8],
    frame: &mut [u8],
    sums: &mut [u16],
    each: &mut [usize; 64],
) -> Played
    ensures each_after { sheet_outcome result.answer (rigged result.rig held.new code.new «data».new reply.new frame.new sums.new) each.new ≡ sheet_played chip sheet.now (rigged (record { player = new_player; core = c; arrived = 0 }) held.old code.old «data».old reply.old frame.old sums.old) each.old }
    ensures answer_value { answer_number result.answer ≡ answer_number (sheet_played chip sheet.now (rigged (record { player = new_player; core = c; arrived = 0 }) held.old code.old «data».old reply.old frame.old sums.old) each.old).answer }
    ensures stands { Stands result.answer (given (record { player = new_player; core = c; arrived = 0 }) held.old code.old «data».old reply.old frame.old sums.old) (given result.rig held.new code.new «data».new reply.new frame.new sums.new) }
    ensures stands_2 { Stands result.answer each.old each.new }
{
    let rig = Rig {
        player: new_player(),
        core: c,
        arrived: 0,
    };
    let lent = lent_sizes(&*code, &*data, &*reply, &*frame, &*sums);
    // a new player starts at the sheet's beginning
    if let Err(why) = may_play(chip, sheet, rig, true, &*held, lent) {
        return Played {
            rig,
            answer: Err(why),
        };
    }
    let end = steps_through(chip, sheet, rig, held, code, data, reply, frame, sums, each);
    Played {
        rig: end,
        answer: Ok(()),
    }
}
