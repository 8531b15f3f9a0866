// What has to be before a turn is made, in the order of the refusals.
#![tactic(auto)]

ghost use Rattle.std.specs.Prelude.{◌≡◌};
ghost use Rattle.rules.specs.Chip.{Memory};
ghost use Rattle.rules.specs.StandIn.{task_now, received};
ghost use Rattle.rules.specs.Run.{waits_in, waits};
ghost use Rattle.standin_engine.specs.View.{view};
ghost use Rattle.joined_checks.specs.Checks.{joined_verdict, is_ready, starts_step};

use chip_options::read::ifpr;
use rules::{Chip, FRAME_ROOM, Phase, Player, Refusal, Stage, Task};
use sheet::judge::verdict;
use sheet::steps::{most_frames, step_at};
use standin_engine::held_count;
use standin_state::Core;
use standin_state::lent::lent_verdict;
use standin_state::tasks::task_now;

// How long the lent flashes and buffers are.
#[derive(Clone, Copy)]
pub struct LentSizes {
    pub code: usize,
    pub data: usize,
    pub reply: usize,
    pub frame: usize,
    pub sums: usize,
}

// J, P1 and P2 as in a player call, then D1, D2 and D3 as in a byte call. A player call asks for the step's place once, with the reply, and so
// asks P1 and P2 itself.
#[tactic(auto, unfolding(crate::specs::Checks::joined_verdict, rules::specs::Player::player_verdict, rules::specs::First::first))]
pub fn refusal(chip: Chip, sheet: &[u8], p: Player, lent: LentSizes) -> Result<(), Refusal>
    ensures { result ≡ joined_verdict chip sheet.now p lent }
{
    verdict(chip, sheet, lent.sums)?;
    if lent.frame < FRAME_ROOM {
        return Err(Refusal::P1);
    }
    if player_place::lost(chip, sheet, p) {
        return Err(Refusal::P2);
    }
    lent_verdict(chip, lent.code, lent.data, lent.reply)
}

fn is_ready(stage: Stage) -> bool
    ensures { result ≡ is_ready stage }
{
    matches!(stage, Stage::Ready)
}

// A player at the beginning of a step, which can count the frames of it.
#[tactic(auto, using(crate::proofs::Starting::not_ready, crate::proofs::Starting::by_frames))]
pub fn starts_step(chip: Chip, sheet: &[u8], p: Player) -> bool
    ensures { result ≡ starts_step chip sheet.now p }
{
    is_ready(p.stage) && p.frames <= 0xFFFF_FFFF - most_frames(step_at(chip, sheet, p.step))
}

// Phase Command, no command begun, nothing half received.
#[tactic(auto, using(crate::proofs::Waiting::other_phase, crate::proofs::Waiting::task_begun, crate::proofs::Waiting::held_none))]
fn is_free(chip: Chip, c: Core, held: &[u8; 260]) -> bool
    ensures { result ≡ waits_in c.phase (task_now chip c.phase c.task) (received c.have held.now) }
{
    c.phase == Phase::Command
        && matches!(task_now(chip, c.phase, c.task), Task::Idle)
        && held_count(c.have, held) == 0
}

// A stand-in that waits for a command: it is free, and IFPR is 1. No power-on leads to phase Command with IFPR 0, where a lock would get no answer.
#[tactic(auto, unfolding(rules::specs::Run::waits))]
pub fn waits(chip: Chip, c: Core, held: &[u8; 260]) -> bool
    ensures { (m : Memory) → result ≡ waits chip (view c held.now m) }
{
    is_free(chip, c, held) && ifpr(c.options) == 1
}
