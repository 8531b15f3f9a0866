// A player call: the reply is taken in, the next frame given.
ghost use Rattle.std.specs.Prelude.{◌≡◌, MatchResult, cond, eqb, Some, None};
ghost use Rattle.rules.specs.Answers.{Refused};
ghost use Rattle.rules.specs.Numbers.{next_number, status_number};
ghost use Rattle.rules.specs.Sheet.{step_at};
ghost use Rattle.rules.specs.Player.{calls, called};
ghost use Rattle.player.specs.Calls.{called_as, given_as};

use crate::report::report;
use player_absorb::absorb_or_lost;
use player_emit::{Emitted, emit_step};
use rules::{Chip, FRAME_ROOM, Player, Refusal, Report, Step};
use sheet::judge::verdict;
use sheet::steps::step_at;

// The record after a call, what the call answered, and the report.
#[derive(Clone, Copy)]
pub struct Called {
    pub player: Player,
    pub next: Result<Option<usize>, Refusal>,
    pub report: Report,
}

// The frame of so many bytes, or the end.
fn frame_or_end(sent: usize) -> Option<usize>
    ensures { result ≡ cond (eqb sent 0) None (Some sent) }
{
    match sent {
        0 => None,
        n => Some(n),
    }
}

// Step i of the sheet, for a caller that has read step `read`: mostly it is the same one.
fn step_now(chip: Chip, sheet: &[u8], read: usize, t: Step, i: usize) -> Step
    ensures { t ≡ step_at chip sheet.now read → result ≡ step_at chip sheet.now i }
{
    if i == read {
        return t;
    }
    step_at(chip, sheet, i)
}

// Refused by J, P1 or P2, in that order; else the reply is taken in and the next frame given.
#[tactic(auto, using(crate::proofs::Refusals::refused_J, crate::proofs::Refusals::refused_P1, crate::proofs::Refusals::refused_P2))]
fn played(
    chip: Chip,
    sheet: &[u8],
    p: Player,
    reply: &[u8],
    frame: &mut [u8],
    sums: &mut [u16],
) -> Result<Emitted, Refusal>
    ensures { MatchResult result (λ g. calls g.player (given_as g.sent) frame.new sums.new ≡ called chip sheet.now p reply.now frame.old sums.old) (λ n. calls p (Refused n) frame.new sums.new ≡ called chip sheet.now p reply.now frame.old sums.old) }
{
    verdict(chip, sheet, sums.len())?;
    if frame.len() < FRAME_ROOM {
        return Err(Refusal::P1);
    }
    let took = absorb_or_lost(chip, sheet, p, reply, sums);
    let Some(after) = took.player else {
        return Err(Refusal::P2);
    };
    let t = step_now(chip, sheet, p.step, took.step, after.step);
    Ok(emit_step(took.count, sheet, t, after, frame))
}

// A player call: refused by J, P1 or P2, in that order, and the record then stands; else the next frame or the end.
pub fn next(
    chip: Chip,
    sheet: &[u8],
    p: Player,
    reply: &[u8],
    frame: &mut [u8],
    sums: &mut [u16],
) -> Called
    ensures sums_after { called_as result frame.new sums.new ≡ called chip sheet.now p reply.now frame.old sums.old }
    ensures next_value { next_number result.next ≡ next_number (called chip sheet.now p reply.now frame.old sums.old).call }
    ensures status_value { status_number result.report.status ≡ status_number (called chip sheet.now p reply.now frame.old sums.old).report.status }
{
    let (player, next) = match played(chip, sheet, p, reply, frame, sums) {
        Ok(given) => (given.player, Ok(frame_or_end(given.sent))),
        Err(refusal) => (p, Err(refusal)),
    };
    Called {
        player,
        next,
        report: report(player),
    }
}
