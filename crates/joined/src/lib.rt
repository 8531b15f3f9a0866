// The player and the stand-in joined: one step of a sheet, and the whole of it, turn by turn.
#![tactic(auto)]

use rules::{Player, Refusal};
use standin_state::Core;

mod checks;
pub mod step;
mod stepping;
mod turn;
pub mod whole;

// Player and stand-in between two turns, and how many bytes of the reply buffer are the last answer.
// stays: `arrived` stands beside a buffer that is lent (fixed memory), and `rigged` of specs/ reads the last answer by it.
#[derive(Clone, Copy)]
pub struct Rig {
    pub player: Player,
    pub core: Core,
    pub arrived: usize,
}

// Why a joined call played nothing: refused by 01's number; the player is not at the beginning of a step; or the stand-in does not wait for a command.
#[derive(Clone, Copy)]
pub enum NotPlayed {
    Refused(Refusal),
    NotAtStep,
    Busy,
}

// The player and the stand-in after a joined call, and its answer.
// stays: no `Result<Rig, NotPlayed>`, since the clause `stands` says of `rig` that player and stand-in are as they were where nothing is played.
#[derive(Clone, Copy)]
pub struct Played {
    pub rig: Rig,
    pub answer: Result<(), NotPlayed>,
}
