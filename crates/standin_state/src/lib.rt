// The device's small state, and the phases and commands begun that it goes through.
#![tactic(auto)]

ghost use Rattle.std.specs.Prelude.{◌≡◌};
ghost use Rattle.standin_state.specs.View.{resting, response};

use crate::resting::at_rest;
use rules::{Note, Options, Phase, Task};

pub mod lent;
pub mod resting;
pub mod tasks;

// What a device holds between two calls, but for the bytes of the frame in hand: phase, command begun, options, and how many
// bytes of a frame have come.
#[derive(Clone, Copy)]
pub struct Core {
    pub phase: Phase,
    pub task: Task,
    pub options: Options,
    pub have: usize,
}

// The device after a whole frame, how many bytes it answered, and its note.
#[derive(Clone, Copy)]
pub struct Response {
    pub core: Core,
    pub answered: usize,
    pub note: Option<Note>,
}

impl Response {
    // The device with nothing received, so many bytes answered, and that note.
    pub fn resting(
        phase: Phase,
        task: Task,
        options: Options,
        answered: usize,
        note: Option<Note>,
    ) -> Response
        ensures { result ≡ response (resting phase task options) answered note }
    {
        Response {
            core: at_rest(phase, task, options),
            answered,
            note,
        }
    }
}
