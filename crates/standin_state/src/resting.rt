// The small state with nothing received.
ghost use Rattle.std.specs.Prelude.{◌≡◌, List, ℕ};
ghost use Rattle.rules.specs.declared.Task.TheVariants.{Idle};
ghost use Rattle.rules.specs.Chip.{Memory};
ghost use Rattle.rules.specs.StandIn.{powered_phase};
ghost use Rattle.standin_state.specs.View.{resting, idle, Comes, unanswered};

use crate::{Core, Response};
use rules::{Options, Pages, Phase, Task};

pub fn at_rest(phase: Phase, task: Task, options: Options) -> Core
    ensures { result ≡ resting phase task options }
{
    // stays: (speed, docs/SPEED.md, "Options at rest") the options field by field: copied whole, the window's two words would be packed into one and taken apart again around each frame
    let own = Options {
        sf1: options.sf1,
        sf2: options.sf2,
        sws: options.sws,
        swe: options.swe,
    };
    Core {
        phase,
        task,
        options: own,
        have: 0,
    }
}

// stays: (speed, docs/SPEED.md, "Where all stands") a command begun, made anew field by field: copied whole, it would take along the bytes between its fields, and an engine that stays a call would
// read them at each byte that comes.
fn pages_anew(p: Pages) -> Pages
    ensures { result ≡ p }
{
    Pages {
        flash: p.flash,
        page: p.page,
        left: p.left,
        status: p.status,
    }
}

fn task_anew(task: Task) -> Task
    ensures { result ≡ task }
{
    match task {
        Task::Idle => Task::Idle,
        Task::Programming(p) => Task::Programming(pages_anew(p)),
        Task::Verifying(p) => Task::Verifying(pages_anew(p)),
    }
}

// All stands, with nothing received and nothing answered.
#[tactic(auto, unfolding(rules::specs::Chip::over))]
pub fn unanswered(c: Core) -> Response
    ensures { (m : Memory) (reply : List ℕ) → Comes result m reply (unanswered (idle c m)) reply }
{
    Response::resting(c.phase, task_anew(c.task), c.options, 0, None)
}

// The phase after a power-on.
// stays: beside `tasks::after_speed`; they ask for different bits and lead to different phases.
fn powered_phase(o: Options) -> Phase
    ensures { result ≡ powered_phase o }
{
    if chip_options::read::ifpr(o) == 0 {
        return Phase::Silent;
    }
    Phase::Mode
}

// After a power-on with these options.
pub fn powered(o: Options) -> Core
    ensures { result ≡ resting (powered_phase o) Idle o }
{
    at_rest(powered_phase(o), Task::Idle, o)
}
