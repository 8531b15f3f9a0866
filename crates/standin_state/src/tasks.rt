// Phases and the command begun.
ghost use Rattle.std.specs.Prelude.{◌≡◌, ◌≤◌};
ghost use Rattle.rules.specs.Chip.{blocks_from};
ghost use Rattle.rules.specs.Command.{pages_awaited, after_speed};
ghost use Rattle.rules.specs.StandIn.{ahead, task_in, task_now, start_of, after_mode};

use rules::{Block, Chip, Flash, Options, Pages, Phase, Task};

// The pages that a command still waits for are all in the flash.
pub fn ahead(chip: Chip, p: Pages) -> bool
    ensures { result ≡ ahead chip p }
{
    let n = chip_finder::page_count(chip, p.flash);
    // the page is asked for by the last one from which so many are in the flash: no sum can wrap
    0 < p.left && p.left <= n && p.page <= n - p.left
}

fn task_in(chip: Chip, task: Task) -> Task
    ensures { result ≡ task_in chip task }
{
    match task {
        Task::Programming(p) | Task::Verifying(p) if ahead(chip, p) => task,
        _ => Task::Idle,
    }
}

// The command begun, which there is only in phase Command.
#[tactic(auto, unfolding(rules::specs::StandIn::task_now))]
pub fn task_now(chip: Chip, phase: Phase, task: Task) -> Task
    ensures { result ≡ task_now chip phase task }
{
    match phase {
        Phase::Command => task_in(chip, task),
        _ => Task::Idle,
    }
}

// The start byte awaited.
pub fn start_of(task: Task) -> u8
    ensures { result ≡ start_of task }
{
    match task {
        Task::Idle => 0x01,
        Task::Programming(_) | Task::Verifying(_) => 0x02,
    }
}

// How many blocks there are from the first to the last of a range.
fn blocks_from(first: Block, last: Block) -> usize
    ensures { (result ≡ blocks_from first last) × (result ≤ 65536) }
{
    (last.0 as usize + 1).saturating_sub(first.0 as usize)
}

// The pages from the first to the last block of a range, none of them come yet.
pub fn pages_awaited(f: Flash, first: Block, last: Block) -> Pages
    ensures { result ≡ pages_awaited f first last }
{
    let k = chip_finder::pages_per_block(f);
    Pages {
        flash: f,
        page: first.0 as usize * k,
        left: blocks_from(first, last) * k,
        status: 0x06,
    }
}

// The phase after the mode byte, and after the speed is set.
pub fn after_mode(byte: u8) -> Phase
    ensures { result ≡ after_mode byte }
{
    match byte {
        0x00 | 0x3A => Phase::Speed,
        _ => Phase::Silent,
    }
}

pub fn after_speed(o: Options) -> Phase
    ensures { result ≡ after_speed o }
{
    if chip_options::read::iden(o) == 0 {
        return Phase::Ident;
    }
    Phase::Command
}
