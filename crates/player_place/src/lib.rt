// Where a player stands in a sheet: whether its step, block or page is there at all.
#![tactic(auto)]

ghost use Rattle.std.specs.Prelude.{◌≡◌};
ghost use Rattle.rules.specs.Player.{step_in, command_in, page_in, lost_in, lost};

use rules::{Chip, Kind, Player, Stage, Step};
use sheet::steps::{step_at, step_blocks, step_pages};
use sheet::table::count;

// The step is there, and of the kind begun.
fn step_in(kind: Kind, n: usize, t: Step, p: Player) -> bool
    ensures { result ≡ step_in kind n t p }
{
    p.step < n && kind == t.kind
}

// The block of an erase, which has a command frame for each; the other kinds have one for the step.
#[tactic(auto, unfolding(rules::specs::Player::command_in))]
fn command_in(kind: Kind, t: Step, at: usize) -> bool
    ensures { result ≡ command_in kind t at }
{
    kind != Kind::Erase || at < step_blocks(t)
}

// The page of a write or a verify; the other kinds have none.
#[tactic(auto, unfolding(rules::specs::Player::page_in))]
fn page_in(kind: Kind, t: Step, at: usize) -> bool
    ensures { result ≡ page_in kind t at }
{
    matches!(kind, Kind::Write | Kind::Verify) && at < step_pages(t)
}

// A player in step `t` of a sheet of n steps that is not the step begun, or does not have its block or page.
#[tactic(auto, unfolding(rules::specs::Player::lost_in))]
pub fn is_lost(n: usize, t: Step, p: Player) -> bool
    ensures { result ≡ lost_in p.stage n t p }
{
    match p.stage {
        Stage::New | Stage::Over => false,
        Stage::Ready => p.step >= n,
        Stage::Block => !step_in(Kind::Erase, n, t, p) || !command_in(Kind::Erase, t, p.at),
        Stage::Commanded(kind) => !step_in(kind, n, t, p) || !command_in(kind, t, p.at),
        Stage::Page(kind) | Stage::Paged(kind) => {
            !step_in(kind, n, t, p) || !page_in(kind, t, p.at)
        }
    }
}

// P2, of any player and any sheet.
#[tactic(auto, unfolding(rules::specs::Player::lost))]
pub fn lost(chip: Chip, sheet: &[u8], p: Player) -> bool
    ensures { result ≡ lost chip sheet.now p }
{
    is_lost(count(sheet), step_at(chip, sheet, p.step), p)
}
