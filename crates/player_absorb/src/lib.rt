// A reply is taken in: what the player makes of it, and the entry in the list of sums.
#![tactic(auto)]

ghost use Rattle.std.specs.Prelude.{◌≡◌, true, false, List, ℕ, ◌<◌, set, unwrap_or, is_none};
ghost use Rattle.rules.specs.declared.Stage.TheVariants.{Over};
ghost use Rattle.rules.specs.Sheet.{count, step_at, step_blocks, step_pages};
ghost use Rattle.rules.specs.Player.{player, well, new_player, started, beginning, pages_sure, absorbs, finished, erased_block, opened_pages, took_once, sent_page, absorb_command, absorbed, command_in, lost};
ghost use Rattle.player_absorb.specs.Absorbing.{absorbed_in};

use player_place::is_lost;
use player_replies::{command_reply, data_reply, is_well, lock_reply, sum_in, sum_reply};
use rules::{Chip, Kind, Player, Stage, Status, Step};
use sheet::steps::{step_at, step_blocks, step_pages};
use sheet::table::count;

const WELL: Status = Status::Byte(0x06);

// A player before its first call.
pub fn new_player() -> Player
    ensures { result ≡ new_player }
{
    Player {
        stage: Stage::New,
        step: 0,
        at: 0,
        frames: 0,
        pieces: 0,
        status: WELL,
    }
}

fn beginning(i: usize, n: usize) -> Stage
    ensures { result ≡ beginning i n }
{
    if i == n {
        return Stage::Over;
    }
    Stage::Ready
}

// The first call of a play: all counts start at 0.
fn begin(sheet: &[u8]) -> Player
    ensures { result ≡ started sheet.now }
{
    Player {
        stage: beginning(0, count(sheet)),
        ..new_player()
    }
}

// stays: an index. Tried: `get_mut`; the proof did not close, since std says nothing of what the slice ends as.
fn put_sum(sums: &mut [u16], i: usize, sum: u16)
    ensures { sums.new ≡ set sums.old i sum }
{
    if i < sums.len() {
        sums[i] = sum;
    }
}

// A player in a step of a sheet, which has fewer than 65536 steps.
#[derive(Clone, Copy)]
struct InStep {
    player: Player,
    ghost few_steps: { player.step < 65536 },
}

impl InStep {
    fn stop(self, status: Status, pieces: usize) -> Player
        ensures { result ≡ player Over self.player.step self.player.at self.player.frames pieces status }
    {
        Player {
            stage: Stage::Over,
            pieces,
            status,
            ..self.player
        }
    }

    fn go_on(self, stage: Stage, at: usize) -> Player
        ensures { result ≡ player stage self.player.step at self.player.frames 0 well }
    {
        Player {
            stage,
            at,
            pieces: 0,
            status: WELL,
            ..self.player
        }
    }

    // The step is finished: its entry in the list of sums, and the next step or the end.
    #[tactic(auto, unfolding(rules::specs::Player::finished))]
    fn finish(self, sheet: &[u8], sum: u16, sums: &mut [u16]) -> Player
        ensures { absorbs result sums.new ≡ finished sheet.now self.player sum sums.old }
    {
        put_sum(sums, self.player.step, sum);
        let step = self.player.step + 1;
        Player {
            step,
            ..self.go_on(beginning(step, count(sheet)), 0)
        }
    }
}

// The pieces of a write that stops at a page; a verify has none.
fn pages_sure(kind: Kind, at: usize) -> usize
    ensures { result ≡ pages_sure kind at }
{
    match kind {
        Kind::Write => at.saturating_sub(1),
        _ => 0,
    }
}

// The answer to a block.
#[tactic(auto, unfolding(rules::specs::Player::erased_block))]
fn erased_block(sheet: &[u8], t: Step, p: InStep, reply: &[u8], sums: &mut [u16]) -> Player
    requires { p.player.at < step_blocks t }
    ensures { absorbs result sums.new ≡ erased_block sheet.now t p.player reply.now sums.old }
{
    let status = command_reply(reply);
    if !is_well(status) {
        return p.stop(status, p.player.at);
    }
    let at = p.player.at + 1;
    if at == step_blocks(t) {
        return p.finish(sheet, 0, sums);
    }
    p.go_on(Stage::Block, at)
}

// The answer to a write or verify command.
#[tactic(auto, unfolding(rules::specs::Player::opened_pages))]
fn opened_pages(kind: Kind, p: InStep, reply: &[u8]) -> Player
    ensures { (sums : List ℕ) → absorbs result sums ≡ opened_pages kind p.player reply.now sums }
{
    let status = command_reply(reply);
    if !is_well(status) {
        return p.stop(status, 0);
    }
    p.go_on(Stage::Page(kind), 0)
}

// The answer to a step of one frame: the status that it told, and its sum.
#[tactic(auto, unfolding(rules::specs::Player::took_once))]
fn took_once(sheet: &[u8], p: InStep, status: Status, sum: u16, sums: &mut [u16]) -> Player
    ensures { absorbs result sums.new ≡ took_once sheet.now p.player status sum sums.old }
{
    if !is_well(status) {
        return p.stop(status, 0);
    }
    p.finish(sheet, sum, sums)
}

// The answer to a page: it tells of the page before, and only with the last one of its own.
// stays: beside `erased_block`. They differ in the reply read, the pieces that are sure, how many there are and the stage that follows; one function
// for both takes seven arguments, and the two calls of it are as long as the two bodies (tried: it proves).
#[tactic(auto, unfolding(rules::specs::Player::sent_page))]
fn sent_page(kind: Kind, sheet: &[u8], t: Step, p: InStep, reply: &[u8], sums: &mut [u16]) -> Player
    requires { p.player.at < step_pages t }
    ensures { absorbs result sums.new ≡ sent_page kind sheet.now t p.player reply.now sums.old }
{
    let status = data_reply(reply);
    if !is_well(status) {
        return p.stop(status, pages_sure(kind, p.player.at));
    }
    let at = p.player.at + 1;
    if at == step_pages(t) {
        return p.finish(sheet, 0, sums);
    }
    p.go_on(Stage::Page(kind), at)
}

// stays: a match over the kinds, which must name them all; no step is chosen by a value that is handed about.
// The answer to a command frame, by the kind begun.
#[tactic(auto, unfolding(rules::specs::Player::absorb_command, rules::specs::Player::command_in))]
fn absorb_command(
    kind: Kind,
    sheet: &[u8],
    t: Step,
    p: InStep,
    reply: &[u8],
    sums: &mut [u16],
) -> Player
    requires { command_in kind t p.player.at ≡ true }
    ensures { absorbs result sums.new ≡ absorb_command kind sheet.now t p.player reply.now sums.old }
{
    match kind {
        Kind::Erase => erased_block(sheet, t, p, reply, sums),
        Kind::Write | Kind::Verify => opened_pages(kind, p, reply),
        Kind::Sum => took_once(sheet, p, sum_reply(reply), sum_in(reply), sums),
        Kind::Blank => took_once(sheet, p, command_reply(reply), 0, sums),
        Kind::Lock => took_once(sheet, p, lock_reply(t, reply), 0, sums),
    }
}

// By stage, in the player's step `t` of the sheet.
#[tactic(auto, unfolding(rules::specs::Player::absorbed, rules::specs::Player::absorb_by))]
fn absorb_in(chip: Chip, sheet: &[u8], t: Step, p: Player, reply: &[u8], sums: &mut [u16]) -> Player
    requires { (step_at chip sheet.now p.step ≡ t) × (lost chip sheet.now p ≡ false) }
    ensures { absorbs result sums.new ≡ absorbed chip sheet.now p reply.now sums.old }
{
    match p.stage {
        Stage::New => begin(sheet),
        Stage::Commanded(kind) => absorb_command(kind, sheet, t, InStep { player: p }, reply, sums),
        Stage::Paged(kind) => sent_page(kind, sheet, t, InStep { player: p }, reply, sums),
        Stage::Ready | Stage::Block | Stage::Page(_) | Stage::Over => p,
    }
}

// A player after a reply; none where it was lost before, and then it stands. And the step that it was in and how many the sheet has, so that a
// caller need not read them again.
#[derive(Clone, Copy)]
pub struct AbsorbedOrLost {
    pub player: Option<Player>,
    pub step: Step,
    pub count: usize,
}

// A reply is taken in; a player whose step, block or page is not in the sheet stands.
#[tactic(auto, unfolding(crate::specs::Absorbing::absorbed_in, rules::specs::Player::lost))]
pub fn absorb_or_lost(
    chip: Chip,
    sheet: &[u8],
    p: Player,
    reply: &[u8],
    sums: &mut [u16],
) -> AbsorbedOrLost
    ensures lost_value { is_none result.player ≡ lost chip sheet.now p }
    ensures step_value { (result.step ≡ step_at chip sheet.now p.step) × (result.count ≡ count sheet.now) }
    ensures sums_after { absorbs (unwrap_or result.player p) sums.new ≡ absorbed_in chip sheet.now p reply.now sums.old }
{
    let step = step_at(chip, sheet, p.step);
    let count = count(sheet);
    if is_lost(count, step, p) {
        return AbsorbedOrLost {
            player: None,
            step,
            count,
        };
    }
    AbsorbedOrLost {
        player: Some(absorb_in(chip, sheet, step, p, reply, sums)),
        step,
        count,
    }
}

// The same, of the player alone.
pub fn absorb(chip: Chip, sheet: &[u8], p: Player, reply: &[u8], sums: &mut [u16]) -> Player
    ensures { absorbs result sums.new ≡ absorbed_in chip sheet.now p reply.now sums.old }
{
    absorb_or_lost(chip, sheet, p, reply, sums)
        .player
        .unwrap_or(p)
}
