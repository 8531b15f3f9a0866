// The next frame is given: whole, over the first bytes of a lent buffer. Its addresses come only from the finder.
#![tactic(auto)]

ghost use Rattle.std.specs.Prelude.{◌≡◌, false, [], ◌∷◌, ◌++◌, ◌+◌, ◌*◌, ◌<◌, ◌≤◌, length, take};
ghost use Rattle.rules.specs.Sheet.{step_blocks, step_pages};
ghost use Rattle.rules.specs.Player.{player, counted, sends, command, pair_bytes, lock_command, block_command, first_command, page_frame, lost_in};
ghost use Rattle.rules.specs.Chip.{address_bytes};
ghost use Rattle.frame_build.specs.Buffer.{put, put_bytes};
ghost use Rattle.rules.specs.declared.Kind.TheVariants.{Erase};
ghost use Rattle.rules.specs.declared.Stage.TheVariants.{Commanded};
ghost use Rattle.player_emit.specs.Emitting.{emitting, emitting_by, page_there, page_into, emitted_into_by, emitted_at, emitted_into};

use chip_finder::{PAGE_SIZE, first_byte, last_byte};
use frame_build::{BLOCK_ERASE, CHECKSUM, PROGRAMMING, VERIFY, put_frame};
use frame_judge::end_due;
use octets::numbers::{high_byte, low_byte, middle_byte};
use player_place::is_lost;
use rules::{Address, Block, Chip, FRAME_ROOM, Kind, Player, Stage, Step};
use sheet::steps::{step_at, step_pages};
use sheet::table::count;

// The codes of the two steps that form 2 adds.
const BLANK_CHECK: u8 = 0x32;

const SECURITY_SET: u8 = 0xA0;

// The player after a frame, and how many bytes are given: 0 where no frame is.
// stays: a count and no Option, as `sent` of `Emitting` in specs/Emitting is, which the clauses of `emit` and `emit_step` name; `joined::turn` hands on
// so many bytes of the buffer, none as any other count.
#[derive(Clone, Copy)]
pub struct Emitted {
    pub player: Player,
    pub sent: usize,
}

// The player counts frames sent; a count that cannot grow stays.
#[tactic(auto, unfolding(rules::specs::Player::counted))]
fn count_frame(n: usize) -> usize
    ensures { result ≡ counted n }
{
    if n < 0xFFFF_FFFF {
        return n + 1;
    }
    n
}

// A frame is sent, at that block or page, and its answer awaited.
fn sending(stage: Stage, p: Player, at: usize) -> Player
    ensures { result ≡ player stage p.step at (counted p.frames) p.pieces p.status }
{
    Player {
        stage,
        at,
        frames: count_frame(p.frames),
        ..p
    }
}

// An address, low byte first.
fn address_bytes(address: Address) -> [u8; 3]
    ensures { result ≡ address_bytes address }
{
    [
        low_byte(address.0),
        middle_byte(address.0),
        high_byte(address.0),
    ]
}

// A command frame around its body, over the first bytes of the buffer.
#[tactic(auto, using(frame_build::proofs::Buffers::frame_bytes))]
fn put_command(frame: &mut [u8], body: &[u8]) -> usize
    requires { (1 ≤ length body.now) × (length body.now ≤ 8) }
    ensures { put result frame.new ≡ put_bytes (command body.now) frame.old }
{
    put_frame(frame, 0x01, 0x03, body)
}

// A command over the step's address pair: its first 7 bytes, or all 8 for a blank check, which has TAR behind the pair: 00h, flash alone.
fn pair_command(code: u8, t: Step, n: usize, frame: &mut [u8]) -> usize
    requires { (1 ≤ n) × (n ≤ 8) }
    ensures { put result frame.new ≡ put_bytes (command (take n (code ∷ (pair_bytes t ++ (0x00 ∷ []))))) frame.old }
{
    let [low, middle, high] = address_bytes(first_byte(t.flash, t.first));
    let [end_low, end_middle, end_high] = address_bytes(last_byte(t.flash, t.last));
    let body = [code, low, middle, high, end_low, end_middle, end_high, 0x00];
    put_command(frame, &body[..n])
}

// The lock: its SF1 and SF2 as the sheet has them, and the reserved byte.
fn lock_command(t: Step, frame: &mut [u8]) -> usize
    ensures { put result frame.new ≡ put_bytes (lock_command t) frame.old }
{
    let body = [SECURITY_SET, t.flags.sf1, t.flags.sf2, 0x00];
    put_command(frame, &body)
}

// The erase of the step's block `at`.
fn block_command(t: Step, at: usize, frame: &mut [u8]) -> usize
    requires { t.first.0 + at < 65536 }
    ensures { put result frame.new ≡ put_bytes (block_command t at) frame.old }
{
    let block = Block(t.first.0 + at as u16);
    let [low, middle, high] = address_bytes(first_byte(t.flash, block));
    let body = [BLOCK_ERASE, low, middle, high];
    put_command(frame, &body)
}

// Page `at` of the step's body.
fn page_frame(sheet: &[u8], t: Step, at: usize, frame: &mut [u8]) -> usize
    requires { (at < step_pages t) × (t.body + at * 256 + 256 ≤ length sheet.now) }
    ensures { put result frame.new ≡ put_bytes (page_frame sheet.now t at) frame.old }
{
    let last = at + 1 == step_pages(t);
    let from = t.body + at * PAGE_SIZE;
    put_frame(frame, 0x02, end_due(last), &sheet[from..from + PAGE_SIZE])
}

// Page `at` of the step's body lies in the sheet.
fn page_there(sheet: &[u8], t: Step, at: usize) -> bool
    requires { at < step_pages t }
    ensures { result ≡ page_there sheet.now t at }
{
    let _pages = step_pages(t);
    let end = at * PAGE_SIZE + PAGE_SIZE;
    sheet.len() >= end && t.body <= sheet.len() - end
}

fn nothing(p: Player) -> Emitted
    ensures { result ≡ record { player = p; sent = 0 } }
{
    Emitted { player: p, sent: 0 }
}

// stays: a match over the kinds, which must name them all; no step is chosen by a value that is handed about.
// The first frame of a step.
#[tactic(auto, unfolding(rules::specs::Player::first_command))]
fn first_command(kind: Kind, t: Step, frame: &mut [u8]) -> usize
    ensures { put result frame.new ≡ put_bytes (first_command kind t) frame.old }
{
    match kind {
        Kind::Erase => block_command(t, 0, frame),
        Kind::Write => pair_command(PROGRAMMING, t, 7, frame),
        Kind::Verify => pair_command(VERIFY, t, 7, frame),
        Kind::Sum => pair_command(CHECKSUM, t, 7, frame),
        Kind::Blank => pair_command(BLANK_CHECK, t, 8, frame),
        Kind::Lock => lock_command(t, frame),
    }
}

// A step begins: the record keeps its kind.
fn emit_first(t: Step, p: Player, frame: &mut [u8]) -> Emitted
    requires { 260 ≤ length frame.old }
    ensures { emitting result.player result.sent frame.new ≡ emitting_by (sends (Commanded t.kind) p 0 (first_command t.kind t)) frame.old }
{
    Emitted {
        sent: first_command(t.kind, t, frame),
        player: sending(Stage::Commanded(t.kind), p, 0),
    }
}

// The next block of an erase.
fn emit_block(t: Step, p: Player, frame: &mut [u8]) -> Emitted
    requires { (260 ≤ length frame.old) × (p.at < step_blocks t) }
    ensures { emitting result.player result.sent frame.new ≡ emitting_by (sends (Commanded Erase) p p.at (block_command t p.at)) frame.old }
{
    Emitted {
        sent: block_command(t, p.at, frame),
        player: sending(Stage::Commanded(Kind::Erase), p, p.at),
    }
}

// The page in hand; none where the sheet does not have it.
#[tactic(auto, unfolding(crate::specs::Emitting::page_into))]
fn emit_page(kind: Kind, sheet: &[u8], t: Step, p: Player, frame: &mut [u8]) -> Emitted
    requires { (260 ≤ length frame.old) × (p.at < step_pages t) }
    ensures { emitting result.player result.sent frame.new ≡ page_into kind sheet.now t p frame.old }
{
    if !page_there(sheet, t, p.at) {
        return nothing(p);
    }
    Emitted {
        sent: page_frame(sheet, t, p.at, frame),
        player: sending(Stage::Paged(kind), p, p.at),
    }
}

// By stage, in the player's step `t` of n.
#[tactic(auto, unfolding(crate::specs::Emitting::emitted_into_by))]
fn emit_in(n: usize, sheet: &[u8], t: Step, p: Player, frame: &mut [u8]) -> Emitted
    requires { (260 ≤ length frame.old) × (lost_in p.stage n t p ≡ false) }
    ensures { emitting result.player result.sent frame.new ≡ emitted_into_by p.stage sheet.now t p frame.old }
{
    match p.stage {
        Stage::Ready => emit_first(t, p, frame),
        Stage::Block => emit_block(t, p, frame),
        Stage::Page(kind) => emit_page(kind, sheet, t, p, frame),
        Stage::New | Stage::Commanded(_) | Stage::Paged(_) | Stage::Over => nothing(p),
    }
}

// The next frame in step `t` of n, for a caller that has read the step. Nothing is given, and the buffer keeps its contents, where it is under 260
// bytes or the step, block or page is not there.
#[tactic(auto, unfolding(crate::specs::Emitting::emitted_at))]
pub fn emit_step(n: usize, sheet: &[u8], t: Step, p: Player, frame: &mut [u8]) -> Emitted
    ensures { emitting result.player result.sent frame.new ≡ emitted_at n t sheet.now p frame.old }
{
    if frame.len() < FRAME_ROOM || is_lost(n, t, p) {
        return nothing(p);
    }
    emit_in(n, sheet, t, p, frame)
}

// The next frame, of the player's step in the sheet; in an accepted sheet each page of a body is there.
pub fn emit(chip: Chip, sheet: &[u8], p: Player, frame: &mut [u8]) -> Emitted
    ensures { emitting result.player result.sent frame.new ≡ emitted_into chip sheet.now p frame.old }
{
    let t = step_at(chip, sheet, p.step);
    emit_step(count(sheet), sheet, t, p, frame)
}
