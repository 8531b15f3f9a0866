// A command whose frame is well: one match over the codes of 01's table reads the information and refuses or does the order. Below it a small
// function for each kind of answer, and for each command that its information, flash or options can refuse.
ghost use Rattle.std.specs.Prelude.{◌≡◌, cond, ◌&&◌, List, [], ◌∷◌, ◌++◌, ℕ, ◌<◌, ◌≤◌, leb, length};
ghost use Rattle.rules.specs.declared.Chip.{Chip};
ghost use Rattle.rules.specs.declared.Options.{Options};
ghost use Rattle.rules.specs.declared.Task.TheVariants.{Idle};
ghost use Rattle.rules.specs.declared.Order.TheVariants.{Erase, BaudRate, Identity, Release, WindowSet, Checksum};
ghost use Rattle.rules.specs.Answers.{Is, Bad};
ghost use Rattle.rules.specs.Faults.{Parameter};
ghost use Rattle.rules.specs.Chip.{Memory, word_bytes, blocks, erase_address, range};
ghost use Rattle.rules.specs.Frame.{data_start, last_end, frame, one};
ghost use Rattle.rules.specs.Options.{shownSF1, shownSF2, shownSWS, shownSWE};
ghost use Rattle.rules.specs.State.{out, rest};
ghost use Rattle.rules.specs.Command.{sad_of, ead_of, paired, targeted, at_block, decoded, ack, ack_data, after_speed, secured};
ghost use Rattle.rules.specs.StandIn.{phase_after};
ghost use Rattle.chip_finder.specs.LentFlashes.{memory};
ghost use Rattle.standin_state.specs.View.{idle, Comes, Fits};
ghost use Rattle.standin_command.specs.Ordered.{awaited, begun, on_order};

use crate::refuse_with;
use chip_options::change::security_set;
use octets::numbers::{address_at, byte_at, low_byte, middle_byte, word_at};
use rules::{Address, Block, Chip, Flash, Options, Pages, Phase, REPLY_ROOM, Task};
use standin_state::{Core, Response, tasks};
use standin_verdict::phases::silenced;

// ---- the answers ----

// The ACK.
fn acknowledge(phase: Phase, task: Task, o: Options, reply: &mut [u8; REPLY_ROOM]) -> Response
    ensures { (m : Memory) → Comes result m reply.new (out (rest phase task o m) ack) reply.old }
{
    let n = frame_build::put_one(reply, 0x06);
    Response::resting(phase, task, o, n, None)
}

// The ACK and a data frame behind it.
fn tell(phase: Phase, o: Options, body: &[u8], reply: &mut [u8; REPLY_ROOM]) -> Response
    requires { (1 ≤ length body.now) × (length body.now ≤ 7) }
    ensures { (m : Memory) → Comes result m reply.new (ack_data body.now (rest phase Idle o m)) reply.old }
{
    let n = frame_build::put_ack_and(reply, body);
    Response::resting(phase, Task::Idle, o, n, None)
}

fn tell_flags(phase: Phase, o: Options, reply: &mut [u8; REPLY_ROOM]) -> Response
    ensures { (m : Memory) → Comes result m reply.new (ack_data (shownSF1 o ∷ shownSF2 o ∷ 0x00 ∷ []) (rest phase Idle o m)) reply.old }
{
    let body = [
        chip_options::read::shown_sf1(o),
        chip_options::read::shown_sf2(o),
        0x00,
    ];
    tell(phase, o, &body, reply)
}

fn tell_window(chip: Chip, phase: Phase, o: Options, reply: &mut [u8; REPLY_ROOM]) -> Response
    ensures { (m : Memory) → Comes result m reply.new (ack_data (word_bytes (shownSWS o) ++ word_bytes (shownSWE chip o)) (rest phase Idle o m)) reply.old }
{
    let a = chip_options::read::shown_sws(o) as u32;
    let b = chip_options::read::shown_swe(chip, o) as u32;
    let body = [low_byte(a), middle_byte(a), low_byte(b), middle_byte(b)];
    tell(phase, o, &body, reply)
}

fn tell_word(phase: Phase, o: Options, word: u16, reply: &mut [u8; REPLY_ROOM]) -> Response
    ensures { (m : Memory) → Comes result m reply.new (ack_data (word_bytes word) (rest phase Idle o m)) reply.old }
{
    let body = [low_byte(word as u32), middle_byte(word as u32)];
    tell(phase, o, &body, reply)
}

// The speed is set: 06h, 20h, 00h in one data frame.
fn tell_speed(o: Options, reply: &mut [u8; REPLY_ROOM]) -> Response
    ensures { (m : Memory) → Comes result m reply.new (out (rest (after_speed o) Idle o m) (frame data_start last_end (0x06 ∷ 0x20 ∷ 0x00 ∷ []))) reply.old }
{
    let body = [0x06u8, 0x20, 0x00];
    let n = frame_build::put_frame(reply, 0x02, 0x03, &body);
    Response::resting(tasks::after_speed(o), Task::Idle, o, n, None)
}

// The flags are set: with IFPR 0 the chip is Silent and nothing is answered.
fn secure(phase: Phase, o: Options, reply: &mut [u8; REPLY_ROOM]) -> Response
    ensures { (m : Memory) (old : Options) → Comes result m reply.new (secured o (rest phase Idle old m)) reply.old }
{
    if chip_options::read::ifpr(o) == 0 {
        return Response::resting(Phase::Silent, Task::Idle, o, 0, None);
    }
    acknowledge(phase, Task::Idle, o, reply)
}

// ---- the commands that can be refused ----
// stays: (speed, docs/DESIGN-PASS.md) each function takes phase and options out of the device once. Taken at each call, the options are packed into one
// number before the ways part, and so at each byte that comes to an engine put into its caller.

// 05h: the information is not valid.
fn refuse_information(phase: Phase, o: Options, reply: &mut [u8; REPLY_ROOM]) -> Response
    ensures { (m : Memory) → Comes result m reply.new (out (rest (phase_after phase Parameter) Idle o m) (one 0x05)) reply.old }
{
    let after = silenced(phase);
    refuse_with(after, o, 0x05, None, reply)
}

// The blocks of the address pair that a command names, where that is valid.
fn blocks_named(chip: Chip, f: &[u8]) -> Option<(Flash, Block, Block)>
    ensures { result ≡ range chip (sad_of f.now) (ead_of f.now) }
{
    chip_finder::range(chip, address_at(f, 3), address_at(f, 6))
}

// Their pages, none of them come yet.
// stays: (speed, docs/DESIGN-PASS.md) handed the blocks: with the reading of the pair in it, it is a call of its own, and the room for what it answers
// is filled with zeros at every command, where the engine is put into its caller.
fn awaited(blocks: Option<(Flash, Block, Block)>) -> Option<Pages>
    ensures { result ≡ awaited blocks }
{
    let (g, a, b) = blocks?;
    Some(tasks::pages_awaited(g, a, b))
}

// Verify and Programming: the pages of a valid address pair are awaited.
fn begin(c: Core, task: Option<Task>, reply: &mut [u8; REPLY_ROOM]) -> Response
    ensures { (m : Memory) → Comes result m reply.new (begun task (idle c m)) reply.old }
{
    let phase = c.phase;
    let o = c.options;
    match task {
        Some(task) => acknowledge(phase, task, o, reply),
        None => refuse_information(phase, o, reply),
    }
}

// Checksum of the blocks of a valid address pair.
fn tell_sum<'a>(
    chip: Chip,
    c: Core,
    f: &[u8],
    code: &'a [u8],
    data: &'a [u8],
    reply: &mut [u8; REPLY_ROOM],
) -> Response
    requires { Fits chip code.now «data».now reply.old }
    ensures { Comes result (memory code.now «data».now) reply.new (on_order chip c (memory code.now «data».now) f.now (paired Checksum chip f.now)) reply.old }
{
    let phase = c.phase;
    let o = c.options;
    match blocks_named(chip, f) {
        Some((g, a, b)) => {
            let sum = octets::checksum(chip_finder::range_part(chip, code, data, g, a, b));
            tell_word(phase, o, sum, reply)
        }
        None => refuse_information(phase, o, reply),
    }
}

// Blank Check of the blocks of a valid address pair, with the option bits where TAR counts them in. Flash and options stand.
fn check_blank<'a>(
    chip: Chip,
    c: Core,
    f: &[u8],
    code: &'a [u8],
    data: &'a [u8],
    reply: &mut [u8; REPLY_ROOM],
) -> Response
    requires { Fits chip code.now «data».now reply.old }
    ensures { Comes result (memory code.now «data».now) reply.new (on_order chip c (memory code.now «data».now) f.now (targeted chip f.now)) reply.old }
{
    let phase = c.phase;
    let o = c.options;
    let tar = byte_at(f, 9);
    if 1 < tar {
        return refuse_information(phase, o, reply);
    }
    match blocks_named(chip, f) {
        Some((g, a, b)) => {
            if let Err(fault) = standin_verdict::blank_fault(chip, o, code, data, g, a, b, tar) {
                let v = Err(fault);
                let note = frame_judge::note_of(v);
                return refuse_with(phase, o, frame_judge::status_byte(v), note, reply);
            }
            acknowledge(phase, Task::Idle, o, reply)
        }
        None => refuse_information(phase, o, reply),
    }
}

// A block erased, where it is not protected.
fn erase_block(
    chip: Chip,
    c: Core,
    g: Flash,
    b: Block,
    code: &mut [u8],
    data: &mut [u8],
    reply: &mut [u8; REPLY_ROOM],
) -> Response
    requires { (Fits chip code.old «data».old reply.old) × (b.0 < blocks chip g) }
    ensures { (f : List ℕ) → Comes result (memory code.new «data».new) reply.new (on_order chip c (memory code.old «data».old) f (Is (Erase g b))) reply.old }
{
    let phase = c.phase;
    let o = c.options;
    if let Err(fault) = standin_verdict::erase_fault(o, g, b) {
        return refuse_with(phase, o, frame_judge::status_byte(Err(fault)), None, reply);
    }
    chip_flash::erase::erase_block(chip, code, data, g, b);
    acknowledge(phase, Task::Idle, o, reply)
}

// Block Erase of the block that begins at an address.
fn erase(
    chip: Chip,
    c: Core,
    sad: Address,
    code: &mut [u8],
    data: &mut [u8],
    reply: &mut [u8; REPLY_ROOM],
) -> Response
    requires { Fits chip code.old «data».old reply.old }
    ensures { (f : List ℕ) → Comes result (memory code.new «data».new) reply.new (on_order chip c (memory code.old «data».old) f (at_block (erase_address chip sad))) reply.old }
{
    match chip_finder::erase_address(chip, sad) {
        Some((g, b)) => erase_block(chip, c, g, b, code, data, reply),
        None => refuse_information(c.phase, c.options, reply),
    }
}

// Baud Rate Set.
fn set_speed(c: Core, brt: u8, vdd: u8, reply: &mut [u8; REPLY_ROOM]) -> Response
    ensures { (chip : Chip) (m : Memory) (f : List ℕ) → Comes result m reply.new (on_order chip c m f (cond (leb brt 3 && leb 0x10 vdd && leb vdd 0x37) (Is BaudRate) Bad)) reply.old }
{
    let phase = c.phase;
    let o = c.options;
    if standin_verdict::rated(brt, vdd) {
        return tell_speed(o, reply);
    }
    refuse_information(phase, o, reply)
}

// ID: the ten bytes that stand in the frame.
fn identify(c: Core, f: &[u8], code: &[u8], reply: &mut [u8; REPLY_ROOM]) -> Response
    ensures { (chip : Chip) (d : List ℕ) → Comes result (memory code.now d) reply.new (on_order chip c (memory code.now d) f.now (Is Identity)) reply.old }
{
    let phase = c.phase;
    let o = c.options;
    if let Err(fault) = standin_verdict::ident_fault(f, code) {
        let status = frame_judge::status_byte(Err(fault));
        return refuse_with(silenced(phase), o, status, None, reply);
    }
    acknowledge(Phase::Command, Task::Idle, o, reply)
}

// Security Release.
fn release(c: Core, code: &[u8], data: &[u8], reply: &mut [u8; REPLY_ROOM]) -> Response
    ensures { (chip : Chip) (f : List ℕ) → Comes result (memory code.now «data».now) reply.new (on_order chip c (memory code.now «data».now) f (Is Release)) reply.old }
{
    let phase = c.phase;
    let o = c.options;
    if let Err(fault) = standin_verdict::release_fault(o, code, data) {
        return refuse_with(phase, o, frame_judge::status_byte(Err(fault)), None, reply);
    }
    acknowledge(phase, Task::Idle, chip_options::change::release(o), reply)
}

// Window Set.
fn set_window(c: Core, sws: u16, swe: u16, reply: &mut [u8; REPLY_ROOM]) -> Response
    ensures { (chip : Chip) (m : Memory) (f : List ℕ) → Comes result m reply.new (on_order chip c m f (Is (WindowSet sws swe))) reply.old }
{
    let phase = c.phase;
    let o = c.options;
    if let Err(fault) = standin_verdict::window_fault(o) {
        return refuse_with(phase, o, frame_judge::status_byte(Err(fault)), None, reply);
    }
    acknowledge(
        phase,
        Task::Idle,
        chip_options::change::window_set(o, sws, swe),
        reply,
    )
}

// ---- all commands ----

// The command whose code came, refused or done.
// stays: (speed, docs/SPEED.md, "A short command") a match over the codes: an order in between, decoded and taken apart again, took more a byte.
pub(crate) fn obey(
    chip: Chip,
    c: Core,
    f: &[u8],
    code: &mut [u8],
    data: &mut [u8],
    reply: &mut [u8; REPLY_ROOM],
) -> Response
    requires { Fits chip code.old «data».old reply.old }
    ensures { Comes result (memory code.new «data».new) reply.new (on_order chip c (memory code.old «data».old) f.now (decoded chip f.now)) reply.old }
{
    let phase = c.phase;
    let o = c.options;
    let command = byte_at(f, 2);
    match command {
        0x00 => acknowledge(phase, Task::Idle, o, reply),
        0x13 => begin(
            c,
            awaited(blocks_named(chip, f)).map(Task::Verifying),
            reply,
        ),
        0x22 => erase(chip, c, address_at(f, 3), code, data, reply),
        0x32 => check_blank(chip, c, f, &*code, &*data, reply),
        0x40 => begin(
            c,
            awaited(blocks_named(chip, f)).map(Task::Programming),
            reply,
        ),
        0x9A => set_speed(c, byte_at(f, 3), byte_at(f, 4), reply),
        0x9C => identify(c, f, &*code, reply),
        0xA0 => secure(phase, security_set(o, byte_at(f, 3), byte_at(f, 4)), reply),
        0xA1 => tell_flags(phase, o, reply),
        0xA2 => release(c, &*code, &*data, reply),
        0xAC => set_window(c, word_at(f, 3), word_at(f, 5), reply),
        0xAD => tell_window(chip, phase, o, reply),
        0xB0 => tell_sum(chip, c, f, &*code, &*data, reply),
        _ => refuse_information(phase, o, reply),
    }
}
