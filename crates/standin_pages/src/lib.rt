// Data frames: a page of Programming, with the delayed write status, and a page of Verify.
#![tactic(auto)]

ghost use Rattle.std.specs.Prelude.{◌≡◌, true, cond, ◌&&◌, eqb, ◌+◌, ◌<◌, ◌≤◌, length};
ghost use Rattle.rules.specs.StandIn.{ahead, later, on_page, on_compare, lent_verdict, out, noted, rest};
ghost use Rattle.rules.specs.Chip.{Memory};
ghost use Rattle.rules.specs.Frame.{pair};
ghost use Rattle.chip_finder.specs.LentFlashes.{memory};
ghost use Rattle.frame_build.specs.Buffer.{frame_in};
ghost use Rattle.standin_state.specs.View.{idle, Comes, Fits, handed_page};

use rules::{Chip, Note, Pages, REPLY_ROOM, Task};
use standin_state::lent::lent_verdict;
use standin_state::resting::unanswered;
use standin_state::tasks::ahead;
use standin_state::{Core, Response};

// stays: (no plainer) both status bytes are numbers here: they are the bytes that go on the wire, and `status` of rules::Pages is one.
// The pair is sent, with that note; the command goes on with that task, or has ended with none.
fn paired(
    c: Core,
    task: Task,
    line: u8,
    status: u8,
    note: Option<Note>,
    reply: &mut [u8; REPLY_ROOM],
) -> Response
    ensures { (m : Memory) → Comes result m reply.new (noted note (out (rest c.phase task c.options m) (pair line status))) reply.old }
{
    let phase = c.phase;
    let o = c.options;
    let n = frame_build::put_pair(reply, line, status);
    Response::resting(phase, task, o, n, note)
}

// The pages after the one in hand, with what is known of it.
fn later(p: Pages, status: u8) -> Pages
    requires { (p.page < 524288) × (0 < p.left) }
    ensures { result ≡ later p status }
{
    Pages {
        page: p.page + 1,
        left: p.left - 1,
        status,
        ..p
    }
}

// A page of Programming: judged; then the status of the page before is told, or this page is written and, if it is the last,
// its own status is told.
fn program(
    chip: Chip,
    c: Core,
    p: Pages,
    frame: &[u8; 260],
    code: &mut [u8],
    data: &mut [u8],
    reply: &mut [u8; REPLY_ROOM],
) -> Response
    requires { (ahead chip p ≡ true) × (Fits chip code.old «data».old reply.old) }
    ensures { Comes result (memory code.new «data».new) reply.new (on_page p (idle c (memory code.old «data».old)) (frame_in frame.now)) reply.old }
{
    let last = p.left == 1;
    let status_before = p.status;
    if let Err(fault) = frame_judge::judge_data(frame, last) {
        let v = Err(fault);
        let line = frame_judge::status_byte(v);
        let note = frame_judge::note_of(v);
        return paired(c, Task::Idle, line, status_before, note, reply);
    }
    if status_before != 0x06 {
        return paired(c, Task::Idle, 0x06, status_before, None, reply);
    }
    let guarded = chip_options::protect::page_protected(c.options, p.flash, p.page);
    let st = chip_flash::pages::program_page(chip, guarded, p, code, data, frame);
    if last {
        return paired(c, Task::Idle, 0x06, st, None, reply);
    }
    let next = Task::Programming(later(p, st));
    paired(c, next, 0x06, 0x06, None, reply)
}

// A page of Verify: judged and compared; a difference is told only with the last page.
fn compare(
    chip: Chip,
    c: Core,
    p: Pages,
    frame: &[u8; 260],
    code: &[u8],
    data: &[u8],
    reply: &mut [u8; REPLY_ROOM],
) -> Response
    requires { (ahead chip p ≡ true) × (Fits chip code.now «data».now reply.old) }
    ensures { Comes result (memory code.now «data».now) reply.new (on_compare p (idle c (memory code.now «data».now)) (frame_in frame.now)) reply.old }
{
    let last = p.left == 1;
    if let Err(fault) = frame_judge::judge_data(frame, last) {
        let v = Err(fault);
        let line = frame_judge::status_byte(v);
        let note = frame_judge::note_of(v);
        return paired(c, Task::Idle, line, 0x06, note, reply);
    }
    let told = compared(
        p.status,
        chip_flash::pages::page_equals(chip, p, code, data, frame),
    );
    if last {
        return paired(c, Task::Idle, 0x06, told, None, reply);
    }
    let more = Task::Verifying(later(p, told));
    paired(c, more, 0x06, 0x06, None, reply)
}

// 06h as long as every page so far was equal.
fn compared(before: u8, equal: bool) -> u8
    ensures { result ≡ cond (eqb before 0x06 && equal) 0x06 0x0F }
{
    if before == 0x06 && equal {
        return 0x06;
    }
    0x0F
}

// A data frame of Programming. Where what is lent does not fit, or no page is left, all stands and nothing is answered.
pub fn on_page(
    chip: Chip,
    c: Core,
    p: Pages,
    frame: &[u8; 260],
    code: &mut [u8],
    data: &mut [u8],
    reply: &mut [u8],
) -> Response
    ensures { Comes result (memory code.new «data».new) reply.new (handed_page chip p (lent_verdict chip (length code.old) (length «data».old) (length reply.old)) (idle c (memory code.old «data».old)) (on_page p (idle c (memory code.old «data».old)) (frame_in frame.now))) reply.old }
{
    match lent_verdict(chip, code.len(), data.len(), reply.len()) {
        Ok(()) if ahead(chip, p) => match reply.first_chunk_mut() {
            Some(room) => program(chip, c, p, frame, code, data, room),
            None => unanswered(c),
        },
        _ => unanswered(c),
    }
}

// A data frame of Verify, likewise.
pub fn on_compare(
    chip: Chip,
    c: Core,
    p: Pages,
    frame: &[u8; 260],
    code: &[u8],
    data: &[u8],
    reply: &mut [u8],
) -> Response
    ensures { Comes result (memory code.now «data».now) reply.new (handed_page chip p (lent_verdict chip (length code.now) (length «data».now) (length reply.old)) (idle c (memory code.now «data».now)) (on_compare p (idle c (memory code.now «data».now)) (frame_in frame.now))) reply.old }
{
    match lent_verdict(chip, code.len(), data.len(), reply.len()) {
        Ok(()) if ahead(chip, p) => match reply.first_chunk_mut() {
            Some(room) => compare(chip, c, p, frame, code, data, room),
            None => unanswered(c),
        },
        _ => unanswered(c),
    }
}
