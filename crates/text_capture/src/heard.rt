// What the chip gives to a line, compared with the line behind it. There is no buffer of answers: they may be longer than the capture.
ghost use Rattle.std.specs.Prelude.{◌≡◌, ◌≤◌, length, take};
ghost use Rattle.rules.specs.Answers.{Accepted};
ghost use Rattle.rules.specs.Chip.{same};
ghost use Rattle.rules.specs.Lines.{row_bytes};
ghost use Rattle.rules.specs.Run.{all_bytes};
ghost use Rattle.rules.specs.StandIn.{step, feed, flash_verdict, lent_verdict};
ghost use Rattle.rules.specs.Capture.{given, hears};
ghost use Rattle.chip_finder.specs.LentFlashes.{memory};
ghost use Rattle.standin_engine.specs.View.{view};

use octets::numbers::byte_at;
use rules::Chip;
use standin_engine::{Change, byte_change};
use standin_state::Core;
use standin_state::resting::powered;
use text_read::part;
use text_read::rows::{row_byte, row_count};
use text_session::line::given_row;
use text_session::matching::{compare, is_all};

// The chip after a byte, and how many bytes of the reply buffer it answered.
#[derive(Clone, Copy)]
struct HeardByte {
    core: Core,
    answered: usize,
}

// stays: no Option, since the chip has heard the line in both cases, and goes on from there where the next one fits.
// The chip after a line, and whether the line behind gives just what it answered.
#[derive(Clone, Copy)]
pub(crate) struct HeardLine {
    pub(crate) core: Core,
    pub(crate) right: bool,
}

// One byte. What is lent fits, so none is refused.
fn hear_byte(
    chip: Chip,
    c: Core,
    byte: u8,
    held: &mut [u8; 260],
    code: &mut [u8],
    data: &mut [u8],
    reply: &mut [u8],
) -> HeardByte
    requires { lent_verdict chip (length code.old) (length «data».old) (length reply.old) ≡ Accepted }
    ensures data_after { view result.core held.new (memory code.new «data».new) ≡ (step chip (view c held.old (memory code.old «data».old)) byte).state }
    ensures reply_after { (take result.answered reply.new ≡ (step chip (view c held.old (memory code.old «data».old)) byte).answer) × (result.answered ≤ length reply.new) }
{
    let Ok(changed) = byte_change(chip, c, byte, held, code, data, reply) else {
        return HeardByte {
            core: c,
            answered: 0,
        };
    };
    match changed {
        Change::Held(n) => HeardByte {
            core: Core { have: n, ..c },
            answered: 0,
        },
        Change::Whole(h) => HeardByte {
            core: h.core,
            answered: h.answered,
        },
    }
}

// The bytes of a `>` line, and of the line behind it the row that it gives.
fn hear_row(
    chip: Chip,
    c: Core,
    sent: &[u8],
    row: &[u8],
    held: &mut [u8; 260],
    code: &mut [u8],
    data: &mut [u8],
) -> HeardLine
    requires { flash_verdict chip (length code.old) (length «data».old) ≡ Accepted }
    ensures data_after { view result.core held.new (memory code.new «data».new) ≡ (feed chip (view c held.old (memory code.old «data».old)) (row_bytes sent.now)).state }
    ensures right_value { result.right ≡ same (all_bytes (feed chip (view c held.old (memory code.old «data».old)) (row_bytes sent.now)).answers) (row_bytes row.now) }
{
    let mut reply = [0u8; 16];
    let mut core = c;
    let mut stands = Some(0);
    // stays: a row is text, and the number of a byte says where in it the byte stands; no slice of its bytes lies in memory
    for k in 0..row_count(sent) {
        let h = hear_byte(chip, core, row_byte(sent, k), held, code, data, &mut reply);
        core = h.core;
        stands = compare(stands, &reply[..h.answered], row);
    }
    HeardLine {
        core,
        right: is_all(stands, row),
    }
}

// A line is heard, and compared with the one behind it.
pub(crate) fn hear(
    chip: Chip,
    c: Core,
    before: &[u8],
    line: &[u8],
    held: &mut [u8; 260],
    code: &mut [u8],
    data: &mut [u8],
) -> HeardLine
    requires { flash_verdict chip (length code.old) (length «data».old) ≡ Accepted }
    ensures data_after { view result.core held.new (memory code.new «data».new) ≡ (hears chip (view c held.old (memory code.old «data».old)) before.now).state }
    ensures right_value { result.right ≡ same (hears chip (view c held.old (memory code.old «data».old)) before.now).due (given line.now) }
{
    let row = given_row(line);
    let sign = byte_at(before, 0);
    if sign == b'>' {
        return hear_row(chip, c, part::rest(before, 1), row, held, code, data);
    }
    let right = row_count(row) == 0;
    if sign == b'!' {
        return HeardLine {
            core: powered(c.options),
            right,
        };
    }
    HeardLine { core: c, right }
}
