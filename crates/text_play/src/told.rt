// The joined call, and the text of what came of it in a lent buffer.
ghost use Rattle.std.specs.Prelude.{◌≡◌};
ghost use Rattle.rules.specs.Text.{play_text};
ghost use Rattle.chip_finder.specs.LentFlashes.{memory};
ghost use Rattle.standin_engine.specs.View.{view};
ghost use Rattle.text_out.specs.Out.{Filled};
ghost use Rattle.text_play.specs.Told.{played, answer_text, outcome_text};

use joined::NotPlayed;
use joined::whole::play;
use player::report::report;
use rules::{Chip, Report};
use standin_state::Core;
use text_told::lines::{put_busy, put_refused};
use text_told::play::put_play;

// The stand-in after a play, and how many bytes of the buffer are the text.
#[derive(Clone, Copy)]
pub struct Told {
    pub core: Core,
    pub size: usize,
}

#[tactic(auto, unfolding(crate::specs::Told::answer_text))]
fn put_outcome(
    text: &mut [u8],
    chip: Chip,
    sheet: &[u8],
    answer: Result<(), NotPlayed>,
    report: Report,
    sums: &[u16],
    each: &[usize; 64],
) -> usize
    ensures { Filled (answer_text answer (play_text chip sheet.now report sums.now each.now)) text.old result text.new }
{
    let Err(why) = answer else {
        return put_play(text, chip, sheet, report, sums, each);
    };
    match why {
        NotPlayed::Refused(refusal) => put_refused(text, refusal),
        NotPlayed::NotAtStep | NotPlayed::Busy => put_busy(text),
    }
}

// A new player plays the sheet to the stand-in as it stands.
pub fn play_told(
    chip: Chip,
    sheet: &[u8],
    c: Core,
    held: &mut [u8; 260],
    code: &mut [u8],
    data: &mut [u8],
    text: &mut [u8],
) -> Told
    ensures filled { Filled (outcome_text chip sheet.now (played chip sheet.now (view c held.old (memory code.old «data».old)))) text.old result.size text.new }
    ensures data_after { view result.core held.new (memory code.new «data».new) ≡ (played chip sheet.now (view c held.old (memory code.old «data».old))).reached.state }
{
    let mut reply = [0u8; 16];
    let mut frame = [0u8; 260];
    let mut sums = [0u16; 64];
    let mut each = [0usize; 64];
    let ended = play(
        chip, sheet, c, held, code, data, &mut reply, &mut frame, &mut sums, &mut each,
    );
    let answer = ended.answer;
    let rig = ended.rig;
    let p = rig.player;
    let size = put_outcome(text, chip, sheet, answer, report(p), &sums, &each);
    let core = rig.core;
    Told { core, size }
}
