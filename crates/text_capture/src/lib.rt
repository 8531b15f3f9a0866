// A capture of another programmer's session, looked over (02, M-111): its lines one after the other, each with what our chip gives to the line before it.
#![tactic(auto)]

mod heard;
pub mod told;

ghost use Rattle.std.specs.Prelude.{◌≡◌, length};
ghost use Rattle.rules.specs.Answers.{Accepted};
ghost use Rattle.rules.specs.Lines.{lines_of};
ghost use Rattle.rules.specs.StandIn.{flash_verdict};
ghost use Rattle.rules.specs.Capture.{stated, judged, captured, capture_number, capture_line};
ghost use Rattle.chip_finder.specs.LentFlashes.{memory};
ghost use Rattle.text_capture.specs.Looking.{looked_as};

use heard::hear;
use rules::capture::CaptureFault;
use rules::{Chip, Options, Phase, Task};
use standin_state::lent::flash_verdict;
use standin_state::resting::at_rest;
use text_read::line::line_end;
use text_session::line::{fits, is_line};

// The verdict, and the options as the lines before the one that it names left them.
#[derive(Clone, Copy)]
pub struct LookedOver {
    pub verdict: Result<(), CaptureFault>,
    pub options: Options,
}

// The lines one after the other, from a chip whose power is off. Each is looked at with the one before it, which the chip hears only then; behind the last
// comes the end of the text, as a line that gives nothing.
fn look_at_lines(
    chip: Chip,
    options: Options,
    text: &[u8],
    code: &mut [u8],
    data: &mut [u8],
) -> LookedOver
    requires { flash_verdict chip (length code.old) (length «data».old) ≡ Accepted }
    ensures { looked_as result (memory code.new «data».new) ≡ judged chip (lines_of text.now).ended (lines_of text.now).rest 0 (stated options (memory code.old «data».old)) }
{
    let mut held = [0u8; 260];
    let mut core = at_rest(Phase::Silent, Task::Idle, options);
    let mut before = &text[0..0];
    let mut done: usize = 0;
    let mut at: usize = 0;
    // stays: `split` at LF gives what stands behind the last LF as one more line, and `split_inclusive` gives each line with its LF, to be asked for and taken off again: no plainer
    while at < text.len() {
        let end = line_end(text, at);
        let line = &text[at..end];
        let h = hear(chip, core, before, line, &mut held, code, data);
        core = h.core;
        if end >= text.len() || !is_line(line) {
            return LookedOver {
                verdict: Err(CaptureFault::BadForm(done + 1)),
                options: core.options,
            };
        }
        if !fits(done, line, h.right) {
            return LookedOver {
                verdict: Err(CaptureFault::Wrong(done + 1)),
                options: core.options,
            };
        }
        before = line;
        at = end + 1;
        done += 1;
    }
    let last = &text[0..0];
    let h = hear(chip, core, before, last, &mut held, code, data);
    let options = h.core.options;
    if !fits(done, last, h.right) {
        return LookedOver {
            verdict: Err(CaptureFault::Wrong(done + 1)),
            options,
        };
    }
    LookedOver {
        verdict: Ok(()),
        options,
    }
}

// A capture looked over, from a stated chip with the flashes lent: they end as the lines before the one named left them. Refused, all stands.
pub fn look_over(
    chip: Chip,
    options: Options,
    text: &[u8],
    code: &mut [u8],
    data: &mut [u8],
) -> LookedOver
    ensures data_after { looked_as result (memory code.new «data».new) ≡ captured chip options (memory code.old «data».old) text.now }
    ensures verdict_value { capture_number result.verdict ≡ capture_number (captured chip options (memory code.old «data».old) text.now).verdict }
    ensures verdict_value_2 { capture_line result.verdict ≡ capture_line (captured chip options (memory code.old «data».old) text.now).verdict }
{
    if let Err(refusal) = flash_verdict(chip, code.len(), data.len()) {
        return LookedOver {
            verdict: Err(CaptureFault::Refused(refusal)),
            options,
        };
    }
    look_at_lines(chip, options, text, code, data)
}
