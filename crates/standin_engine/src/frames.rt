// A whole frame of the kind awaited. Where what is lent does not fit (D1 to D3) all stands and nothing is answered.
ghost use Rattle.std.specs.Prelude.{length};
ghost use Rattle.rules.specs.StandIn.{on_frame, lent_verdict};
ghost use Rattle.chip_finder.specs.LentFlashes.{memory};
ghost use Rattle.frame_build.specs.Buffer.{frame_in};
ghost use Rattle.standin_state.specs.View.{idle, Comes, handed};

use rules::{Chip, Task};
use standin_state::{Core, Response, tasks};

pub fn on_frame(
    chip: Chip,
    c: Core,
    frame: &[u8; 260],
    code: &mut [u8],
    data: &mut [u8],
    reply: &mut [u8],
) -> Response
    ensures { Comes result (memory code.new «data».new) reply.new (handed (lent_verdict chip (length code.old) (length «data».old) (length reply.old)) (idle c (memory code.old «data».old)) (on_frame chip (idle c (memory code.old «data».old)) (frame_in frame.now))) reply.old }
{
    match tasks::task_now(chip, c.phase, c.task) {
        Task::Idle => standin_command::on_command(chip, c, frame, code, data, reply),
        Task::Programming(p) => standin_pages::on_page(chip, c, p, frame, code, data, reply),
        Task::Verifying(p) => standin_pages::on_compare(chip, c, p, frame, &*code, &*data, reply),
    }
}
