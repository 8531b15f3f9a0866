// The report: of an unfinished play 06h and the counts so far.
ghost use Rattle.std.specs.Prelude.{◌≡◌};
ghost use Rattle.rules.specs.Numbers.{status_number};
ghost use Rattle.rules.specs.Player.{counts_of, report_of};

use rules::{Player, Report, Stage, Status};

fn counts_of(p: Player) -> Report
    ensures { result ≡ counts_of p }
{
    Report {
        status: Status::Byte(0x06),
        steps: p.step,
        frames: p.frames,
        pieces: 0,
    }
}

#[tactic(auto, unfolding(rules::specs::Player::report_of, rules::specs::Player::report_by))]
pub fn report(p: Player) -> Report
    ensures value { result ≡ report_of p }
    ensures status_value { status_number result.status ≡ status_number (report_of p).status }
{
    match p.stage {
        Stage::New => Report {
            status: Status::Byte(0x06),
            steps: 0,
            frames: 0,
            pieces: 0,
        },
        Stage::Over => Report {
            status: p.status,
            pieces: p.pieces,
            ..counts_of(p)
        },
        _ => counts_of(p),
    }
}
