// One turn: the frame is given, the stand-in takes it byte by byte, and the answer is taken in.
ghost use Rattle.std.specs.Prelude.{◌≡◌, take};
ghost use Rattle.rules.specs.Run.{clean, turned, between};
ghost use Rattle.joined.specs.Rigs.{rigged};
ghost use Rattle.joined.specs.Turn.{TurnReady};

use crate::Rig;
use player_absorb::absorb;
use player_emit::emit;
use rules::{Chip, Player, Stage};
use standin::feeding::feed;

// The first n bytes; all where there are fewer.
fn first<'a>(s: &'a [u8], n: usize) -> &'a [u8]
    ensures { result.now ≡ take n s.now }
{
    s.get(..n).unwrap_or(s)
}

// Between two steps: at the beginning of one, or finished or stopped.
#[tactic(auto, unfolding(rules::specs::Run::between, rules::specs::Run::between_in))]
pub(crate) fn between(p: Player) -> bool
    ensures { result ≡ between p }
{
    matches!(p.stage, Stage::Ready | Stage::Over)
}

// stays: what is lent goes on one by one. Tried: a struct of the six references, passed as `&mut`. `feed` reads the frame while it writes four
// others, and the check does not cover two fields that are lent at once behind one reference.
pub(crate) fn turn(
    chip: Chip,
    sheet: &[u8],
    r: Rig,
    held: &mut [u8; 260],
    code: &mut [u8],
    data: &mut [u8],
    reply: &mut [u8],
    frame: &mut [u8],
    sums: &mut [u16],
) -> Rig
    requires { TurnReady chip sheet.now (rigged r held.old code.old «data».old reply.old frame.old sums.old) }
    ensures { rigged result held.new code.new «data».new reply.new frame.new sums.new ≡ turned clean chip sheet.now 0 (rigged r held.old code.old «data».old reply.old frame.old sums.old) }
{
    let given = emit(chip, sheet, r.player, frame);
    let fed = feed(
        chip,
        r.core,
        first(&*frame, given.sent),
        held,
        code,
        data,
        reply,
    );
    // a refused feeding answered nothing
    let arrived = fed.call.unwrap_or(0);
    let player = absorb(chip, sheet, given.player, first(&*reply, arrived), sums);
    Rig {
        player,
        core: fed.core,
        arrived,
    }
}
