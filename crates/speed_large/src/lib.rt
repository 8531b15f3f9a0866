// The entry that measures the same play on the larger chip. It stands alone in its archive, as that of the play on the small one does.
#![tactic(auto)]

use joined::whole::play;
use speed_calls::byte_calls::waiting;
use speed_play::outcome;

// A new player plays the sheet to a fresh large chip in phase Command.
// stays: `rattle_play` of `speed_play` differs in the chip alone; C calls the entries by their names, and one function for both, lent the same eight things
// and the chip, would be no plainer: each would still be this call.
#[unsafe(no_mangle)]
pub extern "C" fn rattle_play_large(
    sheet: &[u8],
    held: &mut [u8; 260],
    code: &mut [u8],
    data: &mut [u8],
    reply: &mut [u8],
    frame: &mut [u8],
    sums: &mut [u16],
    each: &mut [usize; 64],
) -> usize {
    let played = play(
        chip_finder::large(),
        sheet,
        waiting(),
        held,
        code,
        data,
        reply,
        frame,
        sums,
        each,
    );
    let answer = played.answer;
    let rig = played.rig;
    let p = rig.player;
    outcome(answer, p, rig.arrived)
}
