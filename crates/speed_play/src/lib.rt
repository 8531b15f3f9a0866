// What is measured of a whole play, through the entry of `speed_play_c`.
#![tactic(auto)]

use joined::NotPlayed;
use joined::whole::play;
use player::report::report;
use rules::Player;
use speed_calls::byte_calls::waiting;
use speed_calls::digest::{mixed, number_of};
use speed_calls::player_calls::reported;

// What a play came to: its answer, and of one that was played the report and the size of the last answer.
pub fn outcome(answer: Result<(), NotPlayed>, p: Player, arrived: usize) -> usize {
    match answer {
        Err(NotPlayed::Refused(refusal)) => mixed(0, number_of(refusal)),
        Err(NotPlayed::NotAtStep) => mixed(0, 0x2001),
        Err(NotPlayed::Busy) => mixed(0, 0x2002),
        Ok(()) => mixed(reported(0, report(p)), arrived),
    }
}

// A new player plays the sheet to a fresh chip in phase Command.
pub fn rattle_play(
    sheet: &[u8],
    held: &mut [u8; 260],
    code: &mut [u8],
    data: &mut [u8],
    reply: &mut [u8],
    frame: &mut [u8],
    sums: &mut [u16],
    each: &mut [usize; 64],
) -> usize {
    let played = play(
        chip_finder::small(),
        sheet,
        waiting(),
        held,
        code,
        data,
        reply,
        frame,
        sums,
        each,
    );
    let answer = played.answer;
    let rig = played.rig;
    let p = rig.player;
    outcome(answer, p, rig.arrived)
}
