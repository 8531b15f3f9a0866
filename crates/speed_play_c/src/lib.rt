// The entry for C that measures a whole play: that of `speed_play`. It stands alone in its archive, as a program that plays a sheet does.
#![tactic(auto)]

// A new player plays the sheet to a fresh chip in phase Command.
#[unsafe(no_mangle)]
pub extern "C" fn rattle_play(
    sheet: &[u8],
    held: &mut [u8; 260],
    code: &mut [u8],
    data: &mut [u8],
    reply: &mut [u8],
    frame: &mut [u8],
    sums: &mut [u16],
    each: &mut [usize; 64],
) -> usize {
    speed_play::rattle_play(sheet, held, code, data, reply, frame, sums, each)
}
