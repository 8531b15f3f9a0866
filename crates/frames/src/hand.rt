// What the player is called with: the sheet in hand, the sizes of what is lent, and its record.
use crate::show;
use rules::{Chip, Player};
use text_read::in_hand::InHand;
use text_read::{in_hand, part, rows};

// stays: no Option, since the record is shown before a play has begun too, as that of a player before its first call.
// Between two lines: the sheet, how many entries and bytes are lent, and the chip that sheets are judged against. Until a play has begun the record is that of a
// player before its first call.
#[derive(Clone, Copy)]
pub(crate) struct Hand {
    pub(crate) sheet: InHand,
    pub(crate) sums: usize,
    pub(crate) room: usize,
    pub(crate) begun: bool,
    pub(crate) player: Player,
    pub(crate) chip: Chip,
}

// Before the first line.
pub(crate) fn empty() -> Hand {
    Hand {
        sheet: in_hand::empty(),
        sums: 64,
        room: 260,
        begun: false,
        player: player_absorb::new_player(),
        chip: chip_finder::small(),
    }
}

// A list of so many entries, all 0, is lent from now on.
pub(crate) fn lend_sums(h: Hand, n: usize, sums: &mut [u16]) -> Hand {
    sums.fill(0);
    Hand { sums: n, ..h }
}

// A frame buffer of so many bytes is lent from now on.
pub(crate) fn lend_room(h: Hand, n: usize) -> Hand {
    Hand { room: n, ..h }
}

// Later calls are for that chip.
pub(crate) fn use_chip(h: Hand, chip: Chip) -> Hand {
    Hand { chip, ..h }
}

// A play begins.
pub(crate) fn begin(h: Hand) -> Hand {
    Hand {
        begun: true,
        player: player_absorb::new_player(),
        ..h
    }
}

// The player's call; what it answers is written.
fn next(
    chip: Chip,
    p: Player,
    sheet: &[u8],
    reply: &[u8],
    frame: &mut [u8],
    sums: &mut [u16],
) -> Player {
    let c = player::call::next(chip, sheet, p, reply, frame, sums);
    let next = c.next;
    let report = c.report;
    show::call(next, report, frame, sums);
    c.player
}

// A call with the bytes of a row as the reply.
pub(crate) fn call(
    h: Hand,
    row: &[u8],
    sheet: &[u8],
    reply: &mut [u8],
    frame: &mut [u8],
    sums: &mut [u16],
) -> Hand {
    let mut h = h;
    let end = rows::store(reply, 0, row);
    let room = h.room.min(frame.len());
    let entries = h.sums.min(sums.len());
    let p = h.player;
    let chip = h.chip;
    h.player = next(
        chip,
        p,
        sheet,
        part::between(reply, 0, end),
        &mut frame[0..room],
        &mut sums[0..entries],
    );
    h
}
