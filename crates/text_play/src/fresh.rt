// A sheet played to a fresh chip: what the program is.
ghost use Rattle.std.specs.Prelude.{◌≡◌, ◌≤◌, length, take};
ghost use Rattle.rules.specs.Chip.{small, fresh_memory};
ghost use Rattle.text_play.specs.Fresh.{fresh_text};

use crate::told::play_told;
use standin::call::{off, power_on};
use standin::opening::{OPENING_ROOM, open};

// The flashes of the small chip.
const CODE_SIZE: usize = 32768;

const DATA_SIZE: usize = 2048;

fn blank_code() -> [u8; CODE_SIZE]
    ensures { result ≡ (fresh_memory small).code }
{
    [0xFF; CODE_SIZE]
}

fn blank_data() -> [u8; DATA_SIZE]
    ensures { result ≡ (fresh_memory small).«data» }
{
    [0xFF; DATA_SIZE]
}

// Power-on, the opening, the play: the first bytes of the buffer are then the text of it.
pub fn play_fresh(sheet: &[u8], text: &mut [u8]) -> usize
    ensures { 2048 ≤ length text.old → take result text.new ≡ fresh_text sheet.now }
{
    let chip = chip_finder::small();
    let mut code = blank_code();
    let mut data = blank_data();
    let mut answers = [0u8; OPENING_ROOM];
    let powered = power_on(off(chip), chip_options::read::fresh(), &code, &data);
    let mut device = powered.device;
    let core = device.core;
    let opened = open(
        chip,
        core,
        &[0xFF; 10],
        &mut device.held,
        &mut code,
        &mut data,
        &mut answers,
    );
    let waiting = opened.core;
    let told = play_told(
        chip,
        sheet,
        waiting,
        &mut device.held,
        &mut code,
        &mut data,
        text,
    );
    told.size
}
