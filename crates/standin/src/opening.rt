// The opening: a chip that was powered on is brought to phase Command.
ghost use Rattle.std.specs.Prelude.{◌≡◌, ◌∷◌, ◌++◌, length};
ghost use Rattle.rules.specs.Answers.{Accepted};
ghost use Rattle.rules.specs.Frame.{frame};
ghost use Rattle.rules.specs.Numbers.{call_number};
ghost use Rattle.chip_finder.specs.LentFlashes.{memory};
ghost use Rattle.standin_engine.specs.View.{view};
ghost use Rattle.standin_engine.specs.Stands.{Stands};
ghost use Rattle.standin.specs.Feeding.{fed_as};
ghost use Rattle.standin.specs.Opening.{speed_bytes, opening_verdict, opened};

use super::feeding;
use rules::{Chip, Refusal};
use standin_state::Core;

// The least bytes of the buffer of answers: 16 for each of the 23 bytes with an ID.
pub const OPENING_ROOM: usize = 368;

// 9Ch and the ID: the body of its frame.
fn ident_body(id: &[u8; 10]) -> [u8; 11]
    ensures { result ≡ 0x9C ∷ id.now }
{
    let mut body = [frame_build::IDENT; 11];
    body[1..].copy_from_slice(id);
    body
}

// Mode byte, 9Ah and 9Ch.
fn all_bytes(id: &[u8; 10]) -> [u8; 23]
    ensures { result ≡ speed_bytes ++ frame 0x01 0x03 (0x9C ∷ id.now) }
{
    let body = ident_body(id);
    let mut bytes = [
        0x3Au8, 0x01, 0x03, 0x9A, 0x00, 0x21, 0x42, 0x03, 0, 0, 0, 0, 0, 0, 0, 0, 0, 0, 0, 0, 0, 0,
        0,
    ];
    frame_build::put_frame(&mut bytes[8..23], 0x01, 0x03, &body);
    bytes
}

// D1, D2, then D3 by the length of the buffer of answers.
fn opening_verdict(chip: Chip, code: usize, data: usize, answers: usize) -> Result<(), Refusal>
    ensures { result ≡ opening_verdict chip code «data» answers }
{
    standin_state::lent::flash_verdict(chip, code, data)?;
    if answers < OPENING_ROOM {
        return Err(Refusal::D3);
    }
    Ok(())
}

// The bytes are fed: mode 3Ah, 9Ah with BRT 0 and VDD 21h, and 9Ch with that ID where the chip asks for one. What would be refused on
// the way is refused before the first byte, so a refused opening leaves all as it was.
pub fn open(
    chip: Chip,
    c: Core,
    id: &[u8; 10],
    held: &mut [u8; 260],
    code: &mut [u8],
    data: &mut [u8],
    answers: &mut [u8],
) -> feeding::Fed
    ensures answers_after { fed_as result held.new (memory code.new «data».new) answers.new ≡ opened chip (view c held.old (memory code.old «data».old)) answers.old id.now }
    ensures call_value { call_number result.call ≡ call_number (opened chip (view c held.old (memory code.old «data».old)) answers.old id.now).call }
    ensures stands { Stands (call_number result.call) c result.core }
    ensures stands_2 { Stands (call_number result.call) held.old held.new }
    ensures call_value_2 { opening_verdict chip (length code.old) (length «data».old) (length answers.old) ≡ Accepted → (call_number result.call).letter ≡ 0 }
{
    if let Err(refusal) = opening_verdict(chip, code.len(), data.len(), answers.len()) {
        return feeding::Fed {
            core: c,
            call: Err(refusal),
            taken: 0,
        };
    }
    let bytes = all_bytes(id);
    let sent = if chip_options::read::iden(c.options) == 0 {
        bytes.len()
    } else {
        8
    };
    feeding::feed(chip, c, &bytes[..sent], held, code, data, answers)
}
