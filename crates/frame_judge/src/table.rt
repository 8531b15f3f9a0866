// The constant table of tables: code, LEN, phase; searched for each frame.
// stays: rows of numbers, as 01 names the form (a constant table of tables) and `rows` of rules' specs/Command has them.
ghost use Rattle.std.specs.Prelude.{◌≡◌};
ghost use Rattle.rules.specs.Command.{rows, lookup};

const COMMANDS: [[u8; 3]; 13] = [
    [0x00, 1, 3],
    [0x13, 7, 3],
    [0x22, 4, 3],
    [0x32, 8, 3],
    [0x40, 7, 3],
    [0x9A, 3, 1],
    [0x9C, 11, 2],
    [0xA0, 4, 3],
    [0xA1, 1, 3],
    [0xA2, 1, 3],
    [0xAC, 5, 3],
    [0xAD, 1, 3],
    [0xB0, 7, 3],
];

// The length and the number of the phase in the row with that code.
pub fn row_of(code: u8) -> Option<(u8, u8)>
    ensures { result ≡ lookup rows code }
{
    let row = COMMANDS.iter().find(|row| row[0] == code).copied()?;
    Some((row[1], row[2]))
}
