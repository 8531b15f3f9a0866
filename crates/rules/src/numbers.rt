// 01's own name of each refusal: what is printed of it, and what a digest takes of it; and its number of each kind of step.
ghost use Rattle.std.specs.Prelude.{◌≡◌};
ghost use Rattle.rules.specs.Numbers.{refusal_number, kind_number};

use super::{Kind, Refusal};

// A letter of 01's names by its ASCII code (0 for none), and the number behind it.
#[derive(Clone, Copy)]
pub struct Number {
    pub letter: u8,
    pub number: u8,
}

// `J7` is the letter J and the number 7.
pub fn refusal_number(refusal: Refusal) -> Number
    ensures { result ≡ refusal_number refusal }
{
    let (letter, number) = match refusal {
        Refusal::D0 => (b'D', 0),
        Refusal::D1 => (b'D', 1),
        Refusal::D2 => (b'D', 2),
        Refusal::D3 => (b'D', 3),
        Refusal::E1 => (b'E', 1),
        Refusal::J1 => (b'J', 1),
        Refusal::J2 => (b'J', 2),
        Refusal::J3 => (b'J', 3),
        Refusal::J4 => (b'J', 4),
        Refusal::J5 => (b'J', 5),
        Refusal::J6 => (b'J', 6),
        Refusal::J7 => (b'J', 7),
        Refusal::J8 => (b'J', 8),
        Refusal::J9 => (b'J', 9),
        Refusal::J10 => (b'J', 10),
        Refusal::J11 => (b'J', 11),
        Refusal::J12 => (b'J', 12),
        Refusal::J13 => (b'J', 13),
        Refusal::J14 => (b'J', 14),
        Refusal::J15 => (b'J', 15),
        Refusal::J16 => (b'J', 16),
        Refusal::P1 => (b'P', 1),
        Refusal::P2 => (b'P', 2),
    };
    Number { letter, number }
}

// By it kinds are told in numbers.
pub fn kind_number(kind: Kind) -> u8
    ensures { result ≡ kind_number kind }
{
    match kind {
        Kind::Erase => 1,
        Kind::Write => 2,
        Kind::Verify => 3,
        Kind::Sum => 4,
        Kind::Blank => 5,
        Kind::Lock => 6,
    }
}
