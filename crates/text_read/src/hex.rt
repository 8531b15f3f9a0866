// Hex digits of either case, and pairs of them.
ghost use Rattle.std.specs.Prelude.{◌≡◌};
ghost use Rattle.rules.specs.Lines.{digit, two_digits, pair, spaced_pair};
ghost use Rattle.text_read.specs.Bytes.{below};

// The value of a digit.
#[tactic(auto, unfolding(rules::specs::Lines::digit, crate::specs::Bytes::below))]
pub fn digit(b: u8) -> Option<u8>
    ensures { result ≡ below 16 (digit b) }
{
    match b {
        b'0'..=b'9' => Some(b - b'0'),
        b'A'..=b'F' => Some(b - b'A' + 10),
        b'a'..=b'f' => Some(b - b'a' + 10),
        _ => None,
    }
}

// The value of two digits.
fn two_digits(h: u8, l: u8) -> Option<u8>
    ensures { result ≡ below 256 (two_digits h l) }
{
    Some(digit(h)? * 16 + digit(l)?)
}

// The pair that a text begins with.
#[tactic(auto, using(crate::proofs::Digits::short_text, crate::proofs::Digits::head_pair))]
pub fn pair(text: &[u8]) -> Option<u8>
    ensures { result ≡ below 256 (pair text.now) }
{
    match text {
        [h, l, ..] => two_digits(*h, *l),
        _ => None,
    }
}

// The space and pair that a text begins with.
#[tactic(auto, using(crate::proofs::Digits::empty_text, crate::proofs::Digits::other_head))]
pub fn spaced_pair(text: &[u8]) -> Option<u8>
    ensures { result ≡ below 256 (spaced_pair text.now) }
{
    match text {
        [space, row @ ..] if *space == b' ' => pair(row),
        _ => None,
    }
}
