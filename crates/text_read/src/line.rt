// Where a line ends.
ghost use Rattle.std.specs.Prelude.{◌≡◌, ◌+◌, length, drop};
ghost use Rattle.rules.specs.Lines.{first_line};

use crate::part;

// The end of the line from `from` on: its LF, or the text's end.
pub fn line_end(text: &[u8], from: usize) -> usize
    ensures { result ≡ from + length (first_line (drop from text.now)) }
{
    let rest = part::rest(text, from);
    from + rest.iter().position(|&b| b == b'\n').unwrap_or(rest.len())
}
