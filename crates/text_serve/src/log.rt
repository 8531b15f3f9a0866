// A session written down as lines of a capture: `> HH HH ..` of what was sent, and behind it `< HH ..` of the answer to its last byte.
ghost use Rattle.std.specs.Prelude.{◌≡◌};
ghost use Rattle.text_out.specs.Out.{out, add, Filled};
ghost use Rattle.text_serve.specs.Log.{line_told, turn_told};

use text_lines::output::row;
use text_out::put;

#[tactic(auto, using(crate::proofs::Telling::lined))]
fn put_line(buf: &mut [u8], at: usize, sign: u8, bytes: &[u8]) -> usize
    ensures { out result buf.new ≡ add (line_told sign bytes.now) (out at buf.old) }
{
    let at = put(buf, at, sign);
    let at = row(buf, at, bytes);
    put(buf, at, b'\n')
}

// A turn, from the first byte of a buffer on; no answer has no line.
pub fn put_turn(buf: &mut [u8], sent: &[u8], answer: &[u8]) -> usize
    ensures { Filled (turn_told sent.now answer.now) buf.old result buf.new }
{
    let at = put_line(buf, 0, b'>', sent);
    if answer.len() == 0 {
        return at;
    }
    put_line(buf, at, b'<', answer)
}
