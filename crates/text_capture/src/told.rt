// The verdict as text.
ghost use Rattle.std.specs.Prelude.{◌≡◌};
ghost use Rattle.text_out.specs.Out.{out, add, Filled};
ghost use Rattle.text_capture.specs.Told.{line_told, verdict_told};

use rules::capture::CaptureFault;
use text_out::{put, put_bytes};
use text_told::lines::put_refused;
use text_told::words::put_count;

// Room for the longest: 15 bytes beside the number of a line, which has at most 20 digits.
pub const ROOM: usize = 64;

fn put_line(buf: &mut [u8], words: &[u8], n: usize) -> usize
    ensures { out result buf.new ≡ add (line_told words.now n) (out 0 buf.old) }
{
    let at = put_count(buf, 0, words, n);
    put(buf, at, b'\n')
}

// The line that tells the verdict, from the first byte of a buffer on.
pub fn put_verdict(buf: &mut [u8], v: Result<(), CaptureFault>) -> usize
    ensures { Filled (verdict_told v) buf.old result buf.new }
{
    let Err(fault) = v else {
        return put_bytes(buf, 0, b"accepted\n");
    };
    match fault {
        CaptureFault::Wrong(n) => put_line(buf, b"wrong line ", n),
        CaptureFault::BadForm(n) => put_line(buf, b"bad form line ", n),
        CaptureFault::Refused(refusal) => put_refused(buf, refusal),
    }
}
