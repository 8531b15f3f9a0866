// Room for a script, and what is said of a bad line.
ghost use Rattle.std.specs.Prelude.{◌≡◌, length};

// The most bytes of a script that are run.
pub const LIMIT: usize = 1_048_576;

// Room for the input that is run, and for one byte more, by which a longer input is seen as such.
pub fn room() -> [u8; 1048577]
    ensures { 1048577 ≡ length result }
{
    [0; 1048577]
}

// stays beside `room`: each is its one line, and one function of both is no plainer.
// Room for the bytes that the longest script can say, at three bytes of text each.
pub fn room_for_bytes() -> [u8; 349525]
    ensures { 349525 ≡ length result }
{
    [0; 349525]
}

// Says which line ended the script, if one did.
pub fn bad_line(number: Option<usize>) {
    let Some(number) = number else {
        return;
    };
    io::write_all(1, b"bad line ");
    io::print_decimal(1, number as u64);
    io::write_all(1, b"\n");
}
