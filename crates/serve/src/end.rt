// What stopped a session, and what is said of it.
use rules::Refusal;
use text_read::part;
use text_script::chip_file::BadLine;
use text_told::lines::put_refused;

// A session that nothing stops ends with its input, or with the most bytes that are taken. One has no chip whose file cannot be read, or whose file has
// a line that states nothing.
#[derive(Clone, Copy)]
pub(crate) enum Stop {
    NoFile,
    BadLine(BadLine),
    Refused(Refusal),
    NoInput,
    NoOutput,
    NoLog,
}

impl From<BadLine> for Stop {
    fn from(line: BadLine) -> Stop {
        Stop::BadLine(line)
    }
}

impl From<Refusal> for Stop {
    fn from(refusal: Refusal) -> Stop {
        Stop::Refused(refusal)
    }
}

// `serve: CHIPFILE: bad line 7`
fn bad_line(line: BadLine) -> bool {
    io::write_all(2, b"serve: CHIPFILE: bad line ");
    io::print_decimal(2, line.0 as u64);
    io::write_all(2, b"\n")
}

// `serve: refused D0`
fn refused(refusal: Refusal) -> bool {
    let mut line = [0u8; 12];
    let size = put_refused(&mut line, refusal);
    io::write_all(2, b"serve: ");
    io::write_all(2, part::between(&line, 0, size))
}

// What stopped it is said; a session that ended with its input says nothing.
pub(crate) fn tell(how: Result<(), Stop>) {
    let Err(stop) = how else {
        return;
    };
    match stop {
        Stop::NoFile => io::write_all(2, b"serve: CHIPFILE: cannot be read\n"),
        Stop::BadLine(line) => bad_line(line),
        Stop::Refused(refusal) => refused(refusal),
        Stop::NoInput => io::write_all(2, b"serve: the input cannot be read\n"),
        Stop::NoOutput => io::write_all(2, b"serve: the answer cannot be written\n"),
        Stop::NoLog => io::write_all(2, b"serve: the log cannot be written\n"),
    };
}
