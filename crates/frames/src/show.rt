// What a call writes: the frame, the report with the list of sums, or the refusal.
use rules::{Refusal, Report};
use text_lines::{output, told};
use text_read::part;

// `> HH HH ..`: the line has room for a frame buffer of 300 bytes.
fn frame_line(frame: &[u8]) {
    let mut line = [b'>'; 901];
    let end = output::row(&mut line, 1, frame);
    io::write_all(1, part::between(&line, 0, end));
    io::write_all(1, b"\n");
}

// Puts a space and four digits for each sum into a lent line; where the next goes.
fn entries(line: &mut [u8], sums: &[u16]) -> usize {
    let mut at: usize = 0;
    for &sum in sums {
        at = output::word(line, at, sum);
    }
    at
}

// `sums HHHH HHHH ..`: the line has room for 64 entries.
fn sums_line(sums: &[u16]) {
    let mut line = [0u8; 320];
    let end = entries(&mut line, sums);
    io::write_all(1, b"sums");
    io::write_all(1, part::between(&line, 0, end));
    io::write_all(1, b"\n");
}

// What the call answered, over the buffers that were lent to it.
pub(crate) fn call(
    next: Result<Option<usize>, Refusal>,
    report: Report,
    frame: &[u8],
    sums: &[u16],
) {
    match next {
        Err(refusal) => {
            told::refused(refusal);
        }
        Ok(Some(n)) => frame_line(part::between(frame, 0, n)),
        Ok(None) => {
            told::end(report);
            sums_line(sums)
        }
    }
}
