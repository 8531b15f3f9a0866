// The report of a play and a refusal, each a line: made in a buffer with room for any numbers, and written.
use rules::{Refusal, Report};
use text_read::part;
use text_told::lines;

// `end SS steps N frames N pieces N`
pub fn end(r: Report) {
    let mut line = [0u8; 96];
    let end = lines::put_end(&mut line, 0, r);
    io::write_all(1, part::between(&line, 0, end));
}

// `refused J7`
pub fn refused(refusal: Refusal) {
    let mut line = [0u8; 12];
    let end = lines::put_refused(&mut line, refusal);
    io::write_all(1, &line[0..end]);
}
