// 02, M-111, Other programmers' captures: what refuses a capture.
use super::Refusal;

// The number of the first line that is wrong or of bad form, from 1, one past the end for an answer that is missing there; or what was lent is refused,
// and no line was looked at.
#[derive(Clone, Copy)]
pub enum CaptureFault {
    Wrong(usize),
    BadForm(usize),
    Refused(Refusal),
}
