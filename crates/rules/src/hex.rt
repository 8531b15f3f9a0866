// 02, M-103, Intel HEX in: what a line of a HEX text is, how far the lines are read, and what refuses a text.

// A record by its type: 00, 01 or 04.
#[derive(Clone, Copy)]
pub enum HexLine {
    Bytes,
    End,
    Upper,
}

// What is wrong with a line by itself, whatever stands before it.
#[derive(Clone, Copy)]
pub enum HexFault {
    BadForm,
    WrongSum,
    OtherType,
}

// The refusals in 02's order, the first six with the number of the line, from 1.
#[derive(Clone, Copy)]
pub enum HexRefusal {
    BadForm(usize),
    WrongSum(usize),
    OtherType(usize),
    Outside(usize),
    Twice(usize),
    AfterEnd(usize),
    NoEnd,
    ManySteps,
    ManyBytes,
    ShortBuffer,
}

// After a line that is not refused: the next one is due, or the text has its end record.
#[derive(Clone, Copy)]
pub enum HexRead {
    On,
    Ended,
}
