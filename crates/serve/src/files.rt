// The two files that arguments name.
use crate::end::Stop;
use std::env::{Env, FillError};
use std::fs;
use std::io::Write;
use std::rt::Files;
use text_input::Unread;
use text_lines::lines;
use text_read::part;
use text_script::chip_file;
use text_script::chip_file::Stated;

// The places of their names.
const CHIP: usize = 1;

const LOG: usize = 2;

// The text of the chip file; where none is named, nothing.
fn read_file<R: Env + Files>(rt: &R, buffer: &mut [u8]) -> Result<usize, Unread> {
    let mut name = [0u8; 4096];
    match rt.arg(CHIP, &mut name) {
        Ok(0) => Ok(0),
        Ok(size) => text_input::read_file(rt, part::between(&name, 0, size), buffer),
        Err(FillError::TooLong) => Err(Unread),
        Err(FillError::NotPresent) => Ok(0),
    }
}

// What the file states.
// stays: a twin of the one in the program `capture`, which takes an empty name as one: a shared function would be public, and no contract can say what a
// file gives.
pub(crate) fn read_chip<R: Env + Files>(
    rt: &R,
    code: &mut [u8],
    data: &mut [u8],
) -> Result<Stated, Stop> {
    let mut file = lines::room();
    let Ok(n) = read_file(rt, &mut file) else {
        return Err(Stop::NoFile);
    };
    // a longer file ends within a line: its last byte is no LF
    file[lines::LIMIT] = 0;
    let stated = chip_file::read(part::between(&file, 0, n), code, data)?;
    Ok(stated)
}

// A log of that name, begun anew. A name that is not UTF-8 is of no file that can be written.
fn create<R: Files>(rt: &R, name: &[u8]) -> Result<R::File, Stop> {
    let Ok(path) = str::from_utf8(name) else {
        return Err(Stop::NoLog);
    };
    fs::create(rt, path).map_err(|_| Stop::NoLog)
}

// The log, begun anew, if one is wanted.
pub(crate) fn open_log<R: Env + Files>(rt: &R) -> Result<Option<R::File>, Stop> {
    let mut name = [0u8; 4096];
    match rt.arg(LOG, &mut name) {
        Ok(0) => Ok(None),
        Ok(size) => Ok(Some(create(rt, part::between(&name, 0, size))?)),
        Err(FillError::TooLong) => Err(Stop::NoLog),
        Err(FillError::NotPresent) => Ok(None),
    }
}

// Puts a text into the log, if there is one.
pub(crate) fn keep<W: Write>(log: &mut Option<W>, text: &[u8]) -> Result<(), Stop> {
    let Some(file) = log else {
        return Ok(());
    };
    file.write_all(text).map_err(|_| Stop::NoLog)
}
