// Standard input or a file, read to its end; an input that cannot be read is told from one that ends.

#![tactic(auto)]

ghost use Rattle.text_input.specs.Reading.{ReadsToEnd};

use std::io::Read;
use std::rt::Files;
use std::{fs, io};

// An input that cannot be read.
#[derive(Clone, Copy)]
pub struct Unread;

// Reads until the reader ends or the buffer is full: how many bytes were read.
// stays: no index counted by one, since each read takes as many bytes as it will.
pub fn read_from<R: Read>(reader: &mut R, buffer: &mut [u8]) -> Result<usize, Unread>
    ensures { ReadsToEnd (R.remaining reader.old) (R.remaining reader.new) result buffer.new }
{
    let mut done = 0;
    while done < buffer.len() {
        match reader.read(&mut buffer[done..]) {
            Ok(0) => return Ok(done),
            Ok(n) => done += n,
            Err(_) => return Err(Unread),
        }
    }
    Ok(done)
}

// The file of that name. A name that is not UTF-8 is of no file that can be read.
pub fn read_file<R: Files>(rt: &R, name: &[u8], buffer: &mut [u8]) -> Result<usize, Unread> {
    let Ok(path) = str::from_utf8(name) else {
        return Err(Unread);
    };
    let Ok(mut file) = fs::open(rt, path) else {
        return Err(Unread);
    };
    read_from(&mut file, buffer)
}

// Standard input.
pub fn read<R: io::Input>(rt: &R, buffer: &mut [u8]) -> Result<usize, Unread> {
    let mut reader = rt.reader();
    read_from(&mut reader, buffer)
}
