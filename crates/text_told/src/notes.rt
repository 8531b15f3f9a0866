// The line of a note; nothing where the note is empty.
ghost use Rattle.std.specs.Prelude.{◌≡◌};
ghost use Rattle.rules.specs.Notes.{Used, Length};
ghost use Rattle.rules.specs.Chip.{block};
ghost use Rattle.rules.specs.Text.{note_line};
ghost use Rattle.text_out.specs.Out.{out, add};

use crate::words::put_flash;
use rules::{Flash, Note};
use text_out::{put, put_bytes, put_decimal, put_hex2};

// `note code 3 5`
fn put_used(buf: &mut [u8], at: usize, f: Flash, number: u16, page: usize) -> usize
    ensures { out result buf.new ≡ add (note_line (Used f (block number) page)) (out at buf.old) }
{
    let at = put_bytes(buf, at, b"note ");
    let at = put_flash(buf, at, f);
    let at = put(buf, at, b' ');
    let at = put_decimal(buf, at, number as usize);
    let at = put(buf, at, b' ');
    let at = put_decimal(buf, at, page);
    put(buf, at, b'\n')
}

// `note len 04 03`
fn put_length(buf: &mut [u8], at: usize, due: u8, found: u8) -> usize
    ensures { out result buf.new ≡ add (note_line (Length due found)) (out at buf.old) }
{
    let at = put_bytes(buf, at, b"note len ");
    let at = put_hex2(buf, at, due);
    let at = put(buf, at, b' ');
    let at = put_hex2(buf, at, found);
    put(buf, at, b'\n')
}

pub fn put_note(buf: &mut [u8], at: usize, note: Option<Note>) -> usize
    ensures { out result buf.new ≡ add (note_line note) (out at buf.old) }
{
    let Some(note) = note else {
        return at;
    };
    match note {
        Note::Used(f, b, k) => put_used(buf, at, f, b.0, k),
        Note::Bits => put_bytes(buf, at, b"note options\n"),
        Note::EndByte => put_bytes(buf, at, b"note end\n"),
        Note::Length(due, found) => put_length(buf, at, due, found),
    }
}
