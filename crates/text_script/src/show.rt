// What `?` writes: the phase, the options as stored, and the pages that are not blank.
use crate::session::Session;
use rules::{Block, Chip, Flash, Options, Phase};
use text_lines::output;

fn phase_line(p: Phase) -> bool {
    match p {
        Phase::Mode => io::write_all(1, b"phase Mode\n"),
        Phase::Speed => io::write_all(1, b"phase Speed\n"),
        Phase::Ident => io::write_all(1, b"phase Ident\n"),
        Phase::Command => io::write_all(1, b"phase Command\n"),
        Phase::Silent => io::write_all(1, b"phase Silent\n"),
    }
}

// With the power off the chip has no phase.
fn power_line(s: Session) -> bool {
    if !s.on {
        return io::write_all(1, b"phase Off\n");
    }
    let d = s.device;
    let c = d.core;
    let p = c.phase;
    phase_line(p)
}

fn options_line(o: Options) {
    let mut line = [b'\n'; 17];
    let at = output::byte(&mut line, 0, o.sf1);
    let at = output::byte(&mut line, at, o.sf2);
    let at = output::word(&mut line, at, o.sws);
    output::word(&mut line, at, o.swe);
    io::write_all(1, b"options");
    io::write_all(1, &line);
}

fn name(f: Flash) -> bool {
    match f {
        Flash::Code => io::write_all(1, b"code"),
        Flash::Data => io::write_all(1, b"data"),
    }
}

// The digits of a page's address but the last, which is 0 for every page.
fn place(f: Flash, k: usize) -> u16 {
    let first = chip_finder::first_byte(f, Block(0));
    let page = (k % 1024) as u32;
    ((first.0 / 16 + page * 16) % 65536) as u16
}

// A page that is not blank: a space, the five digits of its address, its bytes and the line's end.
fn page_line(f: Flash, k: usize, page: &[u8]) {
    if octets::is_blank(page) {
        return;
    }
    let mut line = [b'\n'; 775];
    output::word(&mut line, 0, place(f, k));
    line[5] = b'0';
    output::row(&mut line, 6, page);
    name(f);
    io::write_all(1, &line);
}

// The pages of one flash that are not blank.
// stays: a page is named by its number, of which its address is made.
fn pages<'a>(chip: Chip, f: Flash, code: &'a [u8], data: &'a [u8]) {
    for k in 0..chip_finder::page_count(chip, f) {
        let page = chip_finder::page_part(chip, code, data, f, k);
        page_line(f, k, page);
    }
}

pub fn all<'a>(s: Session, code: &'a [u8], data: &'a [u8]) {
    power_line(s);
    let d = s.device;
    let c = d.core;
    let o = c.options;
    options_line(o);
    pages(d.chip, Flash::Code, code, data);
    pages(d.chip, Flash::Data, code, data);
}
