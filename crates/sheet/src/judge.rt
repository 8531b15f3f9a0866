// The rules: D0 and J1 to J14 in the order of the documents, each with its own return. No body is read.
ghost use Rattle.std.specs.Prelude.{◌≡◌, ◌&&◌, not, ℕ, ◌+◌, ◌*◌, ◌<◌, ◌≤◌, length};
ghost use Rattle.rules.specs.Numbers.{verdict_number};
ghost use Rattle.rules.specs.Sheet.{count, table_end, clears, offset_due, J11, J14, head_verdict, entry_verdict, entries_verdict, sheet_verdict, verdict};
ghost use Rattle.sheet.specs.Entry.{entry_in, ended, pair_wrong, lock_wrong};
ghost use Rattle.sheet.specs.Head.{head_in, form_of};

use crate::table::{Entry, Head, Headed, LOCK, against, body_end, flags_of, whole_entry};
use crate::twice::written_twice;
use chip_finder::{is_known, range, same_counts};
use octets::numbers::{byte_at, high_byte};
use rules::{Chip, Flags, Refusal};

// How many steps a sheet has at most; by its form, how many bytes, and the number of its last kind.
const MOST_STEPS: usize = 64;

impl Head {
    fn most_bytes(self) -> usize
        ensures { result ≡ (form_of self.two).most }
    {
        if self.two { 65540 } else { 65536 }
    }

    fn last_kind(self) -> u8
        ensures { result ≡ (form_of self.two).kinds }
    {
        if self.two { 6 } else { 4 }
    }
}

// J11: a form 2 sheet names chip 1 or 2, and a zero byte stands behind.
fn no_chip_named(sheet: Headed) -> bool
    ensures { result ≡ J11 sheet.entry.bytes.now }
{
    sheet.head.two && (byte_at(sheet.bytes, 3) != 0 || !matches!(byte_at(sheet.bytes, 2), 1 | 2))
}

// J1, J2, J11 and J3: the length, the count, the chip, and the table.
#[tactic(auto, using(crate::proofs::Fields::heads), unfolding(rules::specs::Sheet::head_verdict, rules::specs::First::first))]
fn head_verdict(sheet: Headed) -> Result<(), Refusal>
    ensures { result ≡ head_verdict sheet.entry.bytes.now }
{
    let head = sheet.head;
    let size = sheet.bytes.len();
    if size < head.size || head.most_bytes() < size {
        return Err(Refusal::J1);
    }
    if MOST_STEPS < head.count {
        return Err(Refusal::J2);
    }
    if no_chip_named(sheet) {
        return Err(Refusal::J11);
    }
    if size < sheet.table_end() {
        return Err(Refusal::J3);
    }
    Ok(())
}

// J6: no valid pair; a lock has none.
#[tactic(auto, unfolding(crate::specs::Entry::pair_wrong))]
fn pair_wrong(chip: Chip, e: Entry) -> bool
    ensures { result ≡ pair_wrong chip e }
{
    e.kind != LOCK && range(chip, e.sad, e.ead).is_none()
}

// J12: a lock that clears IFPR and is not the last step, or whose filler is not zero.
#[tactic(auto, unfolding(crate::specs::Entry::lock_wrong))]
fn lock_wrong(e: Entry, last: bool) -> bool
    ensures { result ≡ lock_wrong e last }
{
    let filled = high_byte(e.sad.0) == 0 && e.ead.0 == 0;
    e.kind == LOCK && (flags_of(e.sad).clears_ifpr() && !last || !filled)
}

// J4 to J8 and J12 of entry i, given the offset that it must say: the rules in order.
fn entry_verdict(chip: Chip, sheet: Headed, i: usize, e: Entry, due: usize) -> Result<(), Refusal>
    requires entry_value { (i < count sheet.bytes.now) × (e ≡ entry_in sheet.bytes.now i) }
    requires due_value { due ≡ offset_due sheet.bytes.now i }
    ensures { result ≡ entry_verdict chip sheet.entry.bytes.now i }
{
    let head = sheet.head;
    if e.kind < 1 || head.last_kind() < e.kind {
        return Err(Refusal::J4);
    }
    if e.zero != 0 {
        return Err(Refusal::J5);
    }
    let no_pair = pair_wrong(chip, e);
    if no_pair {
        return Err(Refusal::J6);
    }
    if lock_wrong(e, i + 1 == head.count) {
        return Err(Refusal::J12);
    }
    if e.offset as usize != due {
        return Err(Refusal::J7);
    }
    if sheet.bytes.len() < body_end(e) {
        return Err(Refusal::J8);
    }
    Ok(())
}

// The entries, one after another, and where the last body ends. The table is all there, so no byte of it has to be asked for.
fn entries_verdict(chip: Chip, sheet: Headed) -> Result<usize, Refusal>
    requires { table_end sheet.bytes.now ≤ length sheet.bytes.now }
    ensures { result ≡ ended (entries_verdict chip sheet.entry.bytes.now 0 (count sheet.entry.bytes.now)) (offset_due sheet.entry.bytes.now (count sheet.entry.bytes.now)) }
{
    // the offset that an entry must say: the end of the table, then that of the body before
    let mut due = sheet.table_end();
    for (i, bytes) in sheet.entries().iter().enumerate() {
        let e = whole_entry(bytes);
        entry_verdict(chip, sheet, i, e, due)?;
        due = body_end(e);
    }
    Ok(due)
}

// The sheet's own rules, J1 to J9 and J11 to J13, judged against the chip that it names, for a caller that has read the head.
#[tactic(auto, using(crate::proofs::Entries::ended_well, crate::proofs::Entries::ended_badly, crate::proofs::Verdicts::table_there), unfolding(rules::specs::Sheet::sheet_verdict, rules::specs::First::first, crate::specs::Entry::ended))]
fn own_verdict(sheet: Headed) -> Result<(), Refusal>
    ensures { result ≡ sheet_verdict sheet.entry.bytes.now }
{
    head_verdict(sheet)?;
    let end = entries_verdict(against(sheet.bytes), sheet)?;
    // bytes are left over behind the last body
    if sheet.bytes.len() != end {
        return Err(Refusal::J9);
    }
    if written_twice(sheet) {
        return Err(Refusal::J13);
    }
    Ok(())
}

// The same, for a caller that has not read it.
pub fn sheet_verdict(sheet: &[u8]) -> Result<(), Refusal>
    ensures { result ≡ sheet_verdict sheet.now }
{
    own_verdict(Headed::new(sheet))
}

// J14: the chip to be played to is another than the sheet's.
fn other_chip(chip: Chip, sheet: &[u8]) -> bool
    ensures { result ≡ J14 chip sheet.now }
{
    !same_counts(chip, against(sheet))
}

// The verdict on a sheet for a chip, with room for so many sums: D0, its own rules, J14, then J10.
#[tactic(auto, unfolding(rules::specs::Sheet::verdict, rules::specs::First::first))]
pub fn verdict(chip: Chip, sheet: &[u8], room: usize) -> Result<(), Refusal>
    ensures value { result ≡ verdict chip sheet.now room }
    ensures result_value { verdict_number result ≡ verdict_number (verdict chip sheet.now room) }
{
    if !is_known(chip) {
        return Err(Refusal::D0);
    }
    let headed = Headed::new(sheet);
    own_verdict(headed)?;
    if other_chip(chip, sheet) {
        return Err(Refusal::J14);
    }
    if room < headed.head.count {
        return Err(Refusal::J10);
    }
    Ok(())
}
