// The rule that refuses a sheet, with its entry where the rule is an entry's, and in words.
ghost use Rattle.std.specs.Prelude.{◌≡◌};
ghost use Rattle.rules.specs.Sheet.{count};
ghost use Rattle.text_out.specs.Out.{out, add};
ghost use Rattle.text_show.specs.Refused.{meaning, first_to_break, entry_text, rule_text, refused_text};

use crate::entries::breaks;
use rules::Refusal;
use rules::numbers::refusal_number;
use sheet::table::count;
use text_out::{put, put_bytes, put_decimal};
use text_told::words::put_count;

#[tactic(auto, unfolding(crate::specs::Refused::meaning))]
fn put_meaning(buf: &mut [u8], at: usize, refusal: Refusal) -> usize
    ensures { out result buf.new ≡ add (meaning refusal) (out at buf.old) }
{
    match refusal {
        Refusal::J1 => put_bytes(
            buf,
            at,
            b"fewer bytes than a head, or more than a sheet may have",
        ),
        Refusal::J2 => put_bytes(buf, at, b"over 64 steps"),
        Refusal::J3 => put_bytes(buf, at, b"the table is cut short"),
        Refusal::J4 => put_bytes(buf, at, b"its form has no such kind of step"),
        Refusal::J5 => put_bytes(buf, at, b"its zero byte is not zero"),
        Refusal::J6 => put_bytes(
            buf,
            at,
            b"its addresses are not whole blocks of one flash of the chip",
        ),
        Refusal::J7 => put_bytes(buf, at, b"its offset is not the one due"),
        Refusal::J8 => put_bytes(buf, at, b"its body goes past the end of the sheet"),
        Refusal::J9 => put_bytes(buf, at, b"bytes are left over behind the last body"),
        Refusal::J11 => put_bytes(
            buf,
            at,
            b"the chip number is not 1 or 2, or the byte behind it is not zero",
        ),
        Refusal::J12 => put_bytes(
            buf,
            at,
            b"it clears IFPR and is not the last step, or its filler is not zero",
        ),
        Refusal::J13 => put_bytes(
            buf,
            at,
            b"a page is written twice with no erase of it between",
        ),
        _ => at,
    }
}

// The first entry that breaks a rule; where none does, the count.
fn first_to_break(refusal: Refusal, sheet: &[u8]) -> usize
    ensures { result ≡ first_to_break refusal sheet.now 0 (count sheet.now) }
{
    let n = count(sheet);
    // stays: an entry is read from the sheet by its number; there is no slice of entries to go over
    for i in 0..n {
        if breaks(refusal, sheet, i) {
            return i;
        }
    }
    n
}

// `entry 2, `, or nothing.
fn put_entry(buf: &mut [u8], at: usize, i: usize, n: usize) -> usize
    ensures { out result buf.new ≡ add (entry_text i n) (out at buf.old) }
{
    if i < n {
        let at = put_count(buf, at, b"entry ", i + 1);
        return put_bytes(buf, at, b", ");
    }
    at
}

// `refused J7: `
fn put_rule(buf: &mut [u8], at: usize, refusal: Refusal) -> usize
    ensures { out result buf.new ≡ add (rule_text refusal) (out at buf.old) }
{
    let name = refusal_number(refusal);
    let at = put_bytes(buf, at, b"refused ");
    let at = put(buf, at, name.letter);
    let at = put_decimal(buf, at, name.number as usize);
    put_bytes(buf, at, b": ")
}

// `refused J7: entry 2, its offset is not the one due`
pub(crate) fn put_refused(buf: &mut [u8], at: usize, sheet: &[u8], refusal: Refusal) -> usize
    ensures { out result buf.new ≡ add (refused_text sheet.now refusal) (out at buf.old) }
{
    let i = first_to_break(refusal, sheet);
    let n = count(sheet);
    let at = put_rule(buf, at, refusal);
    let at = put_entry(buf, at, i, n);
    let at = put_meaning(buf, at, refusal);
    put(buf, at, b'\n')
}
