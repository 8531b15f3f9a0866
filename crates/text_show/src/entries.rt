// The rules of an entry, J4 to J8 and J12, each asked of entry i as it stands in the sheet.
ghost use Rattle.std.specs.Prelude.{◌≡◌, ◌<◌};
ghost use Rattle.rules.specs.Sheet.{against, last_kind, J4, J5, J6, J7, J8, J12};
ghost use Rattle.text_show.specs.Refused.{breaks};

use chip_finder::{is_invalid, range};
use octets::numbers::high_byte;
use rules::Refusal;
use sheet::table::{against, body_end, count, entry_at, flags_of, form_two, offset_due};

// The kind that has flags where the others have addresses.
const LOCK: u8 = 6;

fn last_kind(sheet: &[u8]) -> u8
    ensures { result ≡ last_kind sheet.now }
{
    if form_two(sheet) {
        return 6;
    }
    4
}

fn kind_wrong(sheet: &[u8], i: usize) -> bool
    ensures { result ≡ J4 sheet.now i }
{
    let e = entry_at(sheet, i);
    let most = last_kind(sheet);
    if e.kind < 1 {
        return true;
    }
    most < e.kind
}

fn zero_wrong(sheet: &[u8], i: usize) -> bool
    ensures { result ≡ J5 sheet.now i }
{
    let e = entry_at(sheet, i);
    e.zero != 0
}

fn pair_wrong(sheet: &[u8], i: usize) -> bool
    ensures { result ≡ J6 (against sheet.now) sheet.now i }
{
    let e = entry_at(sheet, i);
    let found = range(against(sheet), e.sad, e.ead);
    if e.kind == LOCK {
        return false;
    }
    is_invalid(found)
}

// A lock that clears IFPR (bit 2 of SF2) and is not the last step, or whose filler is not zero.
fn lock_wrong(sheet: &[u8], i: usize) -> bool
    requires { i < 65536 }
    ensures { result ≡ J12 sheet.now i }
{
    let e = entry_at(sheet, i);
    let n = count(sheet);
    let sad = e.sad;
    let ead = e.ead;
    let flags = flags_of(sad);
    if e.kind != LOCK {
        return false;
    }
    if high_byte(sad.0) != 0 {
        return true;
    }
    if ead.0 != 0 {
        return true;
    }
    if i + 1 == n {
        return false;
    }
    flags.clears_ifpr()
}

fn offset_wrong(sheet: &[u8], i: usize) -> bool
    ensures { result ≡ J7 sheet.now i }
{
    let e = entry_at(sheet, i);
    let due = offset_due(sheet, i);
    e.offset as usize != due
}

fn body_wrong(sheet: &[u8], i: usize) -> bool
    ensures { result ≡ J8 sheet.now i }
{
    let e = entry_at(sheet, i);
    let end = body_end(e);
    sheet.len() < end
}

// Whether entry i breaks that rule; a rule that is not an entry's it does not break.
#[tactic(auto, unfolding(crate::specs::Refused::breaks))]
pub(crate) fn breaks(refusal: Refusal, sheet: &[u8], i: usize) -> bool
    requires { i < 65536 }
    ensures { result ≡ breaks refusal sheet.now i }
{
    match refusal {
        Refusal::J4 => kind_wrong(sheet, i),
        Refusal::J5 => zero_wrong(sheet, i),
        Refusal::J6 => pair_wrong(sheet, i),
        Refusal::J7 => offset_wrong(sheet, i),
        Refusal::J8 => body_wrong(sheet, i),
        Refusal::J12 => lock_wrong(sheet, i),
        _ => false,
    }
}
