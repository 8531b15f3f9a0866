// What refuses a command behind the frame's own rows: its information (row 5 of the status table), then flash and options (rows 6 to 8).
#![tactic(auto)]

pub mod phases;

ghost use Rattle.std.specs.Prelude.{◌≡◌, not, ◌&&◌, ◌||◌, List, [], ◌∷◌, ℕ, leb, eqb, take, drop};
ghost use Rattle.rules.specs.declared.Order.TheVariants.{Erase, Identity, Release, WindowSet};
ghost use Rattle.rules.specs.declared.Options.{Options};
ghost use Rattle.rules.specs.Faults.{NotBlank, Protected};
ghost use Rattle.rules.specs.Notes.{Bits};
ghost use Rattle.rules.specs.Chip.{Memory};
ghost use Rattle.rules.specs.Options.{SEPR, BTPR, blank_options};
ghost use Rattle.rules.specs.First.{rule, first_fault};
ghost use Rattle.rules.specs.Command.{order_checks};
ghost use Rattle.chip_finder.specs.LentFlashes.{memory, range_shown};
ghost use Rattle.standin_verdict.specs.Ranges.{blank_rows};

use rules::{Block, Chip, Fault, Flash, Note, Options};

// BRT is 0 to 3, VDD 10h to 37h.
pub fn rated(brt: u8, vdd: u8) -> bool
    ensures { result ≡ (leb brt 3 && leb 0x10 vdd && leb vdd 0x37) }
{
    brt <= 3 && 0x10 <= vdd && vdd <= 0x37
}

// The ten bytes from a place on, or as many of them as are there.
fn ten_from<'a>(s: &'a [u8], at: usize) -> &'a [u8]
    ensures { result.now ≡ take 10 (drop at s.now) }
{
    let rest = s.get(at..).unwrap_or(&[]);
    &rest[..rest.len().min(10)]
}

// The ten bytes sent are not the ID.
#[tactic(auto, unfolding(rules::specs::First::first, rules::specs::Command::order_checks), using(crate::proofs::Same::equal_same))]
pub fn ident_fault(f: &[u8], code: &[u8]) -> Result<(), Fault>
    ensures { (o : Options) (d : List ℕ) → result ≡ first_fault (order_checks o (memory code.now d) f.now Identity) }
{
    if ten_from(f, 3) == ten_from(code, 0xC4) {
        return Ok(());
    }
    Err(Fault::Ident)
}

// 10h where the order is protected.
#[tactic(auto, unfolding(rules::specs::First::first))]
fn guarded(protects: bool) -> Result<(), Fault>
    ensures { result ≡ first_fault (rule Protected protects ∷ []) }
{
    if protects {
        return Err(Fault::Protected);
    }
    Ok(())
}

// The block is protected.
#[tactic(auto, unfolding(rules::specs::Command::order_checks))]
pub fn erase_fault(o: Options, g: Flash, b: Block) -> Result<(), Fault>
    ensures { (m : Memory) (f : List ℕ) → result ≡ first_fault (order_checks o m f (Erase g b)) }
{
    guarded(chip_options::protect::erase_protected(o, g, b))
}

// FSPR is 0.
#[tactic(auto, unfolding(rules::specs::Command::order_checks))]
pub fn window_fault(o: Options) -> Result<(), Fault>
    ensures { (m : Memory) (f : List ℕ) (sws swe : ℕ) → result ≡ first_fault (order_checks o m f (WindowSet sws swe)) }
{
    guarded(chip_options::read::fspr(o) == 0)
}

fn release_protected(o: Options) -> bool
    ensures { result ≡ (eqb (SEPR o) 0 || eqb (BTPR o) 0) }
{
    chip_options::read::sepr(o) == 0 || chip_options::read::btpr(o) == 0
}

// Some byte of flash not FFh; then SEPR or BTPR 0.
#[tactic(auto, unfolding(rules::specs::First::first, rules::specs::Command::order_checks))]
pub fn release_fault(o: Options, code: &[u8], data: &[u8]) -> Result<(), Fault>
    ensures { (f : List ℕ) → result ≡ first_fault (order_checks o (memory code.now «data».now) f Release) }
{
    if !octets::is_blank(code) || !octets::is_blank(data) {
        return Err(Fault::NotBlank(None));
    }
    guarded(release_protected(o))
}

// An option bit that TAR counts in is not 1.
#[tactic(auto, unfolding(rules::specs::First::first))]
fn bits_fault(o: Options, tar: u8) -> Result<(), Fault>
    ensures { result ≡ first_fault (rule (NotBlank Bits) (eqb tar 1 && not (blank_options o)) ∷ []) }
{
    if tar == 1 && !chip_options::read::blank_options(o) {
        return Err(Fault::NotBlank(Some(Note::Bits)));
    }
    Ok(())
}

// Some byte of the range not FFh; then an option bit.
#[tactic(auto, unfolding(rules::specs::First::first, crate::specs::Ranges::blank_rows), using(chip_blank::proofs::Used::unused_blank, chip_blank::proofs::Used::used_not_blank))]
pub fn blank_fault<'a>(
    chip: Chip,
    o: Options,
    code: &'a [u8],
    data: &'a [u8],
    g: Flash,
    a: Block,
    b: Block,
    tar: u8,
) -> Result<(), Fault>
    ensures { result ≡ first_fault (blank_rows o (range_shown chip (memory code.now «data».now) g a b) g a tar) }
{
    let used = chip_blank::first_used(chip, code, data, g, a, b);
    if used.is_some() {
        return Err(Fault::NotBlank(used));
    }
    bits_fault(o, tar)
}
