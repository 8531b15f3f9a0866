// Bytes in a row; numbers of several bytes.
#![tactic(auto)]

pub mod numbers;

ghost use Rattle.std.specs.Prelude.{◌≡◌, ◌+◌, ◌-◌, ◌%◌, length, replicate, ◌≢◌};
ghost use Rattle.rules.specs.Chip.{same, blank, checksum};

// Two slices hold the same bytes.
#[tactic(auto, using(crate::proofs::Lists::same_is, std::proofs::lemmas::Grind::common_steps))]
pub fn same_bytes(a: &[u8], b: &[u8]) -> bool
    ensures { result ≡ same a.now b.now }
{
    a == b
}

// Every byte is FFh.
pub fn is_blank(s: &[u8]) -> bool
    ensures { result ≡ blank s.now }
{
    for &byte in s {
        if byte != 0xFF {
            return false;
        }
    }
    true
}

// 0000h less each byte, borrows dropped.
pub fn checksum(s: &[u8]) -> u16
    ensures { result ≡ checksum s.now }
{
    s.iter()
        .fold(0, |sum: u16, &byte| sum.wrapping_sub(u16::from(byte)))
}

// Every byte becomes `v`.
pub fn fill(s: &mut [u8], v: u8)
    ensures { s.new ≡ replicate (length s.old) v }
{
    s.fill(v);
}

// The bytes of `src` over those of `dst`, where both have the same number; nothing else.
pub fn copy(dst: &mut [u8], src: &[u8])
    ensures dst_after { length dst.old ≡ length src.now → dst.new ≡ src.now }
    ensures dst_unchanged { (length dst.old ≢ length src.now) → dst.new ≡ dst.old }
{
    if dst.len() == src.len() {
        for (i, &byte) in src.iter().enumerate() {
            dst[i] = byte;
        }
    }
}
