// A digest of numbers, one after the other.
use rules::Refusal;
use rules::numbers::refusal_number;

pub fn mixed(sum: usize, number: usize) -> usize {
    sum % 0x100_0000_0000 * 31 + number % 65536
}

// The first `n` bytes of a slice, or those that it has.
pub fn mixed_bytes(sum: usize, s: &[u8], n: usize) -> usize {
    let mut all = sum;
    for &byte in s.iter().take(n) {
        all = mixed(all, usize::from(byte));
    }
    all
}

// A refusal by its letter and number, apart from every size.
pub fn number_of(refusal: Refusal) -> usize {
    let name = refusal_number(refusal);
    name.letter as usize * 256 + name.number as usize
}
