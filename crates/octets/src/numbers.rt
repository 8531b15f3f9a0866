// Numbers of two and three bytes, low byte first. Past the end of a slice every byte reads as 0, so that no field has to be there.
ghost use Rattle.std.specs.Prelude.{◌≡◌, ◌+◌, ◌*◌, ◌/◌, ◌%◌};
ghost use Rattle.rules.specs.Chip.{byte_at, word_at, address_at};

use rules::Address;

// ---- from bytes ----

pub fn byte_at(s: &[u8], i: usize) -> u8
    ensures { result ≡ byte_at s.now i }
{
    s.get(i).copied().unwrap_or(0)
}

pub fn word_of(low: u8, high: u8) -> u16
    ensures { result ≡ low + 256 * high }
{
    u16::from_le_bytes([low, high])
}

pub fn address_of(low: u8, middle: u8, high: u8) -> Address
    ensures { result ≡ record { 0 = low + 256 * middle + 65536 * high } }
{
    Address(u32::from_le_bytes([low, middle, high, 0]))
}

pub fn word_at(s: &[u8], i: usize) -> u16
    ensures { result ≡ word_at s.now i }
{
    let rest = s.get(i..).unwrap_or(&[]);
    word_of(byte_at(rest, 0), byte_at(rest, 1))
}

pub fn address_at(s: &[u8], i: usize) -> Address
    ensures { result ≡ address_at s.now i }
{
    let rest = s.get(i..).unwrap_or(&[]);
    address_of(byte_at(rest, 0), byte_at(rest, 1), byte_at(rest, 2))
}

// ---- to bytes ----

pub fn low_byte(n: u32) -> u8
    ensures { result ≡ n % 256 }
{
    (n % 256) as u8
}

pub fn middle_byte(n: u32) -> u8
    ensures { result ≡ n / 256 % 256 }
{
    (n / 256 % 256) as u8
}

pub fn high_byte(n: u32) -> u8
    ensures { result ≡ n / 65536 % 256 }
{
    (n / 65536 % 256) as u8
}
