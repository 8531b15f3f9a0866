// Text appended to a lent buffer: as much of it as there is room for. Each answers the place behind it.
#![tactic(auto)]

ghost use Rattle.std.specs.Prelude.{◌≡◌, [], ◌∷◌};
ghost use Rattle.rules.specs.Text.{decimal, hex_digit, hex2, hex4};
ghost use Rattle.text_out.specs.Out.{out, add};

// A byte, where there is room; else nothing.
#[tactic(auto, using(crate::proofs::Appended::byte_fits, crate::proofs::Appended::byte_full))]
pub fn put(buf: &mut [u8], at: usize, byte: u8) -> usize
    ensures { out result buf.new ≡ add (byte ∷ []) (out at buf.old) }
{
    if at < buf.len() {
        buf[at] = byte;
        return at + 1;
    }
    at
}

// The bytes of a text.
#[tactic(auto, using(crate::proofs::Appended::one_more, crate::proofs::Appended::none_left))]
pub fn put_bytes(buf: &mut [u8], at: usize, text: &[u8]) -> usize
    ensures { out result buf.new ≡ add text.now (out at buf.old) }
{
    let mut next = at;
    for &byte in text {
        next = put(buf, next, byte);
    }
    next
}

// A number in decimal.
#[tactic(auto, using(crate::proofs::Appended::add_append, crate::proofs::Decimal::decimal_one, crate::proofs::Decimal::decimal_more))]
pub fn put_decimal(buf: &mut [u8], at: usize, n: usize) -> usize
    ensures { out result buf.new ≡ add (decimal n) (out at buf.old) }
{
    let digit = (n % 10) as u8 + b'0';
    if n < 10 {
        return put(buf, at, digit);
    }
    let next = put_decimal(buf, at, n / 10);
    put(buf, next, digit)
}

const HEX: [u8; 16] = *b"0123456789ABCDEF";

// The last hex digit of a number.
pub fn hex_digit(n: u16) -> u8
    ensures { result ≡ hex_digit n }
{
    HEX[(n % 16) as usize]
}

// A byte as two hex digits.
pub fn put_hex2(buf: &mut [u8], at: usize, n: u8) -> usize
    ensures { out result buf.new ≡ add (hex2 n) (out at buf.old) }
{
    let text = [hex_digit((n / 16) as u16), hex_digit(n as u16)];
    put_bytes(buf, at, &text)
}

// A number as four hex digits.
pub fn put_hex4(buf: &mut [u8], at: usize, n: u16) -> usize
    ensures { out result buf.new ≡ add (hex4 n) (out at buf.old) }
{
    let next = put_hex2(buf, at, (n / 256) as u8);
    put_hex2(buf, next, (n % 256) as u8)
}
