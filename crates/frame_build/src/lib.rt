// Building frames in lent buffers; bytes behind the frame keep their contents.
#![tactic(auto)]

ghost use Rattle.std.specs.Prelude.{◌≡◌, ◌+◌, ◌%◌, ◌<◌, ◌==◌};
ghost use Rattle.rules.specs.Chip.{total};
ghost use Rattle.rules.specs.Frame.{one, pair};
ghost use Rattle.frame_build.specs.Buffer.{put, put_bytes, put_frame, put_ack_and};

// The codes of the commands that are sent (the table of all commands is in `frame_judge`).
pub const VERIFY: u8 = 0x13;

pub const BLOCK_ERASE: u8 = 0x22;

pub const PROGRAMMING: u8 = 0x40;

pub const CHECKSUM: u8 = 0xB0;

pub const IDENT: u8 = 0x9C;

// The fixed frames: the stand-in writes them, the player compares with them first.
pub const ACK: [u8; 5] = [0x02, 0x01, 0x06, 0xF9, 0x03];

pub const WELL: [u8; 6] = [0x02, 0x02, 0x06, 0x06, 0xF2, 0x03];

// The bytes added up, carries dropped.
// stays: (speed, docs/DESIGN-PASS.md) a loop: folded, they are gone through by a pointer behind the start byte, and an engine put into its caller reads that
// pointer from the stack to find LEN, at each byte that comes.
fn added(line: &[u8]) -> u8
    ensures { result ≡ total line.now % 256 }
{
    let mut sum: u8 = 0;
    for &byte in line {
        sum = sum.wrapping_add(byte);
    }
    sum
}

// The line of additions of 001, section 5: LEN, all that follows it and SUM, which must come to 00h.
pub fn adds_up(line: &[u8]) -> bool
    ensures { result ≡ (total line.now % 256 == 0) }
{
    added(line) == 0
}

// SUM: what that line still lacks of 00h when LEN and body stand in it. Each byte makes it lack so much less.
pub fn sum_of(len: u8, body: &[u8]) -> u8
    ensures { ((len + total body.now + result) % 256 ≡ 0) × (result < 256) }
{
    body.iter().fold(
        len.wrapping_neg(),
        |lack: u8, &byte| lack.wrapping_sub(byte),
    )
}

// Bytes over the first of a buffer; nothing, and the answer 0, where there is no room.
// stays: the answer 0, here and below, is the count that the clauses of `put_bytes`, `put_frame` and `put_ack_and` name; crates above call them.
pub fn put_bytes(buffer: &mut [u8], bytes: &[u8]) -> usize
    ensures { put result buffer.new ≡ put_bytes bytes.now buffer.old }
{
    let n = bytes.len();
    if buffer.len() < n {
        return 0;
    }
    for (i, &byte) in bytes.iter().enumerate() {
        buffer[i] = byte;
    }
    n
}

// A whole frame over the first bytes of a buffer; nothing, and the answer 0, where the body is empty or over 256 bytes or there is no room.
pub fn put_frame(buffer: &mut [u8], start: u8, end: u8, body: &[u8]) -> usize
    ensures { put result buffer.new ≡ put_frame start end body.now buffer.old }
{
    let n = body.len();
    if n < 1 || 256 < n || buffer.len() < n + 4 {
        return 0;
    }
    // 256 bytes are LEN 00h
    let len = (n % 256) as u8;
    put_bytes(&mut buffer[2..], body);
    buffer[0] = start;
    buffer[1] = len;
    buffer[n + 2] = sum_of(len, body);
    buffer[n + 3] = end;
    n + 4
}

// An answer of one byte; the ACK from its constant.
pub fn put_one(reply: &mut [u8], status: u8) -> usize
    ensures { put result reply.new ≡ put_bytes (one status) reply.old }
{
    if status == 0x06 {
        return put_bytes(reply, &ACK);
    }
    put_frame(reply, 0x02, 0x03, &[status])
}

// An answer of two bytes; the pair of two 06h from its constant.
pub fn put_pair(reply: &mut [u8], line: u8, status: u8) -> usize
    ensures { put result reply.new ≡ put_bytes (pair line status) reply.old }
{
    if line == 0x06 && status == 0x06 {
        return put_bytes(reply, &WELL);
    }
    put_frame(reply, 0x02, 0x03, &[line, status])
}

// The ACK and behind it a data frame of a short body: the answers of A1h, ADh and B0h.
// The frame goes first: where that is refused, the first bytes must keep their contents too.
pub fn put_ack_and(reply: &mut [u8], body: &[u8]) -> usize
    ensures { put result reply.new ≡ put_ack_and body.now reply.old }
{
    if reply.len() < 5 {
        return 0;
    }
    let n = put_frame(&mut reply[5..], 0x02, 0x03, body);
    if n == 0 {
        return 0;
    }
    put_bytes(reply, &ACK) + n
}
