// The vocabulary: the types that promises speak of. What they mean stands in specs/, in document 01's order.

#![tactic(auto)]

ghost use Rattle.std.specs.Prelude.{◌≡◌};
ghost use Rattle.rules.specs.Sheet.{clears};

pub mod capture;
pub mod hex;
pub mod numbers;

// The bytes of the longest frame, which a frame buffer has room for, and the least bytes of a reply buffer.
pub const FRAME_ROOM: usize = 260;

pub const REPLY_ROOM: usize = 16;

// A chip: how many blocks its code flash and its data flash have. Two are known.
#[derive(Clone, Copy, PartialEq, Eq)]
pub struct Chip {
    pub code: u16,
    pub data: u16,
}

#[derive(Clone, Copy, PartialEq, Eq)]
pub enum Flash {
    Code,
    Data,
}

// The address of a byte, as every command but those of the window names it.
#[derive(Clone, Copy, PartialEq, Eq)]
pub struct Address(pub u32);

// The number of a block in its flash, as the window names it. Only the finder turns one into the other.
#[derive(Clone, Copy, PartialEq, Eq)]
pub struct Block(pub u16);

// The options as stored: two flag bytes and two window words.
#[derive(Clone, Copy)]
pub struct Options {
    pub sf1: u8,
    pub sf2: u8,
    pub sws: u16,
    pub swe: u16,
}

#[derive(Clone, Copy, PartialEq, Eq)]
pub enum Phase {
    Mode,
    Speed,
    Ident,
    Command,
    Silent,
}

// The pages that a command still waits for: the next one, how many are left with it, and what is known of those before it.
#[derive(Clone, Copy)]
pub struct Pages {
    pub flash: Flash,
    pub page: usize,
    pub left: usize,
    pub status: u8,
}

// The command begun that waits for data.
// stays: no Option, since Idle is a state of the chip by 01's name, as the other two are.
#[derive(Clone, Copy)]
pub enum Task {
    Idle,
    Programming(Pages),
    Verifying(Pages),
}

// A command whose information is read: the blocks, flags and words that it names, and TAR. The ten bytes of an ID stay in its frame.
#[derive(Clone, Copy)]
pub enum Order {
    Reset,
    Verify(Flash, Block, Block),
    Erase(Flash, Block),
    BlankCheck(Flash, Block, Block, u8),
    Program(Flash, Block, Block),
    BaudRate,
    Identity,
    SecuritySet(u8, u8),
    SecurityGet,
    Release,
    WindowSet(u16, u16),
    WindowGet,
    Checksum(Flash, Block, Block),
}

// The stand-in's own note, off the wire, on one byte: the first byte in use, by its flash, its block there and its page in the block; an option bit that
// is not 1; a wrong end byte; or a wrong length, by the LEN expected and the LEN found.
#[derive(Clone, Copy)]
pub enum Note {
    Used(Flash, Block, usize),
    Bits,
    EndByte,
    Length(u8, u8),
}

// What is wrong with a frame: the first row of 01's status table that applies, with what the note tells of it.
#[derive(Clone, Copy)]
pub enum Fault {
    EndByte,
    Sum,
    Code,
    Length(u8, u8),
    Parameter,
    Ident,
    NotBlank(Option<Note>),
    Protected,
    PageNotBlank,
    Difference,
}

// The refusals that 01 and 02 number.
#[derive(Clone, Copy)]
pub enum Refusal {
    D0,
    D1,
    D2,
    D3,
    E1,
    J1,
    J2,
    J3,
    J4,
    J5,
    J6,
    J7,
    J8,
    J9,
    J10,
    J11,
    J12,
    J13,
    J14,
    J15,
    J16,
    P1,
    P2,
}

#[derive(Clone, Copy, PartialEq, Eq)]
pub enum Kind {
    Erase,
    Write,
    Verify,
    Sum,
    Blank,
    Lock,
}

// The two flag bytes that a lock sends.
#[derive(Clone, Copy)]
pub struct Flags {
    pub sf1: u8,
    pub sf2: u8,
}

impl Flags {
    // A lock with them clears IFPR, bit 2 of SF2.
    pub fn clears_ifpr(self) -> bool
        ensures { result ≡ clears self }
    {
        self.sf2 / 4 % 2 == 0
    }
}

// A step of a sheet: its kind, its blocks (of a lock its flags) and where its body stands in the sheet.
#[derive(Clone, Copy)]
pub struct Step {
    pub kind: Kind,
    pub flash: Flash,
    pub first: Block,
    pub last: Block,
    pub flags: Flags,
    pub body: usize,
}

// What the player is about, and within a step the kind of the step that was begun. New has sent nothing. Ready is at the beginning of a step,
// about to send its first frame; Block and Page are about to send block `at` of an erase and page `at` of a write or a verify.
// Commanded waits for the answer to a command frame, Paged for the answer to page `at`. Over is finished or stopped.
#[derive(Clone, Copy)]
pub enum Stage {
    New,
    Ready,
    Block,
    Commanded(Kind),
    Page(Kind),
    Paged(Kind),
    Over,
}

// The status of a play: a byte of 01's table, or L1.
// stays: no Option and no Result, since both are statuses that a report prints, and neither is an absence or hands anything on.
#[derive(Clone, Copy)]
pub enum Status {
    Byte(u8),
    L1,
}

// The player between two calls: `step` counts the finished steps, `at` is the block or page in the step.
#[derive(Clone, Copy)]
pub struct Player {
    pub stage: Stage,
    pub step: usize,
    pub at: usize,
    pub frames: usize,
    pub pieces: usize,
    pub status: Status,
}

#[derive(Clone, Copy)]
pub struct Report {
    pub status: Status,
    pub steps: usize,
    pub frames: usize,
    pub pieces: usize,
}
