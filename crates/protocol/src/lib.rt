// The vocabulary of the group administration commands: answers and their numbers, opcodes, and what a request can
// ask of a member.
#![tactic(auto)]

ghost use Rattle.std.specs.Prelude.{◌≡◌, true, eqb, is_ok};
ghost use Rattle.protocol.specs.Answers.{status_of, qualifier_of, event_number, mode_of, kind_number};
ghost use Rattle.protocol.specs.Opcodes.{supported, fixed_size, names_member, bit, supported_only};

// Why a command is refused: SPEC 6.1, with the numbers of SPEC 6.2.
#[derive(Clone, Copy, Debug, PartialEq, Eq)]
pub enum Refusal {
    BadLength,
    BadGroup,
    BadOpcode,
    NoMember,
    Marked,
    BadField,
    Exists,
    NotLive,
    NoRoom,
    WrongKind,
    Running,
    BadList,
    ShortReply,
}

// Why a card event or a setup is refused: SPEC 7.1.
#[derive(Clone, Copy, Debug, PartialEq, Eq)]
pub enum EventRefusal {
    NotSound,
    NoMember,
    NoPart,
    WrongLength,
    BadSetup,
    BadQueueSize,
    WrongMark,
}

#[derive(Clone, Copy)]
pub enum Mode {
    Running,
    Stopped,
}

// What a resource object is for: to get parts or to set them.
#[derive(Clone, Copy)]
pub enum ObjectKind {
    Get,
    Set,
}

// What is asked of the metadata of a member's parts.
#[derive(Clone, Copy)]
pub enum Metadata {
    Size,
    Count,
    HeaderList,
}

// An operation on a member that has a result and changes nothing. Each names a resource object by its id.
#[derive(Clone, Copy)]
pub enum ReadOp {
    QueryObject(usize),
    GetMetadata(usize, Metadata),
    GetSelected(usize),
    GetAll(usize),
}

// An operation that changes a member and has no result.
#[derive(Clone, Copy)]
pub enum ChangeOp {
    Create(usize, ObjectKind),
    Modify(usize, ObjectKind),
    Destroy(usize),
    SetParts(usize),
    SetMode(Mode),
}

// What the reply to a success holds from byte 8.
#[derive(Clone, Copy)]
pub enum Body {
    Nothing,
    Kind(ObjectKind),
    Number(u32),
    Headers,
    Selected,
    All,
}

// Success, and nothing else, has status 0.
pub fn status(answer: Result<(), Refusal>) -> u16
    ensures number { result ≡ status_of answer }
    ensures success { eqb result 0 ≡ is_ok answer }
{
    match answer {
        Ok(_) => 0,
        Err(Refusal::BadLength) => 22,
        Err(Refusal::BadGroup) => 22,
        Err(Refusal::BadOpcode) => 22,
        Err(Refusal::NoMember) => 22,
        Err(Refusal::Marked) => 11,
        Err(Refusal::BadField) => 22,
        Err(Refusal::Exists) => 17,
        Err(Refusal::NotLive) => 6,
        Err(Refusal::NoRoom) => 28,
        Err(Refusal::WrongKind) => 22,
        Err(Refusal::Running) => 11,
        Err(Refusal::BadList) => 22,
        Err(Refusal::ShortReply) => 12,
    }
}

pub fn qualifier(answer: Result<(), Refusal>) -> u16
    ensures { result ≡ qualifier_of answer }
{
    match answer {
        Ok(_) => 0,
        Err(Refusal::BadLength) => 1,
        Err(Refusal::BadGroup) => 4,
        Err(Refusal::BadOpcode) => 2,
        Err(Refusal::NoMember) => 5,
        Err(Refusal::Marked) => 7,
        Err(Refusal::BadField) => 3,
        Err(Refusal::Exists) => 1,
        Err(Refusal::NotLive) => 1,
        Err(Refusal::NoRoom) => 1,
        Err(Refusal::WrongKind) => 3,
        Err(Refusal::Running) => 7,
        Err(Refusal::BadList) => 3,
        Err(Refusal::ShortReply) => 6,
    }
}

// The number of an event's answer: 0 for one that is done.
pub fn event_number(answer: Result<(), EventRefusal>) -> u8
    ensures { result ≡ event_number answer }
{
    match answer {
        Ok(()) => 0,
        Err(EventRefusal::NotSound) => 9,
        Err(EventRefusal::NoMember) => 1,
        Err(EventRefusal::NoPart) => 2,
        Err(EventRefusal::WrongLength) => 3,
        Err(EventRefusal::BadSetup) => 4,
        Err(EventRefusal::BadQueueSize) => 5,
        Err(EventRefusal::WrongMark) => 6,
    }
}

// The mode that a byte stands for, in a record and in a command.
impl From<u8> for Mode {
    ghost from_gives = { λ b m. m ≡ mode_of b };

    fn from(b: u8) -> Mode {
        if b == 0 { Mode::Running } else { Mode::Stopped }
    }
}

impl From<ObjectKind> for u8 {
    ghost from_gives = { λ kind b. b ≡ kind_number kind };

    fn from(kind: ObjectKind) -> u8 {
        kind as u8
    }
}

// The ten opcodes as a mask, and those in use on a fresh card, 0x0 and 0x1.
pub const SUPPORTED_MASK: u64 = 0x3fc03;

pub const FRESH_MASK: u64 = 3;

// No opcode has longer fixed fields.
pub const LONGEST_FIXED: usize = 24;

pub fn supported(op: usize) -> bool
    ensures { result ≡ supported op }
{
    if op < 2 {
        return true;
    }
    names_member(op)
}

// The length of an opcode's fixed fields. The compiler keeps what a match gives as constant data; a table it would build anew.
pub fn fixed_size(op: usize) -> usize
    requires { supported op ≡ true }
    ensures { result ≡ fixed_size op }
{
    match op {
        0x01 => 8,
        0x0a => 24,
        0x0b => 24,
        0x0c => 16,
        0x0d => 8,
        0x0e => 16,
        0x0f => 16,
        0x10 => 8,
        0x11 => 1,
        _ => 0,
    }
}

// The commands that name a member: 0x0a to 0x11.
pub fn names_member(op: usize) -> bool
    ensures { result ≡ names_member op }
{
    if op < 0x0a {
        return false;
    }
    op <= 0x11
}

// Bit k of a list of opcodes: opcode k is in it.
pub fn bit(mask: u64, k: usize) -> bool
    ensures { result ≡ bit mask k }
{
    if 63 < k {
        return false;
    }
    (mask >> k) % 2 == 1
}

// No bit but 0, 1 and 10 to 17.
pub fn supported_only(mask: u64) -> bool
    ensures { result ≡ supported_only mask }
{
    if mask / 4 % 256 != 0 {
        return false;
    }
    mask < 0x40000
}
