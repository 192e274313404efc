// From the bytes of a request, SPEC 3.2, to what it asks: steps 2 to 7 of SPEC 6.1.
#![tactic(auto)]

mod fields;

ghost use Rattle.std.specs.Prelude.{◌≡◌, leb, length};
ghost use Rattle.theory.specs.Logic.{when◌then◌else◌};
ghost use Rattle.frame.specs.Frame.{data_at, target_of};
ghost use Rattle.frame.specs.Ask.{usable, reaches, attended, framed_of, ask_of};

use protocol::{ChangeOp, ReadOp, Refusal};

// Opcode 2 bytes, group type 2, reserved 12, member 8, data; at most 4,096 bytes.
const GROUP_AT: usize = 2;

pub const MEMBER_AT: usize = 16;

pub const DATA_AT: usize = 24;

pub const LONGEST: usize = 4096;

// Data starts with the object header: type 2 bytes, reserved 2, id 4.
const ID_AT: usize = 4;

pub const OBJECT_SIZE: usize = 8;

// Flags of 8 bytes follow, and then a kind; or a type byte and 7 reserved, and then headers.
pub const FLAGS_AT: usize = OBJECT_SIZE;

pub const KIND_AT: usize = FLAGS_AT + 8;

pub const TYPE_AT: usize = OBJECT_SIZE;

const HEADERS_AT: usize = TYPE_AT + 8;

// Where a request has its list: the headers asked for, and the parts given.
pub const ASKED_AT: usize = DATA_AT + HEADERS_AT;

pub const GIVEN_AT: usize = DATA_AT + OBJECT_SIZE;

// What a request asks. Read and Change name a member of the card.
#[derive(Clone, Copy)]
pub enum Ask {
    QueryList,
    UseList(u64),
    Read(u64, ReadOp),
    Change(u64, ChangeOp),
}

// Step 4: supported and in use.
fn usable(in_use: u64, op: usize) -> bool
    ensures { result ≡ usable in_use op }
{
    if !protocol::supported(op) {
        return false;
    }
    protocol::bit(in_use, op)
}

// Step 5: a command that names a member names one of the card's.
fn reaches(members: u8, op: usize, m: u64) -> bool
    ensures { result ≡ reaches members op m }
{
    if !protocol::names_member(op) {
        return true;
    }
    if m < 1 {
        return false;
    }
    m <= members as u64
}

// Right after step 5: a command that names a member names one that is not marked.
fn attended(marked: bool, op: usize) -> bool
    ensures { result ≡ attended marked op }
{
    if !marked {
        return true;
    }
    !protocol::names_member(op)
}

// Steps 3 to 7, on the fields of the frame.
fn framed(
    members: u8,
    ids: u8,
    in_use: u64,
    marked: bool,
    group: u16,
    op: usize,
    m: u64,
    d: &[u8],
) -> Result<Ask, Refusal>
    ensures { result ≡ framed_of members ids in_use marked group op m d.now }
{
    if group != 1 {
        return Err(Refusal::BadGroup);
    }
    if !usable(in_use, op) {
        return Err(Refusal::BadOpcode);
    }
    if !reaches(members, op, m) {
        return Err(Refusal::NoMember);
    }
    if !attended(marked, op) {
        return Err(Refusal::Marked);
    }
    fields::fields(ids, m, op, d)
}

// The member field of a request; 0, which is no member, where it is too short to be one.
pub fn member_of(request: &[u8]) -> u64
    ensures { result ≡ (when leb data_at (length request.now) then target_of request.now else 0) }
{
    if request.len() < DATA_AT {
        return 0;
    }
    wire::read_u64(request, MEMBER_AT)
}

// Steps 2 to 7: what a request asks of a card with these members, ids and opcodes in use; marked says whether its member is.
pub fn decode(
    members: u8,
    ids: u8,
    in_use: u64,
    marked: bool,
    request: &[u8],
) -> Result<Ask, Refusal>
    ensures { result ≡ ask_of members ids in_use marked request.now }
{
    if request.len() < DATA_AT {
        return Err(Refusal::BadLength);
    }
    if LONGEST < request.len() {
        return Err(Refusal::BadLength);
    }
    let op = wire::read_u16(request, 0) as usize;
    let group = wire::read_u16(request, GROUP_AT);
    let m = wire::read_u64(request, MEMBER_AT);
    framed(
        members,
        ids,
        in_use,
        marked,
        group,
        op,
        m,
        &request[DATA_AT..],
    )
}
