// The host's half: the request of a command from its fields, and a reply read as the answer to the command sent.
#![tactic(auto)]

ghost use Rattle.std.specs.Prelude.{◌≡◌, true, [], ◌+◌, ◌≤◌, length};
ghost use Rattle.theory.specs.Bytes.{put};
ghost use Rattle.protocol.specs.Opcodes.{opcode_row};
ghost use Rattle.reply.specs.Reply.{head_size};
ghost use Rattle.host.specs.Request.{sent, sent_of, start_with, start_of, StartFits, begun, built};
ghost use Rattle.host.specs.Reply.{result_in, form_of, count_fits, result_fits, length_right, known_status, handled_status, handled_qualifier, read_reply};

use frame::{DATA_AT, FLAGS_AT, KIND_AT, LONGEST, MEMBER_AT, OBJECT_SIZE, TYPE_AT};
use parts::ListForm;

// A command by its fields: a member, an object id, and a kind, type or mode byte, or a mask. The list that parts get and
// parts set have stands beside it.
#[derive(Clone, Copy)]
pub enum Command {
    ListQuery,
    ListUse(u64),
    Create(u64, u32, u8),
    Modify(u64, u32, u8),
    Query(u64, u32),
    Destroy(u64, u32),
    Metadata(u64, u32, u8),
    Get(u64, u32, u8),
    Set(u64, u32),
    SetMode(u64, u8),
}

// What a command puts into its request: the last field by its place in the data; before it stands the object header
// with the id, if anything.
#[derive(Clone, Copy)]
struct Sent {
    opcode: u16,
    member: u64,
    id: u32,
    place: usize,
    value: u64,
}

// How long the result of a success is: so many bytes; a count and as many headers; whole parts.
#[derive(Clone, Copy)]
pub enum ResultForm {
    Exactly(usize),
    Counted,
    WholeParts,
}

// What a reply says: status and qualifier to act on, and both as they were sent.
#[derive(Clone, Copy, Debug, PartialEq, Eq)]
pub struct Head {
    pub status: u16,
    pub qualifier: u16,
    pub sent_status: u16,
    pub sent_qualifier: u16,
}

fn fields(opcode: u16, member: u64, id: u32, place: usize, value: u64) -> Sent
    ensures { result ≡ sent opcode member id place value }
{
    Sent {
        opcode,
        member,
        id,
        place,
        value,
    }
}

fn sent_of(command: Command) -> Sent
    ensures { result ≡ sent_of command }
{
    match command {
        Command::ListQuery => fields(0x00, 0, 0, 0, 0),
        Command::ListUse(mask) => fields(0x01, 0, 0, 0, mask),
        Command::Create(m, id, kind) => fields(0x0a, m, id, KIND_AT, kind as u64),
        Command::Modify(m, id, kind) => fields(0x0b, m, id, KIND_AT, kind as u64),
        Command::Query(m, id) => fields(0x0c, m, id, FLAGS_AT, 0),
        Command::Destroy(m, id) => fields(0x0d, m, id, OBJECT_SIZE, 0),
        Command::Metadata(m, id, what) => fields(0x0e, m, id, TYPE_AT, what as u64),
        Command::Get(m, id, which) => fields(0x0f, m, id, TYPE_AT, which as u64),
        Command::Set(m, id) => fields(0x10, m, id, OBJECT_SIZE, 0),
        Command::SetMode(m, mode) => fields(0x11, m, 0, 0, mode as u64),
    }
}

// The frame and the fixed fields, in as many bytes as they have.
fn write_start(out: &mut [u8], s: Sent, fixed: usize)
    requires { StartFits s fixed out.old }
    ensures { out.new ≡ put 0 (start_with s) out.old }
{
    wire::write(out, 0, MEMBER_AT, 0x10000 + s.opcode as u64);
    wire::write(out, MEMBER_AT, 8, s.member);
    wire::write(out, DATA_AT, s.place, 0x1_0000_0000 * s.id as u64);
    wire::write(out, DATA_AT + s.place, fixed - s.place, s.value);
}

// The start of a request, and its length with a list of so many bytes behind it; 0 where that is too long.
fn begin(out: &mut [u8], command: Command, list: usize) -> usize
    ensures { (result, out.new) ≡ begun (length (start_of command) + list) (start_of command) out.old }
{
    let s = sent_of(command);
    let fixed = protocol::fixed_size(s.opcode as usize);
    if LONGEST - DATA_AT - fixed < list {
        return 0;
    }
    let n = DATA_AT + fixed + list;
    if out.len() < n {
        return 0;
    }
    write_start(out, s, fixed);
    n
}

fn with_list(out: &mut [u8], command: Command, list: &[u8]) -> usize
    requires { (opcode_row (sent_of command).opcode).listed ≡ true }
    ensures { (result, out.new) ≡ built command list.now out.old }
{
    let n = begin(out, command, list.len());
    if n == 0 {
        return 0;
    }
    wire::copy(out, n - list.len(), list);
    n
}

// Each builder writes the request of its command at the front of `out` and answers its length; 0, with nothing written,
// where it is over 4,096 bytes or too long for `out`. Numbers go in as given.
pub fn list_query(out: &mut [u8]) -> usize
    ensures { (result, out.new) ≡ built Command.ListQuery [] out.old }
{
    begin(out, Command::ListQuery, 0)
}

pub fn list_use(out: &mut [u8], mask: u64) -> usize
    ensures { (result, out.new) ≡ built (Command.ListUse mask) [] out.old }
{
    begin(out, Command::ListUse(mask), 0)
}

pub fn create(out: &mut [u8], member: u64, id: u32, kind: u8) -> usize
    ensures { (result, out.new) ≡ built (Command.Create member id kind) [] out.old }
{
    begin(out, Command::Create(member, id, kind), 0)
}

pub fn modify(out: &mut [u8], member: u64, id: u32, kind: u8) -> usize
    ensures { (result, out.new) ≡ built (Command.Modify member id kind) [] out.old }
{
    begin(out, Command::Modify(member, id, kind), 0)
}

pub fn query(out: &mut [u8], member: u64, id: u32) -> usize
    ensures { (result, out.new) ≡ built (Command.Query member id) [] out.old }
{
    begin(out, Command::Query(member, id), 0)
}

pub fn destroy(out: &mut [u8], member: u64, id: u32) -> usize
    ensures { (result, out.new) ≡ built (Command.Destroy member id) [] out.old }
{
    begin(out, Command::Destroy(member, id), 0)
}

// what: 0 size, 1 count, 2 list.
pub fn metadata(out: &mut [u8], member: u64, id: u32, what: u8) -> usize
    ensures { (result, out.new) ≡ built (Command.Metadata member id what) [] out.old }
{
    begin(out, Command::Metadata(member, id, what), 0)
}

// which: 0 the parts whose headers are given, 1 all.
pub fn get(out: &mut [u8], member: u64, id: u32, which: u8, headers: &[u8]) -> usize
    ensures { (result, out.new) ≡ built (Command.Get member id which) headers.now out.old }
{
    with_list(out, Command::Get(member, id, which), headers)
}

pub fn set(out: &mut [u8], member: u64, id: u32, list: &[u8]) -> usize
    ensures { (result, out.new) ≡ built (Command.Set member id) list.now out.old }
{
    with_list(out, Command::Set(member, id), list)
}

// mode: 1 stops, 0 resumes.
pub fn set_mode(out: &mut [u8], member: u64, mode: u8) -> usize
    ensures { (result, out.new) ≡ built (Command.SetMode member mode) [] out.old }
{
    begin(out, Command::SetMode(member, mode), 0)
}

// ---- reading a reply ----

// what is the type byte of a metadata command, of which 2 asks for a list.
fn form_of(op: u16, what: u8) -> ResultForm
    ensures { result ≡ form_of op what }
{
    match op {
        0x00 | 0x0c => ResultForm::Exactly(8),
        0x0e if what == 2 => ResultForm::Counted,
        0x0e => ResultForm::Exactly(8),
        0x0f => ResultForm::WholeParts,
        _ => ResultForm::Exactly(0),
    }
}

fn count_fits(res: &[u8]) -> bool
    ensures { result ≡ count_fits res.now }
{
    if res.len() < 8 {
        return false;
    }
    let count = wire::read_u32(res, 0) as usize;
    res.len() == 8 + inventory::HEADER_SIZE * count
}

fn result_fits(form: ResultForm, res: &[u8]) -> bool
    ensures { result ≡ result_fits form res.now }
{
    match form {
        ResultForm::Exactly(n) => res.len() == n,
        ResultForm::Counted => count_fits(res),
        ResultForm::WholeParts => parts::is_whole(ListForm::Parts, res),
    }
}

// The result of a reply, as a part of it.
pub fn result(reply: &[u8]) -> &[u8]
    requires { head_size ≤ length reply.now }
    ensures { result.now ≡ result_in reply.now }
{
    &reply[reply::HEAD_SIZE..]
}

fn length_right(form: ResultForm, status: u16, reply: &[u8]) -> bool
    requires { head_size ≤ length reply.now }
    ensures { result ≡ length_right form status reply.now }
{
    if status == 0 {
        return result_fits(form, result(reply));
    }
    reply.len() == reply::HEAD_SIZE
}

fn known_status(n: u16) -> bool
    ensures { result ≡ known_status n }
{
    matches!(n, 0 | 6 | 11 | 12 | 17 | 22 | 28)
}

fn handled_status(n: u16) -> u16
    ensures { result ≡ handled_status n }
{
    if known_status(n) { n } else { 22 }
}

fn handled_qualifier(n: u16) -> u16
    ensures { result ≡ handled_qualifier n }
{
    if n <= 7 { n } else { 1 }
}

// The head of a reply; none where it is refused: it has under 8 bytes or the wrong length for its command and status, or
// answers no command.
pub fn read_reply(op: u16, what: u8, reply: &[u8]) -> Option<Head>
    ensures { result ≡ read_reply op what reply.now }
{
    if !protocol::supported(op as usize) {
        return None;
    }
    if reply.len() < reply::HEAD_SIZE {
        return None;
    }
    let status = wire::read_u16(reply, 0);
    if !length_right(form_of(op, what), status, reply) {
        return None;
    }
    let qualifier = wire::read_u16(reply, 2);
    Some(Head {
        status: handled_status(status),
        qualifier: handled_qualifier(qualifier),
        sent_status: status,
        sent_qualifier: qualifier,
    })
}
