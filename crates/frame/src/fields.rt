// Step 7 of SPEC 6.1: the fields of each command's data, SPEC 4. Data may have any length, SPEC 13.2: what is missing of the
// fixed fields reads as zero.
ghost use Rattle.std.specs.Prelude.{◌≡◌, true, ◌≤◌, ◌<◌, leb, eqb, length, drop, replicate};
ghost use Rattle.theory.specs.Logic.{when◌then◌else◌};
ghost use Rattle.theory.specs.Bytes.{put};
ghost use Rattle.wire.specs.Le.{le};
ghost use Rattle.protocol.specs.Opcodes.{supported, fixed_size, longest_fixed};
ghost use Rattle.frame.specs.Frame.{object_size, kind_at, headers_at};
ghost use Rattle.frame.specs.Fields.{id_of, object_valid, flags_valid, kind_in, metadata_is, id_in, id_and_kind_in, create_in, modify_in, query_in, destroy_in, metadata_in, get_in, set_in, mode_in, use_in, fields_of};

use super::{Ask, FLAGS_AT, HEADERS_AT, ID_AT, KIND_AT, TYPE_AT};
use protocol::{ChangeOp, Metadata, Mode, ObjectKind, ReadOp, Refusal};

// The first word of a mask has all its supported bits.
const WORD_SIZE: usize = 8;

// The object header: type 0, and an id below G + S.
fn object_valid(ids: u8, d: &[u8]) -> bool
    requires { object_size ≤ length d.now }
    ensures { result ≡ object_valid ids d.now }
{
    if wire::read_u16(d, 0) != 0 {
        return false;
    }
    wire::read_u32(d, ID_AT) < ids as u32
}

fn flags_valid(d: &[u8]) -> bool
    requires { kind_at ≤ length d.now }
    ensures { result ≡ flags_valid d.now }
{
    wire::read_u64(d, FLAGS_AT) == 0
}

fn id_of(d: &[u8]) -> usize
    requires { object_size ≤ length d.now }
    ensures { result ≡ id_of d.now }
{
    wire::read_u32(d, ID_AT) as usize
}

// The id in an object header that is valid.
fn id_in(ids: u8, d: &[u8]) -> Result<usize, Refusal>
    requires { object_size ≤ length d.now }
    ensures { result ≡ id_in ids d.now }
{
    if !object_valid(ids, d) {
        return Err(Refusal::BadField);
    }
    Ok(id_of(d))
}

// No `From`, since 0 is a get object in a command's data and a free id in a record.
fn kind_in(b: u8) -> ObjectKind
    ensures { result ≡ kind_in b }
{
    if b == 0 {
        ObjectKind::Get
    } else {
        ObjectKind::Set
    }
}

// The id and the kind of create and modify.
fn id_and_kind_in(ids: u8, d: &[u8]) -> Result<(usize, ObjectKind), Refusal>
    requires { kind_at < length d.now }
    ensures { result ≡ id_and_kind_in ids d.now }
{
    let id = id_in(ids, d)?;
    if !flags_valid(d) {
        return Err(Refusal::BadField);
    }
    if 1 < d[KIND_AT] {
        return Err(Refusal::BadField);
    }
    Ok((id, kind_in(d[KIND_AT])))
}

fn create_in(ids: u8, m: u64, d: &[u8]) -> Result<Ask, Refusal>
    requires { kind_at < length d.now }
    ensures { result ≡ create_in ids m d.now }
{
    let (id, kind) = id_and_kind_in(ids, d)?;
    Ok(Ask::Change(m, ChangeOp::Create(id, kind)))
}

fn modify_in(ids: u8, m: u64, d: &[u8]) -> Result<Ask, Refusal>
    requires { kind_at < length d.now }
    ensures { result ≡ modify_in ids m d.now }
{
    let (id, kind) = id_and_kind_in(ids, d)?;
    Ok(Ask::Change(m, ChangeOp::Modify(id, kind)))
}

fn query_in(ids: u8, m: u64, d: &[u8]) -> Result<Ask, Refusal>
    requires { kind_at ≤ length d.now }
    ensures { result ≡ query_in ids m d.now }
{
    let id = id_in(ids, d)?;
    if !flags_valid(d) {
        return Err(Refusal::BadField);
    }
    Ok(Ask::Read(m, ReadOp::QueryObject(id)))
}

fn destroy_in(ids: u8, m: u64, d: &[u8]) -> Result<Ask, Refusal>
    requires { object_size ≤ length d.now }
    ensures { result ≡ destroy_in ids m d.now }
{
    let id = id_in(ids, d)?;
    Ok(Ask::Change(m, ChangeOp::Destroy(id)))
}

// No `From`, which would stand in protocol, away from the fields that give the byte its meaning.
fn metadata_is(b: u8) -> Metadata
    ensures { result ≡ metadata_is b }
{
    match b {
        0 => Metadata::Size,
        1 => Metadata::Count,
        _ => Metadata::HeaderList,
    }
}

fn metadata_in(ids: u8, m: u64, d: &[u8]) -> Result<Ask, Refusal>
    requires { headers_at ≤ length d.now }
    ensures { result ≡ metadata_in ids m d.now }
{
    let id = id_in(ids, d)?;
    if 2 < d[TYPE_AT] {
        return Err(Refusal::BadField);
    }
    Ok(Ask::Read(m, ReadOp::GetMetadata(id, metadata_is(d[TYPE_AT]))))
}

fn get_in(ids: u8, m: u64, d: &[u8]) -> Result<Ask, Refusal>
    requires { headers_at ≤ length d.now }
    ensures { result ≡ get_in ids m d.now }
{
    let id = id_in(ids, d)?;
    if d[TYPE_AT] == 0 {
        return Ok(Ask::Read(m, ReadOp::GetSelected(id)));
    }
    if d[TYPE_AT] != 1 {
        return Err(Refusal::BadField);
    }
    if HEADERS_AT < d.len() {
        return Err(Refusal::BadField);
    }
    Ok(Ask::Read(m, ReadOp::GetAll(id)))
}

fn set_in(ids: u8, m: u64, d: &[u8]) -> Result<Ask, Refusal>
    requires { object_size ≤ length d.now }
    ensures { result ≡ set_in ids m d.now }
{
    let id = id_in(ids, d)?;
    Ok(Ask::Change(m, ChangeOp::SetParts(id)))
}

fn mode_in(m: u64, d: &[u8]) -> Result<Ask, Refusal>
    requires { 1 ≤ length d.now }
    ensures { result ≡ mode_in m d.now }
{
    if 1 < d[0] {
        return Err(Refusal::BadField);
    }
    Ok(Ask::Change(m, ChangeOp::SetMode(Mode::from(d[0]))))
}

// No bit is set.
fn is_zero(d: &[u8]) -> bool
    ensures { result ≡ eqb (le d.now) 0 }
{
    d.iter().all(|b| *b == 0)
}

fn use_in(d: &[u8]) -> Result<Ask, Refusal>
    requires { 8 ≤ length d.now }
    ensures { result ≡ use_in d.now }
{
    if !is_zero(&d[WORD_SIZE..]) {
        return Err(Refusal::BadField);
    }
    let mask = wire::read_u64(d, 0);
    if !protocol::supported_only(mask) {
        return Err(Refusal::BadField);
    }
    Ok(Ask::UseList(mask))
}

// Step 7 of data that holds all fixed fields of its command. A match, since the commands differ in what they are told.
fn whole_fields(ids: u8, m: u64, op: usize, d: &[u8]) -> Result<Ask, Refusal>
    requires { (supported op ≡ true) × (fixed_size op ≤ length d.now) }
    ensures { result ≡ fields_of ids m op d.now }
{
    match op {
        0x00 => Ok(Ask::QueryList),
        0x01 => use_in(d),
        0x0a => create_in(ids, m, d),
        0x0b => modify_in(ids, m, d),
        0x0c => query_in(ids, m, d),
        0x0d => destroy_in(ids, m, d),
        0x0e => metadata_in(ids, m, d),
        0x0f => get_in(ids, m, d),
        0x10 => set_in(ids, m, d),
        _ => mode_in(m, d),
    }
}

// Data that ends within the fixed fields, over zeros. Other data is not copied.
fn padded(fixed: usize, d: &[u8]) -> [u8; protocol::LONGEST_FIXED]
    requires { fixed ≤ longest_fixed }
    ensures { result ≡ (when leb fixed (length d.now) then replicate longest_fixed 0 else put 0 d.now (replicate longest_fixed 0)) }
{
    let mut zeros = [0u8; protocol::LONGEST_FIXED];
    if fixed <= d.len() {
        return zeros;
    }
    wire::copy(&mut zeros, 0, d);
    zeros
}

// The data where it holds all fixed fields, else the bytes that stand in for it.
fn complete<'a>(fixed: usize, d: &'a [u8], instead: &'a [u8]) -> &'a [u8]
    ensures { result.now ≡ (when leb fixed (length d.now) then d.now else instead.now) }
{
    if d.len() < fixed {
        return instead;
    }
    d
}

// Step 7: the fields of each command's data. They are read in one place, whether the data is short or not, so that the
// compiler keeps the reading inline.
pub fn fields(ids: u8, m: u64, op: usize, d: &[u8]) -> Result<Ask, Refusal>
    requires { supported op ≡ true }
    ensures { result ≡ fields_of ids m op d.now }
{
    let fixed = protocol::fixed_size(op);
    let short = padded(fixed, d);
    let whole = complete(fixed, d, &short[0..fixed]);
    whole_fields(ids, m, op, whole)
}
