// The commands that read a member, SPEC 4.6, 4.8 and 4.9: steps 8 to 10 of SPEC 6.1. They read its bytes where they stand
// in the card.
#![tactic(auto)]

ghost use Rattle.std.specs.Prelude.{◌≡◌};
ghost use Rattle.theory.specs.Logic.{unless◌answer◌then◌};
ghost use Rattle.protocol.specs.Answers.{is_get};
ghost use Rattle.member.specs.Record.{member_of};
ghost use Rattle.reads.specs.Reads.{query_of, metadata_of, through_get, selected_of, read_of};

use member::MEMBER_SIZE;
use protocol::{Body, Metadata, ObjectKind, ReadOp, Refusal};

fn query(bytes: &[u8; MEMBER_SIZE], id: usize) -> Result<Body, Refusal>
    ensures { result ≡ query_of id (member_of bytes.now) }
{
    let Some(kind) = member::lookup_in(bytes, id) else {
        return Err(Refusal::NotLive);
    };
    Ok(Body::Kind(kind))
}

// Metadata and parts get need a get object.
fn check_get(kind: ObjectKind) -> Result<(), Refusal>
    ensures { result ≡ unless is_get kind answer Err Refusal.WrongKind then Ok tt }
{
    let ObjectKind::Get = kind else {
        return Err(Refusal::WrongKind);
    };
    Ok(())
}

fn metadata(what: Metadata, queues: u8) -> Body
    ensures { result ≡ metadata_of queues what }
{
    match what {
        Metadata::Size => Body::Number(inventory::parts_size(queues)),
        Metadata::Count => Body::Number(inventory::part_count(queues)),
        Metadata::HeaderList => Body::Headers,
    }
}

fn get_metadata(
    bytes: &[u8; MEMBER_SIZE],
    id: usize,
    what: Metadata,
    queues: u8,
) -> Result<Body, Refusal>
    ensures { result ≡ through_get id (member_of bytes.now) (Ok (metadata_of queues what)) }
{
    let Some(kind) = member::lookup_in(bytes, id) else {
        return Err(Refusal::NotLive);
    };
    check_get(kind)?;
    Ok(metadata(what, queues))
}

fn get_selected(
    bytes: &[u8; MEMBER_SIZE],
    id: usize,
    queues: u8,
    list: &[u8],
) -> Result<Body, Refusal>
    ensures { result ≡ through_get id (member_of bytes.now) (selected_of queues list.now) }
{
    let Some(kind) = member::lookup_in(bytes, id) else {
        return Err(Refusal::NotLive);
    };
    check_get(kind)?;
    if !rules::check_asked(queues, list) {
        return Err(Refusal::BadList);
    }
    Ok(Body::Selected)
}

fn get_all(bytes: &[u8; MEMBER_SIZE], id: usize) -> Result<Body, Refusal>
    ensures { result ≡ through_get id (member_of bytes.now) (Ok Body.All) }
{
    let Some(kind) = member::lookup_in(bytes, id) else {
        return Err(Refusal::NotLive);
    };
    check_get(kind)?;
    Ok(Body::All)
}

// A command that reads; list holds the headers asked for. The parts are those of the member's own queue count.
pub fn read(bytes: &[u8; MEMBER_SIZE], op: ReadOp, list: &[u8]) -> Result<Body, Refusal>
    ensures { result ≡ read_of list.now op (member_of bytes.now) }
{
    let queues = member::queues_of(bytes);
    // A match: an operation takes its own arguments, so a table or closures would hide them.
    match op {
        ReadOp::QueryObject(id) => query(bytes, id),
        ReadOp::GetMetadata(id, what) => get_metadata(bytes, id, what, queues),
        ReadOp::GetSelected(id) => get_selected(bytes, id, queues, list),
        ReadOp::GetAll(id) => get_all(bytes, id),
    }
}
