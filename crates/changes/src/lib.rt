// The commands that change a member, SPEC 4.4, 4.5, 4.7, 4.10 and 4.11: steps 8 to 10 of SPEC 6.1.
#![tactic(auto)]

ghost use Rattle.std.specs.Prelude.{◌≡◌};
ghost use Rattle.member.specs.Member.{features_in, with_mode};
ghost use Rattle.member.specs.Objects.{with_object};
ghost use Rattle.rules.specs.Rules.{cause_of, is_accepted};
ghost use Rattle.changes.specs.Changes.{limited, create_of, modify_of, destroy_of, set_parts_of, change_of};

use member::{FEATURES_SIZE, Member};
use protocol::{ChangeOp, Mode, ObjectKind, Refusal};

// The member with an object of this kind at the id, if it then has room for its objects.
fn put(m: Member, id: usize, kind: ObjectKind, gets: u8, sets: u8) -> Result<Member, Refusal>
    ensures { result ≡ limited gets sets (with_object m id (Some kind)) }
{
    let n = m.with_object(id, Some(kind));
    if !n.has_room(gets, sets) {
        return Err(Refusal::NoRoom);
    }
    Ok(n)
}

fn create(m: Member, id: usize, kind: ObjectKind, gets: u8, sets: u8) -> Result<Member, Refusal>
    ensures { result ≡ create_of gets sets id kind m }
{
    let None = m.lookup(id) else {
        return Err(Refusal::Exists);
    };
    put(m, id, kind, gets, sets)
}

fn modify(m: Member, id: usize, kind: ObjectKind, gets: u8, sets: u8) -> Result<Member, Refusal>
    ensures { result ≡ modify_of gets sets id kind m }
{
    let Some(_) = m.lookup(id) else {
        return Err(Refusal::NotLive);
    };
    put(m, id, kind, gets, sets)
}

fn destroy(m: Member, id: usize) -> Result<Member, Refusal>
    ensures { result ≡ destroy_of id m }
{
    let Some(_) = m.lookup(id) else {
        return Err(Refusal::NotLive);
    };
    Ok(m.without_object(id))
}

fn set_mode(m: Member, mode: Mode) -> Member
    ensures { result ≡ with_mode m mode }
{
    match mode {
        Mode::Running => m.resume(),
        Mode::Stopped => m.stop(),
    }
}

// Whether the member accepts this list.
fn accepts(m: Member, list: &[u8]) -> bool
    ensures { result ≡ is_accepted (cause_of m.queues (features_in m) list.now) }
{
    let values = m.values;
    rules::check_list(m.queues, &values[0..FEATURES_SIZE], list).is_ok()
}

// Steps 8, 9 and 10 of parts set; all or nothing.
fn set_parts(m: Member, id: usize, list: &[u8]) -> Result<Member, Refusal>
    ensures { result ≡ set_parts_of id list.now m }
{
    let Some(kind) = m.lookup(id) else {
        return Err(Refusal::NotLive);
    };
    let ObjectKind::Set = kind else {
        return Err(Refusal::WrongKind);
    };
    let mode = m.mode;
    let Mode::Stopped = mode else {
        return Err(Refusal::Running);
    };
    if !accepts(m, list) {
        return Err(Refusal::BadList);
    }
    Ok(m.set_parts(list))
}

// The member after a command that changes it; list holds the parts given.
pub fn change(m: Member, op: ChangeOp, gets: u8, sets: u8, list: &[u8]) -> Result<Member, Refusal>
    ensures { result ≡ change_of gets sets list.now op m }
{
    // A match: an operation takes its own arguments, so a table or closures would hide them.
    match op {
        ChangeOp::Create(id, kind) => create(m, id, kind, gets, sets),
        ChangeOp::Modify(id, kind) => modify(m, id, kind, gets, sets),
        ChangeOp::Destroy(id) => destroy(m, id),
        ChangeOp::SetParts(id) => set_parts(m, id, list),
        ChangeOp::SetMode(mode) => Ok(set_mode(m, mode)),
    }
}
