// Resource objects, SPEC 4.3, one record and one byte for each id: what they stand for, how many there are, and one cleared.
#![tactic(auto)]

ghost use Rattle.std.specs.Prelude.{◌≡◌, true, map, ◌+◌, ◌≤◌, ◌<◌, leb, eqb, length, drop, set};
ghost use Rattle.theory.specs.Logic.{◌and◌, indicator};
ghost use Rattle.objects.specs.Objects.{objects_size, slot_of, slot_for, found_in, object_of, object_byte, free, count, all_up_to, all_within, most_of, within_limits};

use protocol::ObjectKind;

// One object record for each id that any setup allows: G + S is at most 16.
pub const IDS: usize = 16;

// The most that the bytes of sixteen ids may be, then of sixteen that are no ids: from entry 16 - n on, where n are ids.
pub const MOST: [u8; 32] = [
    2, 2, 2, 2, 2, 2, 2, 2, 2, 2, 2, 2, 2, 2, 2, 2, 0, 0, 0, 0, 0, 0, 0, 0, 0, 0, 0, 0, 0, 0, 0, 0,
];

// What one object id holds, in one byte. An Option of a kind takes two: with it a destroy and a create took a fifth longer.
#[derive(Clone, Copy)]
pub enum Slot {
    Free,
    Get,
    Set,
}

#[derive(Clone, Copy)]
pub struct ObjectRecord {
    pub slot: Slot,
}

// ---- a byte and what it stands for ----

// Each way is a function, which the loops below call; a `From` would be no plainer.
fn object_in(b: u8) -> ObjectRecord
    ensures { result ≡ object_of b }
{
    match b {
        0 => ObjectRecord { slot: Slot::Free },
        1 => ObjectRecord { slot: Slot::Get },
        _ => ObjectRecord { slot: Slot::Set },
    }
}

// The object that it stands for: found with no record in between, which the compiler would not leave out.
pub fn found_at(b: u8) -> Option<ObjectKind>
    ensures { result ≡ found_in (slot_of b) }
{
    match b {
        0 => None,
        1 => Some(ObjectKind::Get),
        _ => Some(ObjectKind::Set),
    }
}

fn object_byte(o: ObjectRecord) -> u8
    ensures { result ≡ object_byte o }
{
    match o.slot {
        Slot::Free => 0,
        Slot::Get => 1,
        Slot::Set => 2,
    }
}

// These two go by index: the compiler makes `array::from_fn` sixteen scalar steps, and array `map` more.
pub fn objects_in(bytes: &[u8; IDS]) -> [ObjectRecord; IDS]
    ensures { result ≡ map object_of bytes.now }
{
    let mut objects = [ObjectRecord { slot: Slot::Free }; IDS];
    for i in 0..IDS {
        objects[i] = object_in(bytes[i]);
    }
    objects
}

pub fn object_bytes(objects: [ObjectRecord; IDS]) -> [u8; IDS]
    ensures { result ≡ map object_byte objects }
{
    let mut bytes = [0u8; IDS];
    for i in 0..IDS {
        bytes[i] = object_byte(objects[i]);
    }
    bytes
}

// ---- counting object bytes, without branches, where they stand in the record ----

// 1 if the byte is v, else 0: of 0, 1 and 2 the remainder by 2 is 1 for 1 alone, and the quotient for 2 alone. A sum of
// these is a few vector additions; of the answers to a test it would be many more steps.
fn indicator_of(b: u8, v: u8) -> u8
    requires { (b ≤ 2) × (1 ≤ v) × (v ≤ 2) }
    ensures { result ≡ indicator (eqb b v) }
{
    if v == 1 { b % 2 } else { b / 2 }
}

// How many of the sixteen object bytes are v.
pub fn count_of(v: u8, bytes: &[u8; IDS]) -> u8
    requires { (all_up_to 2 bytes.now ≡ true) × (1 ≤ v) × (v ≤ 2) }
    ensures { result ≡ count v bytes.now }
{
    let mut n = 0;
    for b in bytes {
        n += indicator_of(*b, v);
    }
    n
}

pub fn is_within_limits(bytes: &[u8; IDS], gets: u8, sets: u8) -> bool
    requires { all_up_to 2 bytes.now ≡ true }
    ensures { result ≡ within_limits gets sets bytes.now }
{
    if gets < count_of(1, bytes) {
        return false;
    }
    count_of(2, bytes) <= sets
}

// Whether each byte is at most n: every one is looked at, with no early exit. One function of this and the next would be lent
// sixteen times n.
pub fn are_up_to(n: u8, bytes: &[u8]) -> bool
    ensures { result ≡ all_up_to n bytes.now }
{
    bytes.iter().fold(true, |all, b| all & (*b <= n))
}

// Whether each byte is at most the number beside it: of a part of MOST, which is the same for all members.
pub fn are_within(most: &[u8; IDS], bytes: &[u8; IDS]) -> bool
    ensures { result ≡ all_within most.now bytes.now }
{
    bytes
        .iter()
        .zip(most)
        .fold(true, |all, (b, n)| all & (*b <= *n))
}

// ---- slots ----

pub fn slot_for(kind: Option<ObjectKind>) -> Slot
    ensures { result ≡ slot_for kind }
{
    match kind {
        None => Slot::Free,
        Some(ObjectKind::Get) => Slot::Get,
        Some(ObjectKind::Set) => Slot::Set,
    }
}

pub fn found_in(slot: Slot) -> Option<ObjectKind>
    ensures { result ≡ found_in slot }
{
    match slot {
        Slot::Free => None,
        Slot::Get => Some(ObjectKind::Get),
        Slot::Set => Some(ObjectKind::Set),
    }
}

// Clears one record of a lent slice and keeps all others.
fn clear(objects: &mut [ObjectRecord], i: usize)
    requires { i < length objects.old }
    ensures { objects.new ≡ set objects.old i free }
{
    objects[i] = ObjectRecord { slot: Slot::Free };
}

// The records with one cleared: it lends its own array to `clear`, so that no caller has to lend one.
pub fn cleared(mut objects: [ObjectRecord; IDS], i: usize) -> [ObjectRecord; IDS]
    requires { i < 16 }
    ensures { result ≡ set objects i free }
{
    clear(&mut objects, i);
    objects
}
