// A member of the card: a struct by value, its bytes at the front of its record, SPEC 2.7, and its resource objects.
#![tactic(auto)]

mod fields;

ghost use Rattle.std.specs.Prelude.{◌≡◌, ◌+◌, ◌≤◌, length};
ghost use Rattle.parts.specs.declared.ListForm.TheVariants.{Parts};
ghost use Rattle.parts.specs.List.{parts_of};
ghost use Rattle.values.specs.Apply.{applied};
ghost use Rattle.objects.specs.Objects.{objects_size, most_of};
ghost use Rattle.member.specs.Record.{member_size, member_of, member_bytes};
ghost use Rattle.member.specs.Objects.{lookup_of, with_object, room_in};
ghost use Rattle.member.specs.Member.{fresh_of, with_mode, with_values, with_held, handed_back, with_part};
ghost use Rattle.member.specs.Sound.{sound_record};

use objects::{IDS, ObjectRecord, Slot};
use protocol::{Mode, ObjectKind};

// The device features, which stand first among the values.
pub const FEATURES_SIZE: usize = 16;

pub const VALUES_SIZE: usize = 205;

// The bytes of a member: its mode, its mark, its queue count, an object record for each id, what its holding place holds, its
// values.
const MODE_AT: usize = 0;

const MARK_AT: usize = MODE_AT + 1;

const QUEUES_AT: usize = MARK_AT + 1;

const OBJECTS_AT: usize = QUEUES_AT + 1;

const HELD_AT: usize = OBJECTS_AT + IDS;

const VALUES_AT: usize = HELD_AT + 2;

const FEATURES_END: usize = VALUES_AT + FEATURES_SIZE;

pub const MEMBER_SIZE: usize = VALUES_AT + VALUES_SIZE;

// The bytes of a holding place (02's term), which stand behind the member's.
pub const HOLDING_SIZE: usize = 1024;

// What an open holding place holds at most: 0 stands for none, k + 1 for one of k bytes.
const HELD_MOST: u16 = 1025;

// A member's mode, whether it is handed back and not yet wiped, how many queues it has, its resource objects by id, what its
// holding place holds, and the values of its parts.
#[derive(Clone, Copy)]
pub struct Member {
    pub mode: Mode,
    pub marked: bool,
    pub queues: u8,
    pub objects: [ObjectRecord; IDS],
    pub held: u16,
    pub values: [u8; VALUES_SIZE],
}

// ---- a member, made anew and changed ----

impl Member {
    pub fn fresh(queues: u8, features: [u8; FEATURES_SIZE]) -> Member
        ensures { result ≡ fresh_of queues features }
    {
        let mut values = [0u8; VALUES_SIZE];
        wire::copy(&mut values, 0, &features);
        Member {
            mode: Mode::Running,
            marked: false,
            queues,
            objects: [ObjectRecord { slot: Slot::Free }; IDS],
            held: 0,
            values,
        }
    }

    // Hand back and wipe, SPEC 7.3: the two halves of a reset, of which none changes the queue count.
    pub fn hand_back(self) -> Member
        ensures { result ≡ handed_back self }
    {
        Member {
            mode: Mode::Stopped,
            marked: true,
            objects: [ObjectRecord { slot: Slot::Free }; IDS],
            held: 0,
            ..self
        }
    }

    pub fn wiped(self, features: [u8; FEATURES_SIZE]) -> Member
        ensures { result ≡ fresh_of self.queues features }
    {
        Member::fresh(self.queues, features)
    }

    fn with_mode(mut self, mode: Mode) -> Member
        ensures { result ≡ with_mode self mode }
    {
        self.mode = mode;
        self
    }

    // Another number of bytes held: begin, feed and the end of a holding place.
    pub fn with_held(mut self, held: u16) -> Member
        ensures { result ≡ with_held self held }
    {
        self.held = held;
        self
    }

    pub fn stop(self) -> Member
        ensures { result ≡ with_mode self Mode.Stopped }
    {
        self.with_mode(Mode::Stopped)
    }

    pub fn resume(self) -> Member
        ensures { result ≡ with_mode self Mode.Running }
    {
        self.with_mode(Mode::Running)
    }

    // A card store, SPEC 7.5: one part of the member, where it can be stored.
    pub fn store(mut self, t: u16, selector: u64, value: &[u8]) -> Member
        ensures { result ≡ with_part self t selector value.now }
    {
        let queues = self.queues;
        values::store_part(&mut self.values, queues, t, selector, value);
        self
    }

    // The parts of an accepted list.
    pub fn set_parts(mut self, list: &[u8]) -> Member
        ensures { result ≡ with_values self (applied self.queues (parts_of Parts list.now) self.values) }
    {
        let queues = self.queues;
        values::apply(&mut self.values, queues, list);
        self
    }

    // ---- resource objects ----

    // The live object of an id.
    pub fn lookup(self, id: usize) -> Option<ObjectKind>
        ensures { result ≡ lookup_of self id }
    {
        if IDS <= id {
            return None;
        }
        objects::found_in(self.objects[id].slot)
    }

    // The member with this at the id; an id that no record has changes nothing.
    pub fn with_object(mut self, id: usize, kind: Option<ObjectKind>) -> Member
        ensures { result ≡ with_object self id kind }
    {
        if IDS <= id {
            return self;
        }
        self.objects[id] = ObjectRecord {
            slot: objects::slot_for(kind),
        };
        self
    }

    // The member without the object of the id, whose id and room are free again.
    pub fn without_object(mut self, id: usize) -> Member
        ensures { result ≡ with_object self id None }
    {
        if IDS <= id {
            return self;
        }
        self.objects = objects::cleared(self.objects, id);
        self
    }

    // Whether the member has at most so many get and set objects.
    pub fn has_room(self, gets: u8, sets: u8) -> bool
        ensures { result ≡ room_in gets sets self }
    {
        objects::is_within_limits(&objects::object_bytes(self.objects), gets, sets)
    }
}

// ---- a member's bytes, read where they stand ----

// The live object of an id. A command that reads has no need of the member by value.
pub fn lookup_in(bytes: &[u8; MEMBER_SIZE], id: usize) -> Option<ObjectKind>
    ensures { result ≡ lookup_of (member_of bytes.now) id }
{
    if IDS <= id {
        return None;
    }
    objects::found_at(bytes[OBJECTS_AT + id])
}

pub fn values_of(bytes: &[u8; MEMBER_SIZE]) -> &[u8; VALUES_SIZE]
    ensures { result.now ≡ (member_of bytes.now).values }
{
    wire::part(bytes, VALUES_AT)
}

pub fn is_marked(bytes: &[u8; MEMBER_SIZE]) -> bool
    ensures { result ≡ (member_of bytes.now).marked }
{
    bytes[MARK_AT] == 1
}

pub fn queues_of(bytes: &[u8; MEMBER_SIZE]) -> u8
    ensures { result ≡ (member_of bytes.now).queues }
{
    bytes[QUEUES_AT]
}

// Most holds what each object byte may be at most: see objects. Features and objects are two vectors with one test, and
// the tests stand in the order that takes the least time.
pub fn is_sound_record(
    bytes: &[u8; MEMBER_SIZE],
    gets: u8,
    sets: u8,
    most: &[u8; IDS],
    features: &[u8],
) -> bool
    requires { (gets + sets ≤ objects_size) × (most.now ≡ most_of (gets + sets)) }
    ensures { result ≡ sound_record gets sets features.now bytes.now }
{
    let kept = wire::equal(&bytes[VALUES_AT..FEATURES_END], features);
    let objects = fields::object_bytes_of(bytes);
    let low = objects::are_within(most, objects);
    if !(kept & low) {
        return false;
    }
    if HELD_MOST < wire::read_u16(bytes, HELD_AT) {
        return false;
    }
    if !inventory::are_queues_allowed(bytes[QUEUES_AT], values_of(bytes)) {
        return false;
    }
    if !fields::is_front_sound(bytes) {
        return false;
    }
    objects::is_within_limits(objects, gets, sets)
}

// ---- from a member's bytes to the member, and back ----

pub fn load(bytes: &[u8; MEMBER_SIZE]) -> Member
    ensures { result ≡ member_of bytes.now }
{
    Member {
        mode: Mode::from(bytes[MODE_AT]),
        marked: is_marked(bytes),
        queues: queues_of(bytes),
        objects: objects::objects_in(fields::object_bytes_of(bytes)),
        held: wire::read_u16(bytes, HELD_AT),
        values: *values_of(bytes),
    }
}

// A slice: that the card has an array's bytes after a loan as `as_mut_array` is not proved.
pub fn save(m: Member, bytes: &mut [u8])
    requires { length bytes.old ≡ member_size }
    ensures { bytes.new ≡ member_bytes m }
{
    fields::save_front(m.mode, m.marked, m.queues, bytes);
    fields::save_objects(m.objects, bytes);
    wire::write(bytes, HELD_AT, 2, m.held as u64);
    wire::copy(bytes, VALUES_AT, &m.values);
}
