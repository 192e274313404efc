// The bytes of a member, field by field, SPEC 2.7: what load, save and the test of soundness are made of.
ghost use Rattle.std.specs.Prelude.{◌≡◌, ◌+◌, ◌≤◌, [], ◌∷◌, map, length};
ghost use Rattle.theory.specs.Logic.{indicator};
ghost use Rattle.theory.specs.Bytes.{bytes_at, put};
ghost use Rattle.inventory.specs.Inventory.{values_size};
ghost use Rattle.objects.specs.Objects.{object_byte, objects_size};
ghost use Rattle.member.specs.Record.{mode_at, queues_at, objects_at, values_at, member_size, mode_byte, object_bytes};
ghost use Rattle.member.specs.Sound.{sound_end, sound_front};

use super::{
    HELD_AT, MARK_AT, MEMBER_SIZE, MODE_AT, OBJECTS_AT, QUEUES_AT, VALUES_AT, VALUES_SIZE,
};
use objects::{IDS, ObjectRecord};
use protocol::Mode;

// The mark of a member that is stopped with no holding place and no live object.
fn is_end_sound(bytes: &[u8; MEMBER_SIZE]) -> bool
    ensures { result ≡ sound_end bytes.now }
{
    if bytes[MARK_AT] != 1 {
        return false;
    }
    if bytes[MODE_AT] != 1 {
        return false;
    }
    if wire::read_u16(bytes, HELD_AT) != 0 {
        return false;
    }
    objects::are_up_to(0, object_bytes_of(bytes))
}

// The mode, the queue count and the mark. Mode and mark are one number, at most 1 if there is no mark.
pub fn is_front_sound(bytes: &[u8; MEMBER_SIZE]) -> bool
    ensures { result ≡ sound_front bytes.now }
{
    if bytes[QUEUES_AT] < 1 {
        return false;
    }
    if 4 < bytes[QUEUES_AT] {
        return false;
    }
    if wire::read_u16(bytes, MODE_AT) <= 1 {
        return true;
    }
    is_end_sound(bytes)
}

pub fn object_bytes_of(bytes: &[u8; MEMBER_SIZE]) -> &[u8; IDS]
    ensures { result.now ≡ object_bytes bytes.now }
{
    wire::part(bytes, OBJECTS_AT)
}

pub fn save_front(mode: Mode, marked: bool, queues: u8, bytes: &mut [u8])
    requires { queues_at + 1 ≤ length bytes.old }
    ensures { bytes.new ≡ put mode_at (mode_byte mode ∷ indicator marked ∷ queues ∷ []) bytes.old }
{
    let front = [mode as u8, marked as u8, queues];
    wire::copy(bytes, MODE_AT, &front);
}

pub fn save_objects(objects: [ObjectRecord; IDS], bytes: &mut [u8])
    requires { objects_at + objects_size ≤ length bytes.old }
    ensures { bytes.new ≡ put objects_at (map object_byte objects) bytes.old }
{
    let own = objects::object_bytes(objects);
    wire::copy(bytes, OBJECTS_AT, &own);
}
