// Queue sizes that rings have, SPEC 13.5: the test of a size, and a quick one of four queues that is enough.
ghost use Rattle.std.specs.Prelude.{◌≡◌, ◌+◌, ◌*◌, ◌≤◌, ◌<◌, eqb, length};
ghost use Rattle.theory.specs.Bytes.{bytes_at};
ghost use Rattle.wire.specs.Le.{number};
ghost use Rattle.inventory.specs.Inventory.{values_size};
ghost use Rattle.inventory.specs.Worked.{plain_queue, plain_queues};
ghost use Rattle.inventory.specs.Queue.{ring_size, queue_size, queue_allowed, queues_allowed};

use super::{MOST_QUEUES, QUEUE_SIZE, TWO_BYTES};

// In the value of a queue the size stands first, and the enabled field from byte 4 on, two bytes each.
const ENABLED_AT: usize = 4;

// The first queue's value among a member's values; those of the others stand one after another.
const QUEUES_AT: usize = 45;

// The number before 0, in four bytes.
const BEFORE_ZERO: u64 = 0xffff_ffff;

// The bits that speak against a size and an enabled field: none, if a ring can have them. A size has no bit in common with
// the number before it exactly if it is a power of two. The enabled field stands above the size, where the number before 0
// alone has bits.
fn fault(size: u16, enabled: u16) -> u64
    ensures { eqb result 0 ≡ ring_size size enabled }
{
    (TWO_BYTES * (enabled as u64) + size as u64) & (size as u64 + BEFORE_ZERO)
}

// Whether the value of a queue that stands at a place is allowed.
pub fn is_queue_allowed(values: &[u8], at: usize) -> bool
    requires { at + queue_size ≤ length values.now }
    ensures { result ≡ queue_allowed (bytes_at at queue_size values.now) }
{
    let size = wire::read_u16(values, at);
    let enabled = wire::read_u16(values, at + ENABLED_AT);
    fault(size, enabled) == 0
}

// Whether each queue of a member with so many has an allowed value.
pub fn is_each_allowed(queues: u8, values: &[u8]) -> bool
    requires { length values.now ≡ values_size }
    ensures { result ≡ queues_allowed queues values.now }
{
    for k in 0..queues.min(MOST_QUEUES) {
        if !is_queue_allowed(values, QUEUES_AT + QUEUE_SIZE * (k as usize)) {
            return false;
        }
    }
    true
}

// The bits that cast doubt on the queue at a place: its first eight bytes, and the number before its size. None, if the size
// is a power of two, or all eight bytes are 0. One load, and no branch.
fn doubt(values: &[u8], at: usize) -> u64
    requires { at + queue_size ≤ length values.now }
    ensures { eqb result 0 ≡ plain_queue (number at 8 values.now) }
{
    let first = wire::read_u64(values, at);
    first & (first % TWO_BYTES).wrapping_sub(1)
}

// Those of all queues, whose values start where the table says.
pub fn doubts(values: &[u8]) -> u64
    requires { length values.now ≡ values_size }
    ensures { eqb result 0 ≡ plain_queues values.now }
{
    doubt(values, 45) | doubt(values, 77) | doubt(values, 109) | doubt(values, 141)
}
