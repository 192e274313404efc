// Packed setups written: the fields as one number, and its bytes, the highest first.
ghost use Rattle.std.specs.Prelude.{◌≡◌, true, map, ◌*◌, ◌-◌, ◌^◌, ◌≤◌, ◌<◌, length};
ghost use Rattle.theory.specs.Bytes.{put};
ghost use Rattle.setups.specs.Bits.{joined, big_endian};
ghost use Rattle.setups.specs.Setup.{all, is_count};
ghost use Rattle.setups.specs.Reading.{padding};
ghost use Rattle.setups.specs.Writing.{head_fields, count_field, fields_of, HeadFits, front_of, InNumbers};

use super::{Front, HEAD_SIZE};

// The head's fields, each behind the one before it.
fn head(version: u64, members: u64, q: u64, gets: u64, sets: u64) -> u64
    requires { HeadFits version members q gets sets }
    ensures { (result ≡ joined 0 (head_fields version members q gets sets)) × (result < 2 ^ 24) }
{
    ((((version * 16 + (members - 1)) * 4 + q) * 16 + gets) * 16 + sets) * 64
}

// A queue count as its field has it.
fn less_one(q: u8) -> u64
    requires { is_count q ≡ true }
    ensures { (result ≡ q - 1) × (result ≤ 3) }
{
    q as u64 - 1
}

// A field of two bits for each queue count, behind x.
fn with_counts(x: u64, queues: &[u8]) -> u64
    requires { (x < 2 ^ 24) × (length queues.now ≤ 16) × (all is_count queues.now ≡ true) }
    ensures { (result ≡ joined x (map count_field queues.now)) × (result < 2 ^ 56) }
{
    let mut number = x;
    for count in queues {
        number = number * 4 + less_one(*count);
    }
    number
}

// Zero bits behind the counts of n members, to a whole byte.
fn padded(x: u64, n: usize) -> u64
    requires { (x < 2 ^ 56) × (n ≤ 16) }
    ensures { result ≡ x * 2 ^ padding n }
{
    x << (8 * ((n + 3) / 4) - 2 * n)
}

// Equal counts as version 1, others as version 2.
pub fn front_of(members: u64, queues: &[u8], gets: u64, sets: u64) -> Front
    requires { InNumbers members queues.now gets sets }
    ensures { (result ≡ front_of (fields_of members queues.now gets sets)) × (result.size ≤ 7) }
{
    let q = queues[0];
    if super::are_within(q, q, queues) {
        return Front {
            size: HEAD_SIZE,
            number: head(1, members, less_one(q), gets, sets),
        };
    }
    let n = queues.len();
    let x = with_counts(head(2, members, 0, gets, sets), queues);
    Front {
        size: HEAD_SIZE + (n + 3) / 4,
        number: padded(x, n),
    }
}

// The n low bytes of x, the highest first.
pub fn write_number(out: &mut [u8], n: usize, x: u64)
    requires { n ≤ length out.old }
    ensures { out.new ≡ put 0 (big_endian n x) out.old }
{
    let mut rest = x;
    for i in (0..n).rev() {
        out[i] = (rest % 256) as u8;
        rest /= 256;
    }
}
