// Setups packed in bytes, most significant bit first: 02, request 9.
#![tactic(auto)]

mod reader;
mod writer;

ghost use Rattle.std.specs.Prelude.{◌≡◌, ◌≤◌};
ghost use Rattle.theory.specs.Logic.{within};
ghost use Rattle.setups.specs.Setup.{in_ranges, all, in_numbers};
ghost use Rattle.setups.specs.Reading.{read_number, read_version1, read_setup};
ghost use Rattle.setups.specs.Member.{member_of, member_setup};
ghost use Rattle.setups.specs.Writing.{written};

pub const MOST_MEMBERS: usize = 16;

pub const FEATURES_SIZE: usize = 16;

// A head of 24 bits comes first, in version 2 then the queue counts in 2 bits each, and last the features.
const HEAD_SIZE: usize = 3;

// A setup, with a queue count for each member; those of members past N are 0.
// A card's own setup has no counts, which stand in its members' records: one type of both would have a part that is not read.
#[derive(Clone, Copy)]
pub struct Setup {
    pub members: u8,
    pub queues: [u8; MOST_MEMBERS],
    pub gets: u8,
    pub sets: u8,
    pub features: [u8; FEATURES_SIZE],
}

// Why bytes are not read as a setup: they are one of version 2, which that reader does not read, or none.
#[derive(Clone, Copy, Debug, PartialEq, Eq)]
pub enum ReadRefusal {
    Version2,
    Malformed,
}

// What a setup says of one member.
#[derive(Clone, Copy)]
pub struct MemberSetup {
    pub queues: u8,
    pub features: [u8; FEATURES_SIZE],
}

// The bits before the features: how many bytes they fill, and the number that they are.
#[derive(Clone, Copy)]
struct Front {
    size: usize,
    number: u64,
}

// ---- the ranges ----

// N 1 to 16, G and S at most 8.
pub fn in_ranges(members: u64, gets: u64, sets: u64) -> bool
    ensures { result ≡ in_ranges members gets sets }
{
    if members < 1 {
        return false;
    }
    if 16 < members {
        return false;
    }
    if 8 < gets {
        return false;
    }
    sets <= 8
}

// Each number is one from low to high.
fn are_within(low: u8, high: u8, numbers: &[u8]) -> bool
    ensures { result ≡ all (within low high) numbers.now }
{
    numbers
        .iter()
        .all(|number| low <= *number && *number <= high)
}

// These ranges, and one queue count of 1 to 4 for each member.
pub fn in_numbers(members: u64, queues: &[u8], gets: u64, sets: u64) -> bool
    ensures { result ≡ in_numbers members queues.now gets sets }
{
    if !in_ranges(members, gets, sets) {
        return false;
    }
    if queues.len() != members as usize {
        return false;
    }
    are_within(1, 4, queues)
}

// ---- reading ----

// Whether a setup is read, as a number: 0, or that of the refusal.
pub fn read_number(answer: Result<(), ReadRefusal>) -> u8
    ensures { result ≡ read_number answer }
{
    match answer {
        Ok(_) => 0,
        Err(ReadRefusal::Version2) => 1,
        Err(ReadRefusal::Malformed) => 2,
    }
}

// The reader of version 1, which refuses version 2 by name.
pub fn read_version_1(s: &[u8]) -> Result<Setup, ReadRefusal>
    ensures { result ≡ read_version1 s.now }
{
    if reader::bits(s, 0, 4) == 2 {
        return Err(ReadRefusal::Version2);
    }
    reader::take_version_1(s)
}

// The reader of both versions.
pub fn read(s: &[u8]) -> Result<Setup, ReadRefusal>
    ensures { result ≡ read_setup s.now }
{
    if reader::bits(s, 0, 4) == 2 {
        return reader::take_version_2(s);
    }
    reader::take_version_1(s)
}

// ---- one member ----

// What a setup says of a member that it has.
fn member_of(s: Setup, member: u64) -> Option<MemberSetup>
    requires { s.members ≤ 16 }
    ensures { result ≡ member_of s member }
{
    if member < 1 {
        return None;
    }
    if (s.members as u64) < member {
        return None;
    }
    let queues = s.queues;
    let features = s.features;
    Some(MemberSetup {
        queues: queues[(member - 1) as usize],
        features,
    })
}

// What a packed setup of either version says of a member.
pub fn member_setup(s: &[u8], member: u64) -> Option<MemberSetup>
    ensures { result ≡ member_setup s.now member }
{
    match read(s) {
        Ok(setup) => member_of(setup, member),
        Err(_) => None,
    }
}

// ---- writing ----

// A setup packed at the front of `out`, and how many bytes that is; 0, with nothing written, where the setup is bad or
// `out` too short. There is one queue count for each member.
pub fn write(
    out: &mut [u8],
    members: u64,
    queues: &[u8],
    gets: u64,
    sets: u64,
    features: &[u8],
) -> usize
    ensures { (result, out.new) ≡ written out.old members queues.now gets sets features.now }
{
    if !in_numbers(members, queues, gets, sets) {
        return 0;
    }
    if features.len() != FEATURES_SIZE {
        return 0;
    }
    let f = writer::front_of(members, queues, gets, sets);
    let n = f.size;
    if out.len() < n + FEATURES_SIZE {
        return 0;
    }
    writer::write_number(out, n, f.number);
    wire::copy(out, n, features);
    n + FEATURES_SIZE
}
