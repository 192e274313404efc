// Packed setups read: each field at its bits, and which bytes are a setup of either version.
ghost use Rattle.std.specs.Prelude.{◌≡◌, ◌^◌, ◌≤◌, ◌<◌, length};
ghost use Rattle.setups.specs.Bits.{bit, bits_at};
ghost use Rattle.setups.specs.Setup.{features_size, sixteen};
ghost use Rattle.setups.specs.Reading.{counts_from, setup_at, head_right, is_version1, is_version2, take_version1, take_version2};

use super::{FEATURES_SIZE, HEAD_SIZE, MOST_MEMBERS, ReadRefusal, Setup};

// The queue counts of version 2 stand behind the head.
const COUNTS_AT: usize = 24;

// A bit past the end is 0.
fn bit(s: &[u8], k: usize) -> u8
    ensures { (result ≡ bit k s.now) × (result < 2) }
{
    if s.len() <= k / 8 {
        return 0;
    }
    (s[k / 8] >> (7 - k % 8)) % 2
}

// The number in n bits.
pub fn bits(s: &[u8], at: usize, n: usize) -> u8
    requires { (n ≤ 8) × (at < 256) }
    ensures { (result ≡ bits_at at n s.now) × (result < 2 ^ n) }
{
    let mut number = 0;
    for i in 0..n {
        number = 2 * number + bit(s, at + i);
    }
    number
}

// n queue counts from a position on, so many bits apart.
fn counts(s: &[u8], from: usize, step: usize, n: usize) -> [u8; MOST_MEMBERS]
    requires { (n ≤ 16) × (from ≤ 24) × (step ≤ 2) }
    ensures { result ≡ sixteen (counts_from s.now from step n) }
{
    let mut counts = [0u8; MOST_MEMBERS];
    let mut at = from;
    for i in 0..n {
        counts[i] = bits(s, at, 2) + 1;
        at += step;
    }
    counts
}

// The setup whose queue counts stand from a position on.
fn setup_at(s: &[u8], from: usize, step: usize) -> Setup
    requires { (features_size ≤ length s.now) × (from ≤ 24) × (step ≤ 2) }
    ensures { result ≡ setup_at s.now from step }
{
    let members = bits(s, 4, 4) + 1;
    let queues = counts(s, from, step, members as usize);
    let at = s.len() - FEATURES_SIZE;
    let mut features = [0u8; FEATURES_SIZE];
    wire::copy(&mut features, 0, &s[at..]);
    Setup {
        members,
        queues,
        gets: bits(s, 10, 4),
        sets: bits(s, 14, 4),
        features,
    }
}

// The six zero bits, and the numbers that can be out of range.
fn is_head_right(s: &[u8]) -> bool
    ensures { result ≡ head_right s.now }
{
    if bits(s, 18, 6) != 0 {
        return false;
    }
    if 8 < bits(s, 10, 4) {
        return false;
    }
    bits(s, 14, 4) <= 8
}

// Whether these bytes are a setup of version 1.
fn is_version_1(s: &[u8]) -> bool
    ensures { result ≡ is_version1 s.now }
{
    if bits(s, 0, 4) != 1 {
        return false;
    }
    if s.len() != HEAD_SIZE + FEATURES_SIZE {
        return false;
    }
    is_head_right(s)
}

// Whether they are one of version 2 with n members, if that is their version.
fn is_version_2(s: &[u8], n: usize) -> bool
    requires { (1 ≤ n) × (n ≤ 16) }
    ensures { result ≡ is_version2 n s.now }
{
    let count_bytes = (n + 3) / 4;
    if s.len() != HEAD_SIZE + count_bytes + FEATURES_SIZE {
        return false;
    }
    if !is_head_right(s) {
        return false;
    }
    if bits(s, 8, 2) != 0 {
        return false;
    }
    bits(s, COUNTS_AT + 2 * n, 8 * count_bytes - 2 * n) == 0
}

// Each version is a test and two numbers: one function of both would be lent as many arguments as it has lines.
pub fn take_version_1(s: &[u8]) -> Result<Setup, ReadRefusal>
    ensures { result ≡ take_version1 s.now }
{
    if !is_version_1(s) {
        return Err(ReadRefusal::Malformed);
    }
    Ok(setup_at(s, 8, 0))
}

pub fn take_version_2(s: &[u8]) -> Result<Setup, ReadRefusal>
    ensures { result ≡ take_version2 s.now }
{
    let n = bits(s, 4, 4) as usize + 1;
    if !is_version_2(s, n) {
        return Err(ReadRefusal::Malformed);
    }
    Ok(setup_at(s, COUNTS_AT, 2))
}
