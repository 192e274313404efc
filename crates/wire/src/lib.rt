// Little-endian numbers, SPEC 3.1, and bytes, at a place of a slice.
#![tactic(auto)]

ghost use Rattle.std.specs.Prelude.{◌≡◌, ◌+◌, ◌^◌, ◌≤◌, ◌<◌, length, replicate};
ghost use Rattle.theory.specs.Bytes.{bytes_at, put, same};
ghost use Rattle.wire.specs.Le.{bytes, number};

// N bytes, from a place on. Of a slice that ends there the compiler sees that it is as long, and tests nothing.
pub fn part<const N: usize>(s: &[u8], at: usize) -> &[u8; N]
    requires { at + N ≤ length s.now }
    ensures { result.now ≡ bytes_at at N s.now }
{
    s[at..at + N].first_chunk().unwrap()
}

// The number in n bytes.
pub fn read(s: &[u8], at: usize, n: usize) -> u64
    requires { (n ≤ 8) × (at + n ≤ length s.now) }
    ensures { (result ≡ number at n s.now) × (result < 256 ^ n) }
{
    let mut r: u64 = 0;
    for b in s[at..at + n].iter().rev() {
        r = r * 256 + *b as u64;
    }
    r
}

// Each of the fixed widths becomes one load.
pub fn read_u16(s: &[u8], at: usize) -> u16
    requires { at + 2 ≤ length s.now }
    ensures { result ≡ number at 2 s.now }
{
    u16::from_le_bytes(*part(s, at))
}

pub fn read_u32(s: &[u8], at: usize) -> u32
    requires { at + 4 ≤ length s.now }
    ensures { result ≡ number at 4 s.now }
{
    u32::from_le_bytes(*part(s, at))
}

pub fn read_u64(s: &[u8], at: usize) -> u64
    requires { at + 8 ≤ length s.now }
    ensures { result ≡ number at 8 s.now }
{
    u64::from_le_bytes(*part(s, at))
}

// The n low bytes of x.
pub fn write(s: &mut [u8], at: usize, n: usize, x: u64)
    requires { at + n ≤ length s.old }
    ensures { s.new ≡ put at (bytes n x) s.old }
{
    let mut v = x;
    for b in s[at..at + n].iter_mut() {
        *b = (v % 256) as u8;
        v /= 256;
    }
}

// All of src, from a place of dst on.
pub fn copy(dst: &mut [u8], at: usize, src: &[u8])
    requires { at + length src.now ≤ length dst.old }
    ensures { dst.new ≡ put at src.now dst.old }
{
    dst[at..at + src.len()].copy_from_slice(src);
}

// Every byte becomes 0.
pub fn zero(s: &mut [u8])
    ensures { s.new ≡ replicate (length s.old) 0 }
{
    s.fill(0);
}

// Every byte is compared, whatever the first ones are: the loop has no early exit.
pub fn equal(a: &[u8], b: &[u8]) -> bool
    ensures { result ≡ same a.now b.now }
{
    if a.len() != b.len() {
        return false;
    }
    let mut alike = true;
    for (x, y) in a.iter().zip(b) {
        alike &= x == y;
    }
    alike
}
