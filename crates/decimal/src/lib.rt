// Numbers as decimal text, and a line of a name and a number: 02, request 11.
#![tactic(auto)]

ghost use Rattle.std.specs.Prelude.{◌≡◌, ◌+◌, ◌≤◌, length};
ghost use Rattle.theory.specs.Bytes.{put};
ghost use Rattle.decimal.specs.Decimal.{last_digit, decimal, line};

fn last_digit(n: u64) -> u8
    ensures { result ≡ last_digit n }
{
    b'0' + (n % 10) as u8
}

// The digits of n, from a place on. Answers the place after them.
// It recurses as the definition does: a loop meets the last digit first, and would have to turn the digits round.
fn put_decimal(out: &mut [u8], at: usize, n: u64) -> usize
    requires { at + length (decimal n) ≤ length out.old }
    ensures { (out.new ≡ put at (decimal n) out.old) × (result ≡ at + length (decimal n)) }
{
    if n < 10 {
        out[at] = last_digit(n);
        return at + 1;
    }
    let next = put_decimal(out, at, n / 10);
    out[next] = last_digit(n);
    next + 1
}

// A line of a name and a number, from a place on. Answers the place after it.
pub fn put_line(out: &mut [u8], at: usize, name: &[u8], n: u64) -> usize
    requires { at + length (line name.now n) ≤ length out.old }
    ensures { (out.new ≡ put at (line name.now n) out.old) × (result ≡ at + length (line name.now n)) }
{
    wire::copy(out, at, name);
    let space = at + name.len();
    out[space] = b' ';
    let end = put_decimal(out, space + 1, n);
    out[end] = b'\n';
    end + 1
}
