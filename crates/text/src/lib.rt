// Text of the programs for people, put into a lent buffer one part behind the other: bytes, decimal numbers, the line of a refusal.
#![tactic(auto)]

mod digits;

ghost use Rattle.std.specs.Prelude.{◌≡◌, ◌+◌, ◌≤◌, length};
ghost use Rattle.text.specs.Text.{decimal, refused_line, Put, numeral_of, read_number};

use scope::Refusal;

// The bytes s from the place on; the place behind them.
pub fn put(out: &mut [u8], at: usize, s: &[u8]) -> usize
    requires { at + length s.now ≤ length out.old }
    ensures { Put out.old at s.now out.new result }
{
    let end = at + s.len();
    out[at..end].copy_from_slice(s);
    end
}

// A number in base ten.
pub fn number(out: &mut [u8], at: usize, n: usize) -> usize
    requires { at + 20 ≤ length out.old }
    ensures put { Put out.old at (decimal n) out.new result }
    ensures upper_bound { result ≤ at + 20 }
{
    let mut digits = [0u8; 20];
    let k = digits::decimal(n as u64, &mut digits);
    put(out, at, &digits[..k])
}

// The line of a refusal.
pub fn refused(out: &mut [u8], at: usize, f: Refusal) -> usize
    requires { at + 64 ≤ length out.old }
    ensures { Put out.old at (refused_line f.number f.place) out.new result }
{
    let a = put(out, at, b"refused ");
    let b = number(out, a, f.number as usize);
    let c = put(out, b, b" at ");
    let d = number(out, c, f.place);
    put(out, d, b"\n")
}

// The number that a text of digits says.
pub fn value(s: &[u8]) -> Option<usize>
    ensures { numeral_of result ≡ read_number s.now }
{
    if s.is_empty() {
        return None;
    }
    let mut v = 0;
    for &b in s {
        if !b.is_ascii_digit() {
            return None;
        }
        if v >= 1000000000 {
            return None;
        }
        v = 10 * v + (b - 48) as usize;
    }
    Some(v)
}
