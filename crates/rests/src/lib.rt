// What literals and conflicts rest on, as two 64-bit words a slot: split i is bit i % 64 of word 2 * slot + i / 64, and i is below 128.
#![tactic(auto)]

ghost use Rattle.std.specs.Prelude.{◌≡◌, true, not, ◌&&◌, ◌<◌, ltb};
ghost use Rattle.calculus.specs.Jump.{both, only, less};
ghost use Rattle.rests.specs.Words.{rest_at, There, Put, Cleared, word_of};

// Word k, 0 or 1, of the set that has split d alone.
fn word_of(k: usize, d: usize) -> u64
    ensures { result ≡ word_of k d }
{
    if d / 64 == k { 1 << (d % 64) } else { 0 }
}

// The sets of the slots up to k become empty.
pub fn clear(m: &mut [u64], k: usize)
    requires { There m.old k }
    ensures { Cleared m.old k m.new }
{
    for i in 0..2 * k + 2 {
        m[i] = 0;
    }
}

// A left literal rests on its split, if that counts.
pub fn put_only(m: &mut [u64], q: usize, d: usize)
    requires { There m.old q }
    ensures { Put m.old q (only 128 d) m.new }
{
    let first = word_of(0, d);
    let second = word_of(1, d);
    m[2 * q] = first;
    m[2 * q + 1] = second;
}

// What rests on the sets of slots p and r.
pub fn put_both(m: &mut [u64], q: usize, p: usize, r: usize)
    requires { There m.old q × There m.old p × There m.old r }
    ensures { Put m.old q (both (rest_at m.old p) (rest_at m.old r)) m.new }
{
    let first = m[2 * p] | m[2 * r];
    let second = m[2 * p + 1] | m[2 * r + 1];
    m[2 * q] = first;
    m[2 * q + 1] = second;
}

// What rests on the sets of slots a, b and c.
pub fn put_three(m: &mut [u64], q: usize, a: usize, b: usize, c: usize)
    requires { There m.old q × There m.old a × There m.old b × There m.old c }
    ensures { Put m.old q (both (rest_at m.old a) (both (rest_at m.old b) (rest_at m.old c))) m.new }
{
    let first = m[2 * a] | (m[2 * b] | m[2 * c]);
    let second = m[2 * a + 1] | (m[2 * b + 1] | m[2 * c + 1]);
    m[2 * q] = first;
    m[2 * q + 1] = second;
}

// What rests on the sets of slots a, b, c and d.
pub fn put_four(m: &mut [u64], q: usize, a: usize, b: usize, c: usize, d: usize)
    requires { There m.old q × There m.old a × There m.old b × There m.old c × There m.old d }
    ensures { Put m.old q (both (rest_at m.old a) (both (rest_at m.old b) (both (rest_at m.old c) (rest_at m.old d)))) m.new }
{
    let first = m[2 * a] | (m[2 * b] | (m[2 * c] | m[2 * d]));
    let second = m[2 * a + 1] | (m[2 * b + 1] | (m[2 * c + 1] | m[2 * d + 1]));
    m[2 * q] = first;
    m[2 * q + 1] = second;
}

// A right literal rests on what is in the set of slot p, less its split, which is in it if it counts.
pub fn put_less(m: &mut [u64], q: usize, p: usize, d: usize)
    requires there { There m.old q × There m.old p }
    requires d_value { d < 128 → rest_at m.old p d ≡ true }
    ensures { Put m.old q (less d (rest_at m.old p)) m.new }
{
    let left = word_of(0, d);
    let right = word_of(1, d);
    let first = m[2 * p] - left;
    let second = m[2 * p + 1] - right;
    m[2 * q] = first;
    m[2 * q + 1] = second;
}

// Whether split d counts and is not in the set of slot q.
pub fn without(m: &[u64], q: usize, d: usize) -> bool
    requires { There m.now q }
    ensures { result ≡ (ltb d 128 && not (rest_at m.now q d)) }
{
    if 128 <= d {
        return false;
    }
    (m[2 * q + d / 64] >> (d % 64)) % 2 == 0
}
