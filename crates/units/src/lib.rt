// A set of positions below 2,048, as bits of 32 words, and a word more, SUM, whose bit b tells whether word b is not 0: so the least
// position is found by two looks. Callers know it by membership alone (specs/Units.antt).
#![tactic(auto)]

ghost use Rattle.std.specs.Prelude.{◌≡◌, true, false, ◌<◌, length};
ghost use Rattle.units.specs.Units.{positions, words, member, Units, Some, Empty, Putted, First};

const SIZE: usize = 64;

const SUM: usize = 32;

const WORDS: usize = 33;

// Position q joins the set, if it is not in it.
pub fn add(m: &mut [u64], q: usize)
    requires units { Units m.old }
    requires q_lt_positions { q < positions }
    ensures { Putted m.old q 1 m.new }
{
    let b = q / SIZE;
    let word = m[b] | (1u64 << (q % SIZE));
    m[b] = word;
    m[SUM] = m[SUM] | (1u64 << b);
}

// Position q, which was in the set, leaves it.
pub fn leave(m: &mut [u64], q: usize)
    requires units { Units m.old }
    requires q_lt_positions { (q < positions) × (member m.old q ≡ 1) }
    ensures { Putted m.old q 0 m.new }
{
    let b = q / SIZE;
    let word = m[b] - (1u64 << (q % SIZE));
    m[b] = word;
    let gone = (word == 0) as u64;
    m[SUM] = m[SUM] - (gone << b);
}

// Whether some position is in the set.
pub fn some(m: &[u64]) -> bool
    requires { Units m.now }
    ensures { (result ≡ true → Some m.now) × (result ≡ false → Empty m.now) }
{
    m[SUM] != 0
}

// The least position in the set, which has one.
pub fn first(m: &[u64]) -> usize
    requires units { Units m.now }
    requires some { Some m.now }
    ensures { First m.now result }
{
    let b = u64::trailing_zeros(m[SUM]) as usize;
    SIZE * b + (u64::trailing_zeros(m[b]) as usize)
}

// No position is in the set.
pub fn clear(m: &mut [u64])
    requires { length m.old ≡ words }
    ensures { Units m.new × Empty m.new }
{
    for i in 0..WORDS {
        m[i] = 0;
    }
}

// The same for words that hold a set: those that are 0 are passed over, as the sum tells them.
pub fn drain(m: &mut [u64])
    requires { Units m.old }
    ensures { Units m.new × Empty m.new }
{
    let mut sum = m[SUM];
    while sum != 0 {
        let b = u64::trailing_zeros(sum) as usize;
        m[b] = 0;
        sum = sum & (sum - 1);
    }
    m[SUM] = 0;
}
