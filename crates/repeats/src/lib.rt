// Whether a record repeats an earlier one of its table, by chains of records with the same hash: about one look a record, where few records
// share a hash. A record is taken as two numbers of 32 bits: kind and a, b and c.
#![tactic(auto)]

ghost use Rattle.std.specs.Prelude.{◌≡◌, ◌+◌, ◌<◌, ◌≤◌, eqb, length};
ghost use Rattle.scope.specs.Table.{repeats};
ghost use Rattle.repeats.specs.Chains.{joint, key_at, hash_of, Plain, Chains};
ghost use Rattle.record.specs.Place.{place_of};

// Behind the heads, one for each hash, a link for each node.
const LINKS: usize = 4096;

// A product of each number, and twelve bits of their sum.
fn hash(low: u32, high: u32) -> usize
    ensures { (result ≡ hash_of (joint low high)) × (result < 4096) }
{
    ((3266489917 * (low as u64) + 668265263 * (high as u64)) / 1048576 % 4096) as usize
}

// Whether the record of node m is these two numbers.
fn same(t: &[u8], m: usize, low: u32, high: u32) -> bool
    requires { (m < 2016) × (place_of m + 8 ≤ length t.now) }
    ensures { result ≡ eqb (key_at t.now m) (joint low high) }
{
    let at = record::place(m);
    words::double(t, at) == low && words::double(t, at + 4) == high
}

// Whether the record of a node before node n is that of node n, low and high.
fn seen(t: &[u8], chains: &[u16], n: usize, low: u32, high: u32) -> bool
    requires { (n < 2016) × (place_of n + 8 ≤ length t.now) × (joint low high ≡ key_at t.now n) × Plain t.now n × Chains t.now chains.now n }
    ensures { result ≡ repeats t.now n }
{
    let h = hash(low, high);
    let mut s = chains[h] as usize;
    while s != 0 {
        if same(t, s - 1, low, high) {
            return true;
        }
        s = chains[LINKS + (s - 1)] as usize;
    }
    false
}

// Puts node n, whose record is low and high, in front of the chain of its hash.
fn insert(t: &[u8], chains: &mut [u16], n: usize, low: u32, high: u32)
    requires { (n < 2016) × (joint low high ≡ key_at t.now n) × Plain t.now n × Chains t.now chains.old n }
    ensures { Chains t.now chains.new (n + 1) }
{
    let h = hash(low, high);
    chains[LINKS + n] = chains[h];
    chains[h] = (n + 1) as u16;
}

// Whether node n, whose record is low and high, repeats an earlier one; it is entered among them either way.
pub fn enter(t: &[u8], chains: &mut [u16], n: usize, low: u32, high: u32) -> bool
    requires { (n < 2016) × (place_of n + 8 ≤ length t.now) × (joint low high ≡ key_at t.now n) × Plain t.now n × Chains t.now chains.old n }
    ensures { (result ≡ repeats t.now n) × Chains t.now chains.new (n + 1) }
{
    let found = seen(t, chains, n, low, high);
    insert(t, chains, n, low, high);
    found
}
