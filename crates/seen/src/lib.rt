// What a clause of the checker's work area is under the literals held, by its true and its undecided literals: all that version two of the
// steps asks. No strike is looked at. The literals are summed by weight, with no branch on their values, which cannot be guessed.
#![tactic(auto)]

ghost use Rattle.std.specs.Prelude.{◌≡◌, cond, ℕ, ◌+◌, ◌*◌, ◌<◌, ◌≤◌, eqb};
ghost use Rattle.area.specs.Area.{most_nodes, clause_count, base_at, slot_at, trail_at, Vals, Ranged};
ghost use Rattle.seen.specs.Seen.{seen_of, weight_by, state_by, state_in};

// A literal is true; all are false; none is true, and one is undecided; or several are, and this is the first.
#[derive(Clone, Copy)]
pub enum Seen {
    Met,
    Empty,
    One(u16),
    Many(u16),
}

// What a literal of a value adds to the sum.
fn weight(v: u16) -> u32
    ensures { (result ≡ weight_by v) × (result ≤ 65536) }
{
    match v {
        0 => 1,
        1 => 65536,
        _ => 0,
    }
}

// The first undecided literal, with l in front of the others.
fn nearer(weight: u32, l: u16, first: u16) -> u16
    ensures { result ≡ cond (eqb weight 1) l first }
{
    if weight == 1 { l } else { first }
}

// What a clause is, by the sum of its literals and the first undecided one.
fn state_of(sum: u32, first: u16) -> Seen
    ensures { seen_of result ≡ state_by sum first }
{
    match sum {
        0 => Seen::Empty,
        1 => Seen::One(first),
        65536.. => Seen::Met,
        _ => Seen::Many(first),
    }
}

// What clause k is.
pub fn clause_state(work: &[u16], n: usize, k: usize) -> Seen
    requires ranged { Ranged work.now × (k < clause_count work.now) × (n ≤ most_nodes) }
    requires vals { Vals n (trail_at work.now) × ((s : ℕ) → s < base_at work.now (k + 1) → slot_at work.now s < 2 * n) }
    ensures { seen_of result ≡ state_in work.now k }
{
    let start = area::base(work, k);
    let end = area::base(work, k + 1);
    let mut sum: u32 = 0;
    let mut first: u16 = 0;
    for s in (start..end).rev() {
        let l = area::literal_in(work, s);
        let w = weight(area::value(work, n, l));
        sum += w;
        first = nearer(w, l, first);
    }
    state_of(sum, first)
}
