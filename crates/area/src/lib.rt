// The work area of the derivation checker, which shares no code with the solver: the trail, the clauses one after the other, the strikes
// and the way back from them, and the open splits. The layout is in specs/Area.antt.
#![tactic(auto)]

ghost use Rattle.std.specs.Prelude.{◌≡◌, cond, ◌&&◌, ℕ, suc, ◌+◌, ◌-◌, ◌*◌, ◌%◌, ◌<◌, ◌≤◌, eqb, length};
ghost use Rattle.calculus.specs.Order.{value_of};
ghost use Rattle.calculus.specs.Model.{Fresh};
ghost use Rattle.rules.specs.Rules.{is_holds};
ghost use Rattle.area.specs.Area.{area_size, most_nodes, most_clauses, most_slots, notes, whole, clause_count, depth, newest, base_at, slot_at, strike_at, length_at, trail_at, g_of, Vals, Trail, value_code, Entered, Shrunk, Struck, Saved, Ranged, stands_in, free_in, only_from, only_in, empty_in, left_of, found_of, true_from};
ghost use Rattle.area.specs.Strikes.{Reaches, Unwound};

// What a clause has left: how many literals, and the slot of the first, 0 where there is none.
#[derive(Clone, Copy)]
pub struct Left {
    pub count: u16,
    pub first: u16,
}

// The most nodes; the most clauses and slots: those of 80 goals, and of each literal held up to three clauses and four literals.
const NODES: usize = 2016;

const CLAUSES: usize = 80 + 3 * NODES;

const MOST_SLOTS: usize = 80 + 4 * NODES;

// Places 0 to 2: how many clauses, how many open splits, how many strikes. From BASES on the slot where each clause begins, which is
// where the one before it ends. From SLOTS on two things in each number: below NOTES the literal of a clause, and above it whether it is
// struck. From STRIKES on the slot of each strike, in turn. From COUNTS, SIZES and HEADS on what is saved at each open split: the
// literals held, the clauses, the strikes. From TRAIL on the count of the literals held, the literals, and each node's entry.
pub const BASES: usize = 3;

pub const SLOTS: usize = BASES + (CLAUSES + 1);

pub const STRIKES: usize = SLOTS + MOST_SLOTS;

pub const COUNTS: usize = STRIKES + (MOST_SLOTS + 1);

pub const SIZES: usize = COUNTS + NODES;

pub const HEADS: usize = SIZES + NODES;

pub const TRAIL: usize = HEADS + NODES;

pub const LITERALS: usize = 1;

const ENTRIES: usize = LITERALS + NODES;

// What the number of a slot with a strike has more than its literal, and what it has more where the whole clause is struck.
const NOTES: u16 = 8192;

pub const WHOLE: u16 = 16384;

// A literal joins the trail.
#[tactic(auto, using(crate::proofs::Trails::room_left))]
pub fn enter(n: usize, work: &mut [u16], l: u16)
    requires area_size_in_bounds { (area_size ≤ length work.old) × (n ≤ most_nodes) }
    requires trail { Trail n (trail_at work.old) × Fresh n (g_of work.old) l }
    ensures { Entered n l work.old work.new }
{
    let h = work[TRAIL];
    work[TRAIL + (ENTRIES + (l / 2) as usize)] = 2 * h + l % 2 + 1;
    work[TRAIL + (LITERALS + h as usize)] = l;
    work[TRAIL] = h + 1;
}

// The newest literal leaves the trail.
#[tactic(auto, using(crate::proofs::Trails::poppable))]
fn pop(n: usize, work: &mut [u16])
    requires area_size_in_bounds { (area_size ≤ length work.old) × (n ≤ most_nodes) × (0 < trail_at work.old 0) }
    requires trail { Trail n (trail_at work.old) }
    ensures { Shrunk n (trail_at work.old 0 - 1) work.old work.new }
{
    let h = work[TRAIL] - 1;
    let l = work[TRAIL + (LITERALS + h as usize)];
    work[TRAIL + (ENTRIES + (l / 2) as usize)] = 0;
    work[TRAIL] = h;
}

// The literals past the first c leave the trail.
pub fn shrink(n: usize, work: &mut [u16], c: u16)
    requires area_size_in_bounds { (area_size ≤ length work.old) × (n ≤ most_nodes) × (c ≤ trail_at work.old 0) }
    requires trail { Trail n (trail_at work.old) }
    ensures { Shrunk n c work.old work.new }
{
    while c < work[TRAIL] {
        pop(n, work);
    }
}

// The value of a literal: 0 undecided, 1 true, 2 false.
pub fn value(work: &[u16], n: usize, l: u16) -> u16
    requires area_size_in_bounds { (area_size ≤ length work.now) × (n ≤ most_nodes) × (l < 2 * n) }
    requires vals { Vals n (trail_at work.now) }
    ensures { result ≡ value_code (value_of (g_of work.now) l) }
{
    let e = work[TRAIL + (ENTRIES + (l / 2) as usize)];
    if e == 0 {
        return 0;
    }
    if (e - 1) % 2 == l % 2 { 1 } else { 2 }
}

// A strike is made in slot m, which has none: of its literal where `kind` is 0, of the clause where it is WHOLE.
pub fn strike(work: &mut [u16], m: usize, kind: u16)
    requires area_size_in_bounds { (area_size ≤ length work.old) × (m < most_slots) × (newest work.old ≤ most_slots) × (kind ≤ whole) }
    requires notes_value { (kind % notes ≡ 0) × (strike_at work.old m ≡ 0) }
    ensures { Struck kind m work.old work.new }
{
    let i = work[2] as usize;
    work[STRIKES + i] = m as u16;
    work[SLOTS + m] = work[SLOTS + m] + (NOTES + kind);
    work[2] = (i + 1) as u16;
}

// The strikes made since there were `head` are undone.
#[tactic(auto, using(crate::proofs::Strikes::unwinding_ahead))]
pub fn unwind(work: &mut [u16], head: u16)
    requires area_size_in_bounds { area_size ≤ length work.old }
    requires reaches { Reaches head work.old }
    ensures { Unwound head work.old work.new }
{
    while work[2] != head {
        let i = work[2] - 1;
        let m = work[STRIKES + i as usize] as usize;
        work[SLOTS + m] = work[SLOTS + m] % NOTES;
        work[2] = i;
    }
}

// The split is saved: what it takes to come back to it.
pub fn save_split(work: &mut [u16])
    requires { (area_size ≤ length work.old) × (depth work.old < most_nodes) }
    ensures { Saved work.old work.new }
{
    let d = work[1] as usize;
    work[COUNTS + d] = work[TRAIL];
    work[SIZES + d] = work[0];
    work[HEADS + d] = work[2];
    work[1] = (d + 1) as u16;
}

// The strike in slot m.
pub fn strike_in(work: &[u16], m: usize) -> u16
    requires { (area_size ≤ length work.now) × (m < most_slots) }
    ensures { result ≡ strike_at work.now m }
{
    let v = work[SLOTS + m];
    v - v % NOTES
}

// The literal in slot s.
pub fn literal_in(work: &[u16], s: usize) -> u16
    requires { (area_size ≤ length work.now) × (s < most_slots) }
    ensures { result ≡ slot_at work.now s }
{
    work[SLOTS + s] % NOTES
}

// The slot where clause k begins.
pub fn base(work: &[u16], k: usize) -> usize
    requires { (area_size ≤ length work.now) × (k ≤ most_clauses) }
    ensures { result ≡ base_at work.now k }
{
    work[BASES + k] as usize
}

// Clause k is in the list, and not struck.
pub fn stands(work: &[u16], k: usize) -> bool
    requires { Ranged work.now }
    ensures { result ≡ stands_in work.now k }
{
    if work[0] as usize <= k {
        return false;
    }
    let start = base(work, k);
    let end = base(work, k + 1);
    for s in start..end {
        if WHOLE <= strike_in(work, s) {
            return false;
        }
    }
    true
}

// Slot s in front of those that were counted, unless there is a strike.
fn counted(left: Left, s: usize, strike: u16) -> Left
    requires { (left.count < most_slots) × (s < most_slots) }
    ensures { result ≡ cond (eqb strike 0) (record { count = suc left.count; first = s }) left }
{
    if strike != 0 {
        return left;
    }
    Left {
        count: left.count + 1,
        first: s as u16,
    }
}

// What clause k has left.
fn remaining(work: &[u16], k: usize) -> Left
    requires { Ranged work.now × (k < clause_count work.now) }
    ensures { result ≡ left_of (free_in work.now k) }
{
    let start = base(work, k);
    let end = base(work, k + 1);
    let mut left = Left { count: 0, first: 0 };
    for s in (start..end).rev() {
        left = counted(left, s, strike_in(work, s));
    }
    left
}

// The one of two slots from s on with no strike, where the other's literal is struck. The branches are on what is struck, which can be
// guessed: no later step waits for it.
fn one_of_two(work: &[u16], s: usize) -> Option<usize>
    requires { (area_size ≤ length work.now) × (s + 2 ≤ most_slots) }
    ensures { found_of result ≡ only_from work.now s 2 }
{
    let first = strike_in(work, s);
    let second = strike_in(work, s + 1);
    match (first, second) {
        (0, NOTES) => Some(s),
        (NOTES, 0) => Some(s + 1),
        _ => None,
    }
}

// The one slot that clause k has left, where the clause stands.
pub fn only(work: &[u16], k: usize) -> Option<usize>
    requires { Ranged work.now }
    ensures { found_of result ≡ only_in work.now k }
{
    if work[0] as usize <= k {
        return None;
    }
    let s = base(work, k);
    if base(work, k + 1) == s + 2 {
        return one_of_two(work, s);
    }
    if !stands(work, k) {
        return None;
    }
    let left = remaining(work, k);
    if left.count != 1 {
        return None;
    }
    Some(left.first as usize)
}

// Clause k is in the list and not struck, and all its literals are.
pub fn emptied(work: &[u16], k: usize) -> bool
    requires { Ranged work.now }
    ensures { result ≡ empty_in work.now k }
{
    if work[0] as usize <= k {
        return false;
    }
    let start = base(work, k);
    let end = base(work, k + 1);
    for s in start..end {
        if strike_in(work, s) != NOTES {
            return false;
        }
    }
    true
}

// The literal in slot s is held true, and not struck.
fn is_true(work: &[u16], n: usize, s: usize) -> bool
    requires area_size_in_bounds { (area_size ≤ length work.now) × (n ≤ most_nodes) × (s < most_slots) × (slot_at work.now s < 2 * n) }
    requires vals { Vals n (trail_at work.now) }
    ensures { result ≡ (eqb (strike_at work.now s) 0 && is_holds (value_of (g_of work.now) (slot_at work.now s))) }
{
    if strike_in(work, s) != 0 {
        return false;
    }
    value(work, n, literal_in(work, s)) == 1
}

// The slot of the first literal that clause k has left and that is held true.
pub fn true_slot(work: &[u16], n: usize, k: usize) -> Option<usize>
    requires ranged { Ranged work.now × (k < clause_count work.now) × (n ≤ most_nodes) }
    requires vals { Vals n (trail_at work.now) × ((s : ℕ) → s < base_at work.now (k + 1) → slot_at work.now s < 2 * n) }
    ensures { found_of result ≡ true_from work.now (base_at work.now k) (length_at work.now k) }
{
    let start = base(work, k);
    let end = base(work, k + 1);
    for s in start..end {
        if is_true(work, n, s) {
            return Some(s);
        }
    }
    None
}
