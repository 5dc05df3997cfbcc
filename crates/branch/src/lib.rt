// The open branch of a derivation that is replayed, and the way back to its open splits: what joins it brings its clauses, by kind and
// sign, and what is undone leaves the work area as it was.
#![tactic(auto)]

ghost use Rattle.std.specs.Prelude.{◌≡◌, [], ◌∷◌, suc, ◌+◌, ◌-◌, ◌*◌, ◌/◌, ◌%◌, ◌≤◌, ◌<◌, length, get_or};
ghost use Rattle.scope.specs.Table.{arity};
ghost use Rattle.calculus.specs.Expansion.{neg, chosen, templates, expand};
ghost use Rattle.calculus.specs.Model.{Fresh};
ghost use Rattle.index.specs.Index.{most_nodes, index_node};
ghost use Rattle.area.specs.Area.{area_size, most_clauses, most_slots, clause_room, literal_room, goal_room, bases_from, slots_from, clause_count, depth, base_at, trail_at, g_of, Trail};
ghost use Rattle.branch.specs.Clauses.{Filled, Appended, Room, choices, Chooses};
ghost use Rattle.branch.specs.Holds.{Indexed, Goals, Joined, Holds, Held, Restores, fresh};

use area::{BASES, COUNTS, HEADS, LITERALS, SIZES, SLOTS, TRAIL};

// How many numbers the slots take, and the trail.
const SLOT_CELLS: usize = 8144;

const TRAIL_CELLS: usize = 4033;

// The row of a literal: by kind and sign, 2 * kind + sign.
fn row_of(x: &[u16], n: usize, l: u16) -> usize
    requires indexed { Indexed x.now n }
    requires l_bound { l < 2 * n }
    ensures { (result ≡ 2 * (index_node x.now (l / 2)).kind + l % 2) × (result < 18) }
{
    let kind = x[4 * ((l / 2) as usize)] + 1;
    (2 * kind + l % 2) as usize
}

// The negation of a literal.
pub fn negated(l: u16) -> u16
    requires { l < 2 * most_nodes }
    ensures { result ≡ neg l }
{
    l + 1 - 2 * (l % 2)
}

// The literal that a template chooses of a node's operands: an even choice is the operand, an odd one its negation.
fn choose(x: &[u16], n: usize, node: usize, c: u8) -> u16
    requires indexed { Indexed x.now n }
    requires node_lt_n { (node < n) × (c / 2 < arity (index_node x.now node).kind) }
    ensures { result ≡ chosen (index_node x.now node) c }
{
    let l = x[4 * node + (1 + (c / 2) as usize)];
    l - l % 2 + (l + c as u16) % 2
}

// An empty clause is appended.
fn put_empty(work: &mut [u16])
    requires { Room 1 0 work.old }
    ensures { Appended ([] ∷ []) work.old work.new }
{
    let k = work[0] as usize;
    let b = work[BASES + k];
    work[BASES + (k + 1)] = b;
    work[0] = (k + 1) as u16;
}

// A clause of one literal is appended.
fn put_one(work: &mut [u16], p: u16)
    requires { Room 1 1 work.old }
    ensures { Appended ((p ∷ []) ∷ []) work.old work.new }
{
    let k = work[0] as usize;
    let b = work[BASES + k] as usize;
    work[SLOTS + b] = p;
    work[BASES + (k + 1)] = (b + 1) as u16;
    work[0] = (k + 1) as u16;
}

// A clause of two literals is appended, as clause k from slot b on.
fn put_two(work: &mut [u16], k: usize, b: usize, p: u16, q: u16)
    requires { Room 1 2 work.old × (k ≡ clause_count work.old) × (b ≡ base_at work.old (clause_count work.old)) }
    ensures { Appended ((p ∷ q ∷ []) ∷ []) work.old work.new }
{
    work[SLOTS + b] = p;
    work[SLOTS + b + 1] = q;
    work[BASES + (k + 1)] = (b + 2) as u16;
    work[0] = (k + 1) as u16;
}

// A clause of three literals is appended.
fn put_three(work: &mut [u16], p: u16, q: u16, r: u16)
    requires { Room 1 3 work.old }
    ensures { Appended ((p ∷ q ∷ r ∷ []) ∷ []) work.old work.new }
{
    let k = work[0] as usize;
    let b = work[BASES + k] as usize;
    work[SLOTS + b] = p;
    work[SLOTS + b + 1] = q;
    work[SLOTS + b + 2] = r;
    work[BASES + (k + 1)] = (b + 3) as u16;
    work[0] = (k + 1) as u16;
}

// Each of two choices is a clause.
fn each_of(x: &[u16], n: usize, work: &mut [u16], node: usize, c: u8, d: u8)
    requires indexed { Indexed x.now n }
    requires chooses { Chooses 2 x.now n node × (c < 4) × (d < 4) }
    requires room { Room 2 2 work.old }
    ensures { Appended (choices x.now node ((c ∷ []) ∷ (d ∷ []) ∷ [])) work.old work.new }
{
    let p = choose(x, n, node, c);
    let q = choose(x, n, node, d);
    put_one(work, p);
    put_one(work, q);
}

// Two choices are a clause.
fn some_of(x: &[u16], n: usize, work: &mut [u16], node: usize, c: u8, d: u8)
    requires indexed { Indexed x.now n }
    requires chooses { Chooses 2 x.now n node × (c < 4) × (d < 4) }
    requires room { Room 1 2 work.old }
    ensures { Appended (choices x.now node ((c ∷ d ∷ []) ∷ [])) work.old work.new }
{
    let p = choose(x, n, node, c);
    let q = choose(x, n, node, d);
    let k = work[0] as usize;
    let b = work[BASES + k] as usize;
    put_two(work, k, b, p, q);
}

// Each of the three operands, or of their negations, is a clause.
fn each_of_three(x: &[u16], n: usize, work: &mut [u16], node: usize, sign: u8)
    requires indexed { Indexed x.now n }
    requires chooses { Chooses 3 x.now n node × (sign < 2) }
    requires room { Room 3 3 work.old }
    ensures { Appended (choices x.now node ((sign ∷ []) ∷ ((2 + sign) ∷ []) ∷ ((4 + sign) ∷ []) ∷ [])) work.old work.new }
{
    let p = choose(x, n, node, sign);
    let q = choose(x, n, node, 2 + sign);
    let r = choose(x, n, node, 4 + sign);
    put_one(work, p);
    put_one(work, q);
    put_one(work, r);
}

// The three operands, or their negations, are a clause.
fn some_of_three(x: &[u16], n: usize, work: &mut [u16], node: usize, sign: u8)
    requires indexed { Indexed x.now n }
    requires chooses { Chooses 3 x.now n node × (sign < 2) }
    requires room { Room 1 3 work.old }
    ensures { Appended (choices x.now node ((sign ∷ (2 + sign) ∷ (4 + sign) ∷ []) ∷ [])) work.old work.new }
{
    let p = choose(x, n, node, sign);
    let q = choose(x, n, node, 2 + sign);
    let r = choose(x, n, node, 4 + sign);
    put_three(work, p, q, r);
}

// The clauses of an IFF, or of its negation: their number and their slot are read once.
fn same_or_not(x: &[u16], n: usize, work: &mut [u16], node: usize, sign: u8)
    requires indexed { Indexed x.now n }
    requires chooses { Chooses 2 x.now n node × (sign < 2) }
    requires room { Room 2 4 work.old }
    ensures { Appended (choices x.now node (((1 - sign) ∷ 2 ∷ []) ∷ (sign ∷ 3 ∷ []) ∷ [])) work.old work.new }
{
    let p = choose(x, n, node, 1 - sign);
    let q = choose(x, n, node, 2);
    let r = choose(x, n, node, sign);
    let s = choose(x, n, node, 3);
    let k = work[0] as usize;
    let b = work[BASES + k] as usize;
    put_two(work, k, b, p, q);
    put_two(work, k + 1, b + 2, r, s);
}

// The clauses of a row with no operands: TRUE and ATOM have none, and not TRUE an empty one.
fn put_bare(work: &mut [u16], row: usize)
    requires row_bound { row < 6 }
    requires room { Room 1 0 work.old }
    ensures { Appended (get_or templates row []) work.old work.new }
{
    if row == 3 {
        put_empty(work);
    }
}

// The clauses of a row with operands: choice 0 is a, 1 is not a, 2 is b, 3 is not b, 4 is c, 5 is not c.
#[tactic(auto, using(crate::proofs::Appends::two_operands, crate::proofs::Appends::three_operands, crate::proofs::Appends::room_within))]
fn put_row(x: &[u16], n: usize, work: &mut [u16], node: usize, row: usize, sign: u8)
    requires indexed { Indexed x.now n }
    requires node_lt_n { (node < n) × ((index_node x.now node).kind ≡ row / 2) × (6 ≤ row) × (row < 18) × (sign ≡ row % 2) }
    requires room { Room clause_room literal_room work.old }
    ensures { Appended (choices x.now node (get_or templates row [])) work.old work.new }
{
    match row {
        // AND
        6 => each_of(x, n, work, node, 0, 2),
        7 => some_of(x, n, work, node, 1, 3),
        // OR
        8 => some_of(x, n, work, node, 0, 2),
        9 => each_of(x, n, work, node, 1, 3),
        // IMP
        10 => some_of(x, n, work, node, 1, 2),
        11 => each_of(x, n, work, node, 0, 3),
        // IFF: one code for both signs, so that the sign need not be guessed
        12 | 13 => same_or_not(x, n, work, node, sign),
        // AND of three
        14 => each_of_three(x, n, work, node, 0),
        15 => some_of_three(x, n, work, node, 1),
        // OR of three
        16 => some_of_three(x, n, work, node, 0),
        _ => each_of_three(x, n, work, node, 1),
    }
}

// The clauses of a literal are appended.
fn append(x: &[u16], n: usize, work: &mut [u16], l: u16)
    requires indexed { Indexed x.now n }
    requires l_bound { l < 2 * n }
    requires room { Room clause_room literal_room work.old }
    ensures { Appended (expand (index_node x.now) l) work.old work.new }
{
    let row = row_of(x, n, l);
    if 6 <= row {
        put_row(x, n, work, (l / 2) as usize, row, (l % 2) as u8);
        return;
    }
    put_bare(work, row);
}

// A literal joins the trail, and its clauses are appended.
pub fn push(x: &[u16], n: usize, work: &mut [u16], l: u16)
    requires indexed { Indexed x.now n }
    requires area_size_in_bounds { area_size ≤ length work.old }
    requires clause_room_bound { (clause_count work.old + clause_room ≤ most_clauses) × (base_at work.old (clause_count work.old) + literal_room ≤ most_slots) }
    requires trail { Trail n (trail_at work.old) × Fresh n (g_of work.old) l }
    ensures { Joined (index_node x.now) n l work.old work.new }
{
    append(x, n, work, l);
    area::enter(n, work, l);
}

// The newest split has its old state again; the literal that was split on.
#[tactic(auto, using(crate::proofs::Turns::held_restorable))]
pub fn restore(x: &[u16], n: usize, work: &mut [u16]) -> u16
    requires indexed { Indexed x.now n }
    requires held { Held (index_node x.now) n work.old × (0 < depth work.old) }
    ensures { Restores (index_node x.now) n work.old work.new result }
{
    let d = (work[1] - 1) as usize;
    let c = work[COUNTS + d];
    let head = work[HEADS + d];
    let l = work[TRAIL + (LITERALS + c as usize)];
    area::unwind(work, head);
    area::shrink(n, work, c);
    work[0] = work[SIZES + d];
    work[1] = d as u16;
    l
}

// m numbers from a place on become 0.
fn clear(work: &mut [u16], from: usize, m: usize)
    requires { from + m ≤ length work.old }
    ensures { Filled from m (λ _. 0) work.old work.new }
{
    work[from..from + m].fill(0);
}

// Each of the first m clauses ends after one slot.
fn number(work: &mut [u16], m: usize)
    requires { (area_size ≤ length work.old) × (m ≤ goal_room) }
    ensures { Filled (bases_from + 1) m suc work.old work.new }
{
    for k in 0..m {
        work[BASES + 1 + k] = (k + 1) as u16;
    }
}

// The goals become the first literals.
fn aim(goals: &[u16], work: &mut [u16])
    requires { (area_size ≤ length work.old) × (length goals.now ≤ goal_room) }
    ensures { Filled slots_from (length goals.now) (λ k. get_or goals.now k 0) work.old work.new }
{
    for k in 0..goals.len() {
        work[SLOTS + k] = goals[k];
    }
}

// The start: nothing is held, and the slots are cleared, so that none has a strike. What else is written before it is read is not.
pub fn begin(x: &[u16], n: usize, goals: &[u16], work: &mut [u16])
    requires indexed { Indexed x.now n }
    requires goals { Goals n goals.now }
    requires area_size_in_bounds { area_size ≤ length work.old }
    ensures holds { Holds (index_node x.now) n goals.now work.new fresh }
    ensures work_after { g_of work.new ≡ [] }
{
    let m = goals.len();
    clear(work, 0, BASES + 1);
    clear(work, SLOTS, SLOT_CELLS);
    clear(work, TRAIL, TRAIL_CELLS);
    number(work, m);
    aim(goals, work);
    work[0] = m as u16;
}
