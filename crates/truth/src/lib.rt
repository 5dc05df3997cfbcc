// Evaluation: the truth of a literal under a setting, each node's truth found once. Truths are levels here, no 0, unknown 1, yes 2, a
// level for each literal: so a negation is what is left of 2, and is not worked out again.
#![tactic(auto)]

ghost use Rattle.std.specs.Prelude.{◌≡◌, [], ◌∷◌, true, ℕ, ◌+◌, ◌*◌, ◌/◌, ◌<◌, ◌≤◌, length, get_or};
ghost use Rattle.scope.specs.Outcome.{verdict_of};
ghost use Rattle.scope.specs.Truth.{joined};
ghost use Rattle.scope.specs.Kleene.{point_truth, kleene};
ghost use Rattle.scope.specs.Calls.{settings_test, evaluate};
ghost use Rattle.truth.specs.Evaluated.{evaluated_of, level, truth_of, join_rows, Levels, Low, NodeLevel, Evaluable, Filled};

use scope::{Node, Refusal, Truth};

// How kinds 3 to 6 join two levels x and y: a row for each kind, in it the level at 3 x + y.
const JOINS: [[u8; 9]; 4] = [
    // AND: the lower
    [0, 0, 0, 0, 1, 1, 0, 1, 2],
    // OR: the higher
    [0, 1, 2, 1, 1, 2, 2, 2, 2],
    // IMP: the higher of what is left of x, and y
    [2, 2, 2, 1, 1, 2, 0, 1, 2],
    // IFF: unknown where one is
    [2, 1, 0, 1, 1, 1, 0, 1, 2],
];

// Two levels joined as kinds 3 to 6 say, by JOINS, which is lent: an index into a constant copies the constant.
fn join(joins: &[[u8; 9]; 4], kind: u8, x: u8, y: u8) -> u8
    requires joins_value { joins.now ≡ join_rows }
    requires lt_kind { (2 < kind) × (kind < 7) × (x ≤ 2) × (y ≤ 2) }
    ensures { result ≡ level (joined kleene kind (truth_of x ∷ truth_of y ∷ [])) }
{
    let row = (kind - 3) as usize;
    let column = (3 * x + y) as usize;
    joins[row][column]
}

// Three levels joined as kinds 7 and 8 say: by AND or OR, twice.
fn join_three(joins: &[[u8; 9]; 4], kind: u8, x: u8, y: u8, z: u8) -> u8
    requires joins_value { joins.now ≡ join_rows }
    requires le_kind { (7 ≤ kind) × (kind < 9) × (x ≤ 2) × (y ≤ 2) × (z ≤ 2) }
    ensures { result ≡ level (joined kleene kind (truth_of x ∷ truth_of y ∷ truth_of z ∷ [])) }
{
    join(joins, kind - 4, x, join(joins, kind - 4, y, z))
}

// The level of a point's byte.
fn point_level(b: u8) -> u8
    ensures { result ≡ level (point_truth b) }
{
    match b {
        1 => 2,
        2 => 1,
        _ => 0,
    }
}

// A node's level, where those of its operands are known.
fn node_level(joins: &[[u8; 9]; 4], s: &[u8], v: &[u8], x: Node) -> u8
    requires joins_value { joins.now ≡ join_rows }
    requires in_bounds { (1024 ≤ length s.now) × Low x (length v.now / 2) × Levels v.now }
    ensures { NodeLevel s.now v.now x result }
{
    if x.kind == 1 {
        return 2;
    }
    if x.kind == 2 {
        let point = x.a as usize;
        return point_level(s[point]);
    }
    let p = v[x.a as usize];
    let q = v[x.b as usize];
    if x.kind < 7 {
        return join(joins, x.kind, p, q);
    }
    let r = v[x.c as usize];
    join_three(joins, x.kind, p, q, r)
}

// The truth of a level.
fn told(x: u8) -> Truth
    ensures { result ≡ truth_of x }
{
    match x {
        0 => Truth::No,
        1 => Truth::Unknown,
        _ => Truth::Yes,
    }
}

// Whether the points' bytes are all below 3. All are looked at, so that the compiler can make vector code of it.
fn all_low(s: &[u8]) -> bool
    requires { 1024 ≤ length s.now }
    ensures { result ≡ true → (p : ℕ) → p < 1024 → get_or s.now p 0 < 3 }
{
    let mut low = true;
    for p in 0..1024 {
        low &= s[p] < 3;
    }
    low
}

// Rows 21 and 22.
fn settings_verdict(s: &[u8]) -> Result<(), Refusal>
    ensures { verdict_of result ≡ settings_test s.now }
{
    if s.len() < 1024 {
        return Err(Refusal {
            number: 21,
            place: 0,
        });
    }
    if all_low(s) {
        return Ok(());
    }
    for p in 0..1024 {
        if 2 < s[p] {
            return Err(Refusal {
                number: 22,
                place: p,
            });
        }
    }
    Ok(())
}

// The levels of the literals of the first nodes of block j, so many, where those of the blocks before are known.
fn block_levels(joins: &[[u8; 9]; 4], t: &[u8], s: &[u8], v: &mut [u8], j: usize, count: usize)
    requires joins_value { joins.now ≡ join_rows }
    requires evaluable { Evaluable t.now s.now v.old (63 * j + count) × (count ≤ 63) }
    requires filled { Filled t.now s.now (63 * j) v.old }
    ensures { Filled t.now s.now (63 * j + count) v.new }
{
    let from = 512 * j + 4;
    for i in 0..count {
        let at = from + 8 * i;
        let x = record::fields(&t[at..at + 8]);
        let r = node_level(joins, s, v, x);
        let l = 2 * (63 * j + i);
        v[l] = r;
        v[l + 1] = 2 - r;
    }
}

// The levels of the literals of the nodes before `nodes` of a readable table, block by block.
fn node_levels(t: &[u8], s: &[u8], v: &mut [u8], nodes: usize)
    requires { Evaluable t.now s.now v.old nodes × Levels v.old }
    ensures { Filled t.now s.now nodes v.new }
{
    let joins = &JOINS;
    let full = nodes / 63;
    for j in 0..full {
        block_levels(joins, t, s, v, j, 63);
    }
    block_levels(joins, t, s, v, full, nodes % 63);
}

// The truth of a literal under a setting.
pub fn evaluate(t: &[u8], literal: usize, s: &[u8]) -> Result<Truth, Refusal>
    ensures { evaluated_of result ≡ evaluate t.now literal s.now }
{
    let nodes = table::count(t)?;
    if 2 * nodes <= literal {
        return Err(Refusal {
            number: 20,
            place: 0,
        });
    }
    settings_verdict(s)?;
    let mut v = [0u8; 4032];
    node_levels(t, s, &mut v, literal / 2 + 1);
    Ok(told(v[literal]))
}
