// What the clause of a unit or a conflict rests on: what its false literals do, and the literal whose expansion gave it.
#![tactic(auto)]

ghost use Rattle.std.specs.Prelude.{◌≡◌, ◌+◌, ◌*◌, ◌/◌, ◌<◌, ◌≤◌, length};
ghost use Rattle.scope.specs.Table.{arity};
ghost use Rattle.calculus.specs.Expansion.{expand};
ghost use Rattle.calculus.specs.Jump.{clause_rest};
ghost use Rattle.index.specs.Index.{most_nodes, index_node};
ghost use Rattle.index.specs.Indexed.{Indexed};
ghost use Rattle.state.specs.Work.{area, tail, lit_at, base_of, g_of, Ready, Numbered};
ghost use Rattle.rests.specs.Words.{rest_at, Put, held_of};
ghost use Rattle.grounds.specs.Ground.{slot_of, up_to, operands_in, over, Room, Grounded};

// The rows from TRUE's on, 2 * (kind - 1) + sign, whose clauses have one literal each, that of operand j in clause j: AND, OR negated, IMP
// negated, AND of three and OR of three negated. Each clause of the other rows has all operands.
const SINGLES: u64 = 37520;

// Kinds below it have no operands; kinds from it on have three.
const PAIRS: usize = 3;

const THREES: usize = 7;

// The slot of a literal's node: 1 + the position of its literal that is held, or 0 where it is undecided.
fn slot(n: usize, work: &[u16], l: u16) -> usize
    requires { (area ≤ length work.now) × (n ≤ most_nodes) × (l < 2 * n) }
    ensures { result ≡ slot_of (tail work.now) l }
{
    (state::entry(work, (l / 2) as usize) as usize + 1) / 2
}

// What a clause with all operands of a node rests on, where the literal at position q gave it.
fn put_all(x: &[u16], n: usize, work: &[u16], rests: &mut [u64], to: usize, q: usize, node: usize)
    requires indexed { Indexed x.now n }
    requires ready { Ready n work.now }
    requires room { Room work.now rests.old to }
    requires q_bound { (q < tail work.now 0) × (node < n) }
    ensures { Put rests.old to (over rests.old (tail work.now) (index_node x.now node) (rest_at rests.old (q + 1)) (up_to (arity (index_node x.now node).kind))) rests.new }
{
    let s = 4 * node;
    let kind = x[s] as usize + 1;
    if kind < PAIRS {
        rests::put_both(rests, to, 0, q + 1);
        return;
    }
    let a = slot(n, work, x[s + 1]);
    let b = slot(n, work, x[s + 2]);
    if kind < THREES {
        rests::put_three(rests, to, a, b, q + 1);
        return;
    }
    let c = slot(n, work, x[s + 3]);
    rests::put_four(rests, to, a, b, c, q + 1);
}

// What clause j of the literal at position q rests on.
fn put_position(x: &[u16], n: usize, work: &[u16], rests: &mut [u64], to: usize, q: usize, j: usize)
    requires indexed { Indexed x.now n }
    requires ready { Ready n work.now }
    requires room { Room work.now rests.old to }
    requires q_bound { (q < tail work.now 0) × (j < length (expand (index_node x.now) (lit_at (tail work.now) q))) }
    ensures { Put rests.old to (over rests.old (tail work.now) (index_node x.now (lit_at (tail work.now) q / 2)) (rest_at rests.old (q + 1)) (operands_in (index_node x.now) (lit_at (tail work.now) q) j)) rests.new }
{
    let l = state::literal(work, q);
    let node = (l / 2) as usize;
    let row = 2 * x[4 * node] as usize + (l % 2) as usize;
    if (SINGLES >> row) % 2 == 1 {
        let a = slot(n, work, x[4 * node + (1 + j)]);
        rests::put_both(rests, to, a, q + 1);
        return;
    }
    put_all(x, n, work, rests, to, q, node);
}

// What clause j of the literal at position q, which has no true literal, rests on is put at slot `to`.
pub fn put_clause(
    x: &[u16],
    n: usize,
    goals: &[u16],
    work: &[u16],
    rests: &mut [u64],
    to: usize,
    q: usize,
    j: usize,
)
    requires indexed { Indexed x.now n }
    requires ready { Ready n work.now × Numbered (index_node x.now) goals.now (tail work.now) }
    requires grounded { Grounded (index_node x.now) goals.now work.now rests.old q j to }
    ensures { Put rests.old to (clause_rest (expand (index_node x.now)) goals.now (held_of rests.old (g_of work.now)) (base_of (tail work.now) q + j)) rests.new }
{
    put_position(x, n, work, rests, to, q, j);
}
