// The nodes of a DIMACS file's table, one after another in a table under way: points, false, a clause's ORs, the ANDs.
#![tactic(auto)]

ghost use Rattle.std.specs.Prelude.{◌≡◌, ◌<◌, ◌≤◌, take};
ghost use Rattle.growing.specs.Growing.{state, Grows, FromAdd};
ghost use Rattle.cnf.specs.Fold.{opposite, put, points, no_literal, or_clause, and_join, empty};
ghost use Rattle.cnffold.specs.Built.{Small, InOrder};

use growing::Draft;
use scope::Refusal;

// Two literals in order of their nodes.
#[derive(Clone, Copy)]
pub struct Pair {
    pub low: usize,
    pub high: usize,
}

// The other sign's literal.
pub fn opposite(l: usize) -> usize
    requires { l < 4032 }
    ensures { result ≡ opposite l }
{
    l + 1 - 2 * (l % 2)
}

// TRUE.
pub fn add_true(nodes: &mut Draft) -> Result<usize, Refusal>
    ensures grows { Grows (λ buf. put (state 0 nodes.old buf) 1 0 0) nodes.old.room result nodes.new }
    ensures adds { FromAdd result }
{
    nodes.grow(16777216)
}

// A point.
fn add_point(nodes: &mut Draft, p: usize) -> Result<usize, Refusal>
    requires { p < 1024 }
    ensures grows { Grows (λ buf. put (state 0 nodes.old buf) 2 p 0) nodes.old.room result nodes.new }
    ensures adds { FromAdd result }
{
    nodes.grow(33554432 + (p as u32))
}

// The points below `vars`, where there are no nodes yet.
pub fn add_points(nodes: &mut Draft, vars: usize) -> Result<usize, Refusal>
    requires { (nodes.old.count ≡ 0) × (vars ≤ 1024) }
    ensures grows { Grows (λ buf. points (empty buf) 0 vars) nodes.old.room result nodes.new }
    ensures adds { FromAdd result }
{
    let mut literal = 0;
    for p in 0..vars {
        literal = add_point(nodes, p)?;
    }
    Ok(literal)
}

// False: TRUE's negation.
fn add_false(nodes: &mut Draft) -> Result<usize, Refusal>
    ensures grows { Grows (λ buf. no_literal (state 0 nodes.old buf)) nodes.old.room result nodes.new }
    ensures adds { FromAdd result }
{
    let l = add_true(nodes)?;
    Ok(opposite(l))
}

// Two literals, that of the lower node first.
fn in_order(a: usize, b: usize) -> Pair
    ensures { InOrder a b result }
{
    if b / 2 < a / 2 {
        return Pair { low: b, high: a };
    }
    Pair { low: a, high: b }
}

// AND or OR of two literals.
fn add_pair(nodes: &mut Draft, kind: u32, a: usize, b: usize) -> Result<usize, Refusal>
    requires { (2 < kind) × (kind < 5) × (a < 4032) × (b < 4032) }
    ensures grows { Grows (λ buf. put (state 0 nodes.old buf) kind a b) nodes.old.room result nodes.new }
    ensures adds { FromAdd result }
{
    let o = in_order(a, b);
    let place = nodes.count();
    if place <= o.high / 2 {
        return Err(Refusal { number: 15, place });
    }
    if o.low / 2 == o.high / 2 {
        return Err(Refusal { number: 16, place });
    }
    nodes.grow(16777216 * kind + ((4096 * o.high + o.low) as u32))
}

// The first `count` literals, folded left by OR; none are false.
pub fn or_clause(nodes: &mut Draft, held: &[u16], count: usize) -> Result<usize, Refusal>
    requires { Small held.now count }
    ensures grows { Grows (λ buf. or_clause (state 0 nodes.old buf) (take count held.now)) nodes.old.room result nodes.new }
    ensures adds { FromAdd result }
{
    if count == 0 {
        return add_false(nodes);
    }
    let mut literal = held[0] as usize;
    for i in 1..count {
        literal = add_pair(nodes, 4, literal, held[i] as usize)?;
    }
    Ok(literal)
}

// AND of the goal so far and a clause's literal.
pub fn and_join(nodes: &mut Draft, goal: usize, literal: usize) -> Result<usize, Refusal>
    requires { (goal < 4032) × (literal < 4032) }
    ensures grows { Grows (λ buf. and_join goal (state literal nodes.old buf)) nodes.old.room result nodes.new }
    ensures adds { FromAdd result }
{
    if goal == literal {
        return Ok(literal);
    }
    if goal == opposite(literal) {
        return add_false(nodes);
    }
    add_pair(nodes, 3, goal, literal)
}
