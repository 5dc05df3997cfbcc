// What add does with a record before any byte changes: turn an implication into an OR, order the operands, and look for the node.
#![tactic(auto)]

ghost use Rattle.std.specs.Prelude.{◌≡◌, true, [], ◌∷◌, ℕ, ◌+◌, ◌*◌, ◌/◌, ◌<◌, ◌≤◌, length};
ghost use Rattle.scope.specs.Table.{neg, with_operands, range_ok, same_node, node_at, list_from};
ghost use Rattle.scope.specs.Calls.{placed, ordered, turned, normalized, index_of};
ghost use Rattle.record.specs.Place.{place_of};
ghost use Rattle.lookup.specs.Found.{among};

use scope::Node;

// A literal's negation.
fn negation(l: u16) -> u16
    ensures { result ≡ neg l }
{
    if l % 2 == 0 { l + 1 } else { l - 1 }
}

// An implication becomes OR of ¬a and b.
fn turn(x: Node) -> Node
    ensures { result ≡ turned x }
{
    if x.kind != 5 {
        return x;
    }
    Node {
        kind: 4,
        a: negation(x.a),
        b: x.b,
        c: x.c,
    }
}

// Two operands in order of their nodes.
fn order_two(x: Node) -> Node
    requires { (2 < x.kind) × (x.kind < 7) }
    ensures { result ≡ ordered x }
{
    if x.a / 2 <= x.b / 2 {
        return x;
    }
    Node {
        kind: x.kind,
        a: x.b,
        b: x.a,
        c: x.c,
    }
}

// The last two of three in order.
fn order_last(x: Node) -> Node
    ensures { result ≡ with_operands x (x.a ∷ placed x.b (x.c ∷ [])) }
{
    if x.b / 2 <= x.c / 2 {
        return x;
    }
    Node {
        kind: x.kind,
        a: x.a,
        b: x.c,
        c: x.b,
    }
}

// The first of three among the others, which are in order.
fn place_first(x: Node) -> Node
    ensures { result ≡ with_operands x (placed x.a (x.b ∷ x.c ∷ [])) }
{
    if x.a / 2 <= x.b / 2 {
        return x;
    }
    if x.a / 2 <= x.c / 2 {
        return Node {
            kind: x.kind,
            a: x.b,
            b: x.a,
            c: x.c,
        };
    }
    Node {
        kind: x.kind,
        a: x.b,
        b: x.c,
        c: x.a,
    }
}

// The operands in order of their nodes.
fn order(x: Node) -> Node
    ensures { result ≡ ordered x }
{
    if x.kind < 3 {
        return x;
    }
    if x.kind < 7 {
        return order_two(x);
    }
    place_first(order_last(x))
}

// The record that add looks up for the record given.
pub fn normalize(r: [u8; 8]) -> [u8; 8]
    ensures { result ≡ normalized r }
{
    let x = order(turn(record::fields(&r)));
    [
        x.kind,
        r[1],
        (x.a % 256) as u8,
        (x.a / 256) as u8,
        (x.b % 256) as u8,
        (x.b / 256) as u8,
        (x.c % 256) as u8,
        (x.c / 256) as u8,
    ]
}

// Two fields as one number.
fn pair(a: u16, b: u16) -> u32
    ensures { result ≡ a + 65536 * b }
{
    (a as u32) + 65536 * (b as u32)
}

// Two nodes have the same fields. The first two operands are compared at once: few others have them.
fn same(x: Node, y: Node) -> bool
    ensures { result ≡ same_node x y }
{
    pair(x.a, x.b) == pair(y.a, y.b) && x.kind == y.kind && x.c == y.c
}

// Which of the first `count` records of block j is the first that is x.
fn find_in(t: &[u8], j: usize, count: usize, x: Node) -> Option<usize>
    requires { (63 * j + count ≤ 2016) × (count ≤ 63) × ((n : ℕ) → n < 63 * j + count → place_of n + 8 ≤ length t.now) }
    ensures { result ≡ among count (index_of x (list_from (node_at t.now) (63 * j) count)) }
{
    let from = 512 * j + 4;
    for i in 0..count {
        let at = from + 8 * i;
        if same(record::fields(&t[at..at + 8]), x) {
            return Some(i);
        }
    }
    None
}

// A block before which no node is x: a node's operands are of earlier nodes.
fn first_block(x: Node) -> usize
    ensures { (63 * result ≤ x.b / 2) × (x.kind < 3 → result ≡ 0) }
{
    if 2 < x.kind {
        return (x.b / 126) as usize;
    }
    0
}

// The first node that is x: block by block, from the first that can have it.
pub fn find(t: &[u8], nodes: usize, x: Node) -> Option<usize>
    requires nodes_bound { (nodes ≤ 2016) × ((n : ℕ) → n < nodes → place_of n + 8 ≤ length t.now) }
    requires by_index { ((n : ℕ) → n < nodes → range_ok (node_at t.now n) n ≡ true) × (range_ok x nodes ≡ true) }
    ensures { result ≡ among nodes (index_of x (list_from (node_at t.now) 0 nodes)) }
{
    let full = nodes / 63;
    for j in first_block(x)..full {
        if let Some(i) = find_in(t, j, 63, x) {
            return Some(63 * j + i);
        }
    }
    let i = find_in(t, full, nodes % 63, x)?;
    Some(63 * full + i)
}
