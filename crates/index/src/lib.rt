// The index of a table, built once a call: the nodes' fields as numbers, four a node, each node's edges, so that its parents are found
// without a look at the others, and the codes and classes, which say what the clauses of a literal come to.
#![tactic(auto)]

ghost use Rattle.std.specs.Prelude.{◌≡◌, List, ℕ, ◌+◌, ◌/◌, ◌%◌, ◌<◌, ◌≤◌, get_or, length};
ghost use Rattle.record.specs.Place.{place_of};
ghost use Rattle.scope.specs.Table.{operands, node_at};
ghost use Rattle.calculus.specs.Model.{All, Below};
ghost use Rattle.index.specs.Codes.{codes_size, classes_size};
ghost use Rattle.index.specs.Index.{index_size, most_nodes, most_edges, first_at, index_node, stored};
ghost use Rattle.index.specs.Edges.{mid_of, end_of};
ghost use Rattle.index.specs.Built.{Same, Early, Recorded, Records, raised, count_node, put_pair, put_three, put_node, Room, Blank, Counting, Placing, Linked, Loaded, Copied, Classified, Built};
ghost use Rattle.index.specs.Marks.{marked, mark_all, placed_at, met_at, Wanted, passed, descended, sunk, top, Fits, Flagged, Over, Unfilled, Pruned};

// The layout: node m has one less than its kind at 4 m, so that zeros are a TRUE, then its operands; from FIRST, MID and END on each node's
// offsets: its edges from parents of two operands stand from the first on below the second, two numbers each, those from parents of three
// from the second on below the third, one number each; from EDGES on the edges, then the codes and the classes. specs/Edges.antt says what
// an edge holds.
const FIRST: usize = 8064;

const MID: usize = 10080;

const END: usize = 12096;

const EDGES: usize = 14112;

const CODES_AT: usize = 22176;

const CLASSES_AT: usize = 22410;

// Kinds below it have no operands; kinds from it on have three.
const PAIRS: usize = 3;

const THREES: usize = 7;

// The code of one clause that is all false, as that of TRUE's negation is at any values.
const ALL_FALSE: u16 = 8194;

// What the clauses of a literal come to, by the values of its operands (0 undecided, 1 true, 2 false): a row of nine for each kind and sign
// with at most two operands, in it 3 a + b; three rows of nine for each of kinds 7 and 8 and sign, one for each value of a, in it 3 b + c.
// `code_of` in specs/Codes.antt says what a code is, and computes these.
const CODES: [u16; 234] = [
    // there is no kind 0
    0, 0, 0, 0, 0, 0, 0, 0, 0, 0, 0, 0, 0, 0, 0, 0, 0, 0,
    // TRUE
    0, 0, 0, 0, 0, 0, 0, 0, 0, ALL_FALSE, ALL_FALSE, ALL_FALSE, ALL_FALSE, ALL_FALSE, ALL_FALSE,
    ALL_FALSE, ALL_FALSE, ALL_FALSE,
    // ATOM
    0, 0, 0, 0, 0, 0, 0, 0, 0, 0, 0, 0, 0, 0, 0, 0, 0, 0,
    // AND
    16389, 16389, 16647, 18509, 16384, 16642, 18511, 16386, 16386, 9220, 9253, 8192, 11365, 8194,
    8192, 8192, 8192, 8192,
    // OR
    8196, 8192, 8197, 8192, 8192, 8192, 10309, 8192, 8194, 17445, 17703, 17445, 19567, 16386,
    16386, 19565, 16642, 16384,
    // IMP
    9220, 8192, 9253, 10309, 8192, 8194, 8192, 8192, 8192, 16389, 16647, 16389, 19565, 16642,
    16384, 19567, 16386, 16386,
    // IFF
    17412, 16397, 17445, 18501, 16384, 16386, 19565, 16642, 16384, 16388, 17453, 16389, 19565,
    16642, 16384, 18501, 16384, 16386,
    // AND of three, then its negation, each by the value of a
    24581, 24581, 25095, 24581, 24581, 25095, 24839, 24839, 24839, 26701, 26701, 27215, 28821,
    24576, 25090, 29079, 24834, 24834, 26703, 26703, 26703, 28823, 24578, 24578, 28823, 24578,
    24578, 9220, 9220, 8192, 9220, 9253, 8192, 8192, 8192, 8192, 11268, 11365, 8192, 13477, 8194,
    8192, 8192, 8192, 8192, 8192, 8192, 8192, 8192, 8192, 8192, 8192, 8192, 8192,
    // OR of three, then its negation
    8196, 8192, 8196, 8192, 8192, 8192, 8196, 8192, 8197, 8192, 8192, 8192, 8192, 8192, 8192, 8192,
    8192, 8192, 10244, 8192, 10309, 8192, 8192, 8192, 12421, 8192, 8194, 25637, 26151, 25637,
    25895, 25895, 25895, 25637, 26151, 25637, 27759, 27759, 27759, 29879, 24578, 24578, 29879,
    24578, 24578, 27757, 28271, 27757, 30135, 24834, 24834, 29877, 25090, 24576,
];

// What a node of two operands comes to by an edge, where a literal of the edge's node has become true: nine for each type + the literal's
// sign, in them 3 v + o, where v is the value of the parent (0: no literal of it is held) and o that of its other operand. `class_at` in
// specs/Codes.antt says what a class is, and computes these.
const CLASSES: [u16; 216] = [
    // AND, by an edge of its first operand's node
    0, 0, 0, 4098, 0, 1, 3, 1, 0, 0, 0, 0, 1, 1, 1, 0, 0, 0, 0, 0, 0, 4098, 0, 1, 3, 1, 0,
    // OR, by an edge of its first operand's node
    0, 0, 0, 0, 0, 0, 1, 1, 1, 0, 0, 0, 2, 0, 1, 4099, 1, 0, 0, 0, 0, 0, 0, 0, 1, 1, 1,
    // IMP, by an edge of its first operand's node
    0, 0, 0, 2, 0, 1, 4099, 1, 0, 0, 0, 0, 0, 0, 0, 1, 1, 1, 0, 0, 0, 2, 0, 1, 4099, 1, 0,
    // IFF, by an edge of its first operand's node
    0, 0, 0, 2, 0, 1, 4099, 1, 0, 0, 0, 0, 4099, 1, 0, 2, 0, 1, 0, 0, 0, 2, 0, 1, 4099, 1, 0,
    // AND, by an edge of its second operand's node
    0, 0, 0, 2, 0, 1, 3, 1, 0, 0, 0, 0, 1, 1, 1, 0, 0, 0, 0, 0, 0, 2, 0, 1, 3, 1, 0,
    // OR, by an edge of its second operand's node
    0, 0, 0, 0, 0, 0, 1, 1, 1, 0, 0, 0, 2, 0, 1, 3, 1, 0, 0, 0, 0, 0, 0, 0, 1, 1, 1,
    // IMP, by an edge of its second operand's node
    0, 0, 0, 0, 0, 0, 1, 1, 1, 0, 0, 0, 3, 1, 0, 2, 0, 1, 0, 0, 0, 0, 0, 0, 1, 1, 1,
    // IFF, by an edge of its second operand's node
    0, 0, 0, 4098, 0, 1, 4099, 1, 0, 0, 0, 0, 3, 1, 0, 2, 0, 1, 0, 0, 0, 4098, 0, 1, 4099, 1, 0,
];

// The place of the node of l, one of those from MID or END on, is raised by the numbers of an edge. What it was.
fn raise(x: &mut [u16], places: usize, l: u16, by: u16) -> u16
    requires { (length x.old ≡ index_size) × (places + l / 2 < index_size) × (get_or x.old (places + l / 2) 0 + by ≤ most_edges) }
    ensures { (x.new ≡ raised x.old (places + l / 2) by) × (result ≡ get_or x.old (places + l / 2) 0) }
{
    let m = places + (l / 2) as usize;
    let k = x[m];
    x[m] = k + by;
    k
}

// The edges from node p are counted at the nodes of its operands.
fn count_node(x: &mut [u16], n: usize, p: usize)
    requires { (p < n) × Room n (index_node x.old p) x.old }
    ensures { x.new ≡ count_node x.old (index_node x.old p) }
{
    let s = 4 * p;
    let kind = x[s] as usize + 1;
    if kind < PAIRS {
        return;
    }
    let a = x[s + 1];
    let b = x[s + 2];
    if kind < THREES {
        raise(x, MID, a, 2);
        raise(x, MID, b, 2);
        return;
    }
    let c = x[s + 3];
    raise(x, END, a, 1);
    raise(x, END, b, 1);
    raise(x, END, c, 1);
}

// All edges are counted.
fn count(x: &mut [u16], n: usize)
    requires x_len { (length x.old ≡ index_size) × (n ≤ most_nodes) × Early (index_node x.old) n }
    requires blank { Blank n x.old }
    ensures { Counting n x.new × Same first_at x.old x.new }
{
    for p in 0..n {
        count_node(x, n, p);
    }
}

// Each node's edges get their place, behind those of the nodes before it; until they are put, its first number is the next node.
fn place(x: &mut [u16], n: usize)
    requires { (n ≤ most_nodes) × Counting n x.old }
    ensures { Placing n 0 x.new × Same first_at x.old x.new }
{
    let mut start = 0u16;
    for m in 0..n {
        let mid = start + x[MID + m];
        let end = mid + x[END + m];
        x[FIRST + m] = (m + 1) as u16;
        x[MID + m] = start;
        x[END + m] = mid;
        start = end;
    }
}

// An edge from p, which has two operands, is put to the others of the node of mine.
fn put_pair(x: &mut [u16], p: usize, mine: u16, other: u16, y: u16)
    requires { (length x.old ≡ index_size) × (p < most_nodes) × (mine / 2 < most_nodes) × (y ≤ 21) × (mid_of x.old (mine / 2) + 2 ≤ most_edges) }
    ensures { x.new ≡ put_pair x.old p mine other y }
{
    let k = raise(x, MID, mine, 2) as usize;
    x[EDGES + k] = p as u16 + 2048 * (y + mine % 2);
    x[EDGES + (k + 1)] = other;
}

// An edge from p, which has three.
fn put_three(x: &mut [u16], p: usize, mine: u16)
    requires { (length x.old ≡ index_size) × (p < most_nodes) × (mine / 2 < most_nodes) × (end_of x.old (mine / 2) + 1 ≤ most_edges) }
    ensures { x.new ≡ put_three x.old p mine }
{
    let k = raise(x, END, mine, 1) as usize;
    x[EDGES + k] = p as u16;
}

// The edges from node p are put.
fn put_node(x: &mut [u16], n: usize, p: usize)
    requires { (p < n) × Room n (index_node x.old p) x.old }
    ensures { x.new ≡ put_node x.old p (index_node x.old p) }
{
    let s = 4 * p;
    let kind = x[s] as usize + 1;
    if kind < PAIRS {
        return;
    }
    let a = x[s + 1];
    let b = x[s + 2];
    if kind < THREES {
        put_pair(x, p, a, b, 3 * (kind as u16 - 3));
        put_pair(x, p, b, a, 3 * (kind as u16 + 1));
        return;
    }
    let c = x[s + 3];
    put_three(x, p, a);
    put_three(x, p, b);
    put_three(x, p, c);
}

// All edges are put, from head on along the chain: the first number of each node in it is the next. Its parents come behind it, so none of
// its own edges is put yet, and its second number is still where they start.
fn fill(x: &mut [u16], head: usize, n: usize)
    requires { (n ≤ most_nodes) × Placing n head x.old }
    ensures { Linked n x.old x.new }
{
    let mut p = head;
    while p < n {
        let next = x[FIRST + p] as usize;
        x[FIRST + p] = x[MID + p];
        put_node(x, n, p);
        p = next;
    }
}

// The edges are counted, get their places and are put.
fn link(x: &mut [u16], n: usize)
    requires x_len { (length x.old ≡ index_size) × (n ≤ most_nodes) × Early (index_node x.old) n }
    requires blank { Blank n x.old }
    ensures { Linked n x.old x.new }
{
    count(x, n);
    place(x, n);
    fill(x, 0, n);
}

// Node m is stored, from its record at a place of the table.
fn store_node(t: &[u8], x: &mut [u16], m: usize, at: usize)
    requires { (m < most_nodes) × (at ≡ place_of m) × Recorded t.now m × (length x.old ≡ index_size) }
    ensures { x.new ≡ stored x.old m (node_at t.now m) }
{
    let end = at + 8;
    let node = record::fields(&t[at..end]);
    let s = 4 * m;
    x[s] = node.kind as u16 - 1;
    x[s + 1] = node.a;
    x[s + 2] = node.b;
    x[s + 3] = node.c;
}

// Node m is read from its record, which is at a place of the table, with no edges yet.
fn load_node(t: &[u8], x: &mut [u16], m: usize, at: usize)
    requires m_lt_most_nodes { (m < most_nodes) × (at ≡ place_of m) × Recorded t.now m }
    requires loaded { Loaded t.now m x.old }
    ensures { Loaded t.now (m + 1) x.new }
{
    store_node(t, x, m, at);
    x[MID + m] = 0;
    x[END + m] = 0;
}

// The nodes from base up to end are read, all of one block.
fn load_block(t: &[u8], x: &mut [u16], base: usize, end: usize)
    requires base_value { (base % 63 ≡ 0) × (base ≤ end) × (end ≤ base + 63) × (end ≤ most_nodes) }
    requires records { Records t.now end × Loaded t.now base x.old }
    ensures { Loaded t.now end x.new }
{
    let at = record::place(base);
    for m in base..end {
        load_node(t, x, m, at + 8 * (m - base));
    }
}

// The nodes are read from the table, block by block.
fn load(t: &[u8], nodes: usize, x: &mut [u16])
    requires nodes_le_most_nodes { (nodes ≤ most_nodes) × Records t.now nodes }
    requires x_len { length x.old ≡ index_size }
    ensures { Loaded t.now nodes x.new }
{
    for base in (0..nodes).step_by(63) {
        load_block(t, x, base, nodes.min(base + 63));
    }
}

// The codes are copied behind the edges, and the classes behind them. Out of line, since both builds do so.
#[inline(never)]
fn copy_tables(x: &mut [u16])
    requires { length x.old ≡ index_size }
    ensures { (y : List ℕ) × Copied codes_size x.old y × Classified classes_size y x.new }
{
    x[CODES_AT..CLASSES_AT].copy_from_slice(&CODES);
    x[CLASSES_AT..].copy_from_slice(&CLASSES);
}

// The index of the nodes of a table. Nothing is assumed of what x held: each number that belongs to a node is stored.
pub fn build(t: &[u8], nodes: usize, x: &mut [u16])
    requires nodes_le_most_nodes { (nodes ≤ most_nodes) × Records t.now nodes × Early (node_at t.now) nodes }
    requires x_len { length x.old ≡ index_size }
    ensures { Built t.now nodes x.new }
{
    load(t, nodes, x);
    link(x, nodes);
    copy_tables(x);
}

// The node of a literal is marked, and its block flagged: until the codes are copied, their places have the flags.
fn mark(x: &mut [u16], l: u16)
    requires { (length x.old ≡ index_size) × (l / 2 < most_nodes) }
    ensures { x.new ≡ marked x.old l }
{
    x[4 * ((l / 2) as usize)] = 1;
    x[CODES_AT + (l / 126) as usize] = 1;
}

// So are the nodes of some literals.
fn mark_all(x: &mut [u16], ls: &[u16])
    requires { (length x.old ≡ index_size) × Below most_nodes ls.now }
    ensures { x.new ≡ mark_all x.old ls.now }
{
    for &l in ls {
        mark(x, l);
    }
}

// The nodes of the operands of node p are marked, and its edges are counted there.
fn meet(x: &mut [u16], p: usize)
    requires x_len { (length x.old ≡ index_size) × (p < most_nodes) × All (λ l. l / 2 < most_nodes) (operands (index_node x.old p)) }
    requires room { Room p (index_node x.old p) (mark_all x.old (operands (index_node x.old p))) }
    ensures { x.new ≡ count_node (mark_all x.old (operands (index_node x.old p))) (index_node x.old p) }
{
    let s = 4 * p;
    let kind = x[s] as usize + 1;
    if kind < PAIRS {
        return;
    }
    let a = x[s + 1];
    let b = x[s + 2];
    let c = x[s + 3];
    mark(x, a);
    mark(x, b);
    if kind < THREES {
        raise(x, MID, a, 2);
        raise(x, MID, b, 2);
        return;
    }
    mark(x, c);
    raise(x, END, a, 1);
    raise(x, END, b, 1);
    raise(x, END, c, 1);
}

// How far the way down has come: where the next node's edges start, and the node met last, or how many there are where none was.
#[derive(Clone, Copy)]
struct Descent {
    start: u16,
    last: usize,
}

// The edges of node p, which are all counted, get their places; until they are put, its first number is the node met before it.
fn place_node(x: &mut [u16], p: usize, d: Descent) -> Descent
    requires { (length x.old ≡ index_size) × (p < most_nodes) × (d.start + (mid_of x.old p + end_of x.old p) ≤ most_edges) × (d.last ≤ most_nodes) }
    ensures { (x.new ≡ placed_at x.old p d) × (result ≡ met_at x.old d p) }
{
    let pairs = x[MID + p];
    let threes = x[END + p];
    x[FIRST + p] = d.last as u16;
    x[MID + p] = d.start;
    x[END + p] = d.start + pairs;
    let start = d.start + (pairs + threes);
    Descent { start, last: p }
}

// Node p, which is marked, is loaded: it comes behind all its parents, so its edges get their places; it marks its operands' nodes, and its
// own edges are counted there.
fn pass(t: &[u8], x: &mut [u16], p: usize, at: usize, d: Descent) -> Descent
    requires p_lt_most_nodes { (p < most_nodes) × (at ≡ place_of p) × Recorded t.now p × (length x.old ≡ index_size) }
    requires all { All (λ l. l / 2 < p) (operands (node_at t.now p)) }
    requires fits { Fits (p + 1) d x.old × Wanted x.old p }
    ensures { (x.new ≡ passed t.now x.old d p) × (result ≡ descended x.old d p) }
{
    let r = place_node(x, p, d);
    store_node(t, x, p, at);
    meet(x, p);
    r
}

// The highest of the nodes from base on below end that is marked.
fn pass_over(x: &[u16], base: usize, end: usize) -> Option<usize>
    requires { (base ≤ end) × (end ≤ most_nodes) × (length x.now ≡ index_size) }
    ensures { Over base end x.now result }
{
    for p in (base..end).rev() {
        if x[4 * p] != 0 {
            return Some(p);
        }
    }
    None
}

// The nodes below end, down to base, all of one block.
fn pass_block(t: &[u8], x: &mut [u16], base: usize, end: usize, from: Descent) -> Descent
    requires base_value { (base % 63 ≡ 0) × (base ≤ end) × (end ≤ base + 63) × (end ≤ most_nodes) }
    requires records { Records t.now end × Early (node_at t.now) end × (length x.old ≡ index_size) }
    requires fits { Fits end from x.old × Flagged end x.old }
    ensures { (sunk t.now x.new result base ≡ sunk t.now x.old from end) × (length x.new ≡ index_size) × Fits base result x.new × Flagged base x.new }
{
    let at = record::place(base);
    let mut d = from;
    let mut high = end;
    while let Some(p) = pass_over(x, base, high) {
        d = pass(t, x, p, at + 8 * (p - base), d);
        high = p;
    }
    d
}

// The first n nodes, from the highest down, block by block; a block that is not flagged has no marked node. The node met last, or n.
fn sink(t: &[u8], n: usize, x: &mut [u16]) -> usize
    requires n_le_most_nodes { (n ≤ most_nodes) × Records t.now n × Early (node_at t.now) n }
    requires x_len { (length x.old ≡ index_size) × Fits n (top n) x.old × Flagged n x.old }
    ensures { (x.new ≡ (sunk t.now x.old (top n) n).0) × (result ≡ (sunk t.now x.old (top n) n).1.last) }
{
    let mut d = Descent { start: 0, last: n };
    for j in (0..n.div_ceil(63)).rev() {
        if x[CODES_AT + j] != 0 {
            let base = 63 * j;
            d = pass_block(t, x, base, n.min(base + 63), d);
        }
    }
    d.last
}

// The index of those of the first n nodes of a table that are below some literals of them: all that a search of these comes to. In the
// place of each other zeros stay, a TRUE. Before its edges x is zeros.
pub fn build_below(t: &[u8], ls: &[u16], n: usize, x: &mut [u16])
    requires n_le_most_nodes { (n ≤ most_nodes) × Records t.now n × Early (node_at t.now) n }
    requires below { Below n ls.now }
    requires x_len { (length x.old ≡ index_size) × Unfilled x.old }
    ensures { Pruned t.now ls.now n x.new }
{
    mark_all(x, ls);
    let head = sink(t, n, x);
    fill(x, head, n);
    copy_tables(x);
}
