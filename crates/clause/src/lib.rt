// The clauses of a literal by TEMPLATES, and what they come to: its code, under the values of its node's operands, and its class, by an edge.
#![tactic(auto)]

ghost use Rattle.std.specs.Prelude.{◌≡◌, [], ◌+◌, ◌-◌, ◌*◌, ◌/◌, ◌≤◌, ◌<◌, length, get_or};
ghost use Rattle.calculus.specs.Expansion.{neg, chosen, expand};
ghost use Rattle.calculus.specs.Order.{holds, value_of};
ghost use Rattle.calculus.specs.Model.{Good};
ghost use Rattle.scope.specs.Table.{operands};
ghost use Rattle.trail.specs.Trail.{value_code};
ghost use Rattle.index.specs.Index.{most_nodes, most_literals, index_node};
ghost use Rattle.index.specs.Edges.{PairAt, ThreeAt, parent_of, other_of, edge_at};
ghost use Rattle.index.specs.Indexed.{Indexed};
ghost use Rattle.clause.specs.Templates.{rows, cell};
ghost use Rattle.clause.specs.Literals.{literals};
ghost use Rattle.clause.specs.Coded.{tail, g_of, Valued, row_place, states_of, Coded};
ghost use Rattle.clause.specs.Classed.{kept_by, Classed};

// A clause: how many literals it has, 0 to 3, and which.
#[derive(Clone, Copy)]
pub struct Clause {
    pub len: u8,
    pub first: u16,
    pub second: u16,
    pub third: u16,
}

// The clause of no literal.
const EMPTY: Clause = Clause {
    len: 0,
    first: 0,
    second: 0,
    third: 0,
};

// The clauses of a literal, by kind and sign, row 2 * kind + sign: for each of three clauses three choices, 0 is a, 1 is not a, 2 is b,
// 3 is not b, 4 is c, 5 is not c, 6 where the clause has no more; a missing clause is 7 three times.
const TEMPLATES: [[u8; 9]; 18] = [
    // there is no kind 0
    [7, 7, 7, 7, 7, 7, 7, 7, 7],
    [7, 7, 7, 7, 7, 7, 7, 7, 7],
    // TRUE
    [7, 7, 7, 7, 7, 7, 7, 7, 7],
    [6, 6, 6, 7, 7, 7, 7, 7, 7],
    // ATOM
    [7, 7, 7, 7, 7, 7, 7, 7, 7],
    [7, 7, 7, 7, 7, 7, 7, 7, 7],
    // AND
    [0, 6, 6, 2, 6, 6, 7, 7, 7],
    [1, 3, 6, 7, 7, 7, 7, 7, 7],
    // OR
    [0, 2, 6, 7, 7, 7, 7, 7, 7],
    [1, 6, 6, 3, 6, 6, 7, 7, 7],
    // IMP
    [1, 2, 6, 7, 7, 7, 7, 7, 7],
    [0, 6, 6, 3, 6, 6, 7, 7, 7],
    // IFF
    [1, 2, 6, 0, 3, 6, 7, 7, 7],
    [0, 2, 6, 1, 3, 6, 7, 7, 7],
    // AND of three
    [0, 6, 6, 2, 6, 6, 4, 6, 6],
    [1, 3, 5, 7, 7, 7, 7, 7, 7],
    // OR of three
    [0, 2, 4, 7, 7, 7, 7, 7, 7],
    [1, 6, 6, 3, 6, 6, 5, 6, 6],
];

// A choice above this is of no operand.
const LAST_CHOICE: u8 = 5;

// Where the index has the edges, the classes and, from those of TRUE on, the codes (crate index), and the work area the trail and in it the
// values of the literals (crate state).
const EDGES: usize = 14112;

const CLASSES_AT: usize = 22410;

const TRUE_CODES_AT: usize = 22194;

// So many of these are codes of rows of at most two operands.
const PAIR_CODES: usize = 108;

const TRAIL: usize = 4;

const VALUES: usize = 6051;

// The negation of a literal.
pub fn negated(l: u16) -> u16
    requires { l < 2 * most_nodes }
    ensures { result ≡ neg l }
{
    l ^ 1
}

// TEMPLATES, to be lent: an index into a constant copies the constant.
pub fn templates() -> [[u8; 9]; 18]
    ensures { result ≡ rows }
{
    TEMPLATES
}

// Choice k of clause j in a row of TEMPLATES, which are lent.
fn template(templates: &[[u8; 9]; 18], row: usize, j: usize, k: usize) -> u8
    requires templates_value { templates.now ≡ rows }
    requires row_bound { (row < 18) × (j < 3) × (k < 3) }
    ensures { result ≡ cell row (3 * j + k) }
{
    templates[row][3 * j + k]
}

// The row of a literal of a node, from TRUE's on.
#[tactic(auto, using(crate::proofs::Rows::kind_few), unfolding(index::specs::Index::index_node))]
fn row_of(x: &[u16], n: usize, node: usize, sign: usize) -> usize
    requires indexed { Indexed x.now n }
    requires node_lt_n { (node < n) × (sign < 2) }
    ensures { (result ≡ 2 * ((index_node x.now node).kind - 1) + sign) × (result < 16) }
{
    2 * (x[4 * node] as usize) + sign
}

// The literal that a choice is, of a node's operands: an even choice is the operand, an odd one its negation.
#[tactic(auto, using(crate::proofs::Rows::six))]
pub fn choose(x: &[u16], n: usize, node: usize, c: usize) -> u16
    requires indexed { Indexed x.now n }
    requires node_lt_n { (node < n) × (c / 2 < length (operands (index_node x.now node))) }
    ensures { result ≡ chosen (index_node x.now node) c }
{
    let l = x[4 * node + (1 + c / 2)];
    l ^ ((c % 2) as u16)
}

// Clause j of literal l.
pub fn clause_of(templates: &[[u8; 9]; 18], x: &[u16], n: usize, l: u16, j: usize) -> Clause
    requires templates_value { templates.now ≡ rows }
    requires indexed { Indexed x.now n }
    requires l_bound { (l < 2 * n) × (j < length (expand (index_node x.now) l)) }
    ensures { literals result ≡ get_or (expand (index_node x.now) l) j [] }
{
    let node = (l / 2) as usize;
    // TEMPLATES has two rows before TRUE's
    let row = row_of(x, n, node, (l % 2) as usize) + 2;
    let a = template(templates, row, j, 0);
    if LAST_CHOICE < a {
        return EMPTY;
    }
    let first = choose(x, n, node, a as usize);
    let b = template(templates, row, j, 1);
    if LAST_CHOICE < b {
        return Clause {
            len: 1,
            first,
            ..EMPTY
        };
    }
    let second = choose(x, n, node, b as usize);
    let c = template(templates, row, j, 2);
    if LAST_CHOICE < c {
        return Clause {
            len: 2,
            first,
            second,
            ..EMPTY
        };
    }
    let third = choose(x, n, node, c as usize);
    Clause {
        len: 3,
        first,
        second,
        third,
    }
}

// The value of a literal: 0 undecided, 1 true, 2 false.
#[tactic(auto, using(crate::proofs::Codes::value_low))]
fn value(work: &[u16], l: u16) -> usize
    requires { (l < most_literals) × (32768 ≤ length work.now) × Valued (tail work.now) }
    ensures { (result ≡ value_code (value_of (g_of work.now) l)) × (result < 3) }
{
    work[TRAIL + (VALUES + l as usize)] as usize
}

// The place of a node's literal of a sign by the values of the first two operands: each row has nine.
#[tactic(auto, using(crate::proofs::Rows::cells_few), unfolding(index::specs::Index::index_node))]
fn row_place(x: &[u16], n: usize, work: &[u16], node: usize, sign: usize) -> usize
    requires indexed { Indexed x.now n }
    requires node_lt_n { (node < n) × (sign < 2) }
    requires in_bounds { (32768 ≤ length work.now) × Valued (tail work.now) }
    ensures { result ≡ row_place (index_node x.now node) sign (g_of work.now) }
{
    let a = value(work, x[4 * node + 1]);
    let b = value(work, x[4 * node + 2]);
    let row = row_of(x, n, node, sign);
    9 * row + (3 * a + b)
}

// What the clauses of the literal come to, where the node has three operands: a code of 27 by their values.
#[tactic(auto, using(crate::proofs::Codes::place_within))]
pub fn code_of_three(x: &[u16], n: usize, work: &[u16], node: usize, sign: usize) -> u16
    requires indexed { Indexed x.now n }
    requires node_lt_n { (node < n) × (sign < 2) }
    requires bound { 6 < (index_node x.now node).kind }
    requires in_bounds { (32768 ≤ length work.now) × Valued (tail work.now) × Good n (g_of work.now) }
    ensures { Coded (index_node x.now node) (states_of (index_node x.now) (g_of work.now) (2 * node + sign)) result }
{
    let i = row_place(x, n, work, node, sign);
    let c = value(work, x[4 * node + 3]);
    x[TRUE_CODES_AT + (3 * i + c - 2 * PAIR_CODES)]
}

// The same for any node: a code of nine by the values of two operands, or one of 27.
#[tactic(auto, using(crate::proofs::Codes::place_kind))]
pub fn code(x: &[u16], n: usize, work: &[u16], node: usize, sign: usize) -> u16
    requires indexed { Indexed x.now n }
    requires node_lt_n { (node < n) × (sign < 2) }
    requires in_bounds { (32768 ≤ length work.now) × Valued (tail work.now) × Good n (g_of work.now) }
    ensures { Coded (index_node x.now node) (states_of (index_node x.now) (g_of work.now) (2 * node + sign)) result }
{
    let i = row_place(x, n, work, node, sign);
    if i < PAIR_CODES {
        return x[TRUE_CODES_AT + i];
    }
    code_of_three(x, n, work, node, sign)
}

// ---- edges

// The parent of an edge from a node of two operands, at an offset.
#[tactic(auto, using(crate::proofs::Classes::pair_within, crate::proofs::Classes::parent_low))]
pub fn parent(x: &[u16], n: usize, node: usize, k: usize) -> usize
    requires indexed { Indexed x.now n }
    requires node_lt_n { (node < n) × PairAt x.now node k }
    ensures { (result ≡ parent_of x.now k) × (result < n) }
{
    (x[EDGES + k] % 2048) as usize
}

// The parent's other operand.
#[tactic(auto, using(crate::proofs::Classes::pair_within, crate::proofs::Classes::other_within))]
pub fn other(x: &[u16], n: usize, node: usize, k: usize) -> u16
    requires indexed { Indexed x.now n }
    requires node_lt_n { (node < n) × PairAt x.now node k }
    ensures { (result ≡ other_of x.now k) × (result < 2 * n) }
{
    x[EDGES + (k + 1)]
}

// The parent of an edge from a node of three operands.
#[tactic(auto, using(crate::proofs::Classes::three_within, crate::proofs::Classes::three_low))]
pub fn parent_of_three(x: &[u16], n: usize, node: usize, k: usize) -> usize
    requires indexed { Indexed x.now n }
    requires node_lt_n { (node < n) × ThreeAt x.now node k }
    ensures { (result ≡ edge_at x.now k) × (result < n) × (6 < (index_node x.now result).kind) }
{
    x[EDGES + k] as usize
}

// The class of an edge of a node, whose literal of a sign is true: what the clauses of the parent's held literal come to.
#[tactic(auto, using(crate::proofs::Classes::pair_within, crate::proofs::Classes::parent_low, crate::proofs::Classes::other_within, crate::proofs::Classes::row_low))]
pub fn class(x: &[u16], n: usize, work: &[u16], node: usize, k: usize, sign: usize) -> u16
    requires indexed { Indexed x.now n }
    requires node_lt_n { (node < n) × PairAt x.now node k × (sign < 2) }
    requires in_bounds { (32768 ≤ length work.now) × Valued (tail work.now) × Good n (g_of work.now) }
    requires sign_value { value_of (g_of work.now) (2 * node + sign) ≡ holds }
    ensures { Classed (index_node x.now) n (g_of work.now) (parent_of x.now k) (other_of x.now k) result }
{
    let e = x[EDGES + k];
    let row = (e / 2048) as usize + sign;
    let v = value(work, 2 * (e % 2048));
    let o = value(work, x[EDGES + (k + 1)]);
    x[CLASSES_AT + (9 * row + (3 * v + o))]
}

// What a class that is not 0 or 1 keeps of the first unit: the literal that it forces, and 4,096 times which clause it is.
pub fn kept(other: u16, class: u16) -> u16
    requires { (other < most_literals) × (kept_by other class < 65536) }
    ensures { result ≡ kept_by other class }
{
    if class % 2 == 0 {
        return other + class / 4096 * 4096;
    }
    negated(other) + class / 4096 * 4096
}
