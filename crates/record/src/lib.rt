// Records: where they stand in a table, and reading one; and a quick test of one that is read as two numbers of 32 bits.
#![tactic(auto)]

ghost use Rattle.std.specs.Prelude.{◌≡◌, ◌%◌, ◌<◌, length, true};
ghost use Rattle.scope.specs.Table.{node_of, form_ok, range_ok, order_ok, read_record};
ghost use Rattle.record.specs.Place.{place_of};
ghost use Rattle.record.specs.Halves.{Passes};
ghost use Rattle.record.specs.Read.{read_of};

use scope::{Node, Refusal};

// The kind is known, and each must-be-zero field is 0.
fn form_ok(x: Node, one: u8) -> bool
    ensures { result ≡ form_ok x one }
{
    if one != 0 {
        return false;
    }
    let kind = x.kind;
    if 6 < kind {
        return kind < 9;
    }
    if x.c != 0 {
        return false;
    }
    if 2 < kind {
        return true;
    }
    if x.b != 0 {
        return false;
    }
    if kind == 2 {
        return true;
    }
    if x.a != 0 {
        return false;
    }
    kind == 1
}

// The point is below 1,024, or the operands are literals of nodes before node n.
fn range_ok(x: Node, n: usize) -> bool
    ensures { result ≡ range_ok x n }
{
    if x.kind < 2 {
        return true;
    }
    if x.kind == 2 {
        return x.a < 1024;
    }
    if n <= (x.a / 2) as usize {
        return false;
    }
    if n <= (x.b / 2) as usize {
        return false;
    }
    if x.kind < 7 {
        return true;
    }
    ((x.c / 2) as usize) < n
}

// The operands are of different nodes, which rise but in an implication.
fn order_ok(x: Node) -> bool
    ensures { result ≡ order_ok x }
{
    if x.kind < 3 {
        return true;
    }
    if x.kind == 5 {
        return x.a / 2 != x.b / 2;
    }
    if x.kind < 7 {
        return x.a / 2 < x.b / 2;
    }
    if x.b / 2 <= x.a / 2 {
        return false;
    }
    x.b / 2 < x.c / 2
}

// Kinds 1 and 2.
fn leaf_ok(low: u32, high: u32, n: usize) -> bool
    requires { low % 65536 < 3 }
    ensures { result ≡ true → Passes low high n }
{
    if high != 0 {
        return false;
    }
    if low == 1 {
        return true;
    }
    if low % 65536 != 2 {
        return false;
    }
    low < 67108864
}

// Kinds 3 to 6, the usual order first. Half of b and c together is below n only where c is 0.
fn pair_ok(low: u32, high: u32, n: usize) -> bool
    requires { (2 < low % 65536) × (low % 65536 < 7) × (n < 32768) }
    ensures { result ≡ true → Passes low high n }
{
    let a = low / 131072;
    let b = high / 2;
    if a < b {
        return (b as usize) < n;
    }
    if low % 65536 != 5 {
        return false;
    }
    if a == b {
        return false;
    }
    (a as usize) < n
}

// Kinds 7 and 8.
fn three_ok(low: u32, high: u32, n: usize) -> bool
    requires { (6 < low % 65536) × (low % 65536 < 9) }
    ensures { result ≡ true → Passes low high n }
{
    let b = high % 65536 / 2;
    let c = high / 131072;
    if b <= low / 131072 {
        return false;
    }
    if c <= b {
        return false;
    }
    (c as usize) < n
}

// Whether a record, as two numbers, passes as node n: yes is certain, and where it says no, the tests in order say which row. The kinds with
// operands are told first.
pub fn passes(low: u32, high: u32, n: usize) -> bool
    requires { n < 32768 }
    ensures { result ≡ true → Passes low high n }
{
    let kind = low % 65536;
    if 2 < kind {
        if kind < 7 {
            return pair_ok(low, high, n);
        }
        if kind < 9 {
            return three_ok(low, high, n);
        }
        return false;
    }
    leaf_ok(low, high, n)
}

// Where the record of node n starts.
pub fn place(n: usize) -> usize
    requires { n < 65536 }
    ensures { result ≡ place_of n }
{
    512 * (n / 63) + (4 + 8 * (n % 63))
}

// The fields of a record.
pub fn fields(r: &[u8]) -> Node
    requires { length r.now ≡ 8 }
    ensures { result ≡ node_of r.now }
{
    let a = words::word(r, 2);
    let b = words::word(r, 4);
    let c = words::word(r, 6);
    Node {
        kind: r[0],
        a,
        b,
        c,
    }
}

// The record of node n: its node or its refusal.
pub fn read_record(r: &[u8], n: usize) -> Result<Node, Refusal>
    requires { length r.now ≡ 8 }
    ensures { read_of result ≡ read_record r.now n }
{
    let x = fields(r);
    if !form_ok(x, r[1]) {
        return Err(Refusal {
            number: 14,
            place: n,
        });
    }
    if !range_ok(x, n) {
        return Err(Refusal {
            number: 15,
            place: n,
        });
    }
    if !order_ok(x) {
        return Err(Refusal {
            number: 16,
            place: n,
        });
    }
    Ok(x)
}
