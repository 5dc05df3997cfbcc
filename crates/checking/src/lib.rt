// Check: whether a derivation, of any author, shows that no setting makes all goals true. Nothing is written to the work area before
// the table, the goals, the area and the derivation's form have passed.
#![tactic(auto)]

ghost use Rattle.std.specs.Prelude.{◌≡◌, ℕ, ◌+◌, ◌<◌, ◌≤◌, length, get_or};
ghost use Rattle.index.specs.Index.{most_nodes, index_node};
ghost use Rattle.index.specs.Built.{Recorded, Records};
ghost use Rattle.repeats.specs.Chains.{chain_cells};
ghost use Rattle.calculus.specs.Decide.{list_row};
ghost use Rattle.asking.specs.Within.{Admits};
ghost use Rattle.area.specs.Area.{area_size};
ghost use Rattle.branch.specs.Holds.{node_cells, Indexed, Goals};
ghost use Rattle.steps.specs.Opened.{place_of};
ghost use Rattle.rules.specs.Steps.{version_of, step_at};
ghost use Rattle.rules.specs.Rules.{accepts};
ghost use Rattle.scope.specs.Table.{list_from};
ghost use Rattle.calculus.specs.Expansion.{expand};
ghost use Rattle.checking.specs.Checks.{checked_of, Replayed, Checks};
ghost use Rattle.checking.specs.Nodes.{Placed, Loaded};

use scope::Refusal;

// The numbers that the chains of the reading take, where the nodes will stand.
const CHAINS: usize = 6112;

// Row 64 of the goals that the derivation names, then its other steps in turn over an index, rows 45 to 47 and 64.
fn judged(
    x: &[u16],
    n: usize,
    goals: &[u16],
    work: &mut [u16],
    d: &[u8],
    count: usize,
) -> Result<(), Refusal>
    requires indexed { Indexed x.now n }
    requires goals { Goals n goals.now }
    requires area_size_in_bounds { area_size ≤ length work.old }
    requires by_index { (k : ℕ) → k < count → place_of k + 4 ≤ length d.now }
    ensures { checked_of result ≡ accepts (version_of d.now) (expand (index_node x.now)) goals.now n (list_from (step_at d.now) 0 count) }
{
    let version = steps::version_of(d);
    let from = naming::head(version, goals, d, count)?;
    replay::check_run(version, x, n, goals, work, d, from, count)
}

// Rows 40 to 44 and 65, then the steps.
fn replayed(x: &[u16], n: usize, goals: &[u16], work: &mut [u16], d: &[u8]) -> Result<(), Refusal>
    requires indexed { Indexed x.now n }
    requires goals { Goals n goals.now }
    requires area_size_in_bounds { area_size ≤ length work.old }
    ensures { Replayed (index_node x.now) n goals.now work.old d.now work.new result }
{
    let count = steps::count(d)?;
    judged(x, n, goals, work, d, count)
}

// Node m is read from its record, which is at a place of the table.
fn load_node(t: &[u8], x: &mut [u16], m: usize, at: usize)
    requires m_lt_most_nodes { (m < most_nodes) × Placed m at × Recorded t.now m }
    requires loaded { Loaded t.now m x.old }
    ensures { Loaded t.now (m + 1) x.new }
{
    let end = at + 8;
    let node = record::fields(&t[at..end]);
    let s = 4 * m;
    x[s] = node.kind as u16 - 1;
    x[s + 1] = node.a;
    x[s + 2] = node.b;
    x[s + 3] = node.c;
}

// Where the record after node m's starts: behind the last one of a block come four bytes, and four of the next block.
fn place_after(m: usize, at: usize) -> usize
    requires { (m < most_nodes) × Placed m at }
    ensures { Placed (m + 1) result }
{
    let next = at + 8;
    if next % 512 == 508 {
        return next + 8;
    }
    next
}

// The nodes are read from the table: the rules need no edges between them.
fn load(t: &[u8], nodes: usize, x: &mut [u16])
    requires { (nodes ≤ most_nodes) × Records t.now nodes × (length x.old ≡ node_cells) }
    ensures { Loaded t.now nodes x.new }
{
    let mut at = 4;
    for m in 0..nodes {
        load_node(t, x, m, at);
        at = place_after(m, at);
    }
}

// The node count of a table to which the goals may be put, or the first row's refusal. The chains of the reading stand where the nodes
// will, and there x is zeros.
fn admit(t: &[u8], goals: &[u16], area: usize, x: &mut [u16]) -> Result<usize, Refusal>
    requires { (length x.old ≡ node_cells) × ((i : ℕ) → i < chain_cells → get_or x.old i 0 ≡ 0) }
    ensures { Admits (list_row goals.now) t.now goals.now 0 0 area result }
{
    asking::admit(
        asking::list_row(goals),
        t,
        goals,
        0,
        0,
        area,
        &mut x[0..CHAINS],
    )
}

// Whether the derivation is accepted: then no setting makes all goals true.
pub fn check(t: &[u8], goals: &[u16], work: &mut [u16], d: &[u8]) -> Result<(), Refusal>
    ensures { Checks t.now goals.now work.old d.now work.new result }
{
    let mut x = [0u16; 8064];
    let n = admit(t, goals, work.len(), &mut x)?;
    load(t, n, &mut x);
    replayed(&x, n, goals, work, d)
}
