// What the calls that search ask before: rows 10 to 17, a row on the list (62 for goals), 20, 21 and 23 in one place; and the index of the
// table's nodes, which they work on, or of those below the goals.
#![tactic(auto)]

ghost use Rattle.std.specs.Prelude.{◌≡◌, ◌≤◌, ◌&&◌, leb, ltb, length};
ghost use Rattle.scope.specs.Outcome.{verdict_of};
ghost use Rattle.calculus.specs.Model.{most_goals};
ghost use Rattle.calculus.specs.Decide.{list_row, goals_test, lent_test, rows_test};
ghost use Rattle.index.specs.Index.{index_size, most_nodes};
ghost use Rattle.index.specs.Marks.{Unfilled};
ghost use Rattle.repeats.specs.Chains.{Unlinked};
ghost use Rattle.asking.specs.Asks.{Zeros, Asks};
ghost use Rattle.asking.specs.Within.{Admits, Farther, Reach, Within};

use scope::Refusal;

// Where the edges of an index stand, and how far the chains go that stand there before.
const EDGES: usize = 14112;

const CHAINS_END: usize = 20224;

fn wide(l: u16) -> usize
    ensures { result ≡ l }
{
    l as usize
}

// Whether a list of so many goals passes row 62.
fn list_size(count: usize) -> bool
    ensures { result ≡ (ltb 0 count && leb count most_goals) }
{
    0 < count && count <= 64
}

// Row 62.
pub fn list_row(goals: &[u16]) -> Result<(), Refusal>
    ensures { verdict_of result ≡ list_row goals.now }
{
    if list_size(goals.len()) {
        return Ok(());
    }
    Err(Refusal {
        number: 62,
        place: 0,
    })
}

// Row 20 of each literal in turn.
fn goal_rows(nodes: usize, goals: &[u16]) -> Result<(), Refusal>
    requires { nodes ≤ most_nodes }
    ensures { verdict_of result ≡ goals_test nodes goals.now }
{
    for (i, goal) in goals.iter().enumerate() {
        if 2 * nodes <= wide(*goal) {
            return Err(Refusal {
                number: 20,
                place: i,
            });
        }
    }
    Ok(())
}

// Rows 21 and 23.
fn lent_rows(needed: usize, points: usize, area: usize) -> Result<(), Refusal>
    ensures { verdict_of result ≡ lent_test needed points area }
{
    if points < needed {
        return Err(Refusal {
            number: 21,
            place: 0,
        });
    }
    if area < 32768 {
        return Err(Refusal {
            number: 23,
            place: 0,
        });
    }
    Ok(())
}

// The row on the list, then rows 20, 21 and 23.
fn rows(
    listed: Result<(), Refusal>,
    nodes: usize,
    goals: &[u16],
    needed: usize,
    points: usize,
    area: usize,
) -> Result<(), Refusal>
    requires { nodes ≤ most_nodes }
    ensures { verdict_of result ≡ rows_test (verdict_of listed) nodes goals.now needed points area }
{
    listed?;
    goal_rows(nodes, goals)?;
    lent_rows(needed, points, area)
}

// The node count of a table to which the literals may be put, or the first row's refusal. `listed` is what the call's own row on the list
// says. The chains that the reading goes by are lent, with no record in them.
pub fn admit(
    listed: Result<(), Refusal>,
    t: &[u8],
    goals: &[u16],
    needed: usize,
    points: usize,
    area: usize,
    chains: &mut [u16],
) -> Result<usize, Refusal>
    requires { Unlinked chains.old }
    ensures { Admits (verdict_of listed) t.now goals.now needed points area result }
{
    let nodes = table::count_by(t, chains)?;
    rows(listed, nodes, goals, needed, points, area)?;
    Ok(nodes)
}

// The same, with the chains where the edges of an index will stand; before those it stays zeros.
fn admit_over(
    listed: Result<(), Refusal>,
    t: &[u8],
    goals: &[u16],
    needed: usize,
    points: usize,
    area: usize,
    x: &mut [u16],
) -> Result<usize, Refusal>
    requires { Zeros x.old }
    ensures admits { Admits (verdict_of listed) t.now goals.now needed points area result }
    ensures x_len { (length x.new ≡ index_size) × Unfilled x.new }
{
    admit(
        listed,
        t,
        goals,
        needed,
        points,
        area,
        &mut x[EDGES..CHAINS_END],
    )
}

// The same, and the index of the table's nodes. x is zeros.
pub fn ask_by(
    listed: Result<(), Refusal>,
    t: &[u8],
    goals: &[u16],
    needed: usize,
    points: usize,
    area: usize,
    x: &mut [u16],
) -> Result<usize, Refusal>
    requires { Zeros x.old }
    ensures { Asks (verdict_of listed) t.now goals.now needed points area x.new result }
{
    let nodes = admit_over(listed, t, goals, needed, points, area, x)?;
    index::build(t, nodes, x);
    Ok(nodes)
}

// The same of a list of goals, whose row is 62.
pub fn ask(
    t: &[u8],
    goals: &[u16],
    needed: usize,
    points: usize,
    area: usize,
    x: &mut [u16],
) -> Result<usize, Refusal>
    requires { Zeros x.old }
    ensures { Asks (list_row goals.now) t.now goals.now needed points area x.new result }
{
    ask_by(list_row(goals), t, goals, needed, points, area, x)
}

// How many nodes there are up to the literal's, or `top` where that is more.
fn farther(top: usize, l: u16) -> usize
    ensures { Farther top l result }
{
    let end = wide(l / 2) + 1;
    if top < end { end } else { top }
}

// How many nodes there are up to the highest of the literals'.
fn reach(goals: &[u16]) -> usize
    ensures { Reach goals.now result }
{
    let mut top = 0;
    for goal in goals {
        top = farther(top, *goal);
    }
    top
}

// What `ask_by` asks; the index is of the nodes below the literals alone, which are all that a search of them comes to. x is zeros.
pub fn ask_within_by(
    listed: Result<(), Refusal>,
    t: &[u8],
    goals: &[u16],
    needed: usize,
    points: usize,
    area: usize,
    x: &mut [u16],
) -> Result<usize, Refusal>
    requires { Zeros x.old }
    ensures { Within (verdict_of listed) t.now goals.now needed points area x.new result }
{
    admit_over(listed, t, goals, needed, points, area, x)?;
    let top = reach(goals);
    index::build_below(t, goals, top, x);
    Ok(top)
}

// The same of a list of goals.
pub fn ask_within(
    t: &[u8],
    goals: &[u16],
    needed: usize,
    points: usize,
    area: usize,
    x: &mut [u16],
) -> Result<usize, Refusal>
    requires { Zeros x.old }
    ensures { Within (list_row goals.now) t.now goals.now needed points area x.new result }
{
    ask_within_by(list_row(goals), t, goals, needed, points, area, x)
}
