// How many steps the derivation in the solver's order has, up to a limit. The search runs as decide's does and writes nothing; where a
// model is found there is no derivation. The count stops at its limit, and the search goes on.
#![tactic(auto)]

ghost use Rattle.std.specs.Prelude.{◌≡◌, ◌+◌, ◌*◌, ◌<◌, ◌≤◌};
ghost use Rattle.calculus.specs.Model.{Goals};
ghost use Rattle.index.specs.Index.{index_node};
ghost use Rattle.index.specs.Indexed.{Indexed};
ghost use Rattle.state.specs.Work.{tail, g_of, Ready, Numbered};
ghost use Rattle.state.specs.Holds.{Holds};
ghost use Rattle.state.specs.Picked.{Picks};
ghost use Rattle.moves.specs.Place.{place_number, Placed};
ghost use Rattle.counting.specs.Count.{at_most, Lengths, Sized, SizedIn, Advanced, Tallied};

use calculus::Move;
use rules::Version;
use searching::Stop;

// No unit is the next move.
const NO_UNIT: u32 = 4294967295;

// The cell of the work area that has the place of the last move's clause.
const PLACE: usize = 3;

// The places of the goals' clauses; before them stand four for each position.
const GOALS: usize = 8064;

// How many literals each clause of a row has, 2 * kind + sign: two bits a row.
const SIZES: u64 = 33728925696;

// Where the units end, and the count up to there.
#[derive(Clone, Copy)]
struct Told {
    stop: Stop,
    count: usize,
}

// `more` are counted beyond s, up to a limit.
fn capped(s: usize, more: usize, cap: usize) -> usize
    requires { s ≤ cap }
    ensures { result ≡ at_most cap (s + more) }
{
    if more < cap - s { s + more } else { cap }
}

// How many literals each clause of a literal has.
fn literal_size(x: &[u16], n: usize, l: u16) -> usize
    requires indexed { Indexed x.now n }
    requires l_bound { l < 2 * n }
    ensures { Lengths (index_node x.now) l result }
{
    let row = 2 * (x[4 * (l / 2) as usize] as usize + 1) + (l % 2) as usize;
    ((SIZES >> (2 * row)) % 4) as usize
}

// How many literals the clause has that the move looked up is on.
fn clause_size(x: &[u16], n: usize, goals: &[u16], work: &[u16]) -> usize
    requires indexed { Indexed x.now n }
    requires ready { Ready n work.now × Numbered (index_node x.now) goals.now (tail work.now) }
    requires placed { Placed (index_node x.now) goals.now work.now (place_number work.now) }
    ensures { Sized (index_node x.now) goals.now (g_of work.now) (place_number work.now) result }
{
    let place = work[PLACE] as usize;
    if GOALS <= place {
        return 1;
    }
    let l = state::literal(work, place / 4);
    literal_size(x, n, l)
}

// The same in version one; in version two, which has no R, the literals that are free: undecided.
fn size_in(version: Version, x: &[u16], n: usize, goals: &[u16], work: &[u16], free: usize) -> usize
    requires indexed { Indexed x.now n }
    requires ready { Ready n work.now × Numbered (index_node x.now) goals.now (tail work.now) }
    requires placed { Placed (index_node x.now) goals.now work.now (place_number work.now) }
    requires free_bound { free ≤ 1 }
    ensures { SizedIn version (index_node x.now) goals.now (g_of work.now) (place_number work.now) free result }
{
    match version {
        Version::One => clause_size(x, n, goals, work),
        Version::Two => free,
    }
}

// The units join, one after another, up to another move. `first` is the unit that is the next move, or NO_UNIT. A unit of version one has
// as many steps as its clause has literals: an R for each but one, and a U. A conflict has one more than its clause's literals.
fn units(
    version: Version,
    x: &[u16],
    n: usize,
    goals: &[u16],
    work: &mut [u16],
    masks: &mut [u64],
    cap: usize,
    s: usize,
    first: u32,
) -> Told
    requires indexed { Indexed x.now n }
    requires goals { Goals n goals.now }
    requires holds { Holds (index_node x.now) n goals.now work.old masks.old }
    requires s_le_cap { s ≤ cap }
    requires picks { Picks work.old masks.old first }
    ensures { Advanced version (index_node x.now) n goals.now work.old work.new masks.new cap s result }
{
    let mut count = s;
    let mut u = first;
    loop {
        if u != NO_UNIT {
            moves::unit_move(x, n, goals, work, masks, u);
            let size = size_in(version, x, n, goals, work, 1);
            count = capped(count, size, cap);
            u = solver::join(x, n, goals, work, masks, u);
        } else {
            let m = moves::next_move(x, n, goals, work, masks);
            match m {
                Move::Conflict(_) => {
                    let size = size_in(version, x, n, goals, work, 0);
                    count = capped(count, size + 1, cap);
                    return Told {
                        stop: Stop::Closed,
                        count,
                    };
                }
                Move::Unit(_, l) => {
                    let size = size_in(version, x, n, goals, work, 1);
                    count = capped(count, size, cap);
                    solver::assume(x, n, goals, work, masks, l);
                    u = moves::pick(work, masks);
                }
                Move::Done => {
                    return Told {
                        stop: Stop::Model,
                        count,
                    };
                }
                Move::Split(l) => {
                    count = capped(count, 1, cap);
                    return Told {
                        stop: Stop::Fork(l),
                        count,
                    };
                }
            }
        }
    }
}

// The search from the literals held, which stay held, s steps being counted: the count with that of all its steps, or none where there is
// a model. `first` is the unit that is the next move, or NO_UNIT.
pub fn count(
    version: Version,
    x: &[u16],
    n: usize,
    goals: &[u16],
    work: &mut [u16],
    masks: &mut [u64],
    cap: usize,
    s: usize,
    first: u32,
) -> Option<usize>
    requires indexed { Indexed x.now n }
    requires goals { Goals n goals.now }
    requires holds { Holds (index_node x.now) n goals.now work.old masks.old }
    requires s_le_cap { s ≤ cap }
    requires picks { Picks work.old masks.old first }
    ensures { Tallied version (index_node x.now) n goals.now work.old work.new masks.new cap s result }
{
    let told = units(version, x, n, goals, work, masks, cap, s, first);
    let stop = told.stop;
    match stop {
        Stop::Closed => Some(told.count),
        Stop::Model => None,
        Stop::Fork(l) => {
            let held = state::count(work);
            let a = solver::fork(x, n, goals, work, masks, l);
            let left = count(version, x, n, goals, work, masks, cap, told.count, a)?;
            solver::undo_to(x, n, goals, work, masks, held);
            let b = solver::fork(x, n, goals, work, masks, clause::negated(l));
            count(version, x, n, goals, work, masks, cap, left, b)
        }
    }
}
