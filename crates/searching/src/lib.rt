// The search: recursive, a call for each branch of a split, so the number of undecided nodes falls at each call. The work area is carried
// along, and taken back to a split before its right branch. Each literal held, and the last conflict, has the set of the splits that it
// rests on: a right branch is skipped where the left one's conflict does not rest on the split.
#![tactic(auto)]

ghost use Rattle.std.specs.Prelude.{◌≡◌, [], suc, ◌+◌, ◌≤◌, length};
ghost use Rattle.calculus.specs.Model.{Goals};
ghost use Rattle.calculus.specs.Jump.{stopped};
ghost use Rattle.index.specs.Index.{most_nodes, index_node};
ghost use Rattle.units.specs.Units.{Empty};
ghost use Rattle.index.specs.Indexed.{Indexed};
ghost use Rattle.state.specs.Work.{g_of, conflict_of, waiting_of, Ready};
ghost use Rattle.state.specs.Holds.{Holds};
ghost use Rattle.state.specs.Picked.{Leads};
ghost use Rattle.rests.specs.Words.{Sets, Slots};
ghost use Rattle.searching.specs.Search.{Solved};
ghost use Rattle.searching.specs.Jumps.{blank, Aimed, Concluded, Begun, LeftOff, Propagated, with_left, Jumps, found_by, Counted, Opened};

use calculus::Move;

// Where goals and units end: at a conflict or a false goal, at a model, or at a split on a literal.
#[derive(Clone, Copy)]
pub enum Stop {
    Closed,
    Model,
    Fork(u16),
}

// What a search finds: a model, or that every branch closes.
#[derive(Clone, Copy)]
pub enum Found {
    Model,
    Closed,
}

// The same, with the splits made.
#[derive(Clone, Copy)]
pub enum Ended {
    Model(u32),
    Closed(u32),
}

// Up to so many nodes, those of eight blocks, 1,012 words do for the sets.
const FEW: usize = 504;

// No position.
const NONE: usize = 2016;

// No unit is the next move.
const NO_UNIT: u32 = 4294967295;

// The count of splits stops here.
const MOST: u64 = 4294967295;

// What comes next where u is the unit that is the next move, or NO_UNIT: u; or the clause of the first conflict, its position and which
// clause it is, as a unit has them; or NO_UNIT.
fn aim(x: &[u16], n: usize, goals: &[u16], work: &[u16], masks: &[u64], u: u32) -> u32
    requires indexed { Indexed x.now n }
    requires goals { Goals n goals.now }
    requires holds { Holds (index_node x.now) n goals.now work.now masks.now × (waiting_of work.now ≡ 0) }
    ensures { Aimed (index_node x.now) goals.now work.now u result }
{
    if u != NO_UNIT {
        return u;
    }
    let c = state::conflict(work) as usize;
    if NONE <= c {
        return NO_UNIT;
    }
    let j = moves::conflict_clause(x, n, goals, work, masks, c);
    65536 * c as u32 + 4096 * j as u32
}

// No conflict and no unit is left: a model, or a split.
fn conclude(x: &[u16], n: usize, goals: &[u16], work: &mut [u16], masks: &[u64]) -> Stop
    requires indexed { Indexed x.now n }
    requires goals { Goals n goals.now }
    requires holds { Holds (index_node x.now) n goals.now work.old masks.now }
    requires work_value { (waiting_of work.old ≡ 0) × (most_nodes ≤ conflict_of work.old) × Empty masks.now }
    ensures { Concluded (index_node x.now) n goals.now work.old work.new masks.now result }
{
    let choice = moves::split_choice(x, n, goals, work, masks);
    match choice {
        None => Stop::Model,
        Some(l) => Stop::Fork(l),
    }
}

// The units join, each with what it rests on, up to another move; `first` is the unit that is the next move, or NO_UNIT. Every goal is
// true.
fn propagate(
    x: &[u16; 22626],
    n: usize,
    goals: &[u16],
    work: &mut [u16],
    masks: &mut [u64; 33],
    rests: &mut [u64],
    first: u32,
) -> Stop
    requires indexed { Indexed x.now n }
    requires goals { Goals n goals.now }
    requires holds { Holds (index_node x.now) n goals.now work.old masks.old }
    requires slots { Slots n rests.old × Leads work.old masks.old first }
    ensures { Propagated (index_node x.now) n goals.now work.old rests.old work.new masks.new rests.new result }
{
    let mut u = first;
    loop {
        let on = aim(x, n, goals, work, masks, u);
        if on == NO_UNIT {
            return conclude(x, n, goals, work, masks);
        }
        let q = (on / 65536) as usize;
        let j = ((on / 4096) % 16) as usize;
        let to = state::count(work) as usize + 1;
        grounds::put_clause(x, n, goals, work, rests, to, q, j);
        if u == NO_UNIT {
            return Stop::Closed;
        }
        u = solver::join(x, n, goals, work, masks, u);
    }
}

// The goals join, in their order, up to one that is false or brings a conflict. Whether there was none.
fn join_goals(x: &[u16], n: usize, goals: &[u16], work: &mut [u16], masks: &mut [u64]) -> bool
    requires indexed { Indexed x.now n }
    requires goals { Goals n goals.now }
    requires holds { Holds (index_node x.now) n goals.now work.old masks.old × (g_of work.old ≡ []) }
    ensures { Begun (index_node x.now) n goals.now work.new masks.new result }
{
    for k in 0..goals.len() {
        if !solver::join_goal(x, n, goals, work, masks, k) {
            return false;
        }
    }
    true
}

// The units join, one after another, where nothing was split: what joins rests on nothing, and so does a conflict.
fn first_units(x: &[u16], n: usize, goals: &[u16], work: &mut [u16], masks: &mut [u64]) -> Stop
    requires indexed { Indexed x.now n }
    requires goals { Goals n goals.now }
    requires holds { Holds (index_node x.now) n goals.now work.old masks.old }
    ensures { Propagated (index_node x.now) n goals.now work.old blank work.new masks.new blank result }
{
    let mut u = moves::pick(work, masks);
    loop {
        if u != NO_UNIT {
            u = solver::join(x, n, goals, work, masks, u);
        } else {
            let m = moves::next_move(x, n, goals, work, masks);
            match m {
                Move::Conflict(_) => {
                    return Stop::Closed;
                }
                Move::Unit(_, l) => {
                    solver::assume(x, n, goals, work, masks, l);
                    u = moves::pick(work, masks);
                }
                Move::Done => {
                    return Stop::Model;
                }
                Move::Split(l) => {
                    return Stop::Fork(l);
                }
            }
        }
    }
}

// The split itself with those of both sides, stopping at the most.
fn one_more(left: u32, right: u32) -> u32
    ensures { result ≡ stopped (suc (left + right)) }
{
    let made = left as u64 + right as u64 + 1;
    if made < MOST {
        made as u32
    } else {
        MOST as u32
    }
}

// How the right side ended, with the splits of both sides.
fn with_left(left: u32, right: Ended) -> Ended
    ensures { result ≡ with_left left right }
{
    match right {
        Ended::Model(s) => Ended::Model(one_more(left, s)),
        Ended::Closed(s) => Ended::Closed(one_more(left, s)),
    }
}

// The search from the literals held, which stay held, with d splits on the branch: a model, or every branch closes, and the slot behind the
// literals held then has what the last conflict rests on. What joined is taken back only before a right branch. Every goal is true; u is the
// unit that is the next move, or NO_UNIT.
fn search(
    x: &[u16; 22626],
    n: usize,
    goals: &[u16],
    work: &mut [u16],
    masks: &mut [u64; 33],
    rests: &mut [u64],
    d: usize,
    u: u32,
) -> Ended
    requires indexed { Indexed x.now n }
    requires goals { Goals n goals.now }
    requires holds { Holds (index_node x.now) n goals.now work.old masks.old }
    requires slots { Slots n rests.old × (d ≤ length (g_of work.old)) × Leads work.old masks.old u }
    ensures { Jumps (index_node x.now) n goals.now d work.old rests.old work.new masks.new rests.new result }
{
    let stop = propagate(x, n, goals, work, masks, rests, u);
    match stop {
        Stop::Closed => Ended::Closed(0),
        Stop::Model => Ended::Model(0),
        Stop::Fork(l) => {
            let held = state::count(work);
            let slot = held as usize + 1;
            rests::put_only(rests, slot, d);
            let first = solver::fork(x, n, goals, work, masks, l);
            let left = search(x, n, goals, work, masks, rests, d + 1, first);
            match left {
                Ended::Model(s) => Ended::Model(one_more(s, 0)),
                Ended::Closed(s) => {
                    let closed = state::count(work) as usize + 1;
                    if rests::without(rests, closed, d) {
                        return Ended::Closed(one_more(s, 0));
                    }
                    solver::undo_to(x, n, goals, work, masks, held);
                    rests::put_less(rests, slot, closed, d);
                    let second = solver::fork(x, n, goals, work, masks, clause::negated(l));
                    let right = search(x, n, goals, work, masks, rests, d + 1, second);
                    with_left(s, right)
                }
            }
        }
    }
}

// The goals and the units behind them join, from the start, up to the first split, if there is one.
fn from_start(x: &[u16], n: usize, goals: &[u16], work: &mut [u16], masks: &mut [u64]) -> Stop
    requires indexed { Indexed x.now n }
    requires goals { Goals n goals.now }
    requires holds { Holds (index_node x.now) n goals.now work.old masks.old × (g_of work.old ≡ []) }
    ensures { Opened (index_node x.now) n goals.now work.new result }
{
    if !join_goals(x, n, goals, work, masks) {
        return Stop::Closed;
    }
    first_units(x, n, goals, work, masks)
}

// A question put from the start, whatever is held, up to its first split: whether it closes or there is a model before that.
fn put(x: &[u16], n: usize, goals: &[u16], work: &mut [u16]) -> Stop
    requires indexed { Indexed x.now n }
    requires goals { Goals n goals.now }
    requires ready { Ready n work.old }
    ensures { Opened (index_node x.now) n goals.now work.new result }
{
    let mut masks = [0u64; 33];
    solver::restart(x, n, goals, work, &mut masks);
    from_start(x, n, goals, work, &mut masks)
}

// A question that was left at its first split is searched on. Sets are lent, so that one call's questions share them.
fn go_on(x: &[u16; 22626], n: usize, goals: &[u16], work: &mut [u16], rests: &mut [u64]) -> Ended
    requires indexed { Indexed x.now n }
    requires goals { Goals n goals.now }
    requires left_off { LeftOff (index_node x.now) n goals.now work.old × Slots n rests.old }
    ensures counted { Counted (index_node x.now) n goals.now work.new result }
    ensures slots { Slots n rests.new }
{
    let mut masks = [0u64; 33];
    let held = state::count(work) as usize;
    rests::clear(rests, held);
    search(x, n, goals, work, &mut masks, rests, 0, NO_UNIT)
}

// So it is, with sets of its own.
fn alone(x: &[u16; 22626], n: usize, goals: &[u16], work: &mut [u16]) -> Ended
    requires indexed { Indexed x.now n }
    requires goals { Goals n goals.now }
    requires left_off { LeftOff (index_node x.now) n goals.now work.old }
    ensures { Counted (index_node x.now) n goals.now work.new result }
{
    if n <= FEW {
        let mut rests = [0u64; 1012];
        return go_on(x, n, goals, work, &mut rests);
    }
    let mut rests = [0u64; 4036];
    go_on(x, n, goals, work, &mut rests)
}

// One question put from the start, whatever is held: whether the goals have a model, which the work area then holds, and the splits made.
// Sets are made at the first split.
pub fn solve_counted(x: &[u16; 22626], n: usize, goals: &[u16], work: &mut [u16]) -> Ended
    requires indexed { Indexed x.now n }
    requires goals { Goals n goals.now }
    requires ready { Ready n work.old }
    ensures { Counted (index_node x.now) n goals.now work.new result }
{
    let stop = put(x, n, goals, work);
    match stop {
        Stop::Closed => Ended::Closed(0),
        Stop::Model => Ended::Model(0),
        Stop::Fork(_) => alone(x, n, goals, work),
    }
}

// What a search found, without the splits.
fn verdict(e: Ended) -> Found
    ensures { result ≡ found_by e }
{
    match e {
        Ended::Model(_) => Found::Model,
        Ended::Closed(_) => Found::Closed,
    }
}

// One of several questions, whose sets are lent.
pub fn solve(
    x: &[u16; 22626],
    n: usize,
    goals: &[u16],
    work: &mut [u16],
    rests: &mut [u64; 4036],
) -> Found
    requires indexed { Indexed x.now n }
    requires goals { Goals n goals.now }
    requires ready { Ready n work.old × Sets rests.old }
    ensures solved { Solved (index_node x.now) n goals.now work.new result }
    ensures sets { Sets rests.new }
{
    let stop = put(x, n, goals, work);
    match stop {
        Stop::Closed => Found::Closed,
        Stop::Model => Found::Model,
        Stop::Fork(_) => {
            let e = go_on(x, n, goals, work, rests);
            verdict(e)
        }
    }
}
