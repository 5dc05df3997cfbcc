// The next move in the solver's order, and the clause that it is on. Conflicts and units are looked up; a split looks from the cursor on.
#![tactic(auto)]

ghost use Rattle.std.specs.Prelude.{◌≡◌, ◌+◌, ◌/◌, ◌%◌, ◌≤◌, ◌<◌, length};
ghost use Rattle.calculus.specs.Expansion.{expand};
ghost use Rattle.calculus.specs.Order.{move};
ghost use Rattle.calculus.specs.declared.Move.TheVariants.{Conflict};
ghost use Rattle.units.specs.Units.{Units, Empty};
ghost use Rattle.calculus.specs.Model.{Goals};
ghost use Rattle.index.specs.Index.{most_nodes, index_node};
ghost use Rattle.index.specs.Indexed.{Indexed};
ghost use Rattle.clause.specs.Coded.{Coded};
ghost use Rattle.clause.specs.Templates.{rows};
ghost use Rattle.state.specs.Work.{area, tail, lit_at, base_of, g_of, Ready, Numbered, cursor_of, conflict_of, waiting_of};
ghost use Rattle.state.specs.Holds.{Holds, Waiting, states_at, denied_of, NoneDenied};
ghost use Rattle.state.specs.Picked.{no_unit, Picked, Picks};
ghost use Rattle.moves.specs.Place.{forced_move, choice_move, On, place_number, Placed, Kept, Reasoned, Without, FoundGoal, CellSet, OpenFrom, Moved};

use calculus::Move;
use clause::Clause;

// A unit: the number of its clause, and its literal.
#[derive(Clone, Copy)]
pub struct Forced {
    pub number: u16,
    pub literal: u16,
}

// The cells of the work area.
const CURSOR: usize = 0;

const CONFLICT: usize = 1;

const WAITING: usize = 2;

const PLACE: usize = 3;

// 0 only where no goal is false: a cell between the cursors and the codes.
const DENIED: usize = 12103;

// What is kept of each position's units.
const CODES: usize = 12104;

// No position.
const NONE: usize = 2016;

// No unit is the next move.
const NO_UNIT: u32 = 4294967295;

// The places of the goals' clauses; before them stand four for each position.
const GOALS: usize = 8064;

// The first goal of a value, not that of a true one.
fn goal_of(n: usize, goals: &[u16], work: &[u16], v: u16) -> Option<usize>
    requires ready { Ready n work.now }
    requires n_le_most_nodes { (n ≤ most_nodes) × Goals n goals.now }
    requires waiting { Waiting goals.now (g_of work.now) (waiting_of work.now) × (v ≡ 1 → ⊥) }
    ensures { FoundGoal goals.now (g_of work.now) v result }
{
    let start = goals.len() - work[WAITING] as usize;
    for k in start..goals.len() {
        if state::value(n, work, goals[k]) == v {
            return Some(k);
        }
    }
    None
}

// The first goal that is false.
fn denied_goal(n: usize, goals: &[u16], work: &[u16]) -> Option<usize>
    requires ready { Ready n work.now }
    requires n_le_most_nodes { (n ≤ most_nodes) × Goals n goals.now }
    requires waiting { Waiting goals.now (g_of work.now) (waiting_of work.now) }
    requires none_denied { denied_of work.now ≡ 0 → NoneDenied goals.now (g_of work.now) }
    ensures { FoundGoal goals.now (g_of work.now) 2 result }
{
    if work[DENIED] == 0 {
        return None;
    }
    goal_of(n, goals, work, 2)
}

// What the clauses of position q come to.
fn code_at(x: &[u16], n: usize, work: &[u16], q: usize) -> u16
    requires indexed { Indexed x.now n }
    requires ready { Ready n work.now }
    requires q_bound { q < tail work.now 0 }
    ensures { Coded (index_node x.now (lit_at (tail work.now) q / 2)) (states_at (index_node x.now) (g_of work.now) (tail work.now) q) result }
{
    let l = state::literal(work, q);
    clause::code(x, n, work, (l / 2) as usize, (l % 2) as usize)
}

// The first position from the cursor on with an open clause, and its code.
fn open_from(x: &[u16], n: usize, work: &[u16]) -> Option<(usize, u16)>
    requires indexed { Indexed x.now n }
    requires ready { Ready n work.now }
    requires work_bound { cursor_of work.now ≤ tail work.now 0 }
    ensures { OpenFrom (index_node x.now) work.now result }
{
    let held = state::count(work) as usize;
    for q in work[CURSOR] as usize..held {
        let code = code_at(x, n, work, q);
        if (code / 4) % 2 == 1 {
            return Some((q, code));
        }
    }
    None
}

// The place of the move's clause is kept.
fn keep(work: &mut [u16], place: usize)
    requires { (area ≤ length work.old) × (place < 65536) }
    ensures { CellSet 3 place work.old work.new }
{
    work[PLACE] = place as u16;
}

// The cursor moves on.
fn advance(work: &mut [u16], q: usize)
    requires { (area ≤ length work.old) × (q < 65536) }
    ensures { CellSet 0 q work.old work.new }
{
    work[CURSOR] = q as u16;
}

// Which clause of the first position that has a conflict is all false, where no goal is.
pub fn conflict_clause(
    x: &[u16],
    n: usize,
    goals: &[u16],
    work: &[u16],
    masks: &[u64],
    q: usize,
) -> usize
    requires indexed { Indexed x.now n }
    requires goals { Goals n goals.now }
    requires holds { Holds (index_node x.now) n goals.now work.now masks.now }
    requires q_value { (q ≡ conflict_of work.now) × (q < most_nodes) × Without 2 goals.now (g_of work.now) }
    ensures { On (index_node x.now) goals.now work.now q result (Conflict (base_of (tail work.now) q + result)) }
{
    let code = code_at(x, n, work, q);
    ((code / 256) % 4) as usize
}

// The conflict at the first position that has one, where no goal is false.
fn conflict_at(
    x: &[u16],
    n: usize,
    goals: &[u16],
    work: &mut [u16],
    masks: &[u64],
    q: usize,
) -> Move
    requires indexed { Indexed x.now n }
    requires goals { Goals n goals.now }
    requires holds { Holds (index_node x.now) n goals.now work.old masks.now }
    requires q_value { (q ≡ conflict_of work.old) × (q < most_nodes) × Without 2 goals.now (g_of work.old) }
    ensures { Moved (index_node x.now) n goals.now work.old work.new masks.now result }
{
    let j = conflict_clause(x, n, goals, work, masks, q);
    let base = state::base(work, q);
    keep(work, 4 * q + j);
    Move::Conflict(base + j as u16)
}

// The next move while some goal is not true.
fn goal_move(x: &[u16], n: usize, goals: &[u16], work: &mut [u16], masks: &[u64]) -> Move
    requires indexed { Indexed x.now n }
    requires goals { Goals n goals.now }
    requires holds { Holds (index_node x.now) n goals.now work.old masks.now }
    requires fact { waiting_of work.old ≡ 0 → ⊥ }
    ensures { Moved (index_node x.now) n goals.now work.old work.new masks.now result }
{
    if let Some(k) = denied_goal(n, goals, work) {
        keep(work, GOALS + k);
        return Move::Conflict(k as u16);
    }
    let c = work[CONFLICT] as usize;
    if c < NONE {
        return conflict_at(x, n, goals, work, masks, c);
    }
    let u = goal_of(n, goals, work, 0).unwrap();
    keep(work, GOALS + u);
    Move::Unit(u as u16, goals[u])
}

// The unit that is the next move: 65536 * the first position of the set, and what is kept of it. None where a goal waits, there is a
// conflict, or the set is empty.
pub fn pick(work: &[u16], masks: &[u64]) -> u32
    requires { (area ≤ length work.now) × Units masks.now }
    ensures picks { Picks work.now masks.now result }
    ensures empty { result ≡ no_unit → waiting_of work.now ≡ 0 → most_nodes ≤ conflict_of work.now → Empty masks.now }
{
    if work[WAITING] != 0 {
        return NO_UNIT;
    }
    if (work[CONFLICT] as usize) < NONE {
        return NO_UNIT;
    }
    if units::some(masks) {
        let q = units::first(masks);
        return 65536 * q as u32 + work[CODES + q] as u32;
    }
    NO_UNIT
}

// The move of unit u, which was picked: the clause that it is on, whose place is kept, and its literal.
pub fn unit_move(
    x: &[u16],
    n: usize,
    goals: &[u16],
    work: &mut [u16],
    masks: &[u64],
    u: u32,
) -> Forced
    requires indexed { Indexed x.now n }
    requires goals { Goals n goals.now }
    requires holds { Holds (index_node x.now) n goals.now work.old masks.now }
    requires picked { Picked work.old masks.now u }
    ensures moved { Moved (index_node x.now) n goals.now work.old work.new masks.now (forced_move result) }
    ensures literal_value { result.literal ≡ u % 4096 }
    ensures picked_2 { Picked work.new masks.now u }
{
    let q = (u / 65536) as usize;
    let j = (u / 4096) % 16;
    let place = 4 * q + j as usize;
    let base = state::base(work, q);
    keep(work, place);
    Forced {
        number: base + j as u16,
        literal: (u % 4096) as u16,
    }
}

// The literal of a split, where there is one: every goal is true, there is no conflict and no unit. The cursor moves on.
pub fn split_choice(
    x: &[u16],
    n: usize,
    goals: &[u16],
    work: &mut [u16],
    masks: &[u64],
) -> Option<u16>
    requires indexed { Indexed x.now n }
    requires goals { Goals n goals.now }
    requires holds { Holds (index_node x.now) n goals.now work.old masks.now }
    requires work_value { (waiting_of work.old ≡ 0) × (most_nodes ≤ conflict_of work.old) × Empty masks.now }
    ensures { Moved (index_node x.now) n goals.now work.old work.new masks.now (choice_move result) }
{
    let Some((q, code)) = open_from(x, n, work) else {
        let held = state::count(work) as usize;
        advance(work, held);
        return None;
    };
    advance(work, q);
    let l = state::literal(work, q);
    Some(clause::choose(x, n, (l / 2) as usize, ((code / 1024) % 8) as usize))
}

// The same as a move.
fn split_move(x: &[u16], n: usize, goals: &[u16], work: &mut [u16], masks: &[u64]) -> Move
    requires indexed { Indexed x.now n }
    requires goals { Goals n goals.now }
    requires holds { Holds (index_node x.now) n goals.now work.old masks.now }
    requires work_value { (waiting_of work.old ≡ 0) × (most_nodes ≤ conflict_of work.old) × Empty masks.now }
    ensures { Moved (index_node x.now) n goals.now work.old work.new masks.now result }
{
    let c = split_choice(x, n, goals, work, masks);
    match c {
        None => Move::Done,
        Some(l) => Move::Split(l),
    }
}

// The next move in the solver's order: conflict first, then unit, then split.
pub fn next_move(x: &[u16], n: usize, goals: &[u16], work: &mut [u16], masks: &[u64]) -> Move
    requires indexed { Indexed x.now n }
    requires goals { Goals n goals.now }
    requires holds { Holds (index_node x.now) n goals.now work.old masks.now }
    ensures value { result ≡ move (expand (index_node x.now)) goals.now (g_of work.old) }
    ensures holds_2 { Holds (index_node x.now) n goals.now work.new masks.now }
    ensures work_unchanged { g_of work.new ≡ g_of work.old }
    ensures kept { Kept (index_node x.now) goals.now work.new result }
{
    if work[WAITING] != 0 {
        return goal_move(x, n, goals, work, masks);
    }
    let c = work[CONFLICT] as usize;
    if c < NONE {
        return conflict_at(x, n, goals, work, masks, c);
    }
    let u = pick(work, masks);
    if u != NO_UNIT {
        let f = unit_move(x, n, goals, work, masks, u);
        return Move::Unit(f.number, f.literal);
    }
    split_move(x, n, goals, work, masks)
}

// The clause that the last move, a conflict or a unit, is on.
pub fn reason(templates: &[[u8; 9]; 18], x: &[u16], n: usize, goals: &[u16], work: &[u16]) -> Clause
    requires templates_value { templates.now ≡ rows }
    requires indexed { Indexed x.now n }
    requires goals { Goals n goals.now }
    requires ready { Ready n work.now × Numbered (index_node x.now) goals.now (tail work.now) }
    requires placed { Placed (index_node x.now) goals.now work.now (place_number work.now) }
    ensures { Reasoned (index_node x.now) n goals.now work.now result }
{
    let place = work[PLACE] as usize;
    if GOALS <= place {
        let goal = goals[place - GOALS];
        return Clause {
            len: 1,
            first: goal,
            second: 0,
            third: 0,
        };
    }
    let l = state::literal(work, place / 4);
    clause::clause_of(templates, x, n, l, place % 4)
}
