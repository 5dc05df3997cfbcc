// The solver's state changes: start, restart, assume, fork, join_goal, join, undo_to. A literal that joins changes what the clauses of its node's
// held parents come to, and nothing else. Nothing is noted for the way back: what undo_to goes back to had a split as its move, so no clause was a unit or all
// false there.
// The work area's layout is in crate state, specs/Work.antt, the index's in crate index.
#![tactic(auto)]

ghost use Rattle.std.specs.Prelude.{◌≡◌, false, [], ◌∷◌, ℕ, ◌+◌, ◌-◌, ◌*◌, ◌/◌, ◌%◌, ◌≤◌, ◌<◌, length, get_or, set, drop};
ghost use Rattle.calculus.specs.Expansion.{expand};
ghost use Rattle.calculus.specs.Order.{holds, value_of};
ghost use Rattle.calculus.specs.Model.{Goals, Fresh, question_size};
ghost use Rattle.index.specs.Index.{most_nodes, index_node};
ghost use Rattle.index.specs.Edges.{first_of, mid_of, PairAt, parent_of};
ghost use Rattle.index.specs.Indexed.{Indexed};
ghost use Rattle.units.specs.Units.{words, positions, member, Units};
ghost use Rattle.clause.specs.Coded.{Coded};
ghost use Rattle.state.specs.Work.{area, tail, lit_at, g_of, conflict_of, waiting_of, Ready, trail_at, bases_at};
ghost use Rattle.state.specs.Holds.{Holds, Splits, Waiting, states_at, denied_at};
ghost use Rattle.state.specs.Picked.{Picked, Leads};
ghost use Rattle.solver.specs.Changes.{Lowered, Flagged, Renewed, Visited, ThreeFrom, Walk, Touchable, Touched, Foremost, Fronts, Earlier, Onward, Forcing, Lived, Tidied, Taken, Held, Attached, Served, Awaited, Stands, Enlisted, Settled, Left, Apart};

// The cells of the work area.
const CURSOR: usize = 0;

const CONFLICT: usize = 1;

const WAITING: usize = 2;

// 0 only where no goal is false: a cell between the cursors and the codes.
const DENIED: usize = 12103;

// The trail, and in it how many clauses stand before each literal's.
const TRAIL: usize = 4;

const BASES: usize = 4034;

// No position.
const NONE: u16 = 2016;

// No unit.
const NO_UNIT: u32 = 4294967295;

// The index: where each node's edges from parents of two operands start, where those from parents of three do, and where they end.
const FIRST: usize = 8064;

const MID: usize = 10080;

const END: usize = 12096;

// A clause at position q is all false.
fn conflict(work: &mut [u16], q: usize)
    requires { (area ≤ length work.old) × (q < most_nodes) }
    ensures { Lowered work.old q work.new }
{
    if (q as u16) < work[CONFLICT] {
        work[CONFLICT] = q as u16;
    }
}

// The unit at the first position of the set, with what is kept of it; or NO_UNIT.
fn front(work: &[u16], masks: &[u64]) -> u32
    requires area_in_bounds { area ≤ length work.now }
    requires units { Units masks.now × ((q : ℕ) → q < positions → member masks.now q ≡ 1 → q < most_nodes) }
    ensures { Fronts work.now masks.now result }
{
    if units::some(masks) {
        let q = units::first(masks);
        return 65536 * (q as u32) + state::code(work, q) as u32;
    }
    NO_UNIT
}

// Of the unit best, or NO_UNIT, and that of position q, of which `kept` is kept, the one whose position comes first; where both are of q, the
// latter.
fn earlier(best: u32, q: usize, kept: u16) -> u32
    requires { q < most_nodes }
    ensures { Earlier best q kept result }
{
    if q as u32 <= best / 65536 {
        return 65536 * (q as u32) + kept as u32;
    }
    best
}

// Position q has a unit; what it forces is kept.
fn unit(work: &mut [u16], masks: &mut [u64], q: usize, kept: u16)
    requires units { Units masks.old }
    requires area_in_bounds { (area ≤ length work.old) × (q < most_nodes) }
    ensures { Flagged work.old masks.old q kept work.new masks.new }
{
    state::put_code(work, q, kept);
    units::add(masks, q);
}

// What the clauses of node p's literal, at position q, come to is entered, by its code. best is the first unit so far, or NO_UNIT, and the
// answer is the first one now; so it is in all that follows up to `touch`, but for `renew`.
fn enter(
    x: &[u16],
    n: usize,
    work: &mut [u16],
    masks: &mut [u64],
    p: usize,
    q: usize,
    code: u16,
    best: u32,
) -> u32
    requires indexed { Indexed x.now n }
    requires ready { Ready n work.old × Units masks.old }
    requires q_bound { (q < tail work.old 0) × (lit_at (tail work.old) q / 2 ≡ p) × (p < n) }
    requires coded { Coded (index_node x.now p) (states_at (index_node x.now) (g_of work.old) (tail work.old) q) code }
    ensures renewed { Renewed (index_node x.now) n work.old masks.old q work.new masks.new }
    ensures onward { Onward work.old masks.old best work.new masks.new result }
{
    if (code / 2) % 2 == 1 {
        conflict(work, q);
        return best;
    }
    if code % 2 == 1 {
        let l = clause::choose(x, n, p, ((code / 32) % 8) as usize);
        let kept = l + 4096 * ((code / 8) % 4);
        unit(work, masks, q, kept);
        return earlier(best, q, kept);
    }
    best
}

// So are they worked out and entered for the literal that joins. Its position is the last, so its unit is not compared with others; the
// answer is the code.
fn renew(
    x: &[u16],
    n: usize,
    work: &mut [u16],
    masks: &mut [u64],
    p: usize,
    q: usize,
    sign: usize,
) -> u16
    requires indexed { Indexed x.now n }
    requires ready { Ready n work.old × Units masks.old }
    requires q_bound { (q < tail work.old 0) × (lit_at (tail work.old) q ≡ 2 * p + sign) × (p < n) × (sign < 2) }
    ensures renewed { Renewed (index_node x.now) n work.old masks.old q work.new masks.new }
    ensures coded { Coded (index_node x.now p) (states_at (index_node x.now) (g_of work.old) (tail work.old) q) result }
{
    let code = clause::code(x, n, work, p, sign);
    enter(x, n, work, masks, p, q, code, NO_UNIT);
    code
}

// So are they for node p, which has three operands, if its literal is held. Most looks end at the test: no clause is a unit or all false.
fn visit(x: &[u16], n: usize, work: &mut [u16], masks: &mut [u64], p: usize, best: u32) -> u32
    requires indexed { Indexed x.now n }
    requires ready { Ready n work.old × Units masks.old }
    requires p_lt_n { (p < n) × (6 < (index_node x.now p).kind) }
    ensures visited { Visited (index_node x.now) n work.old masks.old p work.new masks.new }
    ensures onward { Onward work.old masks.old best work.new masks.new result }
{
    let e = state::entry(work, p) as usize;
    if e == 0 {
        return best;
    }
    let code = clause::code_of_three(x, n, work, p, (e - 1) % 2);
    if code % 4 != 0 {
        return enter(x, n, work, masks, p, (e - 1) / 2, code, best);
    }
    best
}

// The edge of a node at offset k, as the node's literal of a sign has become true: so is what the clauses of its parent's literal come to,
// if that is held.
fn look(
    x: &[u16],
    n: usize,
    work: &mut [u16],
    masks: &mut [u64],
    node: usize,
    k: usize,
    sign: usize,
    best: u32,
) -> u32
    requires indexed { Indexed x.now n }
    requires ready { Ready n work.old × Units masks.old }
    requires node_lt_n { (node < n) × PairAt x.now node k × (sign < 2) }
    requires sign_value { value_of (g_of work.old) (2 * node + sign) ≡ holds }
    ensures visited { Visited (index_node x.now) n work.old masks.old (parent_of x.now k) work.new masks.new }
    ensures onward { Onward work.old masks.old best work.new masks.new result }
{
    let class = clause::class(x, n, work, node, k, sign);
    if class == 0 {
        return best;
    }
    let p = clause::parent(x, n, node, k);
    let e = state::entry(work, p) as usize;
    let q = (e - 1) / 2;
    if class == 1 {
        conflict(work, q);
        return best;
    }
    let other = clause::other(x, n, node, k);
    let kept = clause::kept(other, class);
    unit(work, masks, q, kept);
    earlier(best, q, kept)
}

// So with all parents of two operands of a node, whose edges are from `first` on below `end`.
fn touch_pairs(
    x: &[u16],
    n: usize,
    work: &mut [u16],
    masks: &mut [u64],
    node: usize,
    sign: usize,
    first: usize,
    end: usize,
    best: u32,
) -> u32
    requires indexed { Indexed x.now n }
    requires ready { Ready n work.old }
    requires touchable { Touchable (index_node x.now) n node work.old masks.old }
    requires node_lt_n { (node < n) × (sign < 2) × (value_of (g_of work.old) (2 * node + sign) ≡ holds) }
    requires first_value { (first ≡ first_of x.now node) × (end ≡ mid_of x.now node) }
    ensures walk { Walk (index_node x.now) n (ThreeFrom x.now node 0) work.old masks.old work.new masks.new }
    ensures onward { Onward work.old masks.old best work.new masks.new result }
{
    let mut k = first;
    let mut b = best;
    while k < end {
        b = look(x, n, work, masks, node, k, sign, b);
        k += 2;
    }
    b
}

// So with those of three, whose edges are from `first` on.
fn touch_threes(
    x: &[u16],
    n: usize,
    work: &mut [u16],
    masks: &mut [u64],
    node: usize,
    first: usize,
    best: u32,
) -> u32
    requires indexed { Indexed x.now n }
    requires ready { Ready n work.old }
    requires walk { Walk (index_node x.now) n (ThreeFrom x.now node 0) work.old masks.old work.old masks.old }
    requires node_lt_n { (node < n) × (first ≡ mid_of x.now node) }
    ensures touched { Touched (index_node x.now) n work.old masks.old work.new masks.new }
    ensures onward { Onward work.old masks.old best work.new masks.new result }
{
    let end = x[END + node] as usize;
    let mut b = best;
    for k in first..end {
        let p = clause::parent_of_three(x, n, node, k);
        b = visit(x, n, work, masks, p, b);
    }
    b
}

// So with all parents of a node.
fn touch(
    x: &[u16],
    n: usize,
    work: &mut [u16],
    masks: &mut [u64],
    node: usize,
    sign: usize,
    first: usize,
    mid: usize,
    best: u32,
) -> u32
    requires indexed { Indexed x.now n }
    requires ready { Ready n work.old }
    requires touchable { Touchable (index_node x.now) n node work.old masks.old }
    requires node_lt_n { (node < n) × (sign < 2) × (value_of (g_of work.old) (2 * node + sign) ≡ holds) }
    requires first_value { (first ≡ first_of x.now node) × (mid ≡ mid_of x.now node) }
    ensures touched { Touched (index_node x.now) n work.old masks.old work.new masks.new }
    ensures onward { Onward work.old masks.old best work.new masks.new result }
{
    let b = touch_pairs(x, n, work, masks, node, sign, first, mid, best);
    touch_threes(x, n, work, masks, node, mid, b)
}

// How many goals wait: the first that is not true, and all behind it.
fn waits(n: usize, goals: &[u16], work: &[u16]) -> u16
    requires ready { Ready n work.now }
    requires n_le_most_nodes { (n ≤ most_nodes) × Goals n goals.now }
    requires served { Served goals.now work.now }
    ensures { Waiting goals.now (g_of work.now) result }
{
    let start = goals.len() - work[WAITING] as usize;
    for k in start..goals.len() {
        if state::value(n, work, goals[k]) != 1 {
            return (goals.len() - k) as u16;
        }
    }
    0
}

// Whether two literals are the same, or it was found before.
fn hit(found: bool, g: u16, other: u16) -> bool
    ensures { result ≡ false → (found ≡ false) × (g ≡ other → ⊥) }
{
    if g == other {
        return true;
    }
    found
}

// Whether the negation of a literal is among the goals; no early end, so that several are looked at in one step.
fn denies(goals: &[u16], l: u16) -> bool
    requires { l < 2 * most_nodes }
    ensures { result ≡ false → Apart goals.now l }
{
    let other = clause::negated(l);
    let mut found = false;
    for g in goals {
        found = hit(found, *g, other);
    }
    found
}

// The goals that waited are looked at anew, as l has joined.
fn wait(n: usize, goals: &[u16], work: &mut [u16], l: u16)
    requires ready { Ready n work.old }
    requires n_le_most_nodes { (n ≤ most_nodes) × Goals n goals.now }
    requires served { Served goals.now work.old × (l < 2 * n) }
    ensures { Awaited goals.now l work.old work.new }
{
    if work[WAITING] == 0 {
        return;
    }
    work[WAITING] = waits(n, goals, work);
    if denies(goals, l) {
        work[DENIED] = 1;
    }
}

// The first unit of the set that forces an undecided literal, or NO_UNIT; positions before it leave the set. `foremost` is the first
// unit of all.
fn live(n: usize, work: &[u16], masks: &mut [u64], foremost: u32) -> u32
    requires ready { Ready n work.now × (n ≤ most_nodes) }
    requires units { Units masks.old × Forcing n work.now masks.old }
    requires fronts { Fronts work.now masks.old foremost }
    ensures { Lived work.now masks.old masks.new result }
{
    let mut u = foremost;
    while u != NO_UNIT {
        if state::value(n, work, (u % 4096) as u16) == 0 {
            return u;
        }
        units::leave(masks, (u / 65536) as usize);
        u = front(work, masks);
    }
    NO_UNIT
}

// The first unit of the set, or NO_UNIT where it is empty; best is that, or NO_UNIT where it is not known.
fn known(work: &[u16], masks: &[u64], best: u32) -> u32
    requires area_in_bounds { area ≤ length work.now }
    requires units { Units masks.now × ((q : ℕ) → q < positions → member masks.now q ≡ 1 → q < most_nodes) }
    requires foremost { Foremost work.now masks.now best }
    ensures { Fronts work.now masks.now result }
{
    if best != NO_UNIT {
        return best;
    }
    front(work, masks)
}

// The first unit of the set that forces an undecided literal, or NO_UNIT where there is none or a conflict; best is the first of all, or
// NO_UNIT where it is not known.
fn next_unit(n: usize, work: &[u16], masks: &mut [u64], best: u32) -> u32
    requires ready { Ready n work.now × (n ≤ most_nodes) }
    requires units { Units masks.old × Forcing n work.now masks.old }
    requires foremost { Foremost work.now masks.old best }
    ensures { Tidied work.now masks.old masks.new result }
{
    if work[CONFLICT] < NONE {
        return NO_UNIT;
    }
    let foremost = known(work, masks, best);
    live(n, work, masks, foremost)
}

// A literal, which is undecided, joins those held; which goals wait is not looked at. The answer is the next unit of the set, or NO_UNIT.
// Where its edges begin and the first unit are read before anything is stored, so that they do not wait for the stores; then each unit that
// an edge finds is compared with the first, and the set is looked into again only where there is none, or its literal has a value.
fn attach(x: &[u16], n: usize, work: &mut [u16], masks: &mut [u64], l: u16) -> u32
    requires indexed { Indexed x.now n }
    requires held { Held (index_node x.now) n work.old l masks.old }
    requires fresh { Fresh n (g_of work.old) l }
    ensures { Attached (index_node x.now) n l work.old masks.old work.new masks.new result }
{
    let h = state::count(work);
    let node = (l / 2) as usize;
    let sign = (l % 2) as usize;
    let first = x[FIRST + node] as usize;
    let mid = x[MID + node] as usize;
    let before = front(work, masks);
    state::push(n, work, l);
    let code = renew(x, n, work, masks, node, h as usize, sign);
    let best = touch(x, n, work, masks, node, sign, first, mid, before);
    state::number(work, h as usize, code / 8192);
    next_unit(n, work, masks, best)
}

// Where the first position of the set forces l, it leaves the set.
fn serve(work: &[u16], masks: &mut [u64], l: u16)
    requires area_in_bounds { area ≤ length work.now }
    requires units { Units masks.old × ((q : ℕ) → q < positions → member masks.old q ≡ 1 → q < most_nodes) }
    ensures { Taken work.now masks.old l masks.new }
{
    if units::some(masks) {
        let q = units::first(masks);
        if state::code(work, q) % 4096 == l {
            units::leave(masks, q);
        }
    }
}

// A literal, which is undecided, is assumed true.
pub fn assume(x: &[u16], n: usize, goals: &[u16], work: &mut [u16], masks: &mut [u64], l: u16)
    requires indexed { Indexed x.now n }
    requires goals { Goals n goals.now }
    requires holds { Holds (index_node x.now) n goals.now work.old masks.old }
    requires fresh { Fresh n (g_of work.old) l }
    ensures holds_2 { Holds (index_node x.now) n goals.now work.new masks.new }
    ensures work_after { g_of work.new ≡ l ∷ g_of work.old }
{
    serve(work, masks, l);
    attach(x, n, work, masks, l);
    wait(n, goals, work, l);
}

// A literal, which is undecided, is assumed true where no goal waits, as at a split. The answer is the next unit, or NO_UNIT where there is a
// conflict or no unit.
pub fn fork(x: &[u16], n: usize, goals: &[u16], work: &mut [u16], masks: &mut [u64], l: u16) -> u32
    requires indexed { Indexed x.now n }
    requires goals { Goals n goals.now }
    requires holds { Holds (index_node x.now) n goals.now work.old masks.old }
    requires fresh { Fresh n (g_of work.old) l × (waiting_of work.old ≡ 0) }
    ensures holds_2 { Holds (index_node x.now) n goals.now work.new masks.new }
    ensures work_after { g_of work.new ≡ l ∷ g_of work.old }
    ensures leads { Leads work.new masks.new result }
{
    attach(x, n, work, masks, l)
}

// The unit that is the next move joins. The answer is the one behind it, or NO_UNIT where there is a conflict or no unit.
pub fn join(x: &[u16], n: usize, goals: &[u16], work: &mut [u16], masks: &mut [u64], u: u32) -> u32
    requires indexed { Indexed x.now n }
    requires goals { Goals n goals.now }
    requires holds { Holds (index_node x.now) n goals.now work.old masks.old }
    requires picked { Picked work.old masks.old u }
    ensures holds_2 { Holds (index_node x.now) n goals.now work.new masks.new }
    ensures work_after { g_of work.new ≡ u % 4096 ∷ g_of work.old }
    ensures leads { Leads work.new masks.new result }
{
    units::leave(masks, (u / 65536) as usize);
    attach(x, n, work, masks, (u % 4096) as u16)
}

// A goal, which is undecided, joins. Which of the others wait is not looked at: no goal is noted as waiting.
fn enlist(x: &[u16], n: usize, goals: &[u16], work: &mut [u16], masks: &mut [u64], l: u16)
    requires indexed { Indexed x.now n }
    requires stands { Stands (index_node x.now) n goals.now work.old masks.old }
    requires fresh { Fresh n (g_of work.old) l }
    ensures stands_2 { Stands (index_node x.now) n goals.now work.new masks.new }
    ensures work_after { g_of work.new ≡ l ∷ g_of work.old }
{
    attach(x, n, work, masks, l);
    work[WAITING] = 0;
}

// The goals from k on are noted as waiting.
fn put_off(goals: &[u16], work: &mut [u16], k: usize)
    requires { (area ≤ length work.old) × (length goals.now ≤ question_size) × (k < length goals.now) }
    ensures { work.new ≡ set work.old 2 (length goals.now - k) }
{
    work[WAITING] = (goals.len() - k) as u16;
}

// Goal k joins, if it is undecided. Whether it is true then and no clause is all false; else it is noted where this ended.
pub fn join_goal(
    x: &[u16],
    n: usize,
    goals: &[u16],
    work: &mut [u16],
    masks: &mut [u64],
    k: usize,
) -> bool
    requires indexed { Indexed x.now n }
    requires goals { Goals n goals.now × (k < length goals.now) }
    requires stands { Stands (index_node x.now) n goals.now work.old masks.old × (most_nodes ≤ conflict_of work.old) }
    ensures { Enlisted (index_node x.now) n goals.now (get_or goals.now k 0) work.old work.new masks.new result }
{
    let l = goals[k];
    let v = state::value(n, work, l);
    if v == 1 {
        return true;
    }
    if v == 2 {
        put_off(goals, work, k);
        return false;
    }
    enlist(x, n, goals, work, masks, l);
    if NONE <= work[CONFLICT] {
        return true;
    }
    put_off(goals, work, k);
    false
}

// The cursor is set; no clause is all false, and this many goals wait.
fn settle(work: &mut [u16], cursor: u16, waiting: u16)
    requires { area ≤ length work.old }
    ensures { Settled work.old cursor waiting work.new }
{
    work[CURSOR] = cursor;
    work[CONFLICT] = NONE;
    work[WAITING] = waiting;
}

// The literals after the first `held` leave those held.
fn leave(n: usize, work: &mut [u16], held: u16)
    requires ready { Ready n work.old }
    requires n_le_most_nodes { (n ≤ most_nodes) × (held ≤ tail work.old 0) }
    ensures { Left n held work.old work.new }
{
    while held < state::count(work) {
        state::pop(n, work);
    }
}

// The literals after the first `held`, at least one, are assumed no more. With the first `held` the next move was a split.
pub fn undo_to(x: &[u16], n: usize, goals: &[u16], work: &mut [u16], masks: &mut [u64], held: u16)
    requires indexed { Indexed x.now n }
    requires goals { Goals n goals.now }
    requires holds { Holds (index_node x.now) n goals.now work.old masks.old }
    requires held_in_bounds { held < length (g_of work.old) }
    requires splits { Splits (expand (index_node x.now)) goals.now (drop (length (g_of work.old) - held) (g_of work.old)) }
    ensures holds_2 { Holds (index_node x.now) n goals.now work.new masks.new }
    ensures work_after { g_of work.new ≡ drop (length (g_of work.old) - held) (g_of work.old) }
{
    leave(n, work, held);
    let cursor = state::cursor_at(work, held as usize);
    settle(work, cursor, 0);
    units::drain(masks);
}

// Nothing is assumed.
pub fn start(x: &[u16], n: usize, goals: &[u16], work: &mut [u16], masks: &mut [u64])
    requires indexed { Indexed x.now n }
    requires goals { Goals n goals.now }
    requires area_in_bounds { (area ≤ length work.old) × (length masks.old ≡ words) }
    ensures holds { Holds (index_node x.now) n goals.now work.new masks.new }
    ensures work_after { g_of work.new ≡ [] }
{
    state::blank(n, work, 0);
    restart(x, n, goals, work, masks);
}

// So many clauses stand before those of the first literal.
fn rebase(work: &mut [u16], clauses: u16)
    requires { area ≤ length work.old }
    ensures { work.new ≡ set work.old (trail_at + bases_at) clauses }
{
    work[TRAIL + BASES] = clauses;
}

// No goal is false.
fn allow(work: &mut [u16])
    requires { area ≤ length work.old }
    ensures { work.new ≡ set work.old denied_at 0 }
{
    work[DENIED] = 0;
}

// Nothing is assumed any more: what is held, of whatever goals, leaves.
pub fn restart(x: &[u16], n: usize, goals: &[u16], work: &mut [u16], masks: &mut [u64])
    requires indexed { Indexed x.now n }
    requires goals { Goals n goals.now }
    requires ready { Ready n work.old × (length masks.old ≡ words) }
    ensures holds { Holds (index_node x.now) n goals.now work.new masks.new }
    ensures work_after { g_of work.new ≡ [] }
{
    let waiting = goals.len() as u16;
    leave(n, work, 0);
    rebase(work, waiting);
    allow(work);
    settle(work, 0, waiting);
    units::clear(masks);
}
