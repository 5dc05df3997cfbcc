// One question's search, which stops after any turn: it is taken up by replaying the literals that its area holds, and makes turns one after
// another. The solver's contracts are used as they are, so that an area of any contents is safe: literals that do not replay are dropped.
#![tactic(auto)]

ghost use Rattle.std.specs.Prelude.{◌≡◌, [], ◌∷◌, ◌≤◌, ◌<◌, length, get_or};
ghost use Rattle.calculus.specs.Expansion.{expand};
ghost use Rattle.calculus.specs.Order.{move};
ghost use Rattle.calculus.specs.Model.{Goals};
ghost use Rattle.calculus.specs.declared.Move.TheVariants.{Split};
ghost use Rattle.index.specs.Index.{most_nodes, index_node};
ghost use Rattle.index.specs.Indexed.{Indexed};
ghost use Rattle.units.specs.Units.{words};
ghost use Rattle.state.specs.Work.{area, g_of, Ready};
ghost use Rattle.turns.specs.Turn.{running, back, turn as turn_of, times, taken_up};
ghost use Rattle.replaying.specs.Standing.{stack_size, stack_of, number_by, Stands, Followed, Replayed, Made, Turned};

use calculus::Move;

// What a search has come to.
#[derive(Clone, Copy)]
pub enum Verdict {
    Impossible,
    Possible,
    Unfinished,
}

impl Verdict {
    // The number that areas and reports have for it.
    pub fn number(self) -> u8
        ensures { result ≡ number_by self }
    {
        self as u8
    }
}

// Turns made one after another: what the search has then come to, and how many they were.
#[derive(Clone, Copy)]
pub struct Ran {
    pub verdict: Verdict,
    pub made: usize,
}

// No unit is the next move.
const NO_UNIT: u32 = 4294967295;

// Where the trail stands in an area: the count of the literals held, and the literals.
const TRAIL: usize = 4;

// One more split is open, at which so many literals were held.
fn push(opens: &mut [u16], held: u16)
    requires { (length opens.old ≡ stack_size) × (get_or opens.old 0 0 < most_nodes) }
    ensures { stack_of opens.new ≡ held ∷ stack_of opens.old }
{
    let k = opens[0];
    opens[1 + k as usize] = held;
    opens[0] = k + 1;
}

// Nothing is held, and no split is open.
fn begin(x: &[u16], n: usize, goals: &[u16], work: &mut [u16], masks: &mut [u64], opens: &mut [u16])
    requires indexed { Indexed x.now n }
    requires goals { Goals n goals.now }
    requires area_in_bounds { (area ≤ length work.old) × (length masks.old ≡ words) × (length opens.old ≡ stack_size) }
    ensures stands { Stands (index_node x.now) n goals.now work.new masks.new opens.new }
    ensures work_after { g_of work.new ≡ [] }
{
    solver::start(x, n, goals, work, masks);
    opens[0] = 0;
}

// The literal of a split joins, and the split is open.
fn fork(
    x: &[u16],
    n: usize,
    goals: &[u16],
    work: &mut [u16],
    masks: &mut [u64],
    opens: &mut [u16],
    l: u16,
)
    requires indexed { Indexed x.now n }
    requires goals { Goals n goals.now }
    requires stands { Stands (index_node x.now) n goals.now work.old masks.old opens.old }
    requires work_value { move (expand (index_node x.now)) goals.now (g_of work.old) ≡ Split l }
    ensures stands_2 { Stands (index_node x.now) n goals.now work.new masks.new opens.new }
    ensures work_after { g_of work.new ≡ l ∷ g_of work.old }
{
    let held = state::count(work);
    push(opens, held);
    solver::assume(x, n, goals, work, masks, l);
}

// A literal that may have joined at a split on s joins again: s, or its negation where the split has turned. Whether it may.
fn follow_split(
    x: &[u16],
    n: usize,
    goals: &[u16],
    work: &mut [u16],
    masks: &mut [u64],
    opens: &mut [u16],
    s: u16,
    l: u16,
) -> bool
    requires indexed { Indexed x.now n }
    requires goals { Goals n goals.now }
    requires stands { Stands (index_node x.now) n goals.now work.old masks.old opens.old }
    requires work_value { move (expand (index_node x.now)) goals.now (g_of work.old) ≡ Split s }
    ensures { Followed (index_node x.now) n goals.now work.old work.new masks.new opens.new l result }
{
    if s == l {
        fork(x, n, goals, work, masks, opens, l);
        return true;
    }
    if clause::negated(s) != l {
        return false;
    }
    solver::assume(x, n, goals, work, masks, l);
    true
}

// A literal that may have joined at the next move joins again; whether it may.
fn follow(
    x: &[u16],
    n: usize,
    goals: &[u16],
    work: &mut [u16],
    masks: &mut [u64],
    opens: &mut [u16],
    l: u16,
) -> bool
    requires indexed { Indexed x.now n }
    requires goals { Goals n goals.now }
    requires stands { Stands (index_node x.now) n goals.now work.old masks.old opens.old }
    ensures { Followed (index_node x.now) n goals.now work.old work.new masks.new opens.new l result }
{
    let m = moves::next_move(x, n, goals, work, masks);
    match m {
        Move::Conflict(_) => false,
        Move::Unit(_, u) => {
            if u != l {
                return false;
            }
            solver::assume(x, n, goals, work, masks, l);
            true
        }
        Move::Done => false,
        Move::Split(s) => follow_split(x, n, goals, work, masks, opens, s, l),
    }
}

// Literals join again, one after another; whether all may. A unit joins with the next one found.
fn replay(
    x: &[u16],
    n: usize,
    goals: &[u16],
    work: &mut [u16],
    masks: &mut [u64],
    opens: &mut [u16],
    literals: &[u16],
) -> bool
    requires indexed { Indexed x.now n }
    requires goals { Goals n goals.now }
    requires stands { Stands (index_node x.now) n goals.now work.old masks.old opens.old }
    requires work_value { g_of work.old ≡ [] }
    requires literals_len { (length literals.now ≡ stack_size) × (get_or literals.now 0 0 ≤ most_nodes) }
    ensures { Replayed (index_node x.now) n goals.now (stack_of literals.now) work.new masks.new opens.new result }
{
    let held = literals[0] as usize;
    let mut u = moves::pick(work, masks);
    for &l in &literals[1..1 + held] {
        if u != NO_UNIT {
            if (u % 4096) as u16 != l {
                return false;
            }
            u = solver::join(x, n, goals, work, masks, u);
            continue;
        }
        if !follow(x, n, goals, work, masks, opens, l) {
            return false;
        }
        u = moves::pick(work, masks);
    }
    true
}

// The search is taken up at the literals that its area holds, or at its start where they do not replay.
pub fn resume(
    x: &[u16],
    n: usize,
    goals: &[u16],
    work: &mut [u16],
    masks: &mut [u64],
    opens: &mut [u16],
)
    requires indexed { Indexed x.now n }
    requires goals { Goals n goals.now }
    requires area_in_bounds { (area ≤ length work.old) × (length masks.old ≡ words) × (length opens.old ≡ stack_size) }
    ensures stands { Stands (index_node x.now) n goals.now work.new masks.new opens.new }
    ensures work_after { g_of work.new ≡ taken_up (expand (index_node x.now)) goals.now (g_of work.old) }
{
    let held = state::count(work);
    let mut literals = [0u16; 2017];
    literals.copy_from_slice(&work[TRAIL..TRAIL + 2017]);
    begin(x, n, goals, work, masks, opens);
    if n < held as usize {
        return;
    }
    if !replay(x, n, goals, work, masks, opens, &literals) {
        begin(x, n, goals, work, masks, opens);
    }
}

// A branch closes: the newest open split turns right, or none is open and the search is over.
fn turn_right(
    x: &[u16],
    n: usize,
    goals: &[u16],
    work: &mut [u16],
    masks: &mut [u64],
    opens: &mut [u16],
) -> Verdict
    requires indexed { Indexed x.now n }
    requires goals { Goals n goals.now }
    requires stands { Stands (index_node x.now) n goals.now work.old masks.old opens.old }
    ensures made { Made (index_node x.now) n goals.now work.new masks.new opens.new (back (expand (index_node x.now)) goals.now (g_of work.old)) (number_by result) }
    ensures ready { Ready n work.new }
{
    let k = opens[0];
    if k == 0 {
        return Verdict::Impossible;
    }
    let held = opens[k as usize];
    opens[0] = k - 1;
    let l = state::literal(work, held as usize);
    solver::undo_to(x, n, goals, work, masks, held);
    solver::assume(x, n, goals, work, masks, clause::negated(l));
    Verdict::Unfinished
}

// One turn of the plain order; what the search has then come to.
fn turn(
    x: &[u16],
    n: usize,
    goals: &[u16],
    work: &mut [u16],
    masks: &mut [u64],
    opens: &mut [u16],
) -> Verdict
    requires indexed { Indexed x.now n }
    requires goals { Goals n goals.now }
    requires stands { Stands (index_node x.now) n goals.now work.old masks.old opens.old }
    ensures made { Made (index_node x.now) n goals.now work.new masks.new opens.new (turn_of (expand (index_node x.now)) goals.now (running (g_of work.old))) (number_by result) }
    ensures ready { Ready n work.new }
{
    let m = moves::next_move(x, n, goals, work, masks);
    match m {
        Move::Conflict(_) => turn_right(x, n, goals, work, masks, opens),
        Move::Unit(_, l) => {
            solver::assume(x, n, goals, work, masks, l);
            Verdict::Unfinished
        }
        Move::Done => Verdict::Possible,
        Move::Split(l) => {
            fork(x, n, goals, work, masks, opens, l);
            Verdict::Unfinished
        }
    }
}

// Up to so many turns, one after another, until the search is over. A unit joins with the next one found.
pub fn run(
    x: &[u16],
    n: usize,
    goals: &[u16],
    work: &mut [u16],
    masks: &mut [u64],
    opens: &mut [u16],
    most: usize,
) -> Ran
    requires indexed { Indexed x.now n }
    requires goals { Goals n goals.now }
    requires stands { Stands (index_node x.now) n goals.now work.old masks.old opens.old }
    ensures made { Made (index_node x.now) n goals.now work.new masks.new opens.new (times (turn_of (expand (index_node x.now)) goals.now) result.made (running (g_of work.old))) (number_by result.verdict) }
    ensures turned { Turned (turn_of (expand (index_node x.now)) goals.now) (running (g_of work.old)) most result.made }
    ensures ready { Ready n work.new }
{
    let mut u = moves::pick(work, masks);
    for k in 0..most {
        if u != NO_UNIT {
            u = solver::join(x, n, goals, work, masks, u);
            continue;
        }
        match turn(x, n, goals, work, masks, opens) {
            Verdict::Unfinished => u = moves::pick(work, masks),
            over => return Ran {
                verdict: over,
                made: k + 1,
            },
        }
    }
    Ran {
        verdict: Verdict::Unfinished,
        made: most,
    }
}
