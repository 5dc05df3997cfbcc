// The trail in the work area: a literal joins or the newest leaves, with their values. The layout is in specs/Work.antt.
#![tactic(auto)]

ghost use Rattle.std.specs.Prelude.{◌≡◌, ◌+◌, ◌-◌, ◌*◌, ◌≤◌, ◌<◌, length};
ghost use Rattle.calculus.specs.Model.{Fresh};
ghost use Rattle.calculus.specs.Order.{value_of};
ghost use Rattle.index.specs.Index.{most_nodes};
ghost use Rattle.state.specs.Work.{area, tail, lit_at, entry_of, base_of, cursor_at, code_at, g_of, conflict_of, waiting_of, value_code, Ready};
ghost use Rattle.state.specs.Changes.{values_set, entry_set, base_set, code_set, Pushed, Popped, Wiped, Blank};

// The cursor: every clause of the positions before it is met.
const CURSOR: usize = 0;

// The first position that has a conflict, or none.
const CONFLICT: usize = 1;

// How many goals wait.
const WAITING: usize = 2;

// The trail: the count of the literals held, the literals, each node's entry (2 * position + sign + 1, or 0), how many clauses stand before
// each literal's, each literal's value, the cursor as each literal joined, what is kept of its units.
const TRAIL: usize = 4;

const LITERALS: usize = 1;

const ENTRIES: usize = 2017;

const BASES: usize = 4034;

const VALUES: usize = 6051;

const VALUES_SIZE: usize = 4032;

const CURSORS: usize = 10083;

const CODES: usize = 12100;

// How many goals wait, as last noted.
pub fn waiting(work: &[u16]) -> u16
    requires { area ≤ length work.now }
    ensures { result ≡ waiting_of work.now }
{
    work[WAITING]
}

// The first position that has a conflict, or none.
pub fn conflict(work: &[u16]) -> u16
    requires { area ≤ length work.now }
    ensures { result ≡ conflict_of work.now }
{
    work[CONFLICT]
}

// How many literals are held.
pub fn count(work: &[u16]) -> u16
    requires { area ≤ length work.now }
    ensures { result ≡ length (g_of work.now) }
{
    work[TRAIL]
}

// The literal at position q.
pub fn literal(work: &[u16], q: usize) -> u16
    requires { (area ≤ length work.now) × (q < most_nodes) }
    ensures { result ≡ lit_at (tail work.now) q }
{
    work[TRAIL + (LITERALS + q)]
}

// The entry of node p.
pub fn entry(work: &[u16], p: usize) -> u16
    requires { (area ≤ length work.now) × (p < most_nodes) }
    ensures { result ≡ entry_of (tail work.now) p }
{
    work[TRAIL + (ENTRIES + p)]
}

// How many clauses stand before those of position q.
pub fn base(work: &[u16], q: usize) -> u16
    requires { (area ≤ length work.now) × (q ≤ most_nodes) }
    ensures { result ≡ base_of (tail work.now) q }
{
    work[TRAIL + (BASES + q)]
}

// The cursor as the literal at position q joined.
pub fn cursor_at(work: &[u16], q: usize) -> u16
    requires { (area ≤ length work.now) × (q < most_nodes) }
    ensures { result ≡ cursor_at (tail work.now) q }
{
    work[TRAIL + (CURSORS + q)]
}

// What is kept of the units of position q.
pub fn code(work: &[u16], q: usize) -> u16
    requires { (area ≤ length work.now) × (q < most_nodes) }
    ensures { result ≡ code_at (tail work.now) q }
{
    work[TRAIL + (CODES + q)]
}

// It is kept.
pub fn put_code(work: &mut [u16], q: usize, code: u16)
    requires { (area ≤ length work.old) × (q < most_nodes) }
    ensures { work.new ≡ code_set work.old q code }
{
    work[TRAIL + (CODES + q)] = code;
}

// The value of a literal: 0 undecided, 1 true, 2 false.
pub fn value(n: usize, work: &[u16], l: u16) -> u16
    requires ready { Ready n work.now }
    requires n_le_most_nodes { (n ≤ most_nodes) × (l < 2 * n) }
    ensures { result ≡ value_code (value_of (g_of work.now) l) }
{
    work[TRAIL + (VALUES + l as usize)]
}

// The values of a literal and of its negation become v and u.
fn set_values(work: &mut [u16], l: u16, v: u16, u: u16)
    requires { (area ≤ length work.old) × (l < 2 * most_nodes) }
    ensures { work.new ≡ values_set work.old l v u }
{
    let other = clause::negated(l);
    work[TRAIL + (VALUES + l as usize)] = v;
    work[TRAIL + (VALUES + other as usize)] = u;
}

// Both become 0. They stand side by side, so that it is one store.
fn clear_values(work: &mut [u16], l: u16)
    requires { (area ≤ length work.old) × (l < 2 * most_nodes) }
    ensures { work.new ≡ values_set work.old l 0 0 }
{
    let even = 2 * (l / 2) as usize;
    work[TRAIL + (VALUES + even)] = 0;
    work[TRAIL + (VALUES + (even + 1))] = 0;
}

// A literal is entered at position h, the last.
fn enter(work: &mut [u16], h: u16, l: u16)
    requires { (area ≤ length work.old) × (l < 2 * most_nodes) × (h < most_nodes) }
    ensures { work.new ≡ entry_set work.old h l }
{
    work[TRAIL + (ENTRIES + (l / 2) as usize)] = 2 * h + l % 2 + 1;
    work[TRAIL + (LITERALS + h as usize)] = l;
    work[TRAIL] = h + 1;
}

// A literal joins those held.
pub fn push(n: usize, work: &mut [u16], l: u16)
    requires ready { Ready n work.old }
    requires n_le_most_nodes { (n ≤ most_nodes) × Fresh n (g_of work.old) l × (tail work.old 0 < most_nodes) }
    ensures { Pushed n l work.old work.new }
{
    let h = work[TRAIL];
    set_values(work, l, 1, 2);
    work[TRAIL + (CURSORS + h as usize)] = work[CURSOR];
    enter(work, h, l);
}

// The literal at position h has so many clauses.
pub fn number(work: &mut [u16], h: usize, more: u16)
    requires { (area ≤ length work.old) × (h < most_nodes) × (base_of (tail work.old) h + more < 65536) }
    ensures { work.new ≡ base_set work.old h more }
{
    let b = base(work, h);
    work[TRAIL + (BASES + (h + 1))] = b + more;
}

// The newest literal leaves those held.
pub fn pop(n: usize, work: &mut [u16])
    requires ready { Ready n work.old }
    requires n_le_most_nodes { (n ≤ most_nodes) × (0 < tail work.old 0) × (tail work.old 0 ≤ most_nodes) }
    requires work_bound { lit_at (tail work.old) (tail work.old 0 - 1) < 2 * most_nodes }
    ensures { Popped n work.old work.new }
{
    let h = work[TRAIL] - 1;
    let l = work[TRAIL + (LITERALS + h as usize)];
    clear_values(work, l);
    work[TRAIL + (ENTRIES + (l / 2) as usize)] = 0;
    work[TRAIL] = h;
}

// So many numbers from a place on become 0.
fn wipe(work: &mut [u16], from: usize, many: usize)
    requires { from + many ≤ length work.old }
    ensures { Wiped work.old from many work.new }
{
    work[from..from + many].fill(0);
}

// Nothing is held; so many clauses stand before those of the first literal. No entry is read but those of the n nodes.
pub fn blank(n: usize, work: &mut [u16], clauses: u16)
    requires { (area ≤ length work.old) × (n ≤ most_nodes) }
    ensures { Blank n clauses work.new }
{
    wipe(work, TRAIL + ENTRIES, n);
    wipe(work, TRAIL + VALUES, VALUES_SIZE);
    work[TRAIL] = 0;
    work[TRAIL + BASES] = clauses;
}
