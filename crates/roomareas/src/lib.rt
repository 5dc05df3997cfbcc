// The questions' work areas, one after another: searches are taken up from them and put down there. What an area holds between calls is in
// specs/Areas.antt.
#![tactic(auto)]

ghost use Rattle.std.specs.Prelude.{◌≡◌, List, ◌∷◌, [], ℕ, ◌*◌, ◌≤◌, ◌<◌, length, get_or};
ghost use Rattle.calculus.specs.Expansion.{expand};
ghost use Rattle.calculus.specs.Model.{Goals};
ghost use Rattle.index.specs.Index.{index_node};
ghost use Rattle.index.specs.Indexed.{Indexed};
ghost use Rattle.units.specs.Units.{words};
ghost use Rattle.turns.specs.Turn.{number_of, resumed};
ghost use Rattle.replaying.specs.Standing.{stack_size, number_by, search_by, Made};
ghost use Rattle.roomareas.specs.Areas.{area_size, part_of, stored, next_at};
ghost use Rattle.roomareas.specs.Changes.{most_questions, Roomy, Lendable, MadeAt, TakenUp, PutDown, Opened, Looked, NextPut};

use replaying::Verdict;

// The numbers of an area, of a set of units and of a stack.
const AREA: usize = 32768;

const MASKS: usize = 33;

const STACK: usize = 2017;

// In an area: what its search has come to; in the first, whose turn is next; how many literals are held.
const VERDICT: usize = 0;

const NEXT: usize = 1;

const COUNT: usize = 4;

// The searches stand at their start, and the first question is next.
pub fn open(q: usize, work: &mut [u16], verdicts: &mut [u8])
    requires { (0 < q) × (q ≤ most_questions) × (area_size * q ≤ length work.old) × (length verdicts.old ≡ most_questions) }
    ensures { Opened q work.new verdicts.old verdicts.new }
{
    for i in 0..q {
        work[AREA * i + COUNT] = 0;
        work[AREA * i + VERDICT] = Verdict::Unfinished as u16;
        verdicts[i] = Verdict::Unfinished as u8;
    }
    work[NEXT] = 0;
}

// What an area's number says that its search has come to.
fn verdict(v: u16) -> Verdict
    ensures { (G : List ℕ) → number_by result ≡ number_of (search_by v G) }
{
    match v {
        0 => Verdict::Impossible,
        1 => Verdict::Possible,
        _ => Verdict::Unfinished,
    }
}

// A search is taken up from its area; what it has come to.
fn take_up(
    x: &[u16],
    n: usize,
    goals: &[u16],
    work: &mut [u16],
    masks: &mut [u64],
    opens: &mut [u16],
) -> Verdict
    requires indexed { Indexed x.now n }
    requires goals { Goals n goals.now }
    requires work_len { (length work.old ≡ area_size) × (length masks.old ≡ words) × (length opens.old ≡ stack_size) }
    ensures { Made (index_node x.now) n goals.now work.new masks.new opens.new (resumed (expand (index_node x.now)) goals.now (stored work.old)) (number_by result) }
{
    let v = verdict(work[VERDICT]);
    if let Verdict::Unfinished = v {
        replaying::resume(x, n, goals, work, masks, opens);
    }
    v
}

// So is that of question i, whose goal is given.
fn take_up_at(
    x: &[u16],
    n: usize,
    goal: u16,
    work: &mut [u16],
    masks: &mut [u64],
    opens: &mut [u16],
    i: usize,
) -> Verdict
    requires indexed { Indexed x.now n }
    requires goal_bound { goal < 2 * n }
    requires lendable { Lendable i work.old masks.old opens.old }
    ensures { MadeAt (index_node x.now) n (goal ∷ []) i work.old masks.old opens.old work.new masks.new opens.new (resumed (expand (index_node x.now)) (goal ∷ []) (stored (part_of area_size i work.old))) (number_by result) }
{
    let goals = [goal];
    let a = AREA * i;
    let b = MASKS * i;
    let c = STACK * i;
    take_up(
        x,
        n,
        &goals,
        &mut work[a..a + AREA],
        &mut masks[b..b + MASKS],
        &mut opens[c..c + STACK],
    )
}

// So is each question's.
pub fn take_up_all(
    x: &[u16],
    n: usize,
    questions: &[u16],
    work: &mut [u16],
    masks: &mut [u64],
    opens: &mut [u16],
    verdicts: &mut [u8],
)
    requires indexed { Indexed x.now n }
    requires goals { Goals n questions.now }
    requires roomy { Roomy (length questions.now) work.old masks.old opens.old verdicts.old }
    ensures { TakenUp (index_node x.now) n questions.now work.old verdicts.old work.new masks.new opens.new verdicts.new }
{
    for (i, &goal) in questions.iter().enumerate() {
        verdicts[i] = take_up_at(x, n, goal, work, masks, opens, i).number();
    }
}

// What the searches have come to is read off their areas; none is taken up.
pub fn look(q: usize, work: &[u16], verdicts: &mut [u8])
    requires { (q ≤ most_questions) × (area_size * q ≤ length work.now) × (length verdicts.old ≡ most_questions) }
    ensures { Looked q work.now verdicts.old verdicts.new }
{
    for i in 0..q {
        verdicts[i] = verdict(work[AREA * i + VERDICT]).number();
    }
}

// How many searches are not over. It only chooses a way to the same answers, so no more is said than that there are not too many.
pub fn unfinished(q: usize, work: &[u16]) -> usize
    requires { (q ≤ most_questions) × (area_size * q ≤ length work.now) }
    ensures { result ≤ q }
{
    (0..q).filter(|&i| 1 < work[AREA * i + VERDICT]).count()
}

// Whose turn is next.
pub fn next(work: &[u16]) -> u16
    requires { area_size ≤ length work.now }
    ensures { result ≡ get_or work.now next_at 0 }
{
    work[NEXT]
}

// Whose turn is next is put into the first area.
pub fn put_next(work: &mut [u16], up: u16)
    requires { area_size ≤ length work.old }
    ensures { NextPut up work.old work.new }
{
    work[NEXT] = up;
}

// What the searches have come to is put into their areas.
pub fn put_down(q: usize, work: &mut [u16], verdicts: &[u8], next: u16)
    requires { (0 < q) × (q ≤ most_questions) × (area_size * q ≤ length work.old) × (length verdicts.now ≡ most_questions) }
    ensures { PutDown q next work.old verdicts.now work.new }
{
    for i in 0..q {
        work[AREA * i + VERDICT] = verdicts[i] as u16;
    }
    work[NEXT] = next;
}
