// Questions under one allowance: turns go round over the unfinished ones. Searches don't touch each other, so each question makes its turns of
// all full laps in a row, and only what is then left of the allowance goes round turn by turn.
#![tactic(auto)]

ghost use Rattle.std.specs.Prelude.{◌≡◌, ◌∷◌, [], ℕ, ◌+◌, ◌-◌, ◌*◌, ◌≤◌, ◌<◌, ltb, length, get_or};
ghost use Rattle.calculus.specs.Count.{one, tally};
ghost use Rattle.calculus.specs.Expansion.{expand};
ghost use Rattle.calculus.specs.Model.{Goals};
ghost use Rattle.index.specs.Index.{index_node};
ghost use Rattle.index.specs.Indexed.{Indexed};
ghost use Rattle.units.specs.Units.{words};
ghost use Rattle.state.specs.Work.{g_of, Ready};
ghost use Rattle.turns.specs.Turn.{running, number_of, turn, times};
ghost use Rattle.turns.specs.Round.{seek as seek_from, up_next};
ghost use Rattle.replaying.specs.Standing.{stack_size, number_by, Stands, Turned};
ghost use Rattle.roomareas.specs.Areas.{area_size, points_size, part_of, goals_of, search_in};
ghost use Rattle.roomareas.specs.Changes.{most_questions, Roomy, Lendable, MadeAt, search_at, Sits};
ghost use Rattle.rounds.specs.Spent.{runs_by, Sought, Pointed, MarkedAt, Served, Climbs, laps_by, LastOf, VerdictPut, Stepped, SteppedAt, Spent};

use replaying::{Ran, Verdict};

// The numbers of an area, of a set of units and of a stack, and the setting bytes of a question.
const AREA: usize = 32768;

const MASKS: usize = 33;

const STACK: usize = 2017;

const POINTS: usize = 1024;

// In an area, what its search has come to.
const VERDICT: usize = 0;

// The byte of a search that is not over.
const UNFINISHED: u8 = Verdict::Unfinished as u8;

// The first unfinished question from one on, up to another.
fn seek(verdicts: &[u8], from: usize, to: usize) -> Option<usize>
    requires { to ≤ length verdicts.now }
    ensures { Sought (seek_from (runs_by verdicts.now) from (to - from)) to result }
{
    for i in from..to {
        if verdicts[i] == UNFINISHED {
            return Some(i);
        }
    }
    None
}

// The question that is up next, if any is unfinished.
fn up_next(verdicts: &[u8], q: usize, next: usize) -> Option<usize>
    requires { q ≤ length verdicts.now }
    ensures { Sought (up_next (runs_by verdicts.now) q next) q result }
{
    if let Some(i) = seek(verdicts, next, q) {
        return Some(i);
    }
    seek(verdicts, 0, q)
}

// Question i, whose goal is given, makes up to so many turns.
fn run_at(
    x: &[u16],
    n: usize,
    goal: u16,
    work: &mut [u16],
    masks: &mut [u64],
    opens: &mut [u16],
    i: usize,
    most: usize,
) -> Ran
    requires indexed { Indexed x.now n }
    requires goal_bound { goal < 2 * n }
    requires lendable { Lendable i work.old masks.old opens.old }
    requires stands { Stands (index_node x.now) n (goal ∷ []) (part_of area_size i work.old) (part_of words i masks.old) (part_of stack_size i opens.old) }
    ensures made_at { MadeAt (index_node x.now) n (goal ∷ []) i work.old masks.old opens.old work.new masks.new opens.new (times (turn (expand (index_node x.now)) (goal ∷ [])) result.made (running (g_of (part_of area_size i work.old)))) (number_by result.verdict) }
    ensures turned { Turned (turn (expand (index_node x.now)) (goal ∷ [])) (running (g_of (part_of area_size i work.old))) most result.made }
    ensures ready { Ready n (part_of area_size i work.new) }
{
    let goals = [goal];
    let a = AREA * i;
    let b = MASKS * i;
    let c = STACK * i;
    replaying::run(
        x,
        n,
        &goals,
        &mut work[a..a + AREA],
        &mut masks[b..b + MASKS],
        &mut opens[c..c + STACK],
        most,
    )
}

// Question i's setting bytes become those of the literals that its area holds.
fn mark(x: &[u16], n: usize, work: &[u16], settings: &mut [u8], i: usize)
    requires indexed { Indexed x.now n }
    requires pointed { Pointed x.now n }
    requires i_lt_most_questions { (i < most_questions) × (area_size * (i + 1) ≤ length work.now) × (points_size * (i + 1) ≤ length settings.old) }
    requires ready { Ready n (part_of area_size i work.now) }
    ensures { MarkedAt (index_node x.now) n i work.now settings.old settings.new }
{
    let a = AREA * i;
    let p = POINTS * i;
    deciding::set_points(x, n, &work[a..a + AREA], &mut settings[p..p + POINTS]);
}

// Question i makes up to so many turns; where they find a model, its setting bytes become the model's.
fn serve(
    x: &[u16],
    n: usize,
    questions: &[u16],
    settings: &mut [u8],
    work: &mut [u16],
    masks: &mut [u64],
    opens: &mut [u16],
    i: usize,
    most: usize,
) -> Ran
    requires indexed { Indexed x.now n }
    requires pointed { Pointed x.now n }
    requires goals { Goals n questions.now }
    requires i_in_bounds { (i < length questions.now) × (points_size * (i + 1) ≤ length settings.old) }
    requires lendable { Lendable i work.old masks.old opens.old }
    requires stands { Stands (index_node x.now) n (goals_of questions.now i) (part_of area_size i work.old) (part_of words i masks.old) (part_of stack_size i opens.old) }
    ensures { Served (index_node x.now) n questions.now i most result.made settings.old work.old masks.old opens.old settings.new work.new masks.new opens.new (number_by result.verdict) }
{
    let ran = run_at(x, n, questions[i], work, masks, opens, i, most);
    if let Verdict::Possible = ran.verdict {
        mark(x, n, work, settings, i);
    }
    ran
}

// One where question i stands before the first one up: its turn of the first lap was made before this call.
fn ahead(i: usize, first: usize) -> usize
    ensures { result ≡ one (ltb i first) }
{
    if i < first { 1 } else { 0 }
}

// How many of q questions are unfinished.
fn unfinished(verdicts: &[u8], q: usize) -> usize
    requires { (q ≤ most_questions) × (length verdicts.now ≡ most_questions) }
    ensures { result ≡ tally (runs_by verdicts.now) q }
{
    verdicts[..q].iter().filter(|v| **v == UNFINISHED).count()
}

// How many full laps of the unfinished questions an allowance has. It only chooses a way to the same answers, so no more is said than that
// they fit.
fn laps_in(verdicts: &[u8], q: usize, allowance: usize) -> usize
    requires { (q ≤ most_questions) × (length verdicts.now ≡ most_questions) }
    ensures { (result ≤ allowance) × (result * tally (runs_by verdicts.now) q ≤ allowance) }
{
    let c = unfinished(verdicts, q);
    if c == 0 {
        return 0;
    }
    allowance / c
}

// The full laps of an allowance, which each question makes in a row. The answer is how many turns that were.
fn climb(
    x: &[u16],
    n: usize,
    questions: &[u16],
    settings: &mut [u8],
    work: &mut [u16],
    masks: &mut [u64],
    opens: &mut [u16],
    verdicts: &mut [u8],
    turns: &mut [usize],
    first: usize,
    allowance: usize,
) -> usize
    requires indexed { Indexed x.now n }
    requires pointed { Pointed x.now n }
    requires goals { Goals n questions.now }
    requires roomy { Roomy (length questions.now) work.old masks.old opens.old verdicts.old }
    requires questions_in_bounds { (points_size * length questions.now ≤ length settings.old) × (length turns.old ≡ most_questions) }
    requires by_index { (i : ℕ) → get_or turns.old i 0 ≡ 0 }
    requires sits { Sits (index_node x.now) n questions.now work.old masks.old opens.old verdicts.old }
    ensures climbs { Climbs (index_node x.now) n questions.now settings.old verdicts.old (search_at work.old verdicts.old) first allowance settings.new verdicts.new turns.new (search_at work.new verdicts.new) result }
    ensures sits_2 { Sits (index_node x.now) n questions.now work.new masks.new opens.new verdicts.new }
{
    let laps = laps_in(verdicts, questions.len(), allowance);
    let mut spent = 0;
    if laps == 0 {
        return 0;
    }
    for i in 0..questions.len() {
        if verdicts[i] != UNFINISHED {
            continue;
        }
        let most = laps - ahead(i, first);
        let ran = serve(x, n, questions, settings, work, masks, opens, i, most);
        verdicts[i] = ran.verdict.number();
        turns[i] = ran.made;
        spent += ran.made;
    }
    spent
}

// The number after that of the question that had the last turn of k, made in laps: of those with the most laps, the last.
fn after(turns: &[usize], q: usize, first: usize, k: usize) -> usize
    requires q_le_most_questions { (q ≤ most_questions) × (length turns.now ≡ most_questions) }
    requires by_index { (i : ℕ) → i < q → laps_by first turns.now i < 18446744073709551616 }
    ensures { LastOf q first turns.now k result }
{
    let mut next = 0;
    let mut most = 0;
    if k == 0 {
        return first;
    }
    for w in 0..q {
        let made = turns[w] + ahead(w, first);
        if most <= made {
            most = made;
            next = w + 1;
        }
    }
    next
}

// Turns go round until the allowance is spent or every question is finished. The answer is whose turn is next.
pub fn spend(
    x: &[u16],
    n: usize,
    questions: &[u16],
    settings: &mut [u8],
    work: &mut [u16],
    masks: &mut [u64],
    opens: &mut [u16],
    verdicts: &mut [u8],
    turns: &mut [usize],
    first: usize,
    allowance: usize,
) -> usize
    requires indexed { Indexed x.now n }
    requires pointed { Pointed x.now n }
    requires goals { Goals n questions.now }
    requires roomy { Roomy (length questions.now) work.old masks.old opens.old verdicts.old }
    requires questions_in_bounds { (points_size * length questions.now ≤ length settings.old) × (length turns.old ≡ most_questions) }
    requires by_index { (i : ℕ) → get_or turns.old i 0 ≡ 0 }
    requires sits { Sits (index_node x.now) n questions.now work.old masks.old opens.old verdicts.old }
    ensures spent { Spent (index_node x.now) n questions.now settings.old verdicts.old (search_at work.old verdicts.old) first allowance settings.new verdicts.new turns.new (search_at work.new verdicts.new) result }
    ensures sits_2 { Sits (index_node x.now) n questions.now work.new masks.new opens.new verdicts.new }
{
    let spent = climb(
        x, n, questions, settings, work, masks, opens, verdicts, turns, first, allowance,
    );
    let mut next = after(turns, questions.len(), first, spent);
    for k in spent..allowance {
        let Some(i) = up_next(verdicts, questions.len(), next) else {
            return next;
        };
        let ran = serve(x, n, questions, settings, work, masks, opens, i, 1);
        verdicts[i] = ran.verdict.number();
        turns[i] += 1;
        next = i + 1;
    }
    next
}

// What a search has come to is put into its area.
fn put(work: &mut [u16], v: u8)
    requires { length work.old ≡ area_size }
    ensures { VerdictPut v work.old work.new }
{
    work[VERDICT] = v as u16;
}

// A search is taken up from its area, makes a turn and is put down there; where it finds a model, the setting bytes become the model's. What
// it has then come to.
fn step(x: &[u16], n: usize, goals: &[u16], settings: &mut [u8], work: &mut [u16]) -> u8
    requires indexed { Indexed x.now n }
    requires pointed { Pointed x.now n }
    requires goals { Goals n goals.now }
    requires goals_len { (length goals.now ≡ 1) × (length work.old ≡ area_size) × (length settings.old ≡ points_size) }
    ensures { Stepped (index_node x.now) n goals.now settings.old work.old settings.new work.new result }
{
    let mut masks = [0u64; 33];
    let mut opens = [0u16; 2017];
    let mut verdicts = [2u8; 8];
    let mut turns = [0usize; 8];
    replaying::resume(x, n, goals, work, &mut masks, &mut opens);
    spend(
        x,
        n,
        goals,
        settings,
        work,
        &mut masks,
        &mut opens,
        &mut verdicts,
        &mut turns,
        0,
        1,
    );
    let v = verdicts[0];
    put(work, v);
    v
}

// So does question i's, whose goal is given.
fn step_at(x: &[u16], n: usize, goal: u16, settings: &mut [u8], work: &mut [u16], i: usize) -> u8
    requires indexed { Indexed x.now n }
    requires pointed { Pointed x.now n }
    requires goal_bound { goal < 2 * n }
    requires i_lt_most_questions { (i < most_questions) × (area_size * (i + 1) ≤ length work.old) × (points_size * (i + 1) ≤ length settings.old) }
    ensures { SteppedAt (index_node x.now) n (goal ∷ []) i settings.old work.old settings.new work.new result }
{
    let goals = [goal];
    let a = AREA * i;
    let p = POINTS * i;
    step(
        x,
        n,
        &goals,
        &mut settings[p..p + POINTS],
        &mut work[a..a + AREA],
    )
}

// Turns go round as in `spend`, but each search is taken up for its turn and put down after it: for allowances that serve a search once.
pub fn spend_few(
    x: &[u16],
    n: usize,
    questions: &[u16],
    settings: &mut [u8],
    work: &mut [u16],
    verdicts: &mut [u8],
    turns: &mut [usize],
    first: usize,
    allowance: usize,
) -> usize
    requires indexed { Indexed x.now n }
    requires pointed { Pointed x.now n }
    requires goals { Goals n questions.now }
    requires questions_len_bound { (length questions.now ≤ most_questions) × (area_size * length questions.now ≤ length work.old) × (length verdicts.old ≡ most_questions) }
    requires questions_in_bounds { (points_size * length questions.now ≤ length settings.old) × (length turns.old ≡ most_questions) }
    requires by_index { (i : ℕ) → get_or turns.old i 0 ≡ 0 }
    requires by_index_2 { (i : ℕ) → i < length questions.now → get_or verdicts.old i 0 ≡ number_of (search_in (expand (index_node x.now)) questions.now work.old i) }
    ensures { Spent (index_node x.now) n questions.now settings.old verdicts.old (search_in (expand (index_node x.now)) questions.now work.old) first allowance settings.new verdicts.new turns.new (search_in (expand (index_node x.now)) questions.now work.new) result }
{
    let mut next = first;
    for spent in 0..allowance {
        let Some(w) = up_next(verdicts, questions.len(), next) else {
            return next;
        };
        verdicts[w] = step_at(x, n, questions[w], settings, work, w);
        turns[w] += 1;
        next = w + 1;
    }
    next
}
