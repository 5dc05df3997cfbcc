// The calls for rooms under one allowance: up to 8 questions of one table, each with a work area and 1,024 setting bytes of its own.
#![tactic(auto)]

ghost use Rattle.std.specs.Prelude.{◌≡◌, ◌&&◌, ℕ, ◌*◌, ◌≤◌, leb, ltb, length, get_or};
ghost use Rattle.scope.specs.Table.{list_from};
ghost use Rattle.calculus.specs.Expansion.{expand};
ghost use Rattle.calculus.specs.Model.{Goals};
ghost use Rattle.index.specs.Index.{index_node};
ghost use Rattle.asking.specs.Asks.{Zeros};
ghost use Rattle.index.specs.Indexed.{Indexed};
ghost use Rattle.units.specs.Units.{words};
ghost use Rattle.replaying.specs.Standing.{stack_size};
ghost use Rattle.roomareas.specs.Changes.{most_questions};
ghost use Rattle.rounds.specs.Spent.{Pointed};
ghost use Rattle.rooms.specs.Rooms.{turned_of, told_of};
ghost use Rattle.rooms.specs.Calls.{Fit, AsksRooms, Went, Reported, OpensRooms, TurnsRooms};

use scope::Refusal;

// What a call answers of its questions: how many they are, and for each the turns made in this call and its verdict, 0 impossible, 1
// possible, 2 unfinished; and 0 for those that are not.
#[derive(Clone, Copy)]
pub struct Told {
    pub count: usize,
    pub turns: [usize; 8],
    pub verdicts: [u8; 8],
}

// Whether so many questions pass row 69.
fn few(count: usize) -> bool
    ensures { result ≡ (ltb 0 count && leb count most_questions) }
{
    0 < count && count <= 8
}

// The node count of a table to which each question may be put, and the index of its nodes; or the first row's refusal. x is zeros.
fn ask(
    t: &[u8],
    questions: &[u16],
    points: usize,
    area: usize,
    x: &mut [u16],
) -> Result<usize, Refusal>
    requires { Zeros x.old }
    ensures { AsksRooms t.now questions.now points area x.new result }
{
    let q = questions.len();
    if !few(q) {
        return Err(Refusal {
            number: 69,
            place: 0,
        });
    }
    asking::ask(t, questions, 1024 * q, points, area / q, x)
}

// The first call: each search stands at its start.
pub fn open(t: &[u8], questions: &[u16], settings: &[u8], work: &mut [u16]) -> Result<Told, Refusal>
    ensures { OpensRooms t.now questions.now settings.now work.old work.new (turned_of (told_of result)) }
{
    let mut x = [0u16; 22626];
    ask(t, questions, settings.len(), work.len(), &mut x)?;
    let count = questions.len();
    let mut verdicts = [0u8; 8];
    roomareas::open(count, work, &mut verdicts);
    Ok(Told {
        count,
        turns: [0; 8],
        verdicts,
    })
}

// The searches are taken up, an allowance of turns is spent on them, and they are put down.
fn spend_in(
    x: &[u16],
    n: usize,
    questions: &[u16],
    settings: &mut [u8],
    work: &mut [u16],
    masks: &mut [u64],
    opens: &mut [u16],
    allowance: usize,
    turns: &mut [usize],
    verdicts: &mut [u8],
)
    requires indexed { Indexed x.now n }
    requires pointed { Pointed x.now n }
    requires goals { Goals n questions.now }
    requires fit { Fit questions.now (length settings.old) (length work.old) }
    requires questions_in_bounds { (words * length questions.now ≤ length masks.old) × (stack_size * length questions.now ≤ length opens.old) }
    requires turns_len { (length turns.old ≡ most_questions) × (length verdicts.old ≡ most_questions) }
    requires by_index { (i : ℕ) → get_or turns.old i 0 ≡ 0 }
    requires by_index_2 { (i : ℕ) → get_or verdicts.old i 0 ≡ 0 }
    ensures went { Went (expand (index_node x.now)) (list_from (index_node x.now) 0 n) questions.now settings.old work.old allowance settings.new work.new }
    ensures reported { Reported (expand (index_node x.now)) questions.now work.old allowance turns.new verdicts.new }
{
    let first = roomareas::next(work);
    roomareas::take_up_all(x, n, questions, work, masks, opens, verdicts);
    let next = rounds::spend(
        x,
        n,
        questions,
        settings,
        work,
        masks,
        opens,
        verdicts,
        turns,
        first as usize,
        allowance,
    );
    roomareas::put_down(questions.len(), work, verdicts, next as u16);
}

// So they are, with M numbers for their sets of units and S for their stacks.
fn spend_over<const M: usize, const S: usize>(
    x: &[u16],
    n: usize,
    questions: &[u16],
    settings: &mut [u8],
    work: &mut [u16],
    allowance: usize,
    turns: &mut [usize],
    verdicts: &mut [u8],
)
    requires indexed { Indexed x.now n }
    requires pointed { Pointed x.now n }
    requires goals { Goals n questions.now }
    requires fit { Fit questions.now (length settings.old) (length work.old) }
    requires questions_in_bounds { (words * length questions.now ≤ M) × (stack_size * length questions.now ≤ S) }
    requires sizes { (M ≤ 264) × (S ≤ 16136) }
    requires turns_len { (length turns.old ≡ most_questions) × (length verdicts.old ≡ most_questions) }
    requires by_index { (i : ℕ) → get_or turns.old i 0 ≡ 0 }
    requires by_index_2 { (i : ℕ) → get_or verdicts.old i 0 ≡ 0 }
    ensures went { Went (expand (index_node x.now)) (list_from (index_node x.now) 0 n) questions.now settings.old work.old allowance settings.new work.new }
    ensures reported { Reported (expand (index_node x.now)) questions.now work.old allowance turns.new verdicts.new }
{
    let mut masks = [0u64; M];
    let mut opens = [0u16; S];
    spend_in(
        x, n, questions, settings, work, &mut masks, &mut opens, allowance, turns, verdicts,
    );
}

// An allowance of turns is spent on the searches, each taken up for its turn and put down after it.
fn spend_few(
    x: &[u16],
    n: usize,
    questions: &[u16],
    settings: &mut [u8],
    work: &mut [u16],
    allowance: usize,
    turns: &mut [usize],
    verdicts: &mut [u8],
)
    requires indexed { Indexed x.now n }
    requires pointed { Pointed x.now n }
    requires goals { Goals n questions.now }
    requires fit { Fit questions.now (length settings.old) (length work.old) }
    requires turns_len { (length turns.old ≡ most_questions) × (length verdicts.old ≡ most_questions) }
    requires by_index { (i : ℕ) → get_or turns.old i 0 ≡ 0 }
    requires by_index_2 { (i : ℕ) → get_or verdicts.old i 0 ≡ 0 }
    ensures went { Went (expand (index_node x.now)) (list_from (index_node x.now) 0 n) questions.now settings.old work.old allowance settings.new work.new }
    ensures reported { Reported (expand (index_node x.now)) questions.now work.old allowance turns.new verdicts.new }
{
    let up = roomareas::next(work);
    roomareas::look(questions.len(), work, verdicts);
    let next = rounds::spend_few(
        x,
        n,
        questions,
        settings,
        work,
        verdicts,
        turns,
        up as usize,
        allowance,
    );
    roomareas::put_next(work, next as u16);
}

// An allowance of turns is spent on the searches; where none would have two turns, only those that have one are taken up.
fn spend(
    x: &[u16],
    n: usize,
    questions: &[u16],
    settings: &mut [u8],
    work: &mut [u16],
    allowance: usize,
    turns: &mut [usize],
    verdicts: &mut [u8],
)
    requires indexed { Indexed x.now n }
    requires pointed { Pointed x.now n }
    requires goals { Goals n questions.now }
    requires fit { Fit questions.now (length settings.old) (length work.old) }
    requires turns_len { (length turns.old ≡ most_questions) × (length verdicts.old ≡ most_questions) }
    requires by_index { (i : ℕ) → get_or turns.old i 0 ≡ 0 }
    requires by_index_2 { (i : ℕ) → get_or verdicts.old i 0 ≡ 0 }
    ensures went { Went (expand (index_node x.now)) (list_from (index_node x.now) 0 n) questions.now settings.old work.old allowance settings.new work.new }
    ensures reported { Reported (expand (index_node x.now)) questions.now work.old allowance turns.new verdicts.new }
{
    if questions.len() == 1 {
        spend_over::<33, 2017>(x, n, questions, settings, work, allowance, turns, verdicts);
        return;
    }
    if roomareas::unfinished(questions.len(), work) < allowance {
        spend_over::<264, 16136>(x, n, questions, settings, work, allowance, turns, verdicts);
    } else {
        spend_few(x, n, questions, settings, work, allowance, turns, verdicts);
    }
}

// A later call: an allowance of turns is spent on the searches, which go on where their areas say that they stand.
pub fn turn(
    t: &[u8],
    questions: &[u16],
    settings: &mut [u8],
    work: &mut [u16],
    allowance: usize,
) -> Result<Told, Refusal>
    ensures { TurnsRooms t.now questions.now settings.old work.old allowance settings.new work.new (turned_of (told_of result)) }
{
    let mut x = [0u16; 22626];
    let n = ask(t, questions, settings.len(), work.len(), &mut x)?;
    let mut turns = [0usize; 8];
    let mut verdicts = [0u8; 8];
    spend(
        &x,
        n,
        questions,
        settings,
        work,
        allowance,
        &mut turns,
        &mut verdicts,
    );
    Ok(Told {
        count: questions.len(),
        turns,
        verdicts,
    })
}
