// Overview: up to 256 goals of one table, each by itself. The table is read and indexed once.
#![tactic(auto)]

ghost use Rattle.std.specs.Prelude.{◌≡◌, ◌&&◌, [], ◌∷◌, ◌++◌, ◌*◌, ◌<◌, ◌≤◌, leb, ltb, length, drop};
ghost use Rattle.scope.specs.Outcome.{verdict_of};
ghost use Rattle.calculus.specs.Model.{Below};
ghost use Rattle.index.specs.Index.{index_node};
ghost use Rattle.index.specs.Indexed.{Indexed};
ghost use Rattle.state.specs.Work.{area, Ready};
ghost use Rattle.rests.specs.Words.{Sets};
ghost use Rattle.questions.specs.Asking.{asks};
ghost use Rattle.overview.specs.Overview.{most_asked, overview_row, byte_of, bytes_of};
ghost use Rattle.overview.specs.Overviews.{Overviews};

use scope::Refusal;
use searching::Found;

// Whether a list of so many goals, with so many answer bytes lent, passes row 68.
fn fits(count: usize, lent: usize) -> bool
    ensures { result ≡ (ltb 0 count && (leb count most_asked && leb count lent)) }
{
    0 < count && count <= 256 && count <= lent
}

// Row 68.
fn list_row(goals: &[u16], lent: usize) -> Result<(), Refusal>
    ensures { verdict_of result ≡ overview_row goals.now lent }
{
    if fits(goals.len(), lent) {
        return Ok(());
    }
    Err(Refusal {
        number: 68,
        place: 0,
    })
}

// The byte of a goal by itself: 1 possible, 0 impossible.
fn byte(x: &[u16; 22626], n: usize, goal: u16, work: &mut [u16], rests: &mut [u64; 4036]) -> u8
    requires indexed { Indexed x.now n }
    requires goal_bound { goal < 2 * n }
    requires ready { Ready n work.old × Sets rests.old }
    ensures value { result ≡ byte_of (asks (index_node x.now) n (goal ∷ [])) }
    ensures ready_2 { Ready n work.new × Sets rests.new }
{
    let goals = [goal];
    let found = searching::solve(x, n, &goals, work, rests);
    match found {
        Found::Model => 1,
        Found::Closed => 0,
    }
}

// A byte for each goal, over the sets that are lent.
fn put_each(
    x: &[u16; 22626],
    n: usize,
    goals: &[u16],
    answers: &mut [u8],
    work: &mut [u16],
    rests: &mut [u64; 4036],
)
    requires indexed { Indexed x.now n }
    requires below { Below n goals.now }
    requires ready { Ready n work.old × Sets rests.old }
    requires goals_in_bounds { length goals.now ≤ length answers.old }
    ensures { answers.new ≡ bytes_of (asks (index_node x.now) n) goals.now ++ drop (length goals.now) answers.old }
{
    for (i, goal) in goals.iter().enumerate() {
        answers[i] = byte(x, n, *goal, work, rests);
    }
}

// A byte for each goal.
fn put(x: &[u16; 22626], n: usize, goals: &[u16], answers: &mut [u8], work: &mut [u16])
    requires indexed { Indexed x.now n }
    requires below { Below n goals.now }
    requires area_in_bounds { area ≤ length work.old }
    requires goals_in_bounds { length goals.now ≤ length answers.old }
    ensures { answers.new ≡ bytes_of (asks (index_node x.now) n) goals.now ++ drop (length goals.now) answers.old }
{
    state::blank(n, work, 0);
    let mut rests = [0u64; 4036];
    put_each(x, n, goals, answers, work, &mut rests);
}

// Whether each goal by itself is possible.
pub fn overview(
    t: &[u8],
    goals: &[u16],
    answers: &mut [u8],
    work: &mut [u16],
) -> Result<(), Refusal>
    ensures { Overviews t.now goals.now answers.old work.old answers.new work.new result }
{
    let mut x = [0u16; 22626];
    let listed = list_row(goals, answers.len());
    let n = asking::ask_within_by(listed, t, goals, 0, 0, work.len(), &mut x)?;
    put(&x, n, goals, answers, work);
    Ok(())
}
