// Wishes within an allowance of questions: the goals alone, then the goals with wishes, all first and then ever fewer.
#![tactic(auto)]

ghost use Rattle.std.specs.Prelude.{◌≡◌, ◌+◌, ◌≤◌, length};
ghost use Rattle.scope.specs.Outcome.{verdict_of};
ghost use Rattle.calculus.specs.Model.{question_size};
ghost use Rattle.index.specs.Index.{index_node};
ghost use Rattle.index.specs.Indexed.{Indexed};
ghost use Rattle.asking.specs.Asks.{Zeros};
ghost use Rattle.state.specs.Work.{g_of};
ghost use Rattle.deciding.specs.Setting.{Points};
ghost use Rattle.deciding.specs.Decides.{Room};
ghost use Rattle.wishing.specs.Call.{lists_row};
ghost use Rattle.wishes.specs.Wishes.{Copied, Gathers, WishesAsk, Stands, Posed, Answered, Wishes};

use granting::Grant;
use scope::Refusal;
use searching::Found;

// Row 62 of the goals, then row 66 of the wishes.
fn list_rows(goals: &[u16], wishes: &[u16]) -> Result<(), Refusal>
    ensures { verdict_of result ≡ lists_row goals.now wishes.now }
{
    asking::list_row(goals)?;
    if 16 < wishes.len() {
        return Err(Refusal {
            number: 66,
            place: 0,
        });
    }
    Ok(())
}

// Copies literals behind the first `at` of a list.
fn copy(from: &[u16], list: &mut [u16], at: usize)
    requires { at + length from.now ≤ length list.old }
    ensures { Copied from.now list.old at list.new }
{
    list[at..at + from.len()].copy_from_slice(from);
}

// The goals and behind them the wishes, where the rows on them let them pass; how many there are.
fn gather(goals: &[u16], wishes: &[u16], list: &mut [u16]) -> usize
    requires { length list.old ≡ question_size }
    ensures { Gathers goals.now wishes.now list.new result }
{
    if 64 < goals.len() || 16 < wishes.len() {
        return 0;
    }
    copy(goals, list, 0);
    copy(wishes, list, goals.len());
    goals.len() + wishes.len()
}

// The rows before the search: the index of the nodes below the goals and the wishes, and how many nodes it goes up to, or the first row's
// refusal. x is zeros.
fn ask(
    t: &[u8],
    goals: &[u16],
    wishes: &[u16],
    points: usize,
    area: usize,
    list: &mut [u16],
    x: &mut [u16],
) -> Result<usize, Refusal>
    requires list_len { length list.old ≡ question_size }
    requires zeros { Zeros x.old }
    ensures { WishesAsk t.now goals.now wishes.now points area list.new x.new result }
{
    let listed = list_rows(goals, wishes);
    let count = gather(goals, wishes, list);
    asking::ask_within_by(listed, t, &list[0..count], 1024, points, area, x)
}

// Where a wish was met, the setting of the question that met it.
fn stand(x: &[u16], n: usize, work: &[u16], settings: &mut [u8], met: usize)
    requires { Points x.now n work.now settings.old }
    ensures { Stands (index_node x.now) n met (g_of work.now) settings.old settings.new }
{
    if met == 0 {
        return;
    }
    deciding::set_points(x, n, work, settings);
}

// The goals alone, whose setting is the first answer; then the questions.
fn questions(
    x: &[u16; 22626],
    n: usize,
    goals: &[u16],
    wishes: &[u16],
    list: &mut [u16],
    allowance: usize,
    settings: &mut [u8],
    work: &mut [u16],
) -> Result<Grant, Refusal>
    requires indexed { Indexed x.now n }
    requires posed { Posed n goals.now wishes.now list.old }
    requires room { Room x.now n settings.old work.old }
    ensures { Answered x.now n goals.now wishes.now allowance settings.old settings.new result }
{
    state::blank(n, work, 0);
    let mut rests = [0u64; 4036];
    let found = searching::solve(x, n, goals, work, &mut rests);
    match found {
        Found::Closed => Err(Refusal {
            number: 67,
            place: 0,
        }),
        Found::Model => {
            deciding::set_points(x, n, work, settings);
            let g = goals.len();
            let r = granting::spend(x, n, g, wishes, list, work, &mut rests, allowance);
            stand(x, n, work, settings, r.met);
            Ok(r)
        }
    }
}

// A setting that makes the goals true, and as many wishes as an allowance of questions finds: how many for certain, and how many at most.
pub fn grant(
    t: &[u8],
    goals: &[u16],
    wishes: &[u16],
    allowance: usize,
    settings: &mut [u8],
    work: &mut [u16],
) -> Result<Grant, Refusal>
    ensures { Wishes t.now goals.now wishes.now allowance settings.old work.old settings.new work.new result }
{
    let mut list = [0u16; 80];
    let mut x = [0u16; 22626];
    let n = ask(
        t,
        goals,
        wishes,
        settings.len(),
        work.len(),
        &mut list,
        &mut x,
    )?;
    questions(&x, n, goals, wishes, &mut list, allowance, settings, work)
}
