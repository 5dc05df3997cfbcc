// Clash: which of goals that are impossible together to argue about. From last to first, a goal is dropped if the others left are still
// impossible together: where fewer goals are, all behind them are dropped at once. The table is read once, and of its nodes those below the
// goals are indexed.
#![tactic(auto)]

ghost use Rattle.std.specs.Prelude.{◌≡◌, [], ◌≤◌, ◌<◌, length, take, drop};
ghost use Rattle.calculus.specs.Model.{most_goals, Goals};
ghost use Rattle.index.specs.Index.{index_node};
ghost use Rattle.index.specs.Indexed.{Indexed};
ghost use Rattle.state.specs.Work.{area, Ready};
ghost use Rattle.rests.specs.Words.{Sets};
ghost use Rattle.questions.specs.Asking.{asks};
ghost use Rattle.clashing.specs.Clash.{clashes, walk, argued};
ghost use Rattle.clashing.specs.Walks.{list_size, refuted, Passed, Held, Grows};
ghost use Rattle.clashing.specs.Clashes.{counted_kept, clashed_of, Clashes};

use scope::Refusal;
use searching::Found;

// The indices of the goals kept, in rising order, with their count, and 0 past them.
#[derive(Clone, Copy)]
pub struct Clashed {
    pub count: usize,
    pub kept: [u8; 64],
}

// The first position whose clause is all false: a cell of the work area.
const CONFLICT: usize = 1;

// The indices from `first` on, put to the front.
fn give(held: [u8; 64], first: usize) -> Clashed
    requires { Held held first }
    ensures { result ≡ counted_kept (drop first held) }
{
    let count = 64 - first;
    let mut kept = [0u8; 64];
    kept[..count].copy_from_slice(&held[first..]);
    Clashed { count, kept }
}

// The literals of the goals, in a list behind 64 places.
fn copy(goals: &[u16], list: &mut [u16])
    requires { (length goals.now ≤ most_goals) × (length list.old ≡ list_size) }
    ensures { take (length goals.now) (drop most_goals list.new) ≡ goals.now }
{
    list[64..64 + goals.len()].copy_from_slice(goals);
}

// Whether literals are impossible together.
fn refute(
    x: &[u16; 22626],
    n: usize,
    list: &[u16],
    work: &mut [u16],
    rests: &mut [u64; 4036],
) -> bool
    requires indexed { Indexed x.now n }
    requires goals { Goals n list.now }
    requires ready { Ready n work.old × Sets rests.old }
    ensures value { result ≡ refuted (asks (index_node x.now) n) list.now }
    ensures ready_2 { Ready n work.new × Sets rests.new }
{
    if list.len() == 0 {
        return false;
    }
    let found = searching::solve(x, n, list, work, rests);
    match found {
        Found::Closed => true,
        Found::Model => false,
    }
}

// Where a search of so many literals closed: at the literal that was false or brought a conflict as these joined; else at the position whose
// clause is all false.
fn closed_at(work: &[u16], size: usize) -> usize
    requires { area ≤ length work.now }
{
    let waiting = state::waiting(work) as usize;
    if waiting == 0 {
        return work[CONFLICT] as usize;
    }
    size.saturating_sub(waiting)
}

// How many goals may be enough, where a search of those kept and of m goals closed: those up to where it did, and one where that is among
// those kept; none where it is none of them. A guess, which is asked about: it only chooses a way to the same answer, so nothing is said of it.
fn hint(work: &[u16], kept: usize, m: usize) -> Option<usize>
    requires area_in_bounds { area ≤ length work.now }
    requires kept_le_most_goals { (kept ≤ most_goals) × (m ≤ most_goals) }
{
    let at = closed_at(work, kept + m);
    if kept + m <= at {
        return None;
    }
    Some(at.saturating_sub(kept) + 1)
}

// How many goals to ask about next, from `floor` on and fewer than i: one fewer than may be enough, then as many; else farther back each
// time from where the last goal was kept, and then between.
fn guess(enough: Option<usize>, floor: usize, i: usize, from: usize) -> usize
    requires { (floor < i) × (i ≤ from) × (from ≤ most_goals) }
    ensures { (floor ≤ result) × (result < i) }
{
    if let Some(most) = enough {
        if floor < most && most <= i {
            return most - 1;
        }
        if floor == most {
            return floor;
        }
    }
    if 0 < floor {
        return i - 1 - (i - floor) / 3;
    }
    let back = from - i + 1;
    if back < i {
        return i - back;
    }
    0
}

// The walk from last to first, of goals that are impossible together. Those kept and the goals before i are; those kept and fewer goals
// than `floor` are not. So where fewer goals are enough the walk goes on there, and where none are the last of them is kept.
fn narrow(
    x: &[u16; 22626],
    n: usize,
    goals: &[u16],
    work: &mut [u16],
    rests: &mut [u64; 4036],
) -> Clashed
    requires indexed { Indexed x.now n }
    requires passed { Passed n goals.now }
    requires grows { Grows (length goals.now) (clashes (asks (index_node x.now) n) goals.now) }
    requires ready { Ready n work.old × Sets rests.old }
    ensures { result ≡ counted_kept (walk (clashes (asks (index_node x.now) n) goals.now) (length goals.now) []) }
{
    let mut list = [0u16; 128];
    copy(goals, &mut list);
    let mut kept = [0u8; 64];
    let mut first = 64;
    let mut i = goals.len();
    let mut from = i;
    let mut floor = 0;
    let mut enough = hint(work, 0, i);
    while 0 < i {
        if floor < i {
            let m = guess(enough, floor, i, from);
            let still = refute(x, n, &list[first..64 + m], work, rests);
            if still {
                i = m;
                enough = hint(work, 64 - first, m);
            } else {
                floor = m + 1;
            }
        } else {
            i -= 1;
            first -= 1;
            kept[first] = i as u8;
            list[first] = goals[i];
            from = i;
            floor = 0;
            enough = None;
        }
    }
    give(kept, first)
}

// Which goals to argue about, over an index; 63 where all are possible together.
fn argue(x: &[u16; 22626], n: usize, goals: &[u16], work: &mut [u16]) -> Result<Clashed, Refusal>
    requires indexed { Indexed x.now n }
    requires passed { Passed n goals.now }
    requires grows { Grows (length goals.now) (clashes (asks (index_node x.now) n) goals.now) }
    requires area_in_bounds { area ≤ length work.old }
    ensures { result ≡ clashed_of (argued (asks (index_node x.now) n) goals.now) }
{
    state::blank(n, work, 0);
    let mut rests = [0u64; 4036];
    let found = searching::solve(x, n, goals, work, &mut rests);
    match found {
        Found::Model => Err(Refusal {
            number: 63,
            place: 0,
        }),
        Found::Closed => Ok(narrow(x, n, goals, work, &mut rests)),
    }
}

// Which of the goals clash.
pub fn clash(t: &[u8], goals: &[u16], work: &mut [u16]) -> Result<Clashed, Refusal>
    ensures { Clashes t.now goals.now work.old work.new result }
{
    let mut x = [0u16; 22626];
    let n = asking::ask_within(t, goals, 0, 0, work.len(), &mut x)?;
    argue(&x, n, goals, work)
}
