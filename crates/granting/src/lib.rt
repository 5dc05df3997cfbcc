// The walk through the subsets of the wishes: the questions are put one by one, each a list of the goals and of the wishes chosen, and none
// is stored but the one at hand.
#![tactic(auto)]

ghost use Rattle.std.specs.Prelude.{◌≡◌, true, ◌*◌, ◌<◌, length};
ghost use Rattle.std.proofs.Common.{Continue};
ghost use Rattle.calculus.specs.Model.{Goals};
ghost use Rattle.index.specs.Index.{most_nodes};
ghost use Rattle.index.specs.Indexed.{Indexed};
ghost use Rattle.state.specs.Work.{Ready};
ghost use Rattle.rests.specs.Words.{Sets};
ghost use Rattle.granting.specs.Counts.{choose, Opposed};
ghost use Rattle.granting.specs.Visits.{Room, Listed, Gathered, Stepped, Refused, Visited, Grants};

use searching::Found;
use std::ops::ControlFlow;

// How many subsets of up to 15 wishes there are: a row for each number of wishes, in it a column for each size.
const COUNTS: [[u16; 16]; 16] = [
    [1, 0, 0, 0, 0, 0, 0, 0, 0, 0, 0, 0, 0, 0, 0, 0],
    [1, 1, 0, 0, 0, 0, 0, 0, 0, 0, 0, 0, 0, 0, 0, 0],
    [1, 2, 1, 0, 0, 0, 0, 0, 0, 0, 0, 0, 0, 0, 0, 0],
    [1, 3, 3, 1, 0, 0, 0, 0, 0, 0, 0, 0, 0, 0, 0, 0],
    [1, 4, 6, 4, 1, 0, 0, 0, 0, 0, 0, 0, 0, 0, 0, 0],
    [1, 5, 10, 10, 5, 1, 0, 0, 0, 0, 0, 0, 0, 0, 0, 0],
    [1, 6, 15, 20, 15, 6, 1, 0, 0, 0, 0, 0, 0, 0, 0, 0],
    [1, 7, 21, 35, 35, 21, 7, 1, 0, 0, 0, 0, 0, 0, 0, 0],
    [1, 8, 28, 56, 70, 56, 28, 8, 1, 0, 0, 0, 0, 0, 0, 0],
    [1, 9, 36, 84, 126, 126, 84, 36, 9, 1, 0, 0, 0, 0, 0, 0],
    [1, 10, 45, 120, 210, 252, 210, 120, 45, 10, 1, 0, 0, 0, 0, 0],
    [
        1, 11, 55, 165, 330, 462, 462, 330, 165, 55, 11, 1, 0, 0, 0, 0,
    ],
    [
        1, 12, 66, 220, 495, 792, 924, 792, 495, 220, 66, 12, 1, 0, 0, 0,
    ],
    [
        1, 13, 78, 286, 715, 1287, 1716, 1716, 1287, 715, 286, 78, 13, 1, 0, 0,
    ],
    [
        1, 14, 91, 364, 1001, 2002, 3003, 3432, 3003, 2002, 1001, 364, 91, 14, 1, 0,
    ],
    [
        1, 15, 105, 455, 1365, 3003, 5005, 6435, 6435, 5005, 3003, 1365, 455, 105, 15, 1,
    ],
];

// On the way: the questions put, and the allowance left.
#[derive(Clone, Copy)]
pub struct Way {
    pub put: usize,
    pub left: usize,
}

// What an allowance comes to, where the walk stops.
#[derive(Clone, Copy)]
pub struct Grant {
    pub met: usize,
    pub bound: usize,
    pub questions: usize,
}

// At a question: a list of g goals and the wishes chosen.
fn step(
    x: &[u16; 22626],
    n: usize,
    g: usize,
    q: &[u16],
    work: &mut [u16],
    rests: &mut [u64; 4036],
    on: Way,
) -> ControlFlow<Grant, Way>
    requires indexed { Indexed x.now n }
    requires goals { Goals n q.now }
    requires g_in_bounds { g < length q.now }
    requires ready { Ready n work.old }
    requires room { Room on }
    requires sets { Sets rests.old }
    ensures stepped { Stepped x.now n g q.now work.old work.new on result }
    ensures sets_2 { Sets rests.new }
{
    let size = q.len() - g;
    let put = on.put;
    if on.left == 0 {
        return ControlFlow::Break(Grant {
            met: 0,
            bound: size,
            questions: put,
        });
    }
    let asked = put + 1;
    let left = on.left - 1;
    let found = searching::solve(x, n, q, work, rests);
    match found {
        Found::Model => ControlFlow::Break(Grant {
            met: size,
            bound: size,
            questions: asked,
        }),
        Found::Closed => ControlFlow::Continue(Way { put: asked, left }),
    }
}

// How many subsets of s of m wishes there are.
fn count_of(m: usize, s: usize) -> u16
    requires { (m < 16) × (s < 16) }
    ensures { result ≡ choose m s }
{
    COUNTS[m][s]
}

// Whether the negation of a literal is in a list; no early end, so that several are looked at in one step. That it is found wherever it is
// saves searches and changes no answer, so it is not said.
fn opposed(q: &[u16], l: u16) -> bool
    requires { l < 2 * most_nodes }
    ensures { result ≡ true → Opposed q.now l }
{
    let other = clause::negated(l);
    let mut found = false;
    for m in q {
        found |= *m == other;
    }
    found
}

// All questions with s of m wishes more are refused, and none is put to a search: each counts, as far as the allowance lasts.
fn refuse(m: usize, s: usize, size: usize, on: Way) -> ControlFlow<Grant, Way>
    requires m_bound { (m < 16) × (s < 16) }
    requires room { Room on }
    ensures { Refused m s size on result }
{
    let count = count_of(m, s) as usize;
    let put = on.put;
    if on.left < count {
        return ControlFlow::Break(Grant {
            met: 0,
            bound: size,
            questions: put + on.left,
        });
    }
    ControlFlow::Continue(Way {
        put: put + count,
        left: on.left - count,
    })
}

// s more of the wishes from lo on, behind the first `at` literals of the list: each wish in turn is the first of them, as long as enough
// are left. Behind a literal and its negation all questions are refused.
fn visit(
    x: &[u16; 22626],
    n: usize,
    g: usize,
    wishes: &[u16],
    list: &mut [u16],
    work: &mut [u16],
    rests: &mut [u64; 4036],
    lo: usize,
    s: usize,
    at: usize,
    on: Way,
) -> ControlFlow<Grant, Way>
    requires indexed { Indexed x.now n }
    requires listed { Listed n g wishes.now list.old work.old lo s at }
    requires room { Room on × Sets rests.old }
    ensures visited { Visited x.now n g wishes.now list.old list.new work.old work.new lo s at (Continue on) result }
    ensures sets { Sets rests.new }
{
    if s == 0 {
        return step(x, n, g, &list[0..at], work, rests, on);
    }
    let mut mid = on;
    let mut i = lo;
    while s <= wishes.len() - i {
        let l = wishes[i];
        i += 1;
        if opposed(&list[0..at], l) {
            mid = refuse(wishes.len() - i, s - 1, at + s - g, mid)?;
        } else {
            list[at] = l;
            mid = visit(x, n, g, wishes, list, work, rests, i, s - 1, at + 1, mid)?;
        }
    }
    ControlFlow::Continue(mid)
}

// What an allowance of questions comes to: the sizes of subsets fall. The first g literals of the list are the goals. Where a wish is met,
// the work area holds what the question ended on; where all questions were refused, none is.
pub fn spend(
    x: &[u16; 22626],
    n: usize,
    g: usize,
    wishes: &[u16],
    list: &mut [u16],
    work: &mut [u16],
    rests: &mut [u64; 4036],
    allowance: usize,
) -> Grant
    requires indexed { Indexed x.now n }
    requires gathered { Gathered n g wishes.now list.old work.old × Sets rests.old }
    ensures { Grants x.now n g wishes.now list.old allowance work.new result }
{
    let mut on = Way {
        put: 0,
        left: allowance,
    };
    for s in (1..wishes.len() + 1).rev() {
        match visit(x, n, g, wishes, list, work, rests, 0, s, g, on) {
            ControlFlow::Continue(next) => on = next,
            ControlFlow::Break(grant) => return grant,
        }
    }
    Grant {
        met: 0,
        bound: 0,
        questions: on.put,
    }
}
