// Decide: whether one setting makes all goals true, and such a setting.
#![tactic(auto)]

ghost use Rattle.std.specs.Prelude.{◌≡◌, ◌++◌, ◌/◌, ◌<◌, ◌≤◌, length, drop};
ghost use Rattle.scope.specs.Table.{list_from};
ghost use Rattle.calculus.specs.Order.{setting_of};
ghost use Rattle.calculus.specs.Model.{Goals};
ghost use Rattle.index.specs.Index.{index_size, most_nodes, index_node};
ghost use Rattle.index.specs.Indexed.{Indexed};
ghost use Rattle.state.specs.Work.{g_of};
ghost use Rattle.deciding.specs.Setting.{Cleared, Points, point_set};
ghost use Rattle.deciding.specs.Decides.{Room, Solved, Decides};

use scope::Refusal;
use searching::Ended;

// What decide says of goals, with the splits made.
#[derive(Clone, Copy)]
pub enum Decision {
    Possible(u32),
    Impossible(u32),
}

// One less than the kind of an ATOM, as an index has it.
const ATOM: u16 = 1;

// All points may go either way.
fn clear(settings: &mut [u8])
    requires { 1024 ≤ length settings.old }
    ensures { Cleared settings.old 1024 settings.new }
{
    settings[..1024].fill(2);
}

// The point of a literal's node, if that is an ATOM, is yes where the literal is positive, else no.
fn set_point(x: &[u16], settings: &mut [u8], l: u16)
    requires x_len { (length x.now ≡ index_size) × (l / 2 < most_nodes) }
    requires l_in_bounds { (index_node x.now (l / 2)).kind ≡ 2 → (index_node x.now (l / 2)).a < length settings.old }
    ensures { settings.new ≡ point_set (index_node x.now (l / 2)) l settings.old }
{
    let s = 4 * ((l / 2) as usize);
    if x[s] != ATOM {
        return;
    }
    let point = x[s + 1] as usize;
    settings[point] = ((l + 1) % 2) as u8;
}

// The setting of the literals held.
pub fn set_points(x: &[u16], n: usize, work: &[u16], settings: &mut [u8])
    requires { Points x.now n work.now settings.old }
    ensures { settings.new ≡ setting_of (list_from (index_node x.now) 0 n) (g_of work.now) ++ drop 1024 settings.old }
{
    clear(settings);
    let held = state::count(work) as usize;
    for q in 0..held {
        let l = state::literal(work, q);
        set_point(x, settings, l);
    }
}

// The goals put to an index: whether there is a model; if so, the settings become its own.
fn solve(
    x: &[u16; 22626],
    n: usize,
    goals: &[u16],
    settings: &mut [u8],
    work: &mut [u16],
) -> Decision
    requires indexed { Indexed x.now n }
    requires goals { Goals n goals.now }
    requires room { Room x.now n settings.old work.old }
    ensures { Solved (index_node x.now) n goals.now settings.old settings.new result }
{
    state::blank(n, work, 0);
    let found = searching::solve_counted(x, n, goals, work);
    match found {
        Ended::Closed(splits) => Decision::Impossible(splits),
        Ended::Model(splits) => {
            set_points(x, n, work, settings);
            Decision::Possible(splits)
        }
    }
}

// Whether one setting makes all goals true; if so, the settings have such a one.
pub fn decide(
    t: &[u8],
    goals: &[u16],
    settings: &mut [u8],
    work: &mut [u16],
) -> Result<Decision, Refusal>
    ensures { Decides t.now goals.now settings.old work.old settings.new work.new result }
{
    let mut x = [0u16; 22626];
    let n = asking::ask_within(t, goals, 1024, settings.len(), work.len(), &mut x)?;
    Ok(solve(&x, n, goals, settings, work))
}
