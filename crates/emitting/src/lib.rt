// The writing pass of derive: the steps of a search that closes, in blocks of a lent buffer. The writer is taken and returned by value; its
// block is lent to the recursion, which carries two counts, a call for each branch of a split. A phase is the moves up to a conflict or a
// split. `forms` are the clause templates.
#![tactic(auto)]

ghost use Rattle.std.specs.Prelude.{◌≡◌, cond, [], ◌∷◌, ◌++◌, map, ◌+◌, ◌*◌, ◌<◌, ◌≤◌, ltb, length};
ghost use Rattle.calculus.specs.Expansion.{expand};
ghost use Rattle.calculus.specs.Model.{Below, Goals};
ghost use Rattle.rules.specs.Steps.{G as name, step};
ghost use Rattle.rules.specs.Derivation.{removed};
ghost use Rattle.index.specs.Index.{most_nodes, index_node};
ghost use Rattle.index.specs.Indexed.{Indexed};
ghost use Rattle.clause.specs.Templates.{rows};
ghost use Rattle.clause.specs.Literals.{literals};
ghost use Rattle.state.specs.Work.{tail, g_of, Ready, Numbered};
ghost use Rattle.state.specs.Holds.{Holds};
ghost use Rattle.state.specs.Picked.{Picks};
ghost use Rattle.moves.specs.Place.{place_number, Placed};
ghost use Rattle.gather.specs.Kept.{lent, Space, Pushed};
ghost use Rattle.counting.specs.Count.{steps_from};
ghost use Rattle.emitting.specs.Trace.{false_bit, false_bits, RemovedBy, Due, Stepped, Emitted, Fits, written};

use calculus::Move;
use clause::Clause;
use gather::{At, Writer};
use rules::{Step, Version};

// No unit is the next move.
const NO_UNIT: u32 = 4294967295;

// Where a phase ends: at a split on a literal, or at a conflict, and the counts there.
#[derive(Clone, Copy)]
pub struct Told {
    pub split: Option<u16>,
    pub at: At,
}

// 1 if a clause of a length has a position i and its literal there, l, is false, else 0.
fn false_at(n: usize, work: &[u16], len: u8, i: u8, l: u16) -> u8
    requires ready { Ready n work.now }
    requires n_le_most_nodes { (n ≤ most_nodes) × (i < len → l < 2 * n) }
    ensures { result ≡ cond (ltb i len) (false_bit (g_of work.now) l) 0 }
{
    if i < len {
        return (state::value(n, work, l) / 2) as u8;
    }
    0
}

// The positions of a clause's false literals, as bits.
fn false_bits(n: usize, work: &[u16], c: Clause) -> u8
    requires ready { Ready n work.now }
    requires n_le_most_nodes { (n ≤ most_nodes) × Below n (literals c) }
    ensures { result ≡ false_bits (g_of work.now) (literals c) }
{
    let first = false_at(n, work, c.len, 0, c.first);
    let second = false_at(n, work, c.len, 1, c.second);
    let third = false_at(n, work, c.len, 2, c.third);
    first + 2 * (second + 2 * third)
}

// The positions of the removals of the clause that the move looked up is on, as bits: in version one those of its false literals.
fn removal_bits(
    version: Version,
    forms: &[[u8; 9]; 18],
    x: &[u16],
    n: usize,
    goals: &[u16],
    work: &[u16],
) -> u8
    requires forms_value { forms.now ≡ rows }
    requires indexed { Indexed x.now n }
    requires goals { Goals n goals.now }
    requires ready { Ready n work.now × Numbered (index_node x.now) goals.now (tail work.now) }
    requires placed { Placed (index_node x.now) goals.now work.now (place_number work.now) }
    ensures { RemovedBy version (index_node x.now) goals.now (g_of work.now) (place_number work.now) result }
{
    match version {
        Version::One => {
            let c = moves::reason(forms, x, n, goals, work);
            false_bits(n, work, c)
        }
        Version::Two => 0,
    }
}

// The steps on clause k, that of the move looked up: its removals, and a U or a C.
fn on_clause(
    version: Version,
    forms: &[[u8; 9]; 18],
    x: &[u16],
    n: usize,
    goals: &[u16],
    work: &[u16],
    out: &mut [u8],
    block: &mut [u8; 512],
    at: At,
    rule: u8,
    k: u16,
) -> At
    requires forms_value { forms.now ≡ rows }
    requires indexed { Indexed x.now n }
    requires goals { Goals n goals.now }
    requires ready { Ready n work.now × Numbered (index_node x.now) goals.now (tail work.now) }
    requires placed { Placed (index_node x.now) goals.now work.now k }
    requires space { Space (length (removed version (expand (index_node x.now)) goals.now (g_of work.now) k) + 1) out.old (lent block.old at) }
    ensures { Pushed (removed version (expand (index_node x.now)) goals.now (g_of work.now) k ++ step rule 0 k ∷ []) out.old (lent block.old at) out.new (lent block.new result) }
{
    let bits = removal_bits(version, forms, x, n, goals, work);
    gather::add_move(out, block, at, rule, k, bits)
}

// The step of a split on a literal.
fn on_split(out: &mut [u8], block: &mut [u8; 512], at: At, l: u16) -> At
    requires { Space 1 out.old (lent block.old at) }
    ensures { Pushed (step 83 0 l ∷ []) out.old (lent block.old at) out.new (lent block.new result) }
{
    let s = Step {
        rule: 83,
        position: 0,
        value: l,
    };
    gather::add(out, block, at, s)
}

// The moves up to a conflict or a split, with their steps. `first` is the unit that is the next move, or NO_UNIT.
fn phase(
    version: Version,
    forms: &[[u8; 9]; 18],
    x: &[u16],
    n: usize,
    goals: &[u16],
    work: &mut [u16],
    masks: &mut [u64],
    out: &mut [u8],
    block: &mut [u8; 512],
    start: At,
    first: u32,
) -> Told
    requires forms_value { forms.now ≡ rows }
    requires indexed { Indexed x.now n }
    requires goals { Goals n goals.now }
    requires holds { Holds (index_node x.now) n goals.now work.old masks.old }
    requires due { Due version (index_node x.now) n goals.now (g_of work.old) out.old (lent block.old start) }
    requires picks { Picks work.old masks.old first }
    ensures { Stepped version (index_node x.now) n goals.now work.old work.new masks.new out.old out.new (lent block.old start) (lent block.new result.at) result.split }
{
    let mut at = start;
    let mut u = first;
    loop {
        if u != NO_UNIT {
            let f = moves::unit_move(x, n, goals, work, masks, u);
            let c = f.number;
            at = on_clause(version, forms, x, n, goals, work, out, block, at, 85, c);
            u = solver::join(x, n, goals, work, masks, u);
        } else {
            let m = moves::next_move(x, n, goals, work, masks);
            match m {
                Move::Conflict(k) => {
                    at = on_clause(version, forms, x, n, goals, work, out, block, at, 67, k);
                    return Told { split: None, at };
                }
                Move::Unit(k, l) => {
                    at = on_clause(version, forms, x, n, goals, work, out, block, at, 85, k);
                    solver::assume(x, n, goals, work, masks, l);
                    u = moves::pick(work, masks);
                }
                Move::Done => {
                    return Told { split: None, at };
                }
                Move::Split(l) => {
                    at = on_split(out, block, at, l);
                    return Told { split: Some(l), at };
                }
            }
        }
    }
}

// The steps of a search that closes. The literals held stay held; what joined is taken back only before a right branch. u is the unit that
// is the next move, or NO_UNIT.
fn emit(
    version: Version,
    forms: &[[u8; 9]; 18],
    x: &[u16],
    n: usize,
    goals: &[u16],
    work: &mut [u16],
    masks: &mut [u64],
    out: &mut [u8],
    block: &mut [u8; 512],
    at: At,
    u: u32,
) -> At
    requires forms_value { forms.now ≡ rows }
    requires indexed { Indexed x.now n }
    requires goals { Goals n goals.now }
    requires holds { Holds (index_node x.now) n goals.now work.old masks.old }
    requires due { Due version (index_node x.now) n goals.now (g_of work.old) out.old (lent block.old at) }
    requires picks { Picks work.old masks.old u }
    ensures { Emitted version (index_node x.now) n goals.now work.old work.new masks.new out.old out.new (lent block.old at) (lent block.new result) }
{
    let a = phase(version, forms, x, n, goals, work, masks, out, block, at, u);
    let Some(l) = a.split else {
        return a.at;
    };
    let held = state::count(work);
    let v = solver::fork(x, n, goals, work, masks, l);
    let b = emit(
        version, forms, x, n, goals, work, masks, out, block, a.at, v,
    );
    solver::undo_to(x, n, goals, work, masks, held);
    let w = solver::fork(x, n, goals, work, masks, clause::negated(l));
    emit(version, forms, x, n, goals, work, masks, out, block, b, w)
}

// The same by a writer, whose block is lent.
fn push_steps(
    version: Version,
    forms: &[[u8; 9]; 18],
    x: &[u16],
    n: usize,
    goals: &[u16],
    work: &mut [u16],
    masks: &mut [u64],
    out: &mut [u8],
    mut w: Writer,
) -> Writer
    requires forms_value { forms.now ≡ rows }
    requires indexed { Indexed x.now n }
    requires goals { Goals n goals.now }
    requires holds { Holds (index_node x.now) n goals.now work.old masks.old }
    requires due { Due version (index_node x.now) n goals.now (g_of work.old) out.old w }
    ensures { Emitted version (index_node x.now) n goals.now work.old work.new masks.new out.old out.new w result }
{
    let start = At {
        count: w.count,
        blocks: w.blocks,
    };
    let at = emit(
        version,
        forms,
        x,
        n,
        goals,
        work,
        masks,
        out,
        &mut w.block,
        start,
        NO_UNIT,
    );
    w.count = at.count;
    w.blocks = at.blocks;
    w
}

// The goals' names and the steps of a search that closes, in blocks at the start of d.
pub fn write(
    version: Version,
    forms: &[[u8; 9]; 18],
    x: &[u16],
    n: usize,
    goals: &[u16],
    work: &mut [u16],
    masks: &mut [u64],
    d: &mut [u8],
)
    requires forms_value { forms.now ≡ rows }
    requires indexed { Indexed x.now n }
    requires goals { Goals n goals.now }
    requires holds { Holds (index_node x.now) n goals.now work.old masks.old }
    requires fits { Fits version (index_node x.now) n goals.now (g_of work.old) d.old }
    ensures { d.new ≡ written version (map name goals.now ++ steps_from version (index_node x.now) n goals.now (g_of work.old)) d.old }
{
    let mut block = [0u8; 512];
    block[0] = steps::letter_of(version);
    let w = Writer {
        block,
        count: 0,
        blocks: 0,
    };
    let named = gather::push_goals(d, w, goals);
    let done = push_steps(version, forms, x, n, goals, work, masks, d, named);
    gather::close(d, done);
}
