// Derive: the derivation of impossible goals in the solver's order, in blocks of a lent buffer. A first pass counts the steps, so
// that nothing is written before it is known that the goals are impossible and that the blocks fit; the second writes them. Of the nodes
// those below the goals are indexed.
#![tactic(auto)]

ghost use Rattle.std.specs.Prelude.{◌≡◌, ◌*◌, ◌/◌, ◌≤◌, min, length};
ghost use Rattle.calculus.specs.Model.{Goals};
ghost use Rattle.index.specs.Index.{index_node};
ghost use Rattle.index.specs.Indexed.{Indexed};
ghost use Rattle.deriver.specs.Derives.{Produced, Derives};

use rules::Version;
use scope::Refusal;

// No unit is the next move.
const NO_UNIT: u32 = 4294967295;

// How many steps fit: 126 for each block lent, and at most 65,536 blocks.
fn room(lent: usize) -> usize
    ensures { result ≡ 126 * min (lent / 512) 65536 }
{
    126 * (lent / 512).min(65536)
}

// The derivation of goals over an index: counted first, then, from the start again, written.
#[tactic(auto, using(crate::proofs::Produces::count_low, crate::proofs::Produces::fits))]
fn produce(
    version: Version,
    x: &[u16],
    n: usize,
    goals: &[u16],
    work: &mut [u16],
    d: &mut [u8],
) -> Result<usize, Refusal>
    requires indexed { Indexed x.now n }
    requires goals { Goals n goals.now }
    requires in_bounds { 32768 ≤ length work.old }
    ensures { Produced version (index_node x.now) n goals.now d.old d.new result }
{
    let mut masks = [0u64; 33];
    solver::start(x, n, goals, work, &mut masks);
    let most = room(d.len());
    let counted = counting::count(version, x, n, goals, work, &mut masks, most + 1, 0, NO_UNIT);
    let Some(searched) = counted else {
        return Err(Refusal {
            number: 30,
            place: 0,
        });
    };
    let steps = goals.len() + searched;
    if most < steps {
        return Err(Refusal {
            number: 31,
            place: 0,
        });
    }
    solver::start(x, n, goals, work, &mut masks);
    let templates = clause::templates();
    emitting::write(version, &templates, x, n, goals, work, &mut masks, d);
    Ok(steps)
}

// The derivation of impossible goals in the solver's order, of a version, written at the start of d, and how many steps it has.
#[tactic(auto, using(asking::proofs::Lends::new_index))]
pub fn derive(
    version: Version,
    t: &[u8],
    goals: &[u16],
    work: &mut [u16],
    d: &mut [u8],
) -> Result<usize, Refusal>
    ensures { Derives version t.now goals.now work.old d.old work.new d.new result }
{
    let mut x = [0u16; 22626];
    let n = asking::ask_within(t, goals, 0, 0, work.len(), &mut x)?;
    produce(version, &x, n, goals, work, d)
}
