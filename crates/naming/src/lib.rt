// The goals that a derivation names: row 64 at its head, before its other steps are tried.
#![tactic(auto)]

ghost use Rattle.std.specs.Prelude.{◌≡◌, ◌&&◌, ℕ, ◌+◌, ◌<◌, ◌≤◌, ltb, length};
ghost use Rattle.rules.specs.Steps.{step_at};
ghost use Rattle.rules.specs.Rules.{is_g, agreed};
ghost use Rattle.steps.specs.Opened.{place_of};
ghost use Rattle.naming.specs.Named.{named_of, names_of, head_of, missing_of};

use rules::Version;
use scope::Refusal;

// Whether there is a step i and it is a G.
fn is_name(d: &[u8], i: usize, count: usize) -> bool
    requires { (k : ℕ) → k < count → place_of k + 4 ≤ length d.now }
    ensures { result ≡ (ltb i count && is_g (step_at d.now i)) }
{
    i < count && steps::step_at(d, i).rule == 71
}

// How far the G steps at the head are the goals, one each, in list order.
#[tactic(auto, using(crate::proofs::Heads::agreed_start, crate::proofs::Heads::agreed_unnamed, crate::proofs::Heads::agreed_ends))]
fn shared(goals: &[u16], d: &[u8], count: usize) -> usize
    requires { (k : ℕ) → k < count → place_of k + 4 ≤ length d.now }
    ensures { result ≡ agreed (names_of d.now 0 count) goals.now }
{
    for (i, goal) in goals.iter().enumerate() {
        if !is_name(d, i, count) {
            return i;
        }
        if steps::step_at(d, i).value != *goal {
            return i;
        }
    }
    goals.len()
}

// Row 64 where not all goals are named, i of them are: unless none is, and none need be.
fn missing(version: Version, i: usize) -> Result<usize, Refusal>
    ensures { named_of result ≡ missing_of version i }
{
    match version {
        Version::One if i == 0 => Ok(0),
        _ => Err(Refusal {
            number: 64,
            place: i,
        }),
    }
}

// Row 64 of the head: where the derivation names goals, or must, they are the caller's. How many it names.
pub fn head(version: Version, goals: &[u16], d: &[u8], count: usize) -> Result<usize, Refusal>
    requires { (k : ℕ) → k < count → place_of k + 4 ≤ length d.now }
    ensures { named_of result ≡ head_of version goals.now (names_of d.now 0 count) }
{
    let i = shared(goals, d, count);
    if is_name(d, i, count) {
        return Err(Refusal {
            number: 64,
            place: i,
        });
    }
    if i < goals.len() {
        return missing(version, i);
    }
    Ok(i)
}
