// A reader over a derivation's bytes, which hands out one step at a time: a struct with the byte slice, a step index and what opening
// says of the form, and thin functions over a covered one that takes these by themselves.
#![tactic(auto)]

ghost use Rattle.std.specs.Prelude.{◌≡◌, ◌+◌, ◌-◌, ◌/◌, ◌<◌, ◌≤◌, min, length};
ghost use Rattle.scope.specs.Outcome.{verdict_of};
ghost use Rattle.scope.specs.Block.{records_in};
ghost use Rattle.rules.specs.Steps.{derivations, form_test};
ghost use Rattle.steps.specs.Opened.{place_of};
ghost use Rattle.step_reader.specs.Handed.{handed_of, counted_step, step_handed, next_of, after_of};

use rules::Step;
use scope::Refusal;

#[derive(Clone, Copy)]
pub struct Reader<'a> {
    pub src: &'a [u8],
    pub at: usize,
    pub form: Result<(), Refusal>,
}

// The block that an index falls in; behind all blocks, the last.
fn block_of(blocks: usize, at: usize) -> usize
    requires { 0 < blocks }
    ensures { result ≡ min (at / 126) (blocks - 1) }
{
    (at / 126).min(blocks - 1)
}

// A step below the count that the blocks state, and its rows 44 and 65.
#[tactic(auto, unfolding(crate::specs::Handed::counted_step))]
fn counted_step(d: &[u8], at: usize) -> Result<Option<Step>, Refusal>
    requires nonzero { 0 < length d.now / 512 }
    requires at_in_bounds { at < records_in derivations d.now → place_of at + 4 ≤ length d.now }
    ensures { handed_of result ≡ counted_step d.now at }
{
    if steps::stated(d) <= at {
        return Ok(None);
    }
    let s = steps::step_at(d, at);
    steps::form_row(steps::version_of(d), s, at)?;
    Ok(Some(s))
}

// The step at an index, or that none is left: row 40, rows 41 to 43 of its block, rows 44 and 65.
#[tactic(auto, unfolding(crate::specs::Handed::step_handed))]
pub fn step_of(d: &[u8], at: usize) -> Result<Option<Step>, Refusal>
    ensures { handed_of result ≡ step_handed d.now at }
{
    if !steps::size_ok(d.len()) {
        return Err(Refusal {
            number: 40,
            place: 0,
        });
    }
    steps::block_verdict(d, block_of(d.len() / 512, at))?;
    counted_step(d, at)
}

// The same of bytes whose form is known: where it was refused, the refusal.
pub fn step_from(d: &[u8], at: usize, form: Result<(), Refusal>) -> Result<Option<Step>, Refusal>
    ensures { handed_of result ≡ next_of d.now at (verdict_of form) }
{
    form?;
    step_of(d, at)
}

// The index after one, as long as a derivation may have more steps.
#[tactic(auto, unfolding(crate::specs::Handed::after_of))]
pub fn after(at: usize) -> usize
    ensures { result ≡ after_of at }
{
    if at < 8257536 {
        return at + 1;
    }
    at
}

// A reader at the first step. It holds the first refusal of 40 to 44 and 65, if there is one.
pub fn opened<'a>(src: &'a [u8]) -> Reader<'a>
    ensures { (result.src ≡ src.entry) × (result.at ≡ 0) × (verdict_of result.form ≡ form_test src.now) }
{
    let form = steps::form_verdict(src);
    Reader { src, at: 0, form }
}

// The step that the reader is at, that none is left, or the refusal.
pub fn next<'a>(r: Reader<'a>) -> Result<Option<Step>, Refusal>
    ensures { handed_of result ≡ next_of r.entry.src.now r.entry.at (verdict_of r.entry.form) }
{
    step_from(r.src, r.at, r.form)
}

// The reader, one step further.
pub fn moved<'a>(r: Reader<'a>) -> Reader<'a>
    ensures { (result.src ≡ r.entry.src) × (result.at ≡ after_of r.entry.at) × (result.form ≡ r.entry.form) }
{
    Reader {
        at: after(r.at),
        ..r
    }
}

// The first step of a derivation.
pub fn first(d: &[u8]) -> Result<Option<Step>, Refusal>
    ensures { handed_of result ≡ next_of d.now 0 (form_test d.now) }
{
    next(opened(d))
}
