// Reading a derivation: its version, the first refusal of 40 to 44 and 65, the step count, the step at an index.
#![tactic(auto)]

ghost use Rattle.std.specs.Prelude.{◌≡◌, true, ℕ, ◌+◌, ◌*◌, ◌/◌, ◌<◌, ◌≤◌, ◌^◌, length};
ghost use Rattle.scope.specs.Outcome.{verdict_of, first};
ghost use Rattle.scope.specs.Block.{records_in};
ghost use Rattle.rules.specs.Steps.{derivations, letter_of, version_of, format_of, step_of, step_at, step_ok, rule_in, form_row, size_ok, form_test};
ghost use Rattle.steps.specs.Opened.{place_of, form_number, block_row, step_row, step_count, opened_of};

use rules::{Step, Version};
use scope::{Format, Refusal};

// The letter of a version's blocks.
pub fn letter_of(version: Version) -> u8
    ensures { result ≡ letter_of version }
{
    match version {
        Version::One => 68,
        Version::Two => 86,
    }
}

// The version of a derivation's bytes, by the letter of block 0.
#[tactic(auto, unfolding(rules::specs::Steps::version_of))]
pub fn version_of(d: &[u8]) -> Version
    ensures { result ≡ version_of d.now }
{
    match d {
        [86, ..] => Version::Two,
        _ => Version::One,
    }
}

// Blocks of a version: its letter, 126 steps of 4 bytes, refusals from 41 on.
fn format_of(version: Version) -> Format
    ensures { result ≡ format_of version }
{
    Format {
        letter: letter_of(version),
        width: 4,
        capacity: 126,
        number: 41,
    }
}

// Row 40.
#[tactic(auto, unfolding(rules::specs::Steps::size_ok))]
pub fn size_ok(n: usize) -> bool
    ensures { result ≡ size_ok n }
{
    n != 0 && n % 512 == 0 && n <= 33554432
}

// Row 44: R has position 0 to 2, the other rules 0.
#[tactic(auto, unfolding(rules::specs::Steps::step_ok))]
pub fn step_ok(s: Step) -> bool
    ensures { result ≡ step_ok s }
{
    let rule = s.rule;
    match rule {
        82 => s.position <= 2,
        85 | 69 | 67 | 83 | 71 => s.position == 0,
        _ => false,
    }
}

// Whether a version has the step's rule: version two has no R and no E.
#[tactic(auto, unfolding(rules::specs::Steps::rule_in))]
fn step_in(version: Version, rule: u8) -> bool
    ensures { result ≡ rule_in version rule }
{
    match version {
        Version::One => true,
        Version::Two => rule != 82 && rule != 69,
    }
}

// Rows 44 and 65 of step k.
pub fn form_row(version: Version, s: Step, k: usize) -> Result<(), Refusal>
    ensures { verdict_of result ≡ form_row version s k }
{
    if !step_ok(s) {
        return Err(Refusal {
            number: 44,
            place: k,
        });
    }
    if !step_in(version, s.rule) {
        return Err(Refusal {
            number: 65,
            place: k,
        });
    }
    Ok(())
}

// The step of four bytes.
#[tactic(auto, unfolding(rules::specs::Steps::step_of))]
pub fn step_read(r: &[u8]) -> Step
    requires { length r.now ≡ 4 }
    ensures { result ≡ step_of r.now }
{
    let value = words::word(r, 2);
    Step {
        rule: r[0],
        position: r[1],
        value,
    }
}

// Where step k starts.
pub fn place(k: usize) -> usize
    requires { place_of k < 2 ^ 64 }
    ensures { result ≡ place_of k }
{
    512 * (k / 126) + (4 + 4 * (k % 126))
}

// Step k of a derivation.
pub fn step_at(d: &[u8], k: usize) -> Step
    requires { place_of k + 4 ≤ length d.now }
    ensures { result ≡ step_at d.now k }
{
    step_by(d, k, place(k))
}

// Step k of a derivation, where its place is known.
#[tactic(auto, using(scope::proofs::Records::part_record))]
pub fn step_by(d: &[u8], k: usize, at: usize) -> Step
    requires { (at ≡ place_of k) × (place_of k + 4 ≤ length d.now) }
    ensures { result ≡ step_at d.now k }
{
    step_read(&d[at..at + 4])
}

// Where the step after step k starts, where the place of step k is known: no division.
pub fn place_after(k: usize, at: usize) -> usize
    requires { (at ≡ place_of k) × (place_of k + 12 < 2 ^ 64) }
    ensures { result ≡ place_of (k + 1) }
{
    let next = at + 4;
    if next % 512 == 508 {
        return next + 8;
    }
    next
}

// How many steps the blocks state: the last one's, and all the others are full.
#[tactic(auto, using(scope::proofs::Records::count_parts))]
pub fn stated(d: &[u8]) -> usize
    requires { 0 < length d.now / 512 }
    ensures { result ≡ records_in derivations d.now }
{
    let full = d.len() / 512 - 1;
    126 * full + d[512 * full + 1] as usize
}

// Rows 41 to 43 of block j.
pub fn block_verdict(d: &[u8], j: usize) -> Result<(), Refusal>
    requires { j < length d.now / 512 }
    ensures { verdict_of result ≡ block_row d.now j }
{
    let at = 512 * j;
    let last = j + 1 == d.len() / 512;
    let format = format_of(version_of(d));
    block::test(&d[at..at + 512], j, last, format)
}

// Rows 41 to 43 of all blocks.
#[tactic(auto, using(scope::proofs::First::stops, scope::proofs::First::goes, scope::proofs::First::done))]
fn blocks_verdict(d: &[u8]) -> Result<(), Refusal>
    ensures { verdict_of result ≡ first (block_row d.now) 0 (length d.now / 512) }
{
    for j in 0..d.len() / 512 {
        block_verdict(d, j)?;
    }
    Ok(())
}

// Step i of block j.
fn step_in_block(d: &[u8], j: usize, i: usize) -> Step
    requires { (i < 126) × (512 * j + 512 ≤ length d.now) }
    ensures { result ≡ step_at d.now (126 * j + i) }
{
    step_by(d, 126 * j + i, 512 * j + (4 + 4 * i))
}

// Whether a step passes rows 44 and 65: rule and position are one number, R has 82 + 256 × 0, 1 or 2. All tests are made, so that the
// compiler can make a loop over steps into vector code.
fn passes(version: Version, s: Step) -> bool
    ensures { result ≡ true → form_number version s ≡ 0 }
{
    let head = (s.rule as u32) + 256 * (s.position as u32);
    let both = (head == 85) | (head == 67) | (head == 83) | (head == 71);
    let older = (head == 69) | (head == 82) | (head == 338) | (head == 594);
    both | (older & (version == Version::One))
}

// Whether the first steps of block j do.
#[tactic(auto, using(crate::proofs::Quick::pass_none, crate::proofs::Quick::pass_more, scope::proofs::Tests::and_left, scope::proofs::Tests::and_right))]
fn block_passes(d: &[u8], version: Version, j: usize, count: usize) -> bool
    requires { (count ≤ 126) × (512 * j + 512 ≤ length d.now) }
    ensures { result ≡ true → (q : ℕ) → q < count → form_number version (step_at d.now (126 * j + q)) ≡ 0 }
{
    let mut fine = true;
    for i in 0..count {
        fine &= passes(version, step_in_block(d, j, i));
    }
    fine
}

// Whether all steps do.
#[tactic(auto, using(crate::proofs::Quick::before_none, crate::proofs::Quick::before_more))]
fn all_pass(d: &[u8], version: Version, steps: usize) -> bool
    requires { steps ≤ 126 * (length d.now / 512) }
    ensures { result ≡ true → (k : ℕ) → k < steps → form_number version (step_at d.now k) ≡ 0 }
{
    for j in 0..steps.div_ceil(126) {
        if !block_passes(d, version, j, (steps - 126 * j).min(126)) {
            return false;
        }
    }
    true
}

// Rows 44 and 65 of all steps, one after another.
#[tactic(auto, using(scope::proofs::First::stops, scope::proofs::First::goes, scope::proofs::First::done, crate::proofs::Rows::looked))]
fn first_form(d: &[u8], version: Version, steps: usize) -> Result<(), Refusal>
    requires { (version ≡ version_of d.now) × (steps ≤ 126 * (length d.now / 512)) }
    ensures { verdict_of result ≡ first (step_row d.now) 0 steps }
{
    for k in 0..steps {
        form_row(version, step_at(d, k), k)?;
    }
    Ok(())
}

// Rows 44 and 65 of all steps: only where one does not pass are they looked at one after another.
#[tactic(auto, using(crate::proofs::Quick::pass_fine))]
fn forms_verdict(d: &[u8], steps: usize) -> Result<(), Refusal>
    requires { steps ≤ 126 * (length d.now / 512) }
    ensures { verdict_of result ≡ first (step_row d.now) 0 steps }
{
    let version = version_of(d);
    if all_pass(d, version, steps) {
        return Ok(());
    }
    first_form(d, version, steps)
}

// The first refusal of a derivation's form.
#[tactic(auto, unfolding(rules::specs::Steps::form_test))]
pub fn form_verdict(d: &[u8]) -> Result<(), Refusal>
    ensures { verdict_of result ≡ form_test d.now }
{
    if !size_ok(d.len()) {
        return Err(Refusal {
            number: 40,
            place: 0,
        });
    }
    blocks_verdict(d)?;
    forms_verdict(d, stated(d))
}

// The step count of a derivation, or its first refusal.
#[tactic(auto, unfolding(crate::specs::Opened::step_count, rules::specs::Steps::decode_steps), using(scope::proofs::Lists::length_list_from))]
pub fn count(d: &[u8]) -> Result<usize, Refusal>
    ensures { opened_of result ≡ step_count d.now }
{
    form_verdict(d)?;
    Ok(stated(d))
}
