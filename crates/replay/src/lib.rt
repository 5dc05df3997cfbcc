// The derivation checker's rules, one step at a time, and the run of a whole derivation. It shares no code with the solver.
#![tactic(auto)]

ghost use Rattle.std.specs.Prelude.{◌≡◌, cond, [], ℕ, ◌+◌, ◌-◌, ◌≤◌, ◌<◌, ltb, length};
ghost use Rattle.calculus.specs.Expansion.{expand};
ghost use Rattle.index.specs.Index.{index_node};
ghost use Rattle.rules.specs.Rules.{rule_u, rule_r, rule_e, rule_c, rule_s, unit_two, conflict_two, turn, apply, apply_two, apply_in, run, running, root};
ghost use Rattle.rules.specs.Steps.{step_at};
ghost use Rattle.steps.specs.Opened.{place_of};
ghost use Rattle.scope.specs.Table.{list_from};
ghost use Rattle.scope.specs.Outcome.{answer, refused, fine, verdict_of};
ghost use Rattle.area.specs.Area.{area_size};
ghost use Rattle.branch.specs.Holds.{Indexed, Goals, Held};
ghost use Rattle.replay.specs.Ruled.{Ruled};

use rules::{Step, Version};
use scope::Refusal;
use seen::Seen;

// What a rule leaves: the derivation goes on, is complete, or the rule's condition fails.
#[derive(Clone, Copy)]
pub enum Status {
    Running,
    Complete,
    Failed,
}

// U: the one literal that clause k has left joins, and the clause is struck.
fn rule_u(x: &[u16], n: usize, work: &mut [u16], k: usize) -> Status
    requires indexed { Indexed x.now n }
    requires held { Held (index_node x.now) n work.old }
    ensures { Ruled (index_node x.now) n (λ goals. rule_u (expand (index_node x.now)) goals n k) work.old work.new result }
{
    let Some(s) = area::only(work, k) else {
        return Status::Failed;
    };
    let l = area::literal_in(work, s);
    if area::value(work, n, l) != 0 {
        return Status::Failed;
    }
    area::strike(work, s, area::WHOLE);
    branch::push(x, n, work, l);
    Status::Running
}

// R: literal p of clause k is struck.
fn rule_r(x: &[u16], n: usize, work: &mut [u16], p: u8, k: usize) -> Status
    requires indexed { Indexed x.now n }
    requires held { Held (index_node x.now) n work.old }
    ensures { Ruled (index_node x.now) n (λ goals. rule_r (expand (index_node x.now)) goals n p k) work.old work.new result }
{
    if !area::stands(work, k) {
        return Status::Failed;
    }
    let s = area::base(work, k) + p as usize;
    if area::base(work, k + 1) <= s {
        return Status::Failed;
    }
    if area::strike_in(work, s) != 0 {
        return Status::Failed;
    }
    if area::value(work, n, area::literal_in(work, s)) != 2 {
        return Status::Failed;
    }
    area::strike(work, s, 0);
    Status::Running
}

// E: clause k, of which a literal that is left is true, is struck.
fn rule_e(x: &[u16], n: usize, work: &mut [u16], k: usize) -> Status
    requires indexed { Indexed x.now n }
    requires held { Held (index_node x.now) n work.old }
    ensures { Ruled (index_node x.now) n (λ goals. rule_e (expand (index_node x.now)) goals n k) work.old work.new result }
{
    if !area::stands(work, k) {
        return Status::Failed;
    }
    let Some(s) = area::true_slot(work, n, k) else {
        return Status::Failed;
    };
    area::strike(work, s, area::WHOLE);
    Status::Running
}

// The branch closes: the newest open split turns right, or the derivation is complete.
fn turn(x: &[u16], n: usize, work: &mut [u16]) -> Status
    requires indexed { Indexed x.now n }
    requires held { Held (index_node x.now) n work.old }
    ensures { Ruled (index_node x.now) n (λ goals b waiting. answer (turn waiting)) work.old work.new result }
{
    if work[1] == 0 {
        return Status::Complete;
    }
    let l = branch::restore(x, n, work);
    branch::push(x, n, work, branch::negated(l));
    Status::Running
}

// C: all literals of clause k are struck.
fn rule_c(x: &[u16], n: usize, work: &mut [u16], k: usize) -> Status
    requires indexed { Indexed x.now n }
    requires held { Held (index_node x.now) n work.old }
    ensures { Ruled (index_node x.now) n (λ goals. rule_c (expand (index_node x.now)) goals n k) work.old work.new result }
{
    if !area::emptied(work, k) {
        return Status::Failed;
    }
    turn(x, n, work)
}

// S: an undecided literal joins, and its negation waits.
fn rule_s(x: &[u16], n: usize, work: &mut [u16], l: u16) -> Status
    requires indexed { Indexed x.now n }
    requires held { Held (index_node x.now) n work.old }
    ensures { Ruled (index_node x.now) n (λ goals. rule_s (expand (index_node x.now)) goals n l) work.old work.new result }
{
    if 2 * n <= l as usize {
        return Status::Failed;
    }
    if area::value(work, n, l) != 0 {
        return Status::Failed;
    }
    area::save_split(work);
    branch::push(x, n, work, l);
    Status::Running
}

// U of version two: the one literal of clause k that is not false, and is undecided, joins.
fn unit_two(x: &[u16], n: usize, work: &mut [u16], k: usize) -> Status
    requires indexed { Indexed x.now n }
    requires held { Held (index_node x.now) n work.old }
    ensures { Ruled (index_node x.now) n (λ goals. unit_two (expand (index_node x.now)) goals n k) work.old work.new result }
{
    if work[0] as usize <= k {
        return Status::Failed;
    }
    let Seen::One(l) = seen::clause_state(work, n, k) else {
        return Status::Failed;
    };
    branch::push(x, n, work, l);
    Status::Running
}

// C of version two: all literals of clause k are false.
fn conflict_two(x: &[u16], n: usize, work: &mut [u16], k: usize) -> Status
    requires indexed { Indexed x.now n }
    requires held { Held (index_node x.now) n work.old }
    ensures { Ruled (index_node x.now) n (λ goals. conflict_two (expand (index_node x.now)) goals n k) work.old work.new result }
{
    if work[0] as usize <= k {
        return Status::Failed;
    }
    let Seen::Empty = seen::clause_state(work, n, k) else {
        return Status::Failed;
    };
    turn(x, n, work)
}

// The rule of a step's letter, in version two.
fn apply_two(x: &[u16], n: usize, work: &mut [u16], step: Step) -> Status
    requires indexed { Indexed x.now n }
    requires held { Held (index_node x.now) n work.old }
    ensures { Ruled (index_node x.now) n (λ goals. apply_two (expand (index_node x.now)) goals n step) work.old work.new result }
{
    let k = step.value as usize;
    match step.rule {
        85 => unit_two(x, n, work, k),
        67 => conflict_two(x, n, work, k),
        83 => rule_s(x, n, work, step.value),
        _ => Status::Failed,
    }
}

// The rule of a step's letter, in version one.
fn apply_step(x: &[u16], n: usize, work: &mut [u16], step: Step) -> Status
    requires indexed { Indexed x.now n }
    requires held { Held (index_node x.now) n work.old }
    ensures { Ruled (index_node x.now) n (λ goals. apply (expand (index_node x.now)) goals n step) work.old work.new result }
{
    let k = step.value as usize;
    match step.rule {
        85 => rule_u(x, n, work, k),
        82 => rule_r(x, n, work, step.position, k),
        69 => rule_e(x, n, work, k),
        67 => rule_c(x, n, work, k),
        _ => rule_s(x, n, work, step.value),
    }
}

// The rule of a step's letter in its version.
fn apply_in(version: Version, x: &[u16], n: usize, work: &mut [u16], step: Step) -> Status
    requires indexed { Indexed x.now n }
    requires held { Held (index_node x.now) n work.old }
    ensures { Ruled (index_node x.now) n (λ goals. apply_in (expand (index_node x.now)) goals n version step) work.old work.new result }
{
    match version {
        Version::One => apply_step(x, n, work, step),
        Version::Two => apply_two(x, n, work, step),
    }
}

// A refusal.
fn refusal(number: u16, place: usize) -> Result<(), Refusal>
    ensures { verdict_of result ≡ refused number place }
{
    Err(Refusal { number, place })
}

// A derivation that is complete before step i: 46 where there is such a step.
fn completed(i: usize, count: usize) -> Result<(), Refusal>
    ensures { verdict_of result ≡ cond (ltb i count) (refused 46 i) fine }
{
    if i < count {
        return refusal(46, i);
    }
    Ok(())
}

// The steps of a derivation in turn, from a step on: 46 already complete, 64 a late G, 45 a rule's condition fails, 47 branches open at
// the end.
pub fn check_run(
    version: Version,
    x: &[u16],
    n: usize,
    goals: &[u16],
    work: &mut [u16],
    d: &[u8],
    from: usize,
    count: usize,
) -> Result<(), Refusal>
    requires indexed { Indexed x.now n }
    requires goals { Goals n goals.now }
    requires area_size_in_bounds { area_size ≤ length work.old }
    requires from_le_count { from ≤ count }
    requires by_index { (k : ℕ) → k < count → place_of k + 4 ≤ length d.now }
    ensures { verdict_of result ≡ run version (expand (index_node x.now)) goals.now n from (list_from (step_at d.now) from (count - from)) (running root []) }
{
    branch::begin(x, n, goals, work);
    let mut at = steps::place(from);
    for i in from..count {
        let s = steps::step_by(d, i, at);
        if s.rule == 71 {
            return refusal(64, i);
        }
        match apply_in(version, x, n, work, s) {
            Status::Failed => return refusal(45, i),
            Status::Complete => return completed(i + 1, count),
            Status::Running => {}
        }
        at = steps::place_after(i, at);
    }
    refusal(47, count)
}
