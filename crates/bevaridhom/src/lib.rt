// The calls for a host: numbers and byte slices in, a struct by value out. Crate bevaridhom_c exports them for C.
#![tactic(auto)]

ghost use Rattle.std.specs.Prelude.{◌≡◌};
ghost use Rattle.scope.specs.Outcome.{answer};
ghost use Rattle.scope.specs.Calls.{table_count, table_record, evaluate, add, bytes_after};
ghost use Rattle.record.specs.Read.{read_of};
ghost use Rattle.table.specs.Counted.{counted_of};
ghost use Rattle.adding.specs.Added.{added_of};
ghost use Rattle.truth.specs.Evaluated.{evaluated_of};
ghost use Rattle.steps.specs.Opened.{step_count};
ghost use Rattle.rules.specs.Steps.{version_of};
ghost use Rattle.deciding.specs.Decides.{decision_said, decided_of};
ghost use Rattle.deriver.specs.Derives.{derived_of};
ghost use Rattle.checking.specs.Checks.{checked_of};
ghost use Rattle.wishes.specs.Wishes.{wished_of};
ghost use Rattle.step_reader.specs.Handed.{next_in, handed_of, step_handed};
ghost use Rattle.rooms.specs.Rooms.{turned_of, told_of};
ghost use Rattle.rooms.specs.Calls.{OpensRooms, TurnsRooms};
ghost use Rattle.bevaridhom.specs.Answers.{count_answer, record_answer, truth_number, truth_answer, mark_answer, add_answer, decide_answer, clash_told, overview_told, derive_answer, check_answer, wishes_answer, rooms_answer, version_asked, version_number, open_answer, step_answer, HostDecides, HostClashes, HostOverviews, HostDerives, HostChecks, HostWishes, HostReads};

use adding::Mark;
use clashing::Clashed;
use deciding::Decision;
use granting::Grant;
use rooms::Told;
use rules::{Step, Version};
use scope::{Node, Refusal, Truth};

// In each answer: number 0 and the values, or the refusal's number and place and every value 0.
#[repr(C)]
#[derive(Clone, Copy)]
pub struct BevCount {
    pub number: u16,
    pub place: usize,
    pub nodes: usize,
}

#[repr(C)]
#[derive(Clone, Copy)]
pub struct BevRecord {
    pub number: u16,
    pub place: usize,
    pub kind: u8,
    pub a: u16,
    pub b: u16,
    pub c: u16,
}

#[repr(C)]
#[derive(Clone, Copy)]
pub struct BevTruth {
    pub number: u16,
    pub place: usize,
    pub truth: u8,
}

#[repr(C)]
#[derive(Clone, Copy)]
pub struct BevAdded {
    pub number: u16,
    pub place: usize,
    pub literal: usize,
    pub used: usize,
}

impl From<Result<usize, Refusal>> for BevCount {
    ghost from_gives = { λ c r. r ≡ count_answer (counted_of c) };

    fn from(c: Result<usize, Refusal>) -> BevCount {
        match c {
            Ok(nodes) => BevCount {
                number: 0,
                place: 0,
                nodes,
            },
            Err(f) => BevCount {
                number: f.number,
                place: f.place,
                nodes: 0,
            },
        }
    }
}

// Table reading: the node count.
pub fn bev_count(t: &[u8]) -> BevCount
    ensures { result ≡ count_answer (table_count t.now) }
{
    BevCount::from(table::count(t))
}

impl From<Result<Node, Refusal>> for BevRecord {
    ghost from_gives = { λ c r. r ≡ record_answer (read_of c) };

    fn from(c: Result<Node, Refusal>) -> BevRecord {
        match c {
            Ok(x) => BevRecord {
                number: 0,
                place: 0,
                kind: x.kind,
                a: x.a,
                b: x.b,
                c: x.c,
            },
            Err(f) => BevRecord {
                number: f.number,
                place: f.place,
                kind: 0,
                a: 0,
                b: 0,
                c: 0,
            },
        }
    }
}

// Table reading: the record of a literal's node.
pub fn bev_record(t: &[u8], literal: usize) -> BevRecord
    ensures { result ≡ record_answer (table_record t.now literal) }
{
    BevRecord::from(table::record_of(t, literal))
}

// The number of a truth.
fn truth_number(v: Truth) -> u8
    ensures { result ≡ truth_number v }
{
    match v {
        Truth::No => 0,
        Truth::Yes => 1,
        Truth::Unknown => 2,
    }
}

impl From<Result<Truth, Refusal>> for BevTruth {
    ghost from_gives = { λ c r. r ≡ truth_answer (evaluated_of c) };

    fn from(c: Result<Truth, Refusal>) -> BevTruth {
        match c {
            Ok(v) => BevTruth {
                number: 0,
                place: 0,
                truth: truth_number(v),
            },
            Err(f) => BevTruth {
                number: f.number,
                place: f.place,
                truth: 0,
            },
        }
    }
}

// The truth of a literal under a setting: 0 no, 1 yes, 2 unknown.
pub fn bev_evaluate(t: &[u8], literal: usize, s: &[u8]) -> BevTruth
    ensures { result ≡ truth_answer (evaluate t.now literal s.now) }
{
    BevTruth::from(truth::evaluate(t, literal, s))
}

impl From<Result<Mark, Refusal>> for BevAdded {
    ghost from_gives = { λ c r. r ≡ mark_answer (added_of c) };

    fn from(c: Result<Mark, Refusal>) -> BevAdded {
        match c {
            Ok(m) => BevAdded {
                number: 0,
                place: 0,
                literal: m.literal,
                used: m.used,
            },
            Err(f) => BevAdded {
                number: f.number,
                place: f.place,
                literal: 0,
                used: 0,
            },
        }
    }
}

// Adds a record of 8 bytes to the table in the used part of a buffer.
pub fn bev_add(buf: &mut [u8], used: usize, r: &[u8; 8]) -> BevAdded
    ensures answered { result ≡ add_answer (add buf.old used r.now) }
    ensures bytes { buf.new ≡ bytes_after buf.old (add buf.old used r.now) }
{
    BevAdded::from(adding::add(buf, used, *r))
}

#[repr(C)]
#[derive(Clone, Copy)]
pub struct BevDecided {
    pub number: u16,
    pub place: usize,
    pub possible: u8,
    pub splits: u32,
}

// What is decided, with the splits made.
fn decided(d: Decision) -> BevDecided
    ensures { result ≡ decide_answer (answer (decision_said d)) }
{
    match d {
        Decision::Possible(splits) => BevDecided {
            number: 0,
            place: 0,
            possible: 1,
            splits,
        },
        Decision::Impossible(splits) => BevDecided {
            number: 0,
            place: 0,
            possible: 0,
            splits,
        },
    }
}

impl From<Result<Decision, Refusal>> for BevDecided {
    ghost from_gives = { λ c r. r ≡ decide_answer (decided_of c) };

    fn from(c: Result<Decision, Refusal>) -> BevDecided {
        match c {
            Ok(d) => decided(d),
            Err(f) => BevDecided {
                number: f.number,
                place: f.place,
                possible: 0,
                splits: 0,
            },
        }
    }
}

// Whether one setting makes all goals true, 1 possible and 0 impossible; if so, the settings become such a one.
pub fn bev_decide(t: &[u8], goals: &[u16], s: &mut [u8], w: &mut [u16]) -> BevDecided
    ensures { HostDecides t.now goals.now s.old w.old s.new w.new result }
{
    BevDecided::from(deciding::decide(t, goals, s, w))
}

#[repr(C)]
#[derive(Clone, Copy)]
pub struct BevClashed {
    pub number: u16,
    pub place: usize,
    pub count: usize,
    pub kept: [u8; 64],
}

impl From<Result<Clashed, Refusal>> for BevClashed {
    ghost from_gives = { λ c r. r ≡ clash_told c };

    fn from(c: Result<Clashed, Refusal>) -> BevClashed {
        match c {
            Ok(k) => {
                let kept = k.kept;
                BevClashed {
                    number: 0,
                    place: 0,
                    count: k.count,
                    kept,
                }
            }
            Err(f) => BevClashed {
                number: f.number,
                place: f.place,
                count: 0,
                kept: [0; 64],
            },
        }
    }
}

// The few of goals that are impossible together to argue about: their indices, in rising order.
pub fn bev_clash(t: &[u8], goals: &[u16], w: &mut [u16]) -> BevClashed
    ensures { HostClashes t.now goals.now w.old w.new result }
{
    BevClashed::from(clashing::clash(t, goals, w))
}

#[repr(C)]
#[derive(Clone, Copy)]
pub struct BevAnswered {
    pub number: u16,
    pub place: usize,
}

impl From<Result<(), Refusal>> for BevAnswered {
    ghost from_gives = { λ c r. r ≡ overview_told c };

    fn from(c: Result<(), Refusal>) -> BevAnswered {
        match c {
            Ok(()) => BevAnswered {
                number: 0,
                place: 0,
            },
            Err(f) => BevAnswered {
                number: f.number,
                place: f.place,
            },
        }
    }
}

// Whether each goal by itself is possible: a byte for each, 1 possible and 0 impossible.
pub fn bev_overview(t: &[u8], goals: &[u16], b: &mut [u8], w: &mut [u16]) -> BevAnswered
    ensures { HostOverviews t.now goals.now b.old w.old b.new w.new result }
{
    BevAnswered::from(overview::overview(t, goals, b, w))
}

#[repr(C)]
#[derive(Clone, Copy)]
pub struct BevTurned {
    pub number: u16,
    pub place: usize,
    pub count: usize,
    pub turns: [usize; 8],
    pub verdicts: [u8; 8],
}

impl From<Result<Told, Refusal>> for BevTurned {
    ghost from_gives = { λ c r. rooms_answer r ≡ turned_of (told_of c) };

    fn from(c: Result<Told, Refusal>) -> BevTurned {
        match c {
            Ok(told) => {
                let turns = told.turns;
                let verdicts = told.verdicts;
                BevTurned {
                    number: 0,
                    place: 0,
                    count: told.count,
                    turns,
                    verdicts,
                }
            }
            Err(f) => BevTurned {
                number: f.number,
                place: f.place,
                count: 0,
                turns: [0; 8],
                verdicts: [0; 8],
            },
        }
    }
}

// The first call for questions under one allowance: each search stands at its start, unfinished.
pub fn bev_rooms_open(t: &[u8], questions: &[u16], s: &[u8], w: &mut [u16]) -> BevTurned
    ensures { OpensRooms t.now questions.now s.now w.old w.new (rooms_answer result) }
{
    BevTurned::from(rooms::open(t, questions, s, w))
}

// A later call: an allowance of turns goes round over the unfinished questions.
pub fn bev_rooms_turn(
    t: &[u8],
    questions: &[u16],
    s: &mut [u8],
    w: &mut [u16],
    allowance: usize,
) -> BevTurned
    ensures { TurnsRooms t.now questions.now s.old w.old allowance s.new w.new (rooms_answer result) }
{
    BevTurned::from(rooms::turn(t, questions, s, w, allowance))
}

#[repr(C)]
#[derive(Clone, Copy)]
pub struct BevDerived {
    pub number: u16,
    pub place: usize,
    pub steps: usize,
}

// The version that a byte asks for: 0 is version one, any other value version two.
fn version_asked(wanted: u8) -> Version
    ensures { result ≡ version_asked wanted }
{
    if wanted == 0 {
        Version::One
    } else {
        Version::Two
    }
}

impl From<Result<usize, Refusal>> for BevDerived {
    ghost from_gives = { λ c r. r ≡ derive_answer (derived_of c) };

    fn from(c: Result<usize, Refusal>) -> BevDerived {
        match c {
            Ok(steps) => BevDerived {
                number: 0,
                place: 0,
                steps,
            },
            Err(f) => BevDerived {
                number: f.number,
                place: f.place,
                steps: 0,
            },
        }
    }
}

// Writes the derivation, of the version wanted, of goals that are impossible together and answers its step count.
pub fn bev_derive(t: &[u8], goals: &[u16], wanted: u8, w: &mut [u16], d: &mut [u8]) -> BevDerived
    ensures { HostDerives (version_asked wanted) t.now goals.now w.old d.old w.new d.new result }
{
    BevDerived::from(deriver::derive(version_asked(wanted), t, goals, w, d))
}

#[repr(C)]
#[derive(Clone, Copy)]
pub struct BevChecked {
    pub number: u16,
    pub place: usize,
}

impl From<Result<(), Refusal>> for BevChecked {
    ghost from_gives = { λ c r. r ≡ check_answer (checked_of c) };

    fn from(c: Result<(), Refusal>) -> BevChecked {
        match c {
            Ok(()) => BevChecked {
                number: 0,
                place: 0,
            },
            Err(f) => BevChecked {
                number: f.number,
                place: f.place,
            },
        }
    }
}

// Whether a derivation shows that the goals are impossible together: number 0 accepted.
pub fn bev_check(t: &[u8], goals: &[u16], w: &mut [u16], d: &[u8]) -> BevChecked
    ensures { HostChecks t.now goals.now w.old d.now w.new result }
{
    BevChecked::from(checking::check(t, goals, w, d))
}

#[repr(C)]
#[derive(Clone, Copy)]
pub struct BevWished {
    pub number: u16,
    pub place: usize,
    pub met: usize,
    pub bound: usize,
    pub questions: usize,
}

impl From<Result<Grant, Refusal>> for BevWished {
    ghost from_gives = { λ c r. r ≡ wishes_answer (wished_of c) };

    fn from(c: Result<Grant, Refusal>) -> BevWished {
        match c {
            Ok(g) => BevWished {
                number: 0,
                place: 0,
                met: g.met,
                bound: g.bound,
                questions: g.questions,
            },
            Err(f) => BevWished {
                number: f.number,
                place: f.place,
                met: 0,
                bound: 0,
                questions: 0,
            },
        }
    }
}

// A setting that makes the goals true, and as many wishes as an allowance of questions finds: how many for certain, how many at most, and
// the questions put.
pub fn bev_wishes(
    t: &[u8],
    goals: &[u16],
    wishes: &[u16],
    allowance: usize,
    s: &mut [u8],
    w: &mut [u16],
) -> BevWished
    ensures { HostWishes t.now goals.now wishes.now allowance s.old w.old s.new w.new result }
{
    BevWished::from(wishes::grant(t, goals, wishes, allowance, s, w))
}

#[repr(C)]
#[derive(Clone, Copy)]
pub struct BevOpened {
    pub number: u16,
    pub place: usize,
    pub steps: usize,
    pub version: u8,
}

// The number of a version.
fn version_number(version: Version) -> u8
    ensures { result ≡ version_number version }
{
    match version {
        Version::One => 1,
        Version::Two => 2,
    }
}

// Opening a derivation: its step count and its version, or the first refusal of 40 to 44 and 65.
pub fn bev_open(d: &[u8]) -> BevOpened
    ensures { result ≡ open_answer (version_of d.now) (step_count d.now) }
{
    let c = steps::count(d);
    match c {
        Ok(steps) => BevOpened {
            number: 0,
            place: 0,
            steps,
            version: version_number(steps::version_of(d)),
        },
        Err(f) => BevOpened {
            number: f.number,
            place: f.place,
            steps: 0,
            version: 0,
        },
    }
}

#[repr(C)]
#[derive(Clone, Copy)]
pub struct BevStep {
    pub number: u16,
    pub place: usize,
    pub left: u8,
    pub rule: u8,
    pub position: u8,
    pub value: u16,
}

// What is handed out: a step, or that none is left.
fn handed(next: Option<Step>) -> BevStep
    ensures { result ≡ step_answer (answer (next_in next)) }
{
    match next {
        Some(s) => BevStep {
            number: 0,
            place: 0,
            left: 1,
            rule: s.rule,
            position: s.position,
            value: s.value,
        },
        None => BevStep {
            number: 0,
            place: 0,
            left: 0,
            rule: 0,
            position: 0,
            value: 0,
        },
    }
}

impl From<Result<Option<Step>, Refusal>> for BevStep {
    ghost from_gives = { λ c r. r ≡ step_answer (handed_of c) };

    fn from(c: Result<Option<Step>, Refusal>) -> BevStep {
        match c {
            Ok(next) => handed(next),
            Err(f) => BevStep {
                number: f.number,
                place: f.place,
                left: 0,
                rule: 0,
                position: 0,
                value: 0,
            },
        }
    }
}

// The reader as an entry: the step at an index (left 1), or that none is left there (left 0). Of the derivation it looks at the length
// (row 40), at the first byte, which says the version, at the block of the index or, behind all blocks, the last (rows 41 to 43), and at
// the step (rows 44 and 65).
pub fn bev_step(d: &[u8], index: usize) -> BevStep
    ensures { result ≡ step_answer (step_handed d.now index) }
{
    BevStep::from(step_reader::step_of(d, index))
}

// The goal of a DIMACS text and its table, built in an empty buffer. After 51 or 52 the buffer is free.
pub fn bev_dimacs(text: &[u8], buf: &mut [u8]) -> BevAdded
    ensures { HostReads text.now buf.old result buf.new }
{
    BevAdded::from(cnfread::read(text, buf))
}
