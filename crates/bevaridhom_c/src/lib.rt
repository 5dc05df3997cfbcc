// The exports for a host in C, as include/bevaridhom.h has them: each is the entry of that name of crate bevaridhom, with its clauses.
// A slice is a pointer and a length.
#![tactic(auto)]

ghost use Rattle.std.specs.Prelude.{◌≡◌};
ghost use Rattle.scope.specs.Calls.{table_count, table_record, evaluate, add, bytes_after};
ghost use Rattle.steps.specs.Opened.{step_count};
ghost use Rattle.rules.specs.Steps.{version_of};
ghost use Rattle.step_reader.specs.Handed.{step_handed};
ghost use Rattle.rooms.specs.Calls.{OpensRooms, TurnsRooms};
ghost use Rattle.bevaridhom.specs.Answers.{count_answer, record_answer, truth_answer, add_answer, rooms_answer, version_asked, open_answer, step_answer, HostDecides, HostClashes, HostOverviews, HostDerives, HostChecks, HostWishes, HostReads};

use bevaridhom::{
    BevAdded, BevAnswered, BevChecked, BevClashed, BevCount, BevDecided, BevDerived, BevOpened,
    BevRecord, BevStep, BevTruth, BevTurned, BevWished,
};

// Table reading: the node count.
#[unsafe(no_mangle)]
pub extern "C" fn bev_count(t: &[u8]) -> BevCount
    ensures { result ≡ count_answer (table_count t.now) }
{
    bevaridhom::bev_count(t)
}

// Table reading: the record of a literal's node.
#[unsafe(no_mangle)]
pub extern "C" fn bev_record(t: &[u8], literal: usize) -> BevRecord
    ensures { result ≡ record_answer (table_record t.now literal) }
{
    bevaridhom::bev_record(t, literal)
}

// The truth of a literal under a setting: 0 no, 1 yes, 2 unknown.
#[unsafe(no_mangle)]
pub extern "C" fn bev_evaluate(t: &[u8], literal: usize, s: &[u8]) -> BevTruth
    ensures { result ≡ truth_answer (evaluate t.now literal s.now) }
{
    bevaridhom::bev_evaluate(t, literal, s)
}

// Adds a record of 8 bytes to the table in the used part of a buffer.
#[unsafe(no_mangle)]
pub extern "C" fn bev_add(buf: &mut [u8], used: usize, r: &[u8; 8]) -> BevAdded
    ensures answered { result ≡ add_answer (add buf.old used r.now) }
    ensures bytes { buf.new ≡ bytes_after buf.old (add buf.old used r.now) }
{
    bevaridhom::bev_add(buf, used, r)
}

// Whether one setting makes all goals true, 1 possible and 0 impossible; if so, the settings become such a one.
#[unsafe(no_mangle)]
pub extern "C" fn bev_decide(t: &[u8], goals: &[u16], s: &mut [u8], w: &mut [u16]) -> BevDecided
    ensures { HostDecides t.now goals.now s.old w.old s.new w.new result }
{
    bevaridhom::bev_decide(t, goals, s, w)
}

// The few of goals that are impossible together to argue about: their indices, in rising order.
#[unsafe(no_mangle)]
pub extern "C" fn bev_clash(t: &[u8], goals: &[u16], w: &mut [u16]) -> BevClashed
    ensures { HostClashes t.now goals.now w.old w.new result }
{
    bevaridhom::bev_clash(t, goals, w)
}

// Whether each goal by itself is possible: a byte for each, 1 possible and 0 impossible.
#[unsafe(no_mangle)]
pub extern "C" fn bev_overview(t: &[u8], goals: &[u16], b: &mut [u8], w: &mut [u16]) -> BevAnswered
    ensures { HostOverviews t.now goals.now b.old w.old b.new w.new result }
{
    bevaridhom::bev_overview(t, goals, b, w)
}

// The first call for questions under one allowance: each search stands at its start, unfinished.
#[unsafe(no_mangle)]
pub extern "C" fn bev_rooms_open(t: &[u8], questions: &[u16], s: &[u8], w: &mut [u16]) -> BevTurned
    ensures { OpensRooms t.now questions.now s.now w.old w.new (rooms_answer result) }
{
    bevaridhom::bev_rooms_open(t, questions, s, w)
}

// A later call: an allowance of turns goes round over the unfinished questions.
#[unsafe(no_mangle)]
pub extern "C" fn bev_rooms_turn(
    t: &[u8],
    questions: &[u16],
    s: &mut [u8],
    w: &mut [u16],
    allowance: usize,
) -> BevTurned
    ensures { TurnsRooms t.now questions.now s.old w.old allowance s.new w.new (rooms_answer result) }
{
    bevaridhom::bev_rooms_turn(t, questions, s, w, allowance)
}

// Writes the derivation, of the version wanted, of goals that are impossible together and answers its step count.
#[unsafe(no_mangle)]
pub extern "C" fn bev_derive(
    t: &[u8],
    goals: &[u16],
    wanted: u8,
    w: &mut [u16],
    d: &mut [u8],
) -> BevDerived
    ensures { HostDerives (version_asked wanted) t.now goals.now w.old d.old w.new d.new result }
{
    bevaridhom::bev_derive(t, goals, wanted, w, d)
}

// Whether a derivation shows that the goals are impossible together: number 0 accepted.
#[unsafe(no_mangle)]
pub extern "C" fn bev_check(t: &[u8], goals: &[u16], w: &mut [u16], d: &[u8]) -> BevChecked
    ensures { HostChecks t.now goals.now w.old d.now w.new result }
{
    bevaridhom::bev_check(t, goals, w, d)
}

// A setting that makes the goals true, and as many wishes as an allowance of questions finds: how many for certain, how many at most, and
// the questions put.
#[unsafe(no_mangle)]
pub extern "C" fn bev_wishes(
    t: &[u8],
    goals: &[u16],
    wishes: &[u16],
    allowance: usize,
    s: &mut [u8],
    w: &mut [u16],
) -> BevWished
    ensures { HostWishes t.now goals.now wishes.now allowance s.old w.old s.new w.new result }
{
    bevaridhom::bev_wishes(t, goals, wishes, allowance, s, w)
}

// Opening a derivation: its step count and its version, or the first refusal of 40 to 44 and 65.
#[unsafe(no_mangle)]
pub extern "C" fn bev_open(d: &[u8]) -> BevOpened
    ensures { result ≡ open_answer (version_of d.now) (step_count d.now) }
{
    bevaridhom::bev_open(d)
}

// The reader as an entry: the step at an index (left 1), or that none is left there (left 0). Of the derivation it looks at the length
// (row 40), at the first byte, which says the version, at the block of the index or, behind all blocks, the last (rows 41 to 43), and at
// the step (rows 44 and 65).
#[unsafe(no_mangle)]
pub extern "C" fn bev_step(d: &[u8], index: usize) -> BevStep
    ensures { result ≡ step_answer (step_handed d.now index) }
{
    bevaridhom::bev_step(d, index)
}

// The goal of a DIMACS text and its table, built in an empty buffer. After 51 or 52 the buffer is free.
#[unsafe(no_mangle)]
pub extern "C" fn bev_dimacs(text: &[u8], buf: &mut [u8]) -> BevAdded
    ensures { HostReads text.now buf.old result buf.new }
{
    bevaridhom::bev_dimacs(text, buf)
}
