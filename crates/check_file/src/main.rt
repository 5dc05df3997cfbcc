// Checks a derivation of goals of a table: `check_file TABLE GOAL.. DERIVATION`. It prints `accepted`, or the line of a refusal. The
// derivation stands in one buffer on the stack, so one of more than 4,194,304 bytes (8,192 of the 65,536 blocks) is turned away.
#![tactic(auto)]

ghost use Rattle.std.specs.Prelude.{◌≡◌, ◌≤◌, min, length};
ghost use Rattle.check_file.specs.Said.{Verified};

use std::env::FillError;
use std::rt::{Env, Files};

// The text of check's answer; its length in the buffer.
fn verify(t: &[u8], goals: &[u16], d: &[u8], out: &mut [u8]) -> usize
    requires { 64 ≤ length out.old }
    ensures { Verified t.now goals.now d.now out.old out.new result }
{
    let mut work = [0u16; 32768];
    match checking::check(t, goals, &mut work, d) {
        Ok(()) => text::put(out, 0, b"accepted\n"),
        Err(f) => text::refused(out, 0, f),
    }
}

fn say(rt: &(impl Print + Eprint + Alloc), t: &[u8], goals: &[u16], d: &[u8]) {
    let mut out = [0u8; 64];
    let end = verify(t, goals, d, &mut out);
    arguments::say(rt, &out[..end]);
}

// Room for a derivation, on the stack: 4,194,304 bytes, which are 8,192 of the 65,536 blocks that one may have, and one more, by
// which a longer file shows. Of its zeros only the length is known: they are too many to compute with.
fn room() -> [u8; 4194305]
    ensures { 4194305 ≡ length result }
{
    [0; 4194305]
}

fn run_derivation(
    rt: &(impl Env + Files + Print + Eprint + Alloc),
    t: &[u8],
    goals: &[u16],
    last: usize,
) {
    let mut d = room();
    if let Some(n) = arguments::load(rt, last, &mut d) {
        if n > 4194304 {
            let _ = eprintln!(rt; "check_file: a derivation of more than 4194304 bytes");
        } else {
            say(rt, t, goals, &d[..n]);
        }
    }
}

// Argument 1 is the table, and `last` the derivation. A table of more than 16,384 bytes fills the buffer, and is refused by its length.
fn run(rt: &(impl Env + Files + Print + Eprint + Alloc), goals: &[u16], last: usize) {
    let mut table = [0u8; 16385];
    if let Some(n) = arguments::load(rt, 1, &mut table) {
        run_derivation(rt, &table[..n], goals, last);
    }
}

fn usage(rt: &impl Eprint) {
    let _ = eprintln!(rt; "usage: check_file TABLE GOAL.. DERIVATION");
}

// A goal as a 16-bit number; one that is too large for that is too large for any table, and stays so.
fn literal(goal: usize) -> u16
    ensures { result ≡ min goal 65535 }
{
    if goal < 65535 { goal as u16 } else { 65535 }
}

// Argument a, from 2 on, becomes a goal, if the list has room for it; whether it is a number.
fn read_goal(rt: &impl Env, a: usize, goals: &mut [u16]) -> bool
    requires { 2 ≤ a }
{
    let Some(goal) = arguments::number(rt, a) else {
        return false;
    };
    if a - 2 < goals.len() {
        goals[a - 2] = literal(goal);
    }
    true
}

// The goals are the arguments from 2 on, before the last; whether all are numbers.
fn read_goals(rt: &impl Env, last: usize, goals: &mut [u16]) -> bool {
    for a in 2..last {
        if !read_goal(rt, a, goals) {
            return false;
        }
    }
    true
}

// How many arguments there are, the program's own name among them.
fn count(rt: &impl Env) -> usize {
    let mut word = [0u8; 1];
    for i in 0..usize::MAX {
        if let Err(FillError::NotPresent) = rt.arg(i, &mut word) {
            return i;
        }
    }
    usize::MAX
}

// A list of 65 goals is too long, and so is a longer one, of which the first 65 are taken.
fn main(rt: HostRuntime) {
    let args = count(&rt);
    if args < 4 {
        usage(&rt);
        return;
    }
    let mut goals = [0u16; 65];
    if !read_goals(&rt, args - 1, &mut goals) {
        usage(&rt);
        return;
    }
    run(&rt, &goals[..(args - 3).min(65)], args - 1);
}
