// Lists a table that is read on standard input: a heading, and for each node its number and the answers for both its literals. What
// is written gathers in one buffer, a line behind the other, and each line is written as soon as it stands there. So the buffer's
// contract is that of the whole listing. Where a line cannot be written, standard error says so, once, and no more is written.
#![tactic(auto)]

ghost use Rattle.std.specs.Prelude.{◌≡◌, ◌+◌, ◌*◌, ◌<◌, ◌≤◌, length};
ghost use Rattle.text.specs.Text.{Put};
ghost use Rattle.text.specs.Listing.{listing};
ghost use Rattle.index.specs.Indexed.{Indexed};
ghost use Rattle.state.specs.Work.{area};
ghost use Rattle.listing.specs.Lines.{found_word, Judged, Worded, most_line, LineOf, Lined, AllLined};

use searching::Found;

// Writes the bytes of the buffer from one place up to another, where those before them are written; whether they all are.
fn say(
    rt: &(impl Print + Eprint + Alloc),
    out: &[u8],
    from: usize,
    to: usize,
    written: bool,
) -> bool
    requires { (from ≤ to) × (to ≤ length out.now) }
{
    if !written {
        return false;
    }
    arguments::say(rt, &out[from..to])
}

// A literal as a 16-bit number.
fn literal(l: usize) -> u16
    requires { l < 4032 }
    ensures { result ≡ l }
{
    l as u16
}

// What the search of a goal by itself finds.
fn verdict(x: &[u16; 22626], n: usize, goal: usize, work: &mut [u16]) -> Found
    requires indexed { Indexed x.now n }
    requires goal_bound { (goal < 2 * n) × (area ≤ length work.old) }
    ensures { Judged x.now n goal result }
{
    let l = literal(goal);
    let goals = [l; 1];
    state::blank(n, work, 0);
    let mut rests = [0u64; 4036];
    searching::solve(x, n, &goals, work, &mut rests)
}

// Its word.
fn word(out: &mut [u8], at: usize, f: Found) -> usize
    requires { at + 10 ≤ length out.old }
    ensures { Worded out.old at (found_word f) out.new result }
{
    match f {
        Found::Model => text::put(out, at, b"possible"),
        Found::Closed => text::put(out, at, b"impossible"),
    }
}

// The line of node m, where what is found of its two literals is known.
fn put_line(out: &mut [u8], at: usize, m: usize, yes: Found, no: Found) -> usize
    requires { at + most_line ≤ length out.old }
    ensures { LineOf m yes no out.old at out.new result }
{
    let a = text::number(out, at, m);
    let b = text::put(out, a, b" ");
    let c = word(out, b, yes);
    let d = text::put(out, c, b" ");
    let e = word(out, d, no);
    text::put(out, e, b"\n")
}

// The line of node m.
fn line(x: &[u16; 22626], n: usize, m: usize, out: &mut [u8], at: usize, work: &mut [u16]) -> usize
    requires indexed { Indexed x.now n }
    requires m_lt_n { (m < n) × (at + most_line ≤ length out.old) × (area ≤ length work.old) }
    ensures { Lined x.now n out.old at m out.new result }
{
    let yes = verdict(x, n, 2 * m, work);
    let no = verdict(x, n, 2 * m + 1, work);
    put_line(out, at, m, yes, no)
}

// The lines of all nodes, each written as soon as it is known, where the heading is.
fn lines(
    rt: &(impl Print + Eprint + Alloc),
    x: &[u16; 22626],
    nodes: usize,
    out: &mut [u8],
    start: usize,
    headed: bool,
    work: &mut [u16],
) -> usize
    requires indexed { Indexed x.now nodes }
    requires nodes_in_bounds { (start + most_line * nodes ≤ length out.old) × (area ≤ length work.old) }
    ensures { AllLined x.now out.old start nodes out.new result }
{
    let mut end = start;
    let mut written = headed;
    for m in 0..nodes {
        let next = line(x, nodes, m, out, end, work);
        written = say(rt, out, end, next, written);
        end = next;
    }
    end
}

// The listing of a table, written; its length in the buffer. The table is read and indexed once.
fn list(rt: &(impl Print + Eprint + Alloc), t: &[u8], out: &mut [u8]) -> usize
    requires { 98304 ≤ length out.old }
    ensures { Put out.old 0 (listing t.now) out.new result }
{
    let goals = [0u16; 1];
    let mut x = [0u16; 22626];
    match asking::ask_by(Ok(()), t, &goals[..0], 0, 0, 32768, &mut x) {
        Err(f) => {
            let end = text::refused(out, 0, f);
            say(rt, out, 0, end, true);
            end
        }
        Ok(nodes) => {
            let first = text::put(out, 0, b"node yes no\n");
            let headed = say(rt, out, 0, first, true);
            let mut work = [0u16; 32768];
            lines(rt, &x, nodes, out, first, headed, &mut work)
        }
    }
}

fn print(rt: &(impl Print + Eprint + Alloc), t: &[u8]) {
    let mut out = [0u8; 98304];
    list(rt, t, &mut out);
}

// A table of more than 16,384 bytes fills the buffer, and is refused by its length.
fn main(rt: HostRuntime) {
    let mut table = [0u8; 16385];
    if let Some(n) = arguments::input(&rt, &mut table) {
        print(&rt, &table[..n]);
    }
}
