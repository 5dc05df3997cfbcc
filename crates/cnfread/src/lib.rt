// The reader of DIMACS files: the nodes are made as the text is read, and the table is written once the text is known to be in order.
#![tactic(auto)]

ghost use Rattle.std.specs.Prelude.{◌≡◌, [], ◌<◌, ◌≤◌, length, take};
ghost use Rattle.growing.specs.Growing.{state, Grows, FromAdd};
ghost use Rattle.cnf.specs.Text.{file_of};
ghost use Rattle.cnf.specs.Fold.{goal_of, build};
ghost use Rattle.cnffold.specs.Built.{Small};
ghost use Rattle.cnfread.specs.Clauses.{Kept, Keeps, Gathers, folded, joined_clause, remaining, filed, Folds, Unread, Refuses};
ghost use Rattle.cnfread.specs.Reads.{file_with, Starts, Told, FirstRefusal, Reads};

use adding::Mark;
use cnftext::Heading;
use cnfwords::Token;
use growing::Draft;
use scope::Refusal;

// A clause's literals without repeats: how many, whether both signs of a variable are among them, and where the text goes on.
#[derive(Clone, Copy)]
pub struct Gathered {
    pub count: usize,
    pub both: bool,
    pub next: usize,
}

// What refuses a body that is malformed.
const MALFORMED: Refusal = Refusal {
    number: 61,
    place: 0,
};

// A literal joins those held, unless it is marked as one of them; how many there are then.
fn keep(marks: &mut [u8], held: &mut [u16], n: usize, l: usize) -> usize
    requires kept { Kept marks.old held.old n }
    requires l_bound { l < 2048 }
    ensures { Keeps held.old n l marks.new held.new result }
{
    if marks[l] != 0 {
        return n;
    }
    marks[l] = 1;
    held[n] = l as u16;
    n + 1
}

// The marks of the first n literals held are taken away.
fn clear(marks: &mut [u8], held: &[u16], n: usize)
    requires { Kept marks.old held.now n }
    ensures { Kept marks.new held.now 0 }
{
    for i in 0..n {
        marks[held[i] as usize] = 0;
    }
}

// The clause at a place of a body, up to its 0, or none where the body has ended.
fn gather(
    text: &[u8],
    at: usize,
    vars: usize,
    marks: &mut [u8],
    held: &mut [u16],
) -> Result<Option<Gathered>, Refusal>
    requires { (at ≤ length text.now) × (vars ≤ 1024) × Kept marks.old held.old 0 }
    ensures { Gathers vars text.now at marks.new held.new result }
{
    let mut count: usize = 0;
    let mut both = false;
    let mut under = false;
    let mut i = at;
    loop {
        match cnfwords::next_token(text, i, vars) {
            Token::Done => {
                if under {
                    return Err(MALFORMED);
                }
                return Ok(None);
            }
            Token::Malformed => return Err(MALFORMED),
            Token::End(next) => return Ok(Some(Gathered { count, both, next })),
            Token::Literal(l, next) => {
                if marks[cnffold::opposite(l)] != 0 {
                    both = true;
                }
                count = keep(marks, held, count, l);
                under = true;
                i = next;
            }
        }
    }
}

// A clause: TRUE where it has both signs of a variable, else an OR.
fn add_clause(nodes: &mut Draft, held: &[u16], count: usize, both: bool) -> Result<usize, Refusal>
    requires { Small held.now count }
    ensures grows { Grows (λ buf. folded both (state 0 nodes.old buf) (take count held.now)) nodes.old.room result nodes.new }
    ensures adds { FromAdd result }
{
    if both {
        return cnffold::add_true(nodes);
    }
    cnffold::or_clause(nodes, held, count)
}

// A clause joined to the goal by AND; the first is the goal.
fn join_clause(
    nodes: &mut Draft,
    held: &[u16],
    count: usize,
    both: bool,
    first: bool,
    goal: usize,
) -> Result<usize, Refusal>
    requires { Small held.now count × (goal < 4032) }
    ensures grows { Grows (λ buf. joined_clause first goal both (state 0 nodes.old buf) (take count held.now)) nodes.old.room result nodes.new }
    ensures adds { FromAdd result }
{
    let literal = add_clause(nodes, held, count, both)?;
    if first {
        return Ok(literal);
    }
    cnffold::and_join(nodes, goal, literal)
}

// The goal where the body has ended: TRUE where it has no clause.
fn end_body(nodes: &mut Draft, none: bool, goal: usize) -> Result<usize, Refusal>
    requires { goal < 4032 }
    ensures grows { Grows (λ buf. remaining none (state goal nodes.old buf) []) nodes.old.room result nodes.new }
    ensures adds { FromAdd result }
{
    if none {
        return cnffold::add_true(nodes);
    }
    Ok(goal)
}

// The clauses of the body at a place, each joined to the goal as it is read; there must be so many.
fn fold_body(
    text: &[u8],
    at: usize,
    vars: usize,
    clauses: usize,
    nodes: &mut Draft,
    literal: usize,
    marks: &mut [u8],
    held: &mut [u16],
) -> Result<usize, Refusal>
    requires at_in_bounds { (at ≤ length text.now) × (vars ≤ 1024) × Kept marks.old held.old 0 }
    requires lt_literal { literal < 4032 }
    ensures folds { Folds (filed vars text.now at clauses) (λ cs buf. goal_of (state literal nodes.old buf) cs) nodes.old.room result nodes.new }
    ensures refuses { Refuses (filed vars text.now at clauses) result }
{
    let mut place = at;
    let mut goal = literal;
    let mut k = 0;
    loop {
        let Some(c) = gather(text, place, vars, marks, held)? else {
            if k != clauses {
                return Err(MALFORMED);
            }
            return end_body(nodes, k == 0, goal);
        };
        clear(marks, held, c.count);
        goal = join_clause(nodes, held, c.count, c.both, k == 0, goal)?;
        place = c.next;
        k += 1;
    }
}

// The table of a text with a heading, under way: the points, then the clauses.
fn grow_table(text: &[u8], h: Heading, nodes: &mut Draft) -> Result<usize, Refusal>
    requires { Starts text.now h × (nodes.old.count ≡ 0) }
    ensures folds { Folds (filed h.variables text.now h.body h.clauses) (λ cs buf. build buf (file_with h cs)) nodes.old.room result nodes.new }
    ensures refuses { Refuses (filed h.variables text.now h.body h.clauses) result }
{
    let literal = cnffold::add_points(nodes, h.variables)?;
    let mut marks = [0u8; 2048];
    let mut held = [0u16; 2048];
    fold_body(
        text,
        h.body,
        h.variables,
        h.clauses,
        nodes,
        literal,
        &mut marks,
        &mut held,
    )
}

// What refuses a text whose table was refused: a text that is not in order comes first.
fn first_refusal(text: &[u8], r: Refusal) -> Refusal
    ensures { FirstRefusal text.now r result }
{
    match cnftext::scan(text) {
        Err(f) => f,
        Ok(_) => r,
    }
}

// The answer of a text: its table is written, or it is refused.
fn settle(
    text: &[u8],
    nodes: &Draft,
    g: Result<usize, Refusal>,
    buf: &mut [u8],
) -> Result<Mark, Refusal>
    requires { Told text.now buf.old nodes.now g × Unread (file_of text.now) g }
    ensures { Reads text.now buf.old result buf.new }
{
    match g {
        Err(r) => {
            // the text's own, and so the first
            if r.number == 61 {
                return Err(MALFORMED);
            }
            Err(first_refusal(text, r))
        }
        Ok(literal) => {
            let used = nodes.write(buf);
            Ok(Mark { literal, used })
        }
    }
}

// The table of a text with a heading.
fn build_table(text: &[u8], h: Heading, buf: &mut [u8]) -> Result<Mark, Refusal>
    requires { Starts text.now h }
    ensures { Reads text.now buf.old result buf.new }
{
    let mut nodes = Draft::new(buf.len());
    let g = grow_table(text, h, &mut nodes);
    settle(text, &nodes, g, buf)
}

// The goal of a DIMACS text and its table, which is built in an empty buffer. After 51 or 52 the buffer is free.
pub fn read(text: &[u8], buf: &mut [u8]) -> Result<Mark, Refusal>
    ensures { Reads text.now buf.old result buf.new }
{
    let Some(head) = cnftext::find_heading(text) else {
        return Err(Refusal {
            number: 60,
            place: 0,
        });
    };
    build_table(text, head, buf)
}
