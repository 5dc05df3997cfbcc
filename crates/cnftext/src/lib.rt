// The text of a DIMACS file, tested and not kept: comments, the heading, and whether the body's clauses are as many as it says.
#![tactic(auto)]

ghost use Rattle.std.specs.Prelude.{◌≡◌, ◌≤◌, length, drop};
ghost use Rattle.cnf.specs.Text.{starts_with};
ghost use Rattle.cnftext.specs.Scanned.{Passed, Digits, Counts, Heads, Headed, Tallies, turned_away, Scans};

use cnfwords::Token;
use scope::Refusal;

// The heading's numbers, and where the body starts.
#[derive(Clone, Copy)]
pub struct Heading {
    pub variables: usize,
    pub clauses: usize,
    pub body: usize,
}

// Where the comments end.
fn comments_end(text: &[u8]) -> usize
    ensures { Passed text.now result }
{
    let mut inside = false;
    for (i, &b) in text.iter().enumerate() {
        if inside {
            inside = b != 10;
        } else {
            if b != 99 {
                return i;
            }
            inside = true;
        }
    }
    text.len()
}

// Whether a text has these bytes at a place.
fn starts(text: &[u8], at: usize, xs: &[u8]) -> bool
    requires { at ≤ length text.now }
    ensures { result ≡ starts_with xs.now (drop at text.now) }
{
    text[at..].starts_with(xs)
}

// Where the digits from a place on end.
fn digits_end(text: &[u8], at: usize) -> usize
    requires { at ≤ length text.now }
    ensures { Digits text.now at result }
{
    for i in at..text.len() {
        if !text[i].is_ascii_digit() {
            return i;
        }
    }
    text.len()
}

// The number of the heading at a place, which the byte x must follow, and the place behind that, or none.
fn heading_number(text: &[u8], at: usize, x: u8) -> Option<(usize, usize)>
    requires { at ≤ length text.now }
    ensures { Counts text.now at x result }
{
    let end = digits_end(text, at);
    let v = cnfwords::numeral(&text[at..end])?;
    if text.len() <= end {
        return None;
    }
    if text[end] != x {
        return None;
    }
    Some((v, end + 1))
}

// The heading at a place, or none.
fn read_heading(text: &[u8], at: usize) -> Option<Heading>
    requires { at ≤ length text.now }
    ensures { Heads text.now at result }
{
    if !starts(text, at, b"p cnf ") {
        return None;
    }
    let (variables, next) = heading_number(text, at + 6, 32)?;
    let (clauses, body) = heading_number(text, next, 10)?;
    if 1024 < variables {
        return None;
    }
    Some(Heading {
        variables,
        clauses,
        body,
    })
}

// The heading, behind the comments, or none.
pub fn find_heading(text: &[u8]) -> Option<Heading>
    ensures { Headed text.now result }
{
    let at = comments_end(text);
    read_heading(text, at)
}

// How many clauses the body at a place has, or none where it is malformed.
fn count_clauses(text: &[u8], at: usize, vars: usize) -> Option<usize>
    requires { (at ≤ length text.now) × (vars ≤ 1024) }
    ensures { Tallies text.now at vars result }
{
    let mut i = at;
    let mut under = false;
    let mut clauses: usize = 0;
    loop {
        match cnfwords::any_token(text, i, vars) {
            Token::Done => {
                if under {
                    return None;
                }
                return Some(clauses);
            }
            Token::Malformed => return None,
            Token::End(next) => {
                clauses += 1;
                under = false;
                i = next;
            }
            Token::Literal(_, next) => {
                under = true;
                i = next;
            }
        }
    }
}

// A text that is turned away.
fn turned(number: u16) -> Result<Heading, Refusal>
    ensures { result ≡ turned_away number }
{
    Err(Refusal { number, place: 0 })
}

// Whether a text is in order, and if so, its heading.
pub fn scan(text: &[u8]) -> Result<Heading, Refusal>
    ensures { Scans text.now result }
{
    let at = comments_end(text);
    let Some(head) = read_heading(text, at) else {
        return turned(60);
    };
    let Some(clauses) = count_clauses(text, head.body, head.variables) else {
        return turned(61);
    };
    if clauses != head.clauses {
        return turned(61);
    }
    Ok(head)
}
