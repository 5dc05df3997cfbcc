// The words of a DIMACS text's body, one after another: each is 0, a literal, or malformed.
#![tactic(auto)]

ghost use Rattle.std.specs.Prelude.{◌≡◌, ◌+◌, ◌≤◌, ◌<◌, length};
ghost use Rattle.cnf.specs.Text.{separator, word_of};
ghost use Rattle.cnfwords.specs.Words.{number_of, said, Skipped, Parted, Signed, Runs, Ends, token_of, TokenAt};

use cnf::Word;

// What stands next in a body: nothing more, a malformed word, a clause's end, or a literal; and where the text goes on behind it.
#[derive(Clone, Copy)]
pub enum Token {
    Done,
    Malformed,
    End(usize),
    Literal(usize, usize),
}

// The value of a run of digits, and where it ends.
#[derive(Clone, Copy)]
pub struct Run {
    pub value: usize,
    pub end: usize,
}

fn is_separator(b: u8) -> bool
    ensures { result ≡ separator b }
{
    b == 32 || b == 10
}

// The number that bytes say: 1 to 9 digits, or none.
pub fn numeral(w: &[u8]) -> Option<usize>
    ensures { result ≡ number_of w.now }
{
    if w.is_empty() {
        return None;
    }
    if 9 < w.len() {
        return None;
    }
    let mut n = 0;
    for &b in w {
        if !b.is_ascii_digit() {
            return None;
        }
        n = 10 * n + (b - 48) as usize;
    }
    Some(n)
}

// The literal of a number and a sign, or the end of a clause, where there are so many variables.
fn literal(x: Option<usize>, negated: bool, vars: usize) -> Word
    requires { vars ≤ 1024 }
    ensures { result ≡ said x negated vars }
{
    let Some(v) = x else {
        return Word::Malformed;
    };
    if vars < v {
        return Word::Malformed;
    }
    if negated {
        if v == 0 {
            return Word::Malformed;
        }
        return Word::Literal(2 * (v - 1) + 1);
    }
    if v == 0 {
        return Word::End;
    }
    Word::Literal(2 * (v - 1))
}

// What a word says.
fn word(w: &[u8], vars: usize) -> Word
    requires { (0 < length w.now) × (vars ≤ 1024) }
    ensures { result ≡ word_of vars w.now }
{
    if w[0] == 45 {
        return literal(numeral(&w[1..]), true, vars);
    }
    literal(numeral(w), false, vars)
}

// Where the separators from a place on end. A while: as a for it took two to five times the time on a megabyte of blanks and line feeds in one
// repeated pattern.
fn skip(text: &[u8], at: usize) -> usize
    requires { at ≤ length text.now }
    ensures { Skipped text.now at result }
{
    let mut i = at;
    while i < text.len() {
        if !is_separator(text[i]) {
            return i;
        }
        i += 1;
    }
    i
}

// Where the word that starts at a place ends.
fn word_end(text: &[u8], at: usize) -> usize
    requires { at ≤ length text.now }
    ensures { Parted text.now at result }
{
    for i in at..text.len() {
        if is_separator(text[i]) {
            return i;
        }
    }
    text.len()
}

// What stands at a place of a body, where there are so many variables: any word.
pub fn any_token(text: &[u8], at: usize, vars: usize) -> Token
    requires { (at ≤ length text.now) × (vars ≤ 1024) }
    ensures { TokenAt vars text.now at result }
{
    let from = skip(text, at);
    if text.len() <= from {
        return Token::Done;
    }
    let end = word_end(text, from);
    let w = word(&text[from..end], vars);
    token_of(w, end)
}

// The place behind a minus, if one stands there.
fn behind_minus(text: &[u8], at: usize) -> usize
    requires { at < length text.now }
    ensures { Signed text.now at result }
{
    if text[at] == 45 {
        return at + 1;
    }
    at
}

// Nine places further on, but within so many.
fn nine_on(at: usize, len: usize) -> usize
    requires { at ≤ len }
    ensures { (at ≤ result) × (result ≤ len) × (result ≤ at + 9) }
{
    if len - at < 9 {
        return len;
    }
    at + 9
}

// The digits from a place on, at most nine.
fn digit_run(text: &[u8], at: usize) -> Run
    requires { at ≤ length text.now }
    ensures { Runs text.now at result }
{
    let limit = nine_on(at, text.len());
    let mut value = 0;
    for i in at..limit {
        let b = text[i];
        if !b.is_ascii_digit() {
            return Run { value, end: i };
        }
        value = 10 * value + (b - 48) as usize;
    }
    Run { value, end: limit }
}

// Some bytes were passed, and the word ends.
fn ends(text: &[u8], from: usize, end: usize) -> bool
    requires { end ≤ length text.now }
    ensures { Ends text.now from end result }
{
    if end <= from {
        return false;
    }
    if text.len() <= end {
        return true;
    }
    is_separator(text[end])
}

// A word's token, with the place behind it.
fn token_of(w: Word, end: usize) -> Token
    ensures { result ≡ token_of w end }
{
    match w {
        Word::Malformed => Token::Malformed,
        Word::End => Token::End(end),
        Word::Literal(l) => Token::Literal(l, end),
    }
}

// What stands at a place of a body, where there are so many variables. A sign and a few digits are read at once.
pub fn next_token(text: &[u8], at: usize, vars: usize) -> Token
    requires { (at ≤ length text.now) × (vars ≤ 1024) }
    ensures { TokenAt vars text.now at result }
{
    let from = skip(text, at);
    if text.len() <= from {
        return Token::Done;
    }
    let start = behind_minus(text, from);
    let r = digit_run(text, start);
    if !ends(text, start, r.end) {
        return any_token(text, at, vars);
    }
    let w = literal(Some(r.value), from < start, vars);
    token_of(w, r.end)
}
