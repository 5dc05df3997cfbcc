// Tests of the table calls on hand-made and damaged tables: each answer is a line, and the lines are compared.
#![tactic(auto)]

use scope::{Refusal, Truth};

fn say(rt: &impl Print, text: &[u8]) {
    let _ = rt.write_all(text);
}

fn number(rt: &impl Print, n: usize) {
    let _ = rt.print(n);
}

fn refused(rt: &impl Print, f: Refusal) {
    say(rt, b"refused ");
    number(rt, f.number as usize);
    say(rt, b" at ");
    number(rt, f.place);
    say(rt, b"\n");
}

fn show_count(rt: &impl Print, t: &[u8]) {
    match table::count(t) {
        Ok(n) => {
            number(rt, n);
            say(rt, b" nodes\n");
        }
        Err(f) => refused(rt, f),
    }
}

fn show_record(rt: &impl Print, t: &[u8], literal: usize) {
    match table::record_of(t, literal) {
        Ok(x) => {
            number(rt, x.kind as usize);
            say(rt, b" ");
            number(rt, x.a as usize);
            say(rt, b" ");
            number(rt, x.b as usize);
            say(rt, b" ");
            number(rt, x.c as usize);
            say(rt, b"\n");
        }
        Err(f) => refused(rt, f),
    }
}

fn say_truth(rt: &impl Print, v: Truth) {
    match v {
        Truth::Yes => say(rt, b"yes\n"),
        Truth::No => say(rt, b"no\n"),
        Truth::Unknown => say(rt, b"unknown\n"),
    }
}

fn show_truth(rt: &impl Print, t: &[u8], literal: usize, s: &[u8]) {
    match truth::evaluate(t, literal, s) {
        Ok(v) => say_truth(rt, v),
        Err(f) => refused(rt, f),
    }
}

fn node3(kind: u8, a: u16, b: u16, c: u16) -> [u8; 8] {
    let [a0, a1] = a.to_le_bytes();
    let [b0, b1] = b.to_le_bytes();
    let [c0, c1] = c.to_le_bytes();
    [kind, 0, a0, a1, b0, b1, c0, c1]
}

fn node(kind: u8, a: u16, b: u16) -> [u8; 8] {
    node3(kind, a, b, 0)
}

// Adds a record and says nothing: the used length, as before where it is refused.
fn put(buf: &mut [u8], used: usize, r: [u8; 8]) -> usize {
    match adding::add(buf, used, r) {
        Ok(m) => m.used,
        Err(_) => used,
    }
}

fn show_add(rt: &impl Print, buf: &mut [u8], used: usize, r: [u8; 8]) {
    match adding::add(buf, used, r) {
        Ok(m) => {
            say(rt, b"literal ");
            number(rt, m.literal);
            say(rt, b" used ");
            number(rt, m.used);
            say(rt, b"\n");
        }
        Err(f) => refused(rt, f),
    }
}

// Table A of the scope paper, in the first 512 bytes of a buffer that held other bytes. Add turns its IMP into an OR, so the record of
// node 4 is written over, as tables have it that were built before IMP was retired.
fn table_a(other: u8) -> [u8; 600] {
    let mut t = [other; 600];
    let mut used = put(&mut t, 0, node(2, 0, 0));
    used = put(&mut t, used, node(2, 1, 0));
    used = put(&mut t, used, node(3, 0, 2));
    used = put(&mut t, used, node(4, 0, 2));
    used = put(&mut t, used, node(5, 0, 2));
    used = put(&mut t, used, node(6, 0, 2));
    used = put(&mut t, used, node(1, 0, 0));
    used = put(&mut t, used, node(3, 4, 7));
    used = put(&mut t, used, node(6, 0, 3));
    put(&mut t, used, node(3, 10, 16));
    t[36] = 5;
    t[38] = 0;
    resealed(&mut t, true);
    t
}

// Table A with one byte changed and, where asked, its check made anew.
fn edited(rt: &impl Print, at: usize, value: u8, seal: bool) {
    let mut t = changed(table_a(0), at, value);
    resealed(&mut t, seal);
    show_count(rt, front(&t, 512));
}

fn changed(t: [u8; 600], at: usize, value: u8) -> [u8; 600] {
    let mut u = t;
    if at < 600 {
        u[at] = value;
    }
    u
}

fn resealed(t: &mut [u8], seal: bool) {
    if !seal {
        return;
    }
    if t.len() < 512 {
        return;
    }
    writer::set_check(&mut t[..512]);
}

// The first n bytes, or all where there are fewer.
fn front<'a>(t: &'a [u8], n: usize) -> &'a [u8] {
    &t[..n.min(t.len())]
}

fn wide(b: u8) -> usize {
    b as usize
}

// The check of the first block, its last byte of padding, and the byte behind it.
fn show_ends(rt: &impl Print, t: &[u8]) {
    if t.len() < 513 {
        return;
    }
    number(rt, wide(t[510]));
    say(rt, b" ");
    number(rt, wide(t[511]));
    say(rt, b" ");
    number(rt, wide(t[509]));
    say(rt, b" ");
    number(rt, wide(t[512]));
    say(rt, b"\n");
}

// A block of one record in a buffer that held other bytes.
fn alone(rt: &impl Print, kind: u8) {
    let mut t = [238u8; 600];
    show_add(rt, &mut t, 0, node(kind, 0, 0));
    show_ends(rt, &t);
}

fn samples(rt: &impl Print) {
    say(rt, b"samples\n");
    alone(rt, 1);
    alone(rt, 2);
}

fn damaged(rt: &impl Print) {
    say(rt, b"damaged\n");
    edited(rt, 4, 2, true);
    edited(rt, 100, 1, false);
    edited(rt, 0, 68, true);
    edited(rt, 2, 1, true);
    edited(rt, 1, 0, true);
    edited(rt, 1, 64, true);
    edited(rt, 1, 9, true);
    edited(rt, 509, 1, true);
    edited(rt, 4, 0, true);
    edited(rt, 4, 7, true);
    edited(rt, 5, 1, true);
    edited(rt, 8, 1, true);
    edited(rt, 11, 1, true);
    edited(rt, 54, 1, true);
    edited(rt, 7, 4, true);
    edited(rt, 22, 4, true);
    edited(rt, 24, 1, true);
    edited(rt, 14, 0, true);
}

fn show_records(rt: &impl Print, t: &[u8]) {
    for literal in 0..21 {
        show_record(rt, t, literal);
    }
}

fn show_truths(rt: &impl Print, t: &[u8], s: &[u8]) {
    for literal in 0..21 {
        show_truth(rt, t, literal, s);
    }
}

fn reads(rt: &impl Print) {
    say(rt, b"reads\n");
    let t = table_a(0);
    show_records(rt, front(&t, 512));
    show_count(rt, front(&t, 0));
    show_count(rt, front(&t, 511));
}

// Every literal of table A under the setting of points 0 and 1.
fn evaluates(rt: &impl Print, first: u8, second: u8) {
    say(rt, b"points ");
    number(rt, wide(first));
    say(rt, b" ");
    number(rt, wide(second));
    say(rt, b"\n");
    let t = table_a(0);
    let mut s = [0u8; 1024];
    s[0] = first;
    s[1] = second;
    show_truths(rt, front(&t, 512), &s);
    show_truth(rt, front(&t, 512), 0, front(&s, 1023));
}

fn adds(rt: &impl Print) {
    say(rt, b"adds\n");
    let mut t = table_a(238);
    show_add(rt, &mut t, 512, node(4, 2, 0));
    show_add(rt, &mut t, 512, node(5, 2, 0));
    show_add(rt, &mut t, 512, node(5, 0, 2));
    show_add(rt, &mut t, 512, node(5, 0, 2));
    show_add(rt, &mut t, 512, node(4, 2, 1));
    show_add(rt, &mut t, 512, node(5, 3, 1));
    show_add(rt, &mut t, 512, node(5, 4, 5));
    show_add(rt, &mut t, 512, node(5, 99, 0));
    show_add(rt, &mut t, 512, node3(8, 5, 2, 0));
    show_add(rt, &mut t, 512, node3(8, 0, 5, 2));
    show_add(rt, &mut t, 512, node3(7, 0, 2, 5));
    show_add(rt, &mut t, 512, node3(7, 4, 0, 5));
    show_add(rt, &mut t, 512, node3(8, 0, 2, 98));
    show_add(rt, &mut t, 512, node3(6, 0, 2, 5));
    show_records(rt, front(&t, 512));
    show_record(rt, front(&t, 512), 24);
    show_add(rt, &mut t, 601, node(1, 0, 0));
    show_add(rt, &mut t, 600, node(1, 0, 0));
    show_add(rt, &mut t, 512, node(7, 0, 0));
    show_add(rt, &mut t, 512, node(9, 0, 0));
    show_add(rt, &mut t, 512, node(2, 1024, 0));
    show_add(rt, &mut t, 512, node(2, 1023, 0));
    show_add(rt, &mut t, 512, node(3, 99, 0));
    show_add(rt, &mut t, 512, node(6, 4, 5));
    t[9] = 1;
    show_add(rt, &mut t, 512, node(1, 0, 0));
}

// ATOMs 0 to count - 1 behind the used part; the used length.
fn atoms(buf: &mut [u8], from: usize, count: u16) -> usize {
    let mut used = from;
    for i in 0..count {
        used = put(buf, used, node(2, i, 0));
    }
    used
}

// The AND of nodes i and i + 1.
fn pair(i: u16) -> [u8; 8] {
    if i < 2000 {
        return node(3, 2 * i, 2 * i + 2);
    }
    node(1, 0, 0)
}

// ANDs of nodes i and i + 1 for i below count, behind the used part; the used length.
fn ands(buf: &mut [u8], from: usize, count: u16) -> usize {
    let mut used = from;
    for i in 0..count {
        used = put(buf, used, pair(i));
    }
    used
}

// 63 nodes with no room for a second block: 52 for a new one, and an old one is found.
fn full_block(rt: &impl Print) {
    let mut t = [238u8; 1023];
    let used = atoms(&mut t, 0, 63);
    show_add(rt, &mut t, used, node(1, 0, 0));
    show_add(rt, &mut t, used, node(2, 62, 0));
}

// 2,016 nodes: 51 for a new one, and an old one is found; 16,384 bytes read, 16,896 are 10.
fn full_table(rt: &impl Print) {
    let mut t = [238u8; 16896];
    let most = atoms(&mut t, 0, 1024);
    let used = ands(&mut t, most, 992);
    number(rt, used);
    say(rt, b" used\n");
    show_add(rt, &mut t, used, node(4, 0, 2));
    show_add(rt, &mut t, used, node(3, 1982, 1984));
    show_count(rt, front(&t, 16384));
    show_count(rt, &t);
    show_count(rt, front(&t, 15872));
}

fn main(rt: HostRuntime) {
    samples(&rt);
    damaged(&rt);
    reads(&rt);
    evaluates(&rt, 0, 0);
    evaluates(&rt, 1, 0);
    evaluates(&rt, 0, 1);
    evaluates(&rt, 1, 1);
    evaluates(&rt, 2, 1);
    evaluates(&rt, 1, 255);
    adds(&rt);
    say(&rt, b"full\n");
    full_block(&rt);
    full_table(&rt);
}
