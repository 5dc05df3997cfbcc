// A table under way as numbers, one for each node, found by chains of the same hash. Its blocks are written once, when it is complete.
#![tactic(auto)]

ghost use Rattle.std.specs.Prelude.{◌≡◌, ◌++◌, ◌+◌, ◌*◌, ◌<◌, ◌≤◌, length, set, take, drop};
ghost use Rattle.scope.specs.Outcome.{answer};
ghost use Rattle.scope.specs.Block.{block_of};
ghost use Rattle.scope.specs.Table.{node_bytes, read_record};
ghost use Rattle.growing.specs.Chains.{hash_of, Chains, slot_of, Finds};
ghost use Rattle.growing.specs.Growing.{node_in, records_in, room_of, Held, Table, Under, Sound, Grows, FromAdd, joins, WritesTo, Writes};

use scope::Refusal;
use std::marker::Model;

// A table under way: a number for each of its nodes, the chains by which a number is found, and room for so many nodes.
#[derive(Drop)]
pub struct Draft {
    keys: [u32; 2016],
    head: [u16; 4096],
    next: [u16; 2016],
    room: usize,
    count: usize,
}

impl Model for Draft {
    ghost Value = { Table };

    ghost view = { λ n. record { keys = n.keys; count = n.count; room = n.room } };

    ghost invariant = { λ n. Under n.keys n.head n.next n.room n.count };
}

// Twelve bits of a product.
fn hash(k: u32) -> usize
    ensures { (result ≡ hash_of k) × (result < 4096) }
{
    (2654435769 * (k as u64) / 1048576 % 4096) as usize
}

// The place of the number k among the first n, or none: the chain of its hash h. A link is one more than a place, and 0 ends the chain.
fn find(keys: &[u32], head: &[u16], next: &[u16], n: usize, k: u32, h: usize) -> Option<usize>
    requires { Chains keys.now head.now next.now n × (h ≡ hash_of k) × (h < 4096) }
    ensures { Finds keys.now n k (slot_of result) }
{
    let mut s = head[h] as usize;
    while s != 0 {
        if keys[s - 1] == k {
            return Some(s - 1);
        }
        s = next[s - 1] as usize;
    }
    None
}

// The number k joins as the n-th, in front of the chain of its hash h.
fn insert(keys: &mut [u32], head: &mut [u16], next: &mut [u16], n: usize, k: u32, h: usize)
    requires { Chains keys.old head.old next.old n × (n < 2016) × (h ≡ hash_of k) × (h < 4096) }
    ensures { (keys.new ≡ set keys.old n k) × Chains keys.new head.new next.new (n + 1) }
{
    keys[n] = k;
    next[n] = head[h];
    head[h] = (n + 1) as u16;
}

// How many nodes there is room for in a buffer of so many bytes.
pub fn room_of(len: usize) -> usize
    ensures { result ≡ room_of len }
{
    if len < 16384 {
        return 63 * (len / 512);
    }
    2016
}

// The record of a number's node.
fn bytes_of(k: u32) -> [u8; 8]
    ensures { result ≡ node_bytes (node_in k) }
{
    let a = k % 4096;
    let b = k / 4096 % 4096;
    [
        (k / 4096 / 4096) as u8,
        0,
        (a % 256) as u8,
        (a / 256) as u8,
        (b % 256) as u8,
        (b / 256) as u8,
        0,
        0,
    ]
}

// The records of so many numbers, from one on, one after another.
fn fill(body: &mut [u8], keys: &[u32], from: usize, count: usize)
    requires { (count ≤ 63) × (8 * count ≤ length body.old) × (from + count ≤ length keys.now) }
    ensures { take (8 * count) body.new ≡ records_in keys.now from count }
{
    for i in 0..count {
        let r = bytes_of(keys[from + i]);
        writer::copy_at(body, 8 * i, &r);
    }
}

// The block of so many numbers, at the start of a slice.
fn put_block(out: &mut [u8], keys: &[u32], index: usize, count: usize)
    requires { (512 ≤ length out.old) × (index < 32) × (count ≤ 63) × (63 * index + count ≤ length keys.now) }
    ensures { out.new ≡ block_of 70 count index (records_in keys.now (63 * index) count) ++ drop 512 out.old }
{
    let mut body = [0u8; 504];
    fill(&mut body, keys, 63 * index, count);
    let end = 8 * count;
    writer::write_block(out, 70, count as u8, index as u16, &body[..end]);
}

// How many of the nodes that are left a block takes.
fn held(left: usize) -> usize
    ensures { Held left result }
{
    if left < 63 {
        return left;
    }
    63
}

// Writes the table of the first numbers to the start of a buffer that has room for it: its blocks, one after another.
fn write_blocks(buf: &mut [u8], keys: &[u32], nodes: usize) -> usize
    requires { (nodes ≤ room_of (length buf.old)) × (nodes ≤ 2016) × (length keys.now ≡ 2016) }
    ensures { WritesTo keys.now nodes buf.old buf.new result }
{
    let blocks = nodes.div_ceil(63);
    for j in 0..blocks {
        let count = held(nodes - 63 * j);
        let from = 512 * j;
        put_block(&mut buf[from..], keys, j, count);
    }
    512 * blocks
}

impl Draft {
    // No node yet, with room for so many.
    pub fn with_room(room: usize) -> Draft
        requires { room ≤ 2016 }
        ensures { (result.count ≡ 0) × (result.room ≡ room) }
    {
        Draft {
            keys: [0; 2016],
            head: [0; 4096],
            next: [0; 2016],
            room,
            count: 0,
        }
    }

    // No node yet, with room for those that a buffer of so many bytes holds.
    pub fn new(len: usize) -> Draft
        ensures { (result.count ≡ 0) × (result.room ≡ room_of len) }
    {
        Draft::with_room(room_of(len))
    }

    // How many nodes there are.
    pub fn count(&self) -> usize
        ensures { (result ≡ self.now.count) × Sound self.now }
    {
        self.count
    }

    // The literal of the number k's node: found, or new where there is room for it.
    pub fn grow(&mut self, k: u32) -> Result<usize, Refusal>
        requires { read_record (node_bytes (node_in k)) self.old.count ≡ answer (node_in k) }
        ensures grows { Sound self.old × Grows (joins self.old k) self.old.room result self.new }
        ensures adds { FromAdd result }
    {
        let h = hash(k);
        if let Some(s) = find(&self.keys, &self.head, &self.next, self.count, k, h) {
            return Ok(2 * s);
        }
        if self.count == 2016 {
            return Err(Refusal {
                number: 51,
                place: self.count,
            });
        }
        if self.count == self.room {
            return Err(Refusal {
                number: 52,
                place: self.count,
            });
        }
        let literal = 2 * self.count;
        insert(
            &mut self.keys,
            &mut self.head,
            &mut self.next,
            self.count,
            k,
            h,
        );
        self.count += 1;
        Ok(literal)
    }

    // Writes the table to the start of a buffer that has room for its nodes, which are no more than the draft has room for: its blocks, one
    // after another.
    pub fn write(&self, buf: &mut [u8]) -> usize
        requires { self.now.count ≤ self.now.room → self.now.count ≤ room_of (length buf.old) }
        ensures { Writes self.now buf.old buf.new result }
    {
        write_blocks(buf, &self.keys, self.count)
    }
}
