// The builder: adds a record to a table, or finds the one that is already there.
#![tactic(auto)]

ghost use Rattle.std.specs.Prelude.{◌≡◌, true, ◌++◌, ◌+◌, ◌*◌, ◌-◌, ◌<◌, ◌≤◌, length, take, drop, get_or};
ghost use Rattle.scope.specs.Outcome.{answer};
ghost use Rattle.scope.specs.Block.{block_of};
ghost use Rattle.scope.specs.Table.{node_bytes, range_ok};
ghost use Rattle.scope.specs.Calls.{add, bytes_after};
ghost use Rattle.writer.specs.Grown.{grown};
ghost use Rattle.table.specs.Counted.{counted_of};
ghost use Rattle.adding.specs.Added.{added_of, marked, used_count, Ready, AddsTo};

use scope::{Node, Refusal};

// Where a record stands after add: its literal, and the used length.
#[derive(Clone, Copy)]
pub struct Mark {
    pub literal: usize,
    pub used: usize,
}

// The nodes of the used part, of which there are none where nothing is used.
fn used_nodes(buf: &[u8], used: usize) -> Result<usize, Refusal>
    requires { used ≤ length buf.now }
    ensures { counted_of result ≡ used_count (take used buf.now) }
{
    if used == 0 {
        return Ok(0);
    }
    table::count(&buf[..used])
}

// The record goes into the last block, which holds some and has room.
fn grow_last(buf: &mut [u8], used: usize, held: usize, r: [u8; 8])
    requires { (512 ≤ used) × (used ≤ length buf.old) × (held < 63) × (get_or buf.old (used - 512 + 1) 0 < 255) }
    ensures { buf.new ≡ take (used - 512) buf.old ++ (grown (take 512 (drop (used - 512) buf.old)) (4 + 8 * held) r ++ drop used buf.old) }
{
    let from = used - 512;
    writer::grow_block(&mut buf[from..used], 4 + 8 * held, &r);
}

// The record opens a new block, which is written from the used length onward.
fn open_block(buf: &mut [u8], used: usize, index: usize, r: [u8; 8])
    requires { (used + 512 ≤ length buf.old) × (index < 65536) }
    ensures { buf.new ≡ take used buf.old ++ (block_of 70 1 index r ++ drop (used + 512) buf.old) }
{
    writer::write_block(&mut buf[used..], 70, 1, index as u16, &r);
}

// The node x, whose record is r: found among the nodes of the used part, or new.
fn add_node(buf: &mut [u8], used: usize, nodes: usize, r: [u8; 8], x: Node) -> Result<Mark, Refusal>
    requires { Ready buf.old used nodes × (r ≡ node_bytes x) × (range_ok x nodes ≡ true) }
    ensures { AddsTo buf.old used nodes x result buf.new }
{
    if let Some(found) = lookup::find(&buf[..used], nodes, x) {
        return Ok(Mark {
            literal: 2 * found,
            used,
        });
    }
    if nodes == 2016 {
        return Err(Refusal {
            number: 51,
            place: nodes,
        });
    }
    if nodes % 63 != 0 {
        grow_last(buf, used, nodes % 63, r);
        return Ok(Mark {
            literal: 2 * nodes,
            used,
        });
    }
    if buf.len() - used < 512 {
        return Err(Refusal {
            number: 52,
            place: nodes,
        });
    }
    open_block(buf, used, nodes / 63, r);
    Ok(Mark {
        literal: 2 * nodes,
        used: used + 512,
    })
}

// The record's rows, then its node, where the used part has so many nodes.
fn add_record(buf: &mut [u8], used: usize, nodes: usize, r: [u8; 8]) -> Result<Mark, Refusal>
    requires { (used ≤ length buf.old) × (used_count (take used buf.old) ≡ answer nodes) }
    ensures answered { added_of result ≡ marked (add buf.old used r) }
    ensures bytes { buf.new ≡ bytes_after buf.old (add buf.old used r) }
{
    let y = lookup::normalize(r);
    let x = record::read_record(&y, nodes)?;
    add_node(buf, used, nodes, y, x)
}

// Adds a record of 8 bytes to the table in the used part of a buffer.
pub fn add(buf: &mut [u8], used: usize, r: [u8; 8]) -> Result<Mark, Refusal>
    ensures answered { added_of result ≡ marked (add buf.old used r) }
    ensures bytes { buf.new ≡ bytes_after buf.old (add buf.old used r) }
{
    if buf.len() < used {
        return Err(Refusal {
            number: 9,
            place: 0,
        });
    }
    let nodes = used_nodes(buf, used)?;
    add_record(buf, used, nodes, r)
}
