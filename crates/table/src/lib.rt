// Reading a table: the first refusal of 10 to 17, the node count, the record of a literal's node.
#![tactic(auto)]

ghost use Rattle.std.specs.Prelude.{◌≡◌, ℕ, ◌+◌, ◌*◌, ◌-◌, ◌%◌, ◌<◌, ◌≤◌, length, get_or};
ghost use Rattle.scope.specs.Outcome.{verdict_of, first};
ghost use Rattle.scope.specs.Block.{block_at};
ghost use Rattle.scope.specs.Table.{tables, length_ok, record_test, block_rows, table_test};
ghost use Rattle.scope.specs.Calls.{table_count, table_record};
ghost use Rattle.record.specs.Read.{read_of};
ghost use Rattle.record.specs.Place.{place_of};
ghost use Rattle.record.specs.Halves.{double_at};
ghost use Rattle.repeats.specs.Chains.{Unlinked, Chains};
ghost use Rattle.table.specs.Counted.{counted_of, Tested};
ghost use Rattle.table.specs.Own.{own_rows};

use scope::{Format, Node, Refusal};

// Blocks of tables: letter 70, 63 records of 8 bytes, refusals from 11 on.
fn tables() -> Format
    ensures { result ≡ tables }
{
    Format {
        letter: 70,
        width: 8,
        capacity: 63,
        number: 11,
    }
}

// Row 10.
fn length_ok(n: usize) -> bool
    ensures { result ≡ length_ok n }
{
    if n == 0 {
        return false;
    }
    if n % 512 != 0 {
        return false;
    }
    n <= 16384
}

// Rows 14 to 16 of node n, whose record is low and high: where the quick test does not let it pass, they are asked in order.
fn own_rows(t: &[u8], n: usize, at: usize, low: u32, high: u32) -> Result<(), Refusal>
    requires { (n < 2016) × (at ≡ place_of n) × (place_of n + 8 ≤ length t.now) × (low ≡ double_at t.now at) × (high ≡ double_at t.now (at + 4)) }
    ensures { verdict_of result ≡ own_rows t.now n }
{
    if record::passes(low, high, n) {
        return Ok(());
    }
    let end = at + 8;
    record::read_record(&t[at..end], n)?;
    Ok(())
}

// Rows 14 to 17 of node n, whose record is at a place and which is then entered in the chains.
fn record_verdict(t: &[u8], chains: &mut [u16], n: usize, at: usize) -> Result<(), Refusal>
    requires { (n < 2016) × (at ≡ place_of n) × (place_of n + 8 ≤ length t.now) × Chains t.now chains.old n }
    ensures { Tested t.now chains.new result (record_test t.now n) (n + 1) }
{
    let low = words::double(t, at);
    let high = words::double(t, at + 4);
    own_rows(t, n, at, low, high)?;
    if repeats::enter(t, chains, n, low, high) {
        return Err(Refusal {
            number: 17,
            place: n,
        });
    }
    Ok(())
}

// The records of nodes from base up to end, one after another, all in one block.
fn records(t: &[u8], chains: &mut [u16], base: usize, end: usize) -> Result<(), Refusal>
    requires base_value { (base % 63 ≡ 0) × (base ≤ end) × (end ≤ base + 63) × (end ≤ 2016) }
    requires by_index { ((n : ℕ) → n < end → place_of n + 8 ≤ length t.now) × Chains t.now chains.old base }
    ensures { Tested t.now chains.new result (first (record_test t.now) base (end - base)) end }
{
    let from = record::place(base);
    for n in base..end {
        record_verdict(t, chains, n, from + 8 * (n - base))?;
    }
    Ok(())
}

// Block j: its own rows, then those of its records.
fn block_rows(t: &[u8], chains: &mut [u16], j: usize) -> Result<(), Refusal>
    requires { (j < 32) × (512 * j + 512 ≤ length t.now) × Chains t.now chains.old (63 * j) }
    ensures { Tested t.now chains.new result (block_rows t.now j) (63 * j + get_or (block_at t.now j) 1 0) }
{
    let at = 512 * j;
    let end = at + 512;
    let last = j + 1 == t.len() / 512;
    block::test(&t[at..end], j, last, tables())?;
    let count = t[at + 1] as usize;
    records(t, chains, 63 * j, 63 * j + count)
}

// The first refusal of a table. The chains are lent, with no record in them.
fn verdict(t: &[u8], chains: &mut [u16]) -> Result<(), Refusal>
    requires { Unlinked chains.old }
    ensures { verdict_of result ≡ table_test t.now }
{
    if !length_ok(t.len()) {
        return Err(Refusal {
            number: 10,
            place: 0,
        });
    }
    let blocks = t.len() / 512;
    for j in 0..blocks {
        block_rows(t, chains, j)?;
    }
    Ok(())
}

// The node count of a table, or its first refusal, over chains that are lent, with no record in them.
pub fn count_by(t: &[u8], chains: &mut [u16]) -> Result<usize, Refusal>
    requires { Unlinked chains.old }
    ensures { counted_of result ≡ table_count t.now }
{
    verdict(t, chains)?;
    let full = t.len() / 512 - 1;
    Ok(63 * full + t[512 * full + 1] as usize)
}

// The same, with chains of its own.
pub fn count(t: &[u8]) -> Result<usize, Refusal>
    ensures { counted_of result ≡ table_count t.now }
{
    let mut chains = [0u16; 6112];
    count_by(t, &mut chains)
}

// The record of a literal's node.
pub fn record_of(t: &[u8], literal: usize) -> Result<Node, Refusal>
    ensures { read_of result ≡ table_record t.now literal }
{
    let nodes = count(t)?;
    if 2 * nodes <= literal {
        return Err(Refusal {
            number: 20,
            place: 0,
        });
    }
    let at = record::place(literal / 2);
    let end = at + 8;
    record::read_record(&t[at..end], literal / 2)
}
