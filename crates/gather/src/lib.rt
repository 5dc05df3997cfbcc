// Writing a derivation: steps gather in one block until it holds 126, and then the block is written, with the letter in its byte 0. The
// writer is a struct, taken and returned by value. The steps of a search are added to its block, which is lent, with two counts by value: a
// struct of that size is copied at each call.
#![tactic(auto)]

ghost use Rattle.std.specs.Prelude.{◌≡◌, [], ◌∷◌, ◌++◌, map, ◌+◌, ◌*◌, ◌<◌, ◌≤◌, length, get_or, take, drop};
ghost use Rattle.scope.specs.Block.{block_of};
ghost use Rattle.rules.specs.Steps.{G as name, step_bytes, step};
ghost use Rattle.gather.specs.Kept.{body_of, lent, positions, removal_if, removals_at, Space, Pushed, Closed};

use rules::Step;

// The block that gathers, its letter in byte 0 and its steps from byte 4 on; how many steps it holds; and how many blocks are written.
#[derive(Clone, Copy)]
pub struct Writer {
    pub block: [u8; 512],
    pub count: usize,
    pub blocks: usize,
}

// How many steps a writer's block holds, and how many blocks are written.
#[derive(Clone, Copy)]
pub struct At {
    pub count: usize,
    pub blocks: usize,
}

// A step's four bytes become those of step k of a block.
fn put(block: &mut [u8; 512], k: usize, s: Step)
    requires { (k < 126) × (length block.old ≡ 512) }
    ensures { block.new ≡ take (4 + 4 * k) block.old ++ step_bytes s ++ drop (4 + 4 * k + 4) block.old }
{
    let at = 4 + 4 * k;
    let [low, high] = s.value.to_le_bytes();
    block[at..at + 4].copy_from_slice(&[s.rule, s.position, low, high]);
}

// The steps that gather are written as the block of an index.
fn flush(out: &mut [u8], block: &[u8], count: usize, index: usize)
    requires { (length block.now ≡ 512) × (count ≤ 126) × (index < 65536) × (512 * (index + 1) ≤ length out.old) }
    ensures { out.new ≡ take (512 * index) out.old ++ (block_of (get_or block.now 0 0) count index (body_of block.now count) ++ drop (512 * (index + 1)) out.old) }
{
    writer::write_block(
        &mut out[512 * index..],
        block[0],
        count as u8,
        index as u16,
        &block[4..4 + 4 * count],
    );
}

// One step more, in the block lent: a block that it fills is written.
#[tactic(auto, using(crate::proofs::Pushes::place_for))]
pub fn add(out: &mut [u8], block: &mut [u8; 512], at: At, s: Step) -> At
    requires { Space 1 out.old (lent block.old at) }
    ensures { Pushed (s ∷ []) out.old (lent block.old at) out.new (lent block.new result) }
{
    let At { count, blocks } = at;
    put(block, count, s);
    if count < 125 {
        return At {
            count: count + 1,
            blocks,
        };
    }
    flush(out, block, 126, blocks);
    At {
        count: 0,
        blocks: blocks + 1,
    }
}

// An R for position i of clause k, if a bit says so.
#[tactic(auto, using(crate::proofs::Removes::removal_some, crate::proofs::Removes::removal_none, crate::proofs::Pushes::pushed_none))]
fn add_removal(out: &mut [u8], block: &mut [u8; 512], at: At, k: u16, i: u8, bit: u8) -> At
    requires { Space (length (removal_if bit k i)) out.old (lent block.old at) }
    ensures { Pushed (removal_if bit k i) out.old (lent block.old at) out.new (lent block.new result) }
{
    if bit == 1 {
        return add(
            out,
            block,
            at,
            Step {
                rule: 82,
                position: i,
                value: k,
            },
        );
    }
    at
}

// The steps of a move on clause k: an R for each position whose bit is set, in order, and the rule.
pub fn add_move(
    out: &mut [u8],
    block: &mut [u8; 512],
    start: At,
    rule: u8,
    k: u16,
    removed: u8,
) -> At
    requires { Space (length (removals_at positions k 0 removed) + 1) out.old (lent block.old start) }
    ensures { Pushed (removals_at positions k 0 removed ++ step rule 0 k ∷ []) out.old (lent block.old start) out.new (lent block.new result) }
{
    let mut at = start;
    let mut i = 0;
    let mut left = removed;
    while 0 < left {
        at = add_removal(out, block, at, k, i, left % 2);
        left /= 2;
        i += 1;
    }
    add(
        out,
        block,
        at,
        Step {
            rule,
            position: 0,
            value: k,
        },
    )
}

// One step more, by a writer.
fn push(out: &mut [u8], mut w: Writer, s: Step) -> Writer
    requires { Space 1 out.old w }
    ensures { Pushed (s ∷ []) out.old w out.new result }
{
    let start = At {
        count: w.count,
        blocks: w.blocks,
    };
    let at = add(out, &mut w.block, start, s);
    w.count = at.count;
    w.blocks = at.blocks;
    w
}

// The steps that name the goals, one each, in list order.
pub fn push_goals(out: &mut [u8], start: Writer, goals: &[u16]) -> Writer
    requires { Space (length goals.now) out.old start }
    ensures { Pushed (map name goals.now) out.old start out.new result }
{
    let mut w = start;
    for goal in goals {
        w = push(
            out,
            w,
            Step {
                rule: 71,
                position: 0,
                value: *goal,
            },
        );
    }
    w
}

// The steps that still gather are written, if there are any.
#[tactic(auto, using(crate::proofs::Pushes::place_for))]
pub fn close(out: &mut [u8], w: Writer)
    requires { Space 0 out.old w }
    ensures { Closed out.old w out.new }
{
    if 0 < w.count {
        flush(out, &w.block, w.count, w.blocks);
    }
}
