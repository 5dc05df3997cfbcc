// Writing a block: a new one, and one more record in a block that stands.
#![tactic(auto)]

ghost use Rattle.std.specs.Prelude.{◌≡◌, ◌++◌, ◌+◌, ◌<◌, ◌≤◌, length, drop, get_or};
ghost use Rattle.std.proofs.Math.Seq.{paste};
ghost use Rattle.scope.specs.Block.{seal, block_of};
ghost use Rattle.writer.specs.Grown.{grown};

// Copies src into out from a position on.
pub fn copy_at(out: &mut [u8], at: usize, src: &[u8])
    requires { at + length src.now ≤ length out.old }
    ensures { out.new ≡ paste out.old at src.now (length src.now) }
{
    out[at..at + src.len()].copy_from_slice(src);
}

// Writes the check of a block's other bytes.
pub fn set_check(block: &mut [u8])
    requires { length block.old ≡ 512 }
    ensures { block.new ≡ seal block.old }
{
    let c = checksum::check_of(block);
    block[510] = (c % 256) as u8;
    block[511] = (c / 256) as u8;
}

// A block as an array: heading, records, zeros, check.
fn block_of(letter: u8, count: u8, index: u16, body: &[u8]) -> [u8; 512]
    requires { length body.now ≤ 506 }
    ensures { result ≡ block_of letter count index body.now }
{
    let mut block = [0u8; 512];
    block[0] = letter;
    block[1] = count;
    block[2] = (index % 256) as u8;
    block[3] = (index / 256) as u8;
    copy_at(&mut block, 4, body);
    set_check(&mut block);
    block
}

// Writes such a block at the start of a slice, all its 512 bytes: nothing is assumed of what stood there.
pub fn write_block(out: &mut [u8], letter: u8, count: u8, index: u16, body: &[u8])
    requires { (512 ≤ length out.old) × (length body.now ≤ 506) }
    ensures { out.new ≡ block_of letter count index body.now ++ drop 512 out.old }
{
    let block = block_of(letter, count, index, body);
    copy_at(out, 0, &block);
}

// One record more in a block: its bytes, at a position.
pub fn grow_block(block: &mut [u8], at: usize, bytes: &[u8])
    requires { (length block.old ≡ 512) × (at + length bytes.now ≤ 512) × (get_or block.old 1 0 < 255) }
    ensures { block.new ≡ grown block.old at bytes.now }
{
    block[1] = block[1] + 1;
    copy_at(block, at, bytes);
    set_check(block);
}
