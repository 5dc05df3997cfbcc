// The numbers in bytes, low byte first: 16-bit ones in a block's heading and check, in records and in steps; 32-bit ones where a record is
// read as two numbers.
#![tactic(auto)]

ghost use Rattle.std.specs.Prelude.{◌≡◌, ◌+◌, ◌*◌, ◌≤◌, length};
ghost use Rattle.scope.specs.Block.{word_at};

// The 16-bit number at a position, low byte first.
pub fn word(b: &[u8], at: usize) -> u16
    requires { at + 2 ≤ length b.now }
    ensures { result ≡ word_at b.now at }
{
    (b[at] as u16) + 256 * (b[at + 1] as u16)
}

// The 32-bit number at a position, low byte first: a sum of four, so that the compiler reads the bytes at once.
pub fn double(b: &[u8], at: usize) -> u32
    requires { at + 4 ≤ length b.now }
    ensures { result ≡ word_at b.now at + 65536 * word_at b.now (at + 2) }
{
    (b[at] as u32)
        + 256 * (b[at + 1] as u32)
        + 65536 * (b[at + 2] as u32)
        + 16777216 * (b[at + 3] as u32)
}
