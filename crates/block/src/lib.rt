// The tests of a block, shared by tables and derivations: check, heading, padding.
#![tactic(auto)]

ghost use Rattle.std.specs.Prelude.{◌≡◌, ◌-◌, ◌≤◌, length};
ghost use Rattle.scope.specs.Outcome.{verdict_of};
ghost use Rattle.scope.specs.Block.{check_ok, head_ok, zeros, block_test};
ghost use Rattle.block.specs.Format.{Fitting};

use scope::{Format, Refusal};

// Bytes 510 to 511 are the check of the others.
fn check_ok(b: &[u8]) -> bool
    requires { length b.now ≡ 512 }
    ensures { result ≡ check_ok b.now }
{
    let c = checksum::check_of(b);
    let d = words::word(b, 510);
    c == d
}

// Letter, index and count; every block but the last is full.
fn head_ok(b: &[u8], index: usize, last: bool, format: Format) -> bool
    requires { length b.now ≡ 512 }
    ensures { result ≡ head_ok format b.now index last }
{
    if b[0] != format.letter {
        return false;
    }
    let stated = words::word(b, 2);
    if (stated as usize) != index {
        return false;
    }
    let count = b[1] as usize;
    if count == 0 {
        return false;
    }
    if format.capacity < count {
        return false;
    }
    if last {
        return true;
    }
    count == format.capacity
}

// Every byte from a position up to byte 509 is 0.
fn padding_ok(b: &[u8], from: usize) -> bool
    requires { (length b.now ≡ 512) × (from ≤ 510) }
    ensures { result ≡ zeros b.now from (510 - from) }
{
    for i in from..510 {
        if b[i] != 0 {
            return false;
        }
    }
    true
}

// The first refusal of a block.
pub fn test(b: &[u8], index: usize, last: bool, format: Format) -> Result<(), Refusal>
    requires { (length b.now ≡ 512) × Fitting format }
    ensures { verdict_of result ≡ block_test format b.now index last }
{
    let number = format.number;
    if !check_ok(b) {
        return Err(Refusal {
            number,
            place: index,
        });
    }
    if !head_ok(b, index, last, format) {
        return Err(Refusal {
            number: number + 1,
            place: index,
        });
    }
    let count = b[1] as usize;
    if !padding_ok(b, 4 + format.width * count) {
        return Err(Refusal {
            number: number + 2,
            place: index,
        });
    }
    Ok(())
}
