// The check of a block. No weight is stored: the power of 3 is carried through the sum. A block's 512 bytes are eight rows of 64, each in
// four parts, and what the check itself adds is taken off again. The compiler makes a row into vector code whose factors are 16-bit
// numbers with a sign: so of a power from 32,768 on, what it lacks to 65,521 is taken away instead. Rows are summed five times over, so
// that no power in a row is one of 2, which would be a shift and no product.
#![tactic(auto)]

ghost use Rattle.std.specs.Prelude.{◌≡◌, ◌+◌, ◌*◌, ◌%◌, ◌<◌, ◌≤◌, length, drop};
ghost use Rattle.scope.specs.Block.{weighted, check_of};
ghost use Rattle.checksum.specs.Sums.{Rows, rows_sum};

// A byte by its power is added, modulo 65,521.
fn added(sum: u32, x: u32, power: u32) -> u32
    requires { (x < 256) × (power < 65521) × (8355585 ≤ sum) × (sum ≤ 1000000000) }
    ensures { (result % 65521 ≡ (sum + x * power) % 65521) × (result ≤ sum + 8355585) × (sum ≤ result + 8355585) }
{
    if power < 32768 {
        return sum + x * power;
    }
    sum - x * (65521 - power)
}

// Sixteen bytes from a position on, the first by a power: what it starts with is 0 modulo 65,521, and no less than what is taken away.
fn part_of(b: &[u8], at: usize, first: u32) -> u32
    requires { (at + 16 ≤ length b.now) × (first < 65521) }
    ensures { (result % 65521 ≡ (first * weighted (drop at b.now) 16) % 65521) × (result ≤ 267417721) }
{
    let mut sum: u32 = 133728361;
    let mut power = first;
    for j in 0..16 {
        sum = added(sum, b[at + j] as u32, power);
        power = power * 3 % 65521;
    }
    sum
}

// A row from a position on, five times over: its parts start with 5 × 3 ^ 0, 3 ^ 16, 3 ^ 32 and 3 ^ 48.
fn row_of(b: &[u8], at: usize) -> u32
    requires { at + 64 ≤ length b.now }
    ensures { result % 65521 ≡ (5 * weighted (drop at b.now) 64) % 65521 }
{
    let s = part_of(b, at, 5);
    let t = part_of(b, at + 16, 62641);
    let u = part_of(b, at + 32, 20855);
    let v = part_of(b, at + 48, 43384);
    s + t + u + v
}

// All rows.
fn rows(b: &[u8]) -> [u32; 8]
    requires { 512 ≤ length b.now }
    ensures { Rows b.now result }
{
    let mut sums = [0u32; 8];
    for r in 0..8 {
        sums[r] = row_of(b, 64 * r);
    }
    sums
}

// The sum of the rows, each by a fifth of the power that it starts with: 5 × 52,417 is 1, and 3 ^ 64 is 34,176, modulo 65,521.
fn weighed(s: &[u32]) -> u64
    requires { length s.now ≡ 8 }
    ensures { (result ≡ rows_sum s.now 8) × (result ≤ 2251250057347200) }
{
    let mut sum: u64 = 0;
    let mut power: u32 = 52417;
    for x in s {
        sum += (*x as u64) * (power as u64);
        power = power * 34176 % 65521;
    }
    sum
}

// The check of a block, which b starts with: 29,757 and 23,750 are what 3 ^ 510 and 3 ^ 511 lack to 65,521.
pub fn check_of(b: &[u8]) -> u16
    requires { 512 ≤ length b.now }
    ensures { result ≡ check_of b.now }
{
    let sums = rows(b);
    let sum = weighed(&sums);
    let lacks = 29757 * (b[510] as u64) + 23750 * (b[511] as u64);
    ((sum + lacks) % 65521) as u16
}
