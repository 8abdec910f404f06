//! Numbers modulo 2^32.

ghost use Rattle.std.specs.Prelude.{◌≡◌, ℕ, ◌+◌, ◌*◌, ◌/◌, ◌%◌, ◌^◌, ◌<◌, ◌≤◌, ◌≢◌, MatchOption};

/// The odd number that a power of two makes a.
pub(crate) fn odd_part(a: u32) -> u32
    requires { 0 < a }
    ensures odd { result % 2 ≡ 1 }
    ensures power { (v : ℕ) × (v < 32) × (result * 2 ^ v ≡ a) }
{
    let mut odd = a;
    while odd % 2 == 0 {
        odd /= 2;
    }
    odd
}

/// The inverse of an odd number.
pub(crate) fn inverse(a: u32) -> u32
    requires { a % 2 ≡ 1 }
    ensures { (a * result) % 2 ^ 32 ≡ 1 }
{
    let mut power = a;
    let mut product: u32 = 1;
    for i in 0..31u32 {
        product = product.wrapping_mul(power);
        power = power.wrapping_mul(power);
    }
    product
}

/// The quotient of a by d, negated.
pub(crate) fn negated_quotient(a: u64, d: u64) -> u32
    requires positive { 0 < d }
    requires bound { a ≤ 2 ^ 32 }
    ensures { (result + a / d) % 2 ^ 32 ≡ 0 }
{
    let quotient = a / d;
    ((0x1_0000_0000 - quotient) % 0x1_0000_0000) as u32
}

/// The q with a + q·d = 0, if d divides a.
pub(crate) fn canceller(a: u32, d: u64) -> Option<u32>
    requires { 0 < d }
    ensures { MatchOption result (a % d ≢ 0) (λ q. (a + q * d) % 2 ^ 32 ≡ 0) }
{
    let entry = a as u64;
    if entry % d != 0 {
        return None;
    }
    Some(negated_quotient(entry, d))
}

/// The exponent of a power of two.
pub(crate) fn exponent(power: u64) -> u32
    requires { (v : ℕ) × (v ≤ 32) × (power ≡ 2 ^ v) }
    ensures limit { result ≤ 32 }
    ensures value { power ≡ 2 ^ result }
{
    let mut rest = power;
    let mut count = 0;
    while rest > 1 {
        rest /= 2;
        count += 1;
    }
    count
}
