//! Greatest common divisors.

ghost use Rattle.std.specs.Prelude.{◌≡◌, ◌==◌, ◌%◌};
ghost use Rattle.base_strides.specs.Gcd.{gcd};
ghost use Rattle.base_strides.specs.Stretch.{apart, divides};

/// The number that both are multiples of, and that each other such number divides: of 12 and 18 it is 6, of 0 and 5
/// it is 5.
pub(crate) fn gcd(a: u128, b: u128) -> u128
    ensures { result ≡ gcd a b }
{
    let mut x = a;
    let mut y = b;
    while y != 0 {
        let rest = x % y;
        x = y;
        y = rest;
    }
    x
}

/// The same of words.
pub(crate) fn gcd_of_words(a: u64, b: u64) -> u64
    ensures { result ≡ gcd a b }
{
    let mut x = a;
    let mut y = b;
    while y != 0 {
        let rest = x % y;
        x = y;
        y = rest;
    }
    x
}

/// Whether `d` divides `n`. 0 divides 0 alone.
pub(crate) fn divides(d: u64, n: u64) -> bool
    ensures { result ≡ divides d n }
{
    if d == 0 { n == 0 } else { n % d == 0 }
}

/// By how much two numbers differ.
pub(crate) fn apart(m: u64, n: u64) -> u64
    ensures { result ≡ apart m n }
{
    if m <= n { n - m } else { m - n }
}
