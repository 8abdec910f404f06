//! Comparisons.

ghost use Rattle.std.specs.Prelude.{◌≡◌, ◌<◌, ◌^◌};
ghost use Rattle.word_operations.specs.Cmp.{cmp_of};
ghost use Rattle.word_operations.specs.Width.{IsWidth};

use super::kinds::WordComparison;
use super::signed::signed_value;

/// A comparison of two words.
pub fn cmp(c: WordComparison, w: u32, x: u64, y: u64) -> bool
    requires width { IsWidth w }
    requires left { x < 2 ^ w }
    requires right { y < 2 ^ w }
    ensures { result ≡ cmp_of c w x y }
{
    match c {
        WordComparison::Eq => x == y,
        WordComparison::Ne => x != y,
        WordComparison::LtU => x < y,
        WordComparison::LeU => x <= y,
        WordComparison::LtS => signed_value(w, x) < signed_value(w, y),
        WordComparison::LeS => signed_value(w, x) <= signed_value(w, y),
    }
}
