//! Comparisons.

ghost use Rattle.std.specs.Prelude.{◌≡◌};
ghost use Rattle.word_operations.specs.Width.{IsWidth};
ghost use Rattle.domain_affine_base.specs.Compare.{apart, compared, either, forms_compared, only, with_itself};
ghost use Rattle.domain_affine_base.specs.Words.{IsOf};

use super::word::Word;
use base_trait::Tri;
use word_operations::{WordComparison, cmp};

/// Which truth values a comparison may have.
pub(crate) fn compare(c: WordComparison, w: u32, x: &Word, y: &Word) -> Tri
    requires width { IsWidth w }
    requires left { IsOf w x.now }
    requires right { IsOf w y.now }
    ensures { result ≡ compared c w x.now y.now }
{
    match (x, y) {
        (Word::Const(m), Word::Const(n)) => only(cmp(c, w, *m, *n)),
        (Word::Form(f), Word::Form(g)) => of_forms(c, &f.c, &g.c),
        _ => either_truth(),
    }
}

/// Forms with the same multiples differ by a constant: of 1 + r and 3 + r it is known that they are not equal.
fn of_forms(c: WordComparison, f: &[u32], g: &[u32]) -> Tri
    ensures { result ≡ forms_compared c f.now g.now }
{
    match (f, g) {
        ([a, multiples @ ..], [b, others @ ..]) if multiples == others => {
            if a == b {
                only(with_itself(c))
            } else {
                compare_apart(c)
            }
        }
        _ => either_truth(),
    }
}

/// Both truth values.
fn either_truth() -> Tri
    ensures { result ≡ either }
{
    Tri {
        may_true: true,
        may_false: true,
    }
}

/// This truth value alone.
fn only(b: bool) -> Tri
    ensures { result ≡ only b }
{
    Tri {
        may_true: b,
        may_false: !b,
    }
}

/// The comparison of a number with itself.
fn with_itself(c: WordComparison) -> bool
    ensures { result ≡ with_itself c }
{
    match c {
        WordComparison::Eq | WordComparison::LeU | WordComparison::LeS => true,
        WordComparison::Ne | WordComparison::LtU | WordComparison::LtS => false,
    }
}

/// The comparison of numbers whose difference is a constant other than 0.
fn compare_apart(c: WordComparison) -> Tri
    ensures { result ≡ apart c }
{
    match c {
        WordComparison::Eq => only(false),
        WordComparison::Ne => only(true),
        _ => either_truth(),
    }
}
