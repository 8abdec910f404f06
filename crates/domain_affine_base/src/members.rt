//! What is known of the numbers of a word.

ghost use Rattle.std.specs.Prelude.{◌≡◌, IfOk};
ghost use Rattle.base_trait.specs.Lists.{items_of};
ghost use Rattle.word_operations.specs.Width.{IsWidth};
ghost use Rattle.domain_affine_base.specs.Members.{exact_of, may_be, members_of};

use super::word::Word;
use base_trait::all_numbers;
use std::alloc::{AllocError as NoMemory, Global};

/// The number of a constant.
pub(crate) fn exact(x: &Word) -> Option<u64>
    ensures { result ≡ exact_of x.now }
{
    match x {
        Word::Const(n) => Some(*n),
        _ => None,
    }
}

/// A constant is its number alone; every other word may be each.
pub(crate) fn may(x: &Word, k: u64) -> bool
    ensures { result ≡ may_be x.now k }
{
    match x {
        Word::Const(n) => *n == k,
        _ => true,
    }
}

/// The number of a constant; of any and of a form, all of the width. There is no list of more than `limit`.
pub(crate) fn members(
    alloc: Global,
    w: u32,
    x: &Word,
    limit: u32,
) -> Result<Option<Vec<u64>>, NoMemory>
    requires { IsWidth w }
    ensures { IfOk result (λ r. items_of r ≡ members_of w x.now limit) }
{
    match x {
        Word::Const(_n) if limit == 0 => Ok(None),
        Word::Const(n) => Ok(Some(vec![in alloc; *n]?)),
        _ => all_numbers(alloc, w, limit),
    }
}
