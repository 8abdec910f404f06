//! Where two maps of endings differ.

ghost use Rattle.std.specs.Prelude.{◌≡◌, ◌↔◌, ◌<◌, ℕ, IsTrue, IfNone, IfSome};
ghost use Rattle.base_trait.specs.Identity.{IsIdentity};
ghost use Rattle.fixpoint_open_tables.specs.Apart.{HasToo, least_of};
ghost use Rattle.fixpoint_open_tables.specs.Endings.{ends_in};

use crate::ending::Ending;
use crate::endings::Endings;

/// Whether both are one ending.
fn is_same<W: Eq>(x: &Ending<W>, y: &Ending<W>) -> bool
    requires same { IsIdentity W.eq }
    ensures { IsTrue result ↔ (x.now ≡ y.now) }
{
    match x {
        Ending::Undecodable { word: v } => match y {
            Ending::Undecodable { word: w } => *v == *w,
            Ending::Open { shown: _ } => false,
        },
        Ending::Open { shown: v } => match y {
            Ending::Undecodable { word: _ } => false,
            Ending::Open { shown: w } => *v == *w,
        },
    }
}

/// Whether both have one ending at an address, or neither has one there.
fn is_same_at<W: Eq>(x: &Endings<W>, y: &Endings<W>, at: u32) -> bool
    requires same { IsIdentity W.eq }
    ensures { IsTrue result ↔ (ends_in x.now at ≡ ends_in y.now at) }
{
    let Some(ending) = x.get(at) else {
        return y.get(at).is_none();
    };
    match y.get(at) {
        Some(other) => is_same(ending, other),
        None => false,
    }
}

/// The least address of which the other map has not the ending that the first one has.
fn first_lacking<W: Eq>(x: &Endings<W>, other: &Endings<W>) -> Option<u32>
    requires same { IsIdentity W.eq }
    ensures none { IfNone result ((a : ℕ) → HasToo (ends_in x.now a) (ends_in other.now a)) }
    ensures lacks { IfSome result (λ at. ends_in x.now at ≡ ends_in other.now at → ⊥) }
    ensures least { IfSome result (λ at. (a : ℕ) → a < at → HasToo (ends_in x.now a) (ends_in other.now a)) }
{
    for (at, _place) in x.places.iter() {
        if !is_same_at(x, other, *at) {
            return Some(*at);
        }
    }
    None
}

/// The lesser of two addresses, or the one that there is.
fn least_of(x: Option<u32>, y: Option<u32>) -> Option<u32>
    ensures { result ≡ least_of x y }
{
    match x {
        None => y,
        Some(a) => match y {
            None => Some(a),
            Some(b) => Some(a.min(b)),
        },
    }
}

/// The least address at which two maps differ.
pub(crate) fn first_apart<W: Eq>(x: &Endings<W>, y: &Endings<W>) -> Option<u32>
    requires same { IsIdentity W.eq }
    ensures none { IfNone result ((a : ℕ) → ends_in x.now a ≡ ends_in y.now a) }
    ensures apart { IfSome result (λ at. ends_in x.now at ≡ ends_in y.now at → ⊥) }
    ensures least { IfSome result (λ at. (a : ℕ) → a < at → ends_in x.now a ≡ ends_in y.now a) }
{
    least_of(first_lacking(x, y), first_lacking(y, x))
}
