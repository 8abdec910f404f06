//! When two lists of uses are one.

ghost use Rattle.std.specs.Prelude.{◌≡◌, ◌↔◌, ◌≤◌, ℕ, IsTrue, map, take};
ghost use Rattle.base_trait.specs.Uses.{seen};

use base_trait::{Stamp, Use};

/// Whether both are one list of stamps.
fn are_same_stamps(x: &[Stamp], y: &[Stamp]) -> bool
    ensures { IsTrue result ↔ (x.now ≡ y.now) }
{
    if x.len() != y.len() {
        return false;
    }
    for i in 0..x.len() {
        if !x[i].is_same(y[i]) {
            return false;
        }
    }
    true
}

/// Whether both say one use.
fn is_same_use(x: &Use, y: &Use) -> bool
    ensures { IsTrue result ↔ (seen x.now ≡ seen y.now) }
{
    x.map == y.map && x.key == y.key && are_same_stamps(&x.from, &y.from)
}

/// Whether both say one list of uses.
pub(crate) fn are_same_uses(x: &[Use], y: &[Use]) -> bool
    ensures { IsTrue result ↔ (map seen x.now ≡ map seen y.now) }
{
    if x.len() != y.len() {
        return false;
    }
    for i in 0..x.len() {
        if !is_same_use(&x[i], &y[i]) {
            return false;
        }
    }
    true
}
