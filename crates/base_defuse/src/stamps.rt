//! Sets of stamps.

ghost use Rattle.std.specs.Prelude.{◌≡◌, ◌∷◌, [], IfOk};
ghost use Rattle.base_trait.specs.Stamps.{AreAscending};
ghost use Rattle.base_defuse.specs.Instance.{same_notes};
ghost use Rattle.base_defuse.specs.Notes.{union};

use super::union::union_of;
use base_trait::Stamp;
use std::alloc::{AllocError as NoMemory, Global};
use std::hash::{Hash, Hasher};
use std::marker::Model;

/// A set of stamps: the entry first, then addresses, ascending.
#[derive(Debug, Drop)]
pub struct Stamps {
    items: Vec<Stamp>,
}

impl Model for Stamps {
    ghost use Rattle.std.specs.Prelude.{List};
    ghost use Rattle.base_trait.specs.Stamps.{AreAscending};
    ghost use Rattle.base_trait.specs.declared.uses.Stamp.{Stamp};

    ghost Value = { List Stamp };

    ghost view = { λ s. s.items.items };

    ghost invariant = { λ s. AreAscending s.items.items };
}

impl PartialEq for Stamps {
    ghost use Rattle.base_defuse.specs.Instance.{same_notes, same_notes_partial};

    ghost eq = { same_notes };

    ghost laws = { same_notes_partial };

    fn eq(&self, other: &Stamps) -> bool {
        are_same(self.items(), other.items())
    }
}

impl Eq for Stamps {
    ghost use Rattle.base_defuse.specs.Instance.{same_notes_equiv};

    ghost laws = { same_notes_equiv };
}

impl Hash for Stamps {
    ghost use Rattle.std.proofs.Common.{ap};
    ghost use Rattle.std.specs.Hash as fed;
    ghost use Rattle.base_defuse.specs.Instance.{same_notes_is};

    ghost hash_input = { λ s. fed.slice ⟦<Stamp as Hash>⟧.hash_input s };

    ghost respects_eq = { λ x y e. ap (λ s. fed.slice ⟦<Stamp as Hash>⟧.hash_input s) (same_notes_is x y e) };

    fn hash<H: Hasher>(&self, state: &mut H) {
        self.items().hash(state);
    }
}

impl Stamps {
    /// The set of stamps that ascend without doubles.
    pub fn new(items: Vec<Stamp>) -> Stamps
        requires { AreAscending items.items }
        ensures { result ≡ items.items }
    {
        Stamps { items }
    }

    /// The stamps, in their order.
    pub fn into_items(self) -> Vec<Stamp>
        ensures value { result.items ≡ self }
        ensures ascending { AreAscending result.items }
    {
        self.items
    }

    /// The stamps, in their order.
    pub fn items(&self) -> &[Stamp]
        ensures value { result.now ≡ self.now }
        ensures ascending { AreAscending result.now }
    {
        self.items.as_slice()
    }

    /// The set of one stamp.
    pub(crate) fn one(alloc: Global, stamp: Stamp) -> Result<Stamps, NoMemory>
        ensures { IfOk result (λ r. r ≡ stamp ∷ []) }
    {
        let items = vec![in alloc; stamp]?;
        Ok(Stamps { items })
    }

    /// The stamps of both.
    pub(crate) fn union(alloc: Global, x: &Stamps, y: &Stamps) -> Result<Stamps, NoMemory>
        ensures { IfOk result (λ r. r ≡ union x.now y.now) }
    {
        let items = union_of(alloc, x.items(), y.items())?;
        Ok(Stamps { items })
    }

    /// The same set once more.
    pub(crate) fn copy(alloc: Global, x: &Stamps) -> Result<Stamps, NoMemory>
        ensures { IfOk result (λ r. r ≡ x.now) }
    {
        let items = union_of(alloc, x.items(), &[])?;
        Ok(Stamps { items })
    }
}

fn are_same(xs: &[Stamp], ys: &[Stamp]) -> bool
    ensures { result ≡ same_notes xs.now ys.now }
{
    if xs.len() != ys.len() {
        return false;
    }
    for i in 0..xs.len() {
        if !xs[i].is_same(ys[i]) {
            return false;
        }
    }
    true
}
