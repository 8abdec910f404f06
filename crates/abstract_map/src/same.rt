//! Equality of maps, and their hash.

ghost use Rattle.std.specs.Prelude.{◌≡◌};
ghost use Rattle.base_trait.specs.Identity.{same_list};
ghost use Rattle.abstract_map.specs.Same.{same_entry};

use super::abstract_maps::AbstractMap;
use super::cells::CellOf;
use abstract_cell_tree::Tree;
use base_trait::Base;
use std::hash::{Hash, Hasher};

impl<B: Base> PartialEq for AbstractMap<B> {
    ghost use Rattle.abstract_map.specs.Same.{same_map, same_map_partial};

    ghost eq = { same_map B.Word.eq B.Note.eq };

    ghost laws = { same_map_partial B.Word.eq B.Note.eq B.Word.Eq.laws B.Note.Eq.laws B.same_words B.same_notes };

    fn eq(&self, other: &AbstractMap<B>) -> bool {
        self.width == other.width
            && self.rest == other.rest
            && are_same::<B>(self.cells(), other.cells())
    }
}

impl<B: Base> Eq for AbstractMap<B> {
    ghost use Rattle.abstract_map.specs.Same.{same_map_equiv};

    ghost laws = { same_map_equiv B.Word.eq B.Note.eq B.Word.Eq.laws B.Note.Eq.laws B.same_words B.same_notes };
}

/// By its width, its rest and the number of its cells, so that no cell is looked at.
impl<B: Base> Hash for AbstractMap<B> {
    ghost use Rattle.std.proofs.Common.{ap};
    ghost use Rattle.abstract_map.specs.Same.{hashed, same_map_is};

    ghost hash_input = { hashed B.Word.hash_input B.Note.hash_input };

    ghost respects_eq = { λ x y e. ap (hashed B.Word.hash_input B.Note.hash_input) (same_map_is B.Word.eq B.Note.eq B.same_words B.same_notes x y e) };

    fn hash<H: Hasher>(&self, state: &mut H) {
        self.width.hash(state);
        self.rest.hash(state);
        self.listed().hash(state);
    }
}

/// Whether the cells are equal, one by one.
fn are_same<B: Base>(cells: &Tree<CellOf<B>>, others: &Tree<CellOf<B>>) -> bool
    ensures { result ≡ same_list (same_entry B.Word.eq B.Note.eq) cells.now others.now }
{
    if cells.len() != others.len() {
        return false;
    }
    for place in 0..cells.len() {
        if cells.at(place) != others.at(place) {
            return false;
        }
    }
    true
}
