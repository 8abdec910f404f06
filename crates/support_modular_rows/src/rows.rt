//! Submodules as their kept rows.

ghost use Rattle.std.specs.Prelude.{◌≡◌, ℕ, ◌+◌, ◌≤◌, ◌<◌, ◌↔◌, IsTrue, IfNone, IfOk, IfSome, MatchBool, length, List, [], slice_get, take, Some};
ghost use Rattle.support_modular_rows.specs.Multiples.{IsLeastMultiple, IsMultiple};
ghost use Rattle.support_modular_rows.specs.Rank.{IsRank};
ghost use Rattle.support_modular_rows.specs.Submodule.{Adds, IsImage, IsMember, Submodule, unit_row};

use super::forms::{Form, add_values, forget};
use super::slots::{exponents, holds, kept_count, kept_place, multiple, take_in, zero_slots};
use super::vector::{Vector, unit_vector};
use std::alloc::{AllocError, Global};
use std::marker::Model;

/// A submodule of the vectors of k + 1 numbers modulo 2^32.
#[derive(Debug, Drop)]
pub struct Rows {
    k: u32,
    slots: Vec<Vector>,
}

impl Model for Rows {
    ghost use Rattle.support_modular_rows.specs.Submodule.{Submodule};
    ghost use Rattle.support_modular_rows.specs.Reduction.{submodule_of, IsStore};

    ghost Value = { Submodule };

    ghost view = { λ s. submodule_of s.k s.slots.items };

    ghost invariant = { λ s. IsStore s.k s.slots.items };
}

impl Rows {
    /// The submodule that holds the zero vector alone.
    pub fn new(alloc: Global, k: u32) -> Result<Rows, AllocError>
        requires { k ≤ 64 }
        ensures { IfOk result (λ s. s ≡ record { k = k; rows = [] }) }
    {
        let slots = zero_slots(alloc, k as usize + 1)?;
        Ok(Rows { k, slots })
    }

    /// The same submodule once more, with the same rows.
    pub fn copy(&self, alloc: Global) -> Result<Rows, AllocError>
        ensures { IfOk result (λ s. s ≡ self.now) }
    {
        let slots = Vec::from_slice(alloc, &self.slots)?;
        Ok(Rows { k: self.k, slots })
    }

    /// Whether the row is a member. With (2, 0) alone inserted (6, 0) is one, and (1, 0) is none.
    pub fn contains(&self, row: &[u32]) -> bool
        requires { length row.now ≡ self.now.k + 1 }
        ensures { IsTrue result ↔ IsMember self.now.k self.now.rows row.now }
    {
        holds(&self.slots, row)
    }

    /// Adds the row, with its sums and multiples, and says whether it was no member before.
    pub fn insert(&mut self, row: &[u32]) -> bool
        requires { length row.now ≡ self.old.k + 1 }
        ensures same { self.new.k ≡ self.old.k }
        ensures members { Adds self.old row.now self.new }
        ensures grew { MatchBool result (IsMember self.old.k self.old.rows row.now → ⊥) (IsMember self.old.k self.old.rows row.now) }
    {
        take_in(&mut self.slots, row)
    }

    /// Gives the cell any value: adds the vector with 1 in its column and 0 in the others.
    pub fn havoc(&mut self, cell: u32)
        requires { cell < self.old.k }
        ensures same { self.new.k ≡ self.old.k }
        ensures members { Adds self.old (unit_row (self.old.k + 1) (cell + 1)) self.new }
    {
        let columns = self.k as usize + 1;
        let unit = unit_vector(cell as usize + 1);
        let _grew = self.insert(&unit[..columns]);
    }

    /// How many rows are kept.
    pub fn len(&self) -> u32
        ensures { result ≡ length self.now.rows }
    {
        kept_count(&self.slots)
    }

    /// The kept row i, which those before it do not generate. Together the rows generate the submodule.
    pub fn row(&self, i: u32) -> &[u32]
        requires { i < length self.now.rows }
        ensures len { length result.now ≡ self.now.k + 1 }
        ensures item { slice_get self.now.rows i ≡ Some result.now }
        ensures adds { IsMember self.now.k (take i self.now.rows) result.now → ⊥ }
    {
        let place = kept_place(&self.slots, i);
        let slot = &self.slots[place];
        &slot[..self.k as usize + 1]
    }

    /// Gives `into` the values over the members: the first number as it is, and each cell by its form, or
    /// any number where there is none. Over (1, 5) the form with the numbers 3 and 2 has the value 13.
    pub fn image(&self, forms: &[Option<Form>], into: &mut Rows)
        requires forms { length forms.now ≡ self.now.k }
        requires columns { into.old.k ≡ self.now.k }
        requires new { into.old.rows ≡ [] }
        ensures same { into.new.k ≡ self.now.k }
        ensures members { (y : List ℕ) → IsMember self.now.k into.new.rows y ↔ IsImage self.now forms.now y }
    {
        let _few = self.k;
        add_values(self, forms, into);
        forget(forms, into);
    }

    /// The sum, over the columns, of the greatest v up to 32 such that 2^v divides the entry of each member
    /// that is 0 in the columns before. With (2, 0) alone inserted it is 1 + 32.
    pub fn rank(&self) -> u64
        ensures { IsRank self.now.k self.now.rows result }
    {
        exponents(&self.slots)
    }

    /// The least c such that in each member the cell's number is c times the first, if there is one. With (2, 10)
    /// alone inserted it is 5; with (0, 1) inserted too there is none.
    pub fn multiple(&self, cell: u32) -> Option<u32>
        requires { cell < self.now.k }
        ensures some { IfSome result (λ c. IsLeastMultiple self.now.k self.now.rows cell c) }
        ensures none { IfNone result ((c : ℕ) → IsMultiple self.now.k self.now.rows cell c → ⊥) }
    {
        multiple(&self.slots, cell as usize + 1)
    }
}
