//! Affine forms.

ghost use Rattle.std.specs.Prelude.{◌≡◌, ℕ, ◌+◌, ◌≤◌, ◌<◌, length, slice_index, slice_get, unwrap_or, None, []};
ghost use Rattle.support_modular_rows.specs.Submodule.{Congruent, dot};
ghost use Rattle.support_modular_rows.specs.Forms.{HasEntry};
ghost use Rattle.support_modular_rows.specs.Values.{Images, Forgotten};

use super::rows::Rows;
use super::vector::{Vector, WIDTH};
use std::hash::{Hash, Hasher};
use std::marker::Model;

/// A sum of multiples: of the constant, and of each cell.
#[derive(Debug, Drop)]
pub struct Form {
    /// The multiplier of the constant, and then that of each cell; where there are fewer, the others are 0.
    pub c: Vec<u32>,
}

impl Model for Form {
    ghost use Rattle.std.specs.Prelude.{ℕ, List};

    ghost Value = { List ℕ };

    ghost view = { λ f. f.c.items };
}

impl PartialEq for Form {
    ghost use Rattle.std.specs.Cmp.{partial_equiv_from_equiv};
    ghost use Rattle.std.specs.Cmp.Lexicographic.{nat_list_eq_equiv};
    ghost use Rattle.support_modular_rows.specs.Forms.{same_form};

    ghost eq = { same_form };

    ghost laws = { partial_equiv_from_equiv nat_list_eq_equiv };

    fn eq(&self, other: &Form) -> bool {
        self.c == other.c
    }
}

impl Eq for Form {
    ghost use Rattle.std.specs.Cmp.Lexicographic.{nat_list_eq_equiv};

    ghost laws = { nat_list_eq_equiv };
}

impl Hash for Form {
    ghost use Rattle.std.proofs.Common.{ap};
    ghost use Rattle.std.specs.Cmp.Lexicographic.{bytes_decides};
    ghost use Rattle.std.specs.Hash as fed;

    ghost hash_input = { λ f. fed.slice fed.u32 f };

    ghost respects_eq = { λ x y e. ap (fed.slice fed.u32) ((bytes_decides x y).0 e) };

    fn hash<H: Hasher>(&self, state: &mut H) {
        self.c.hash(state);
    }
}

impl Form {
    /// The form's value over the row. Over (1, 5) the form with the numbers 3 and 2 has the value 13.
    pub fn value(&self, row: &[u32]) -> u32
        ensures { Congruent result (dot self.now row.now) }
    {
        let form = self.c.as_slice();
        let mut sum = 0u32;
        for i in 0..form.len().min(row.len()) {
            sum = sum.wrapping_add(form[i].wrapping_mul(row[i]));
        }
        sum
    }
}

/// The first number of the row, and the value of each form over it, 0 where there is none.
pub(crate) fn values(forms: &[Option<Form>], row: &[u32]) -> Vector
    requires few { length forms.now ≤ 64 }
    requires some { 0 < length row.now }
    ensures len { length result ≡ 65 }
    ensures first { slice_index result 0 ≡ slice_index row.now 0 }
    ensures cells { (i : ℕ) → i < length forms.now → HasEntry (unwrap_or (slice_get forms.now i) None) row.now (slice_index result (i + 1)) }
{
    let mut image = [0; WIDTH];
    image[0] = row[0];
    for i in 0..forms.len() {
        image[i + 1] = match &forms[i] {
            Some(form) => form.value(row),
            None => 0,
        };
    }
    image
}

/// Adds the values over each generating row, 0 where there is no form.
pub(crate) fn add_values(from: &Rows, forms: &[Option<Form>], into: &mut Rows)
    requires forms { length forms.now ≡ from.now.k }
    requires few { from.now.k ≤ 64 }
    requires columns { into.old.k ≡ from.now.k }
    requires new { into.old.rows ≡ [] }
    ensures same { into.new.k ≡ from.now.k }
    ensures images { Images (from.now.k + 1) forms.now from.now.rows into.new.rows }
{
    let columns = forms.len() + 1;
    for i in 0..from.len() {
        let image = values(forms, from.row(i));
        let _grew = into.insert(&image[..columns]);
    }
}

/// Gives any value to each cell with no form.
pub(crate) fn forget(forms: &[Option<Form>], into: &mut Rows)
    requires forms { length forms.now ≡ into.old.k }
    requires few { into.old.k ≤ 64 }
    ensures same { into.new.k ≡ into.old.k }
    ensures cells { Forgotten forms.now (into.old.k + 1) into.old.k into.old.rows into.new.rows }
{
    for cell in 0..forms.len() {
        if forms[cell].is_none() {
            into.havoc(cell as u32);
        }
    }
}
