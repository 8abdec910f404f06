//! The element behind an instruction, and that of an entry.

ghost use Rattle.std.specs.Prelude.{◌≡◌, ◌+◌, ◌≤◌, List, ℕ, IfOk, length, map, Option};
ghost use Rattle.base_trait.specs.Lists.{Each};
ghost use Rattle.domain_affine_base.specs.Exact.{form_of};
ghost use Rattle.domain_affine_base.specs.Words.{Fits, IsOf};
ghost use Rattle.domain_affine_element_laws.specs.Closed.{closed_of};
ghost use Rattle.domain_affine_element_laws.specs.Elements.{SameMembers};
ghost use Rattle.domain_affine_element_laws.specs.Entry.{entry_of};

use super::opened::unit;
use domain_affine_base::Word;
use std::alloc::{AllocError as NoMemory, Global};
use support_modular_rows::{Form, Rows};

/// The element behind an instruction that gives these words to the tracked cells, where `x` stands before it: the
/// values of the words over each member, and any number for a cell whose word is any.
pub fn close_cells(alloc: Global, k: u32, words: &[Word], x: &Rows) -> Result<Rows, NoMemory>
    requires cells { x.now.k ≡ k }
    requires few { k ≤ 64 }
    requires words { length words.now ≡ k }
    requires fit { Each (λ x. Fits k 32 x) words.now }
    ensures members { IfOk result (λ r. SameMembers k r.rows (closed_of k words.now x.now).rows) }
    ensures fits { IfOk result (λ r. r.k ≡ k) }
{
    let forms = forms_of(alloc, words)?;
    let mut rows = Rows::new(alloc, k)?;
    x.image(&forms, &mut rows);
    Ok(rows)
}

/// The element of the states whose tracked cells have these words, each a constant or any.
pub fn entry_cells(alloc: Global, k: u32, words: &[Word]) -> Result<Rows, NoMemory>
    requires few { k ≤ 64 }
    requires words { length words.now ≡ k }
    requires fit { Each (λ x. Fits k 32 x) words.now }
    ensures members { IfOk result (λ r. SameMembers k r.rows (entry_of k words.now).rows) }
    ensures fits { IfOk result (λ r. r.k ≡ k) }
{
    let mut start = Rows::new(alloc, k)?;
    let first = unit(alloc, k as usize + 1, 0)?;
    let _grew = start.insert(&first.c);
    close_cells(alloc, k, words, &start)
}

/// The forms of the words: a constant is the form of its number alone, and any has none.
fn forms_of(alloc: Global, words: &[Word]) -> Result<Vec<Option<Form>>, NoMemory>
    requires { Each (λ x. IsOf 32 x) words.now }
    ensures { IfOk result (λ v. v.items ≡ map form_of words.now) }
{
    let mut forms = Vec::new(alloc);
    for word in words {
        forms.push(form_of(alloc, word)?)?;
    }
    Ok(forms)
}

fn form_of(alloc: Global, word: &Word) -> Result<Option<Form>, NoMemory>
    requires { IsOf 32 word.now }
    ensures { IfOk result (λ f. f ≡ form_of word.now) }
{
    match word {
        Word::Any => Ok(None),
        Word::Const(n) => Ok(Some(Form {
            c: vec![in alloc; *n as u32]?,
        })),
        Word::Form(form) => Ok(Some(copy_form(alloc, form)?)),
    }
}

/// The same form once more.
fn copy_form(alloc: Global, form: &Form) -> Result<Form, NoMemory>
    ensures { IfOk result (λ r. r ≡ form.now) }
{
    let mut c = Vec::new(alloc);
    for number in &form.c {
        c.push(*number)?;
    }
    Ok(Form { c })
}
