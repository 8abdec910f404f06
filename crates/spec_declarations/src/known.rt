//! What is known of datatypes: which contain themselves, and which have too many leaves.

ghost use Rattle.std.specs.Prelude.{◌≡◌, ◌<◌, ℕ, IfOk, None, false, length, slice_index_or};
ghost use Rattle.support_reachability.specs.Table.{says, table};
ghost use Rattle.spec_ir.specs.Answers.{Agrees};
ghost use Rattle.spec_declarations.specs.Leaves.{IsKnown};
ghost use Rattle.spec_declarations.specs.Views.{meanings};

use crate::contents::{datatypes_in_fields, plain};
use crate::counts::{leaf_counts, past_limit};
use crate::type_names::Meaning;
use spec_ir::SpecError;
use std::alloc::{AllocError, Global};
use support_reachability::Reachability;

/// Of each datatype whether it contains itself, and whether it has too many leaves.
#[derive(Drop)]
pub struct Facts {
    pub recursive: Vec<bool>,
    pub large: Vec<bool>,
}

/// What is known of datatypes, each given by the meanings of its constructors' field types.
pub fn known(alloc: Global, datas: &[Vec<Vec<Meaning>>]) -> Result<Facts, SpecError>
    ensures answer { Agrees result None }
    ensures known { IfOk result (λ r. IsKnown (meanings datas.now) r.recursive.items r.large.items) }
{
    let graph = datatypes_in_fields(alloc, datas)?;
    let own = plain(alloc, datas)?;
    let reached = Reachability::of(alloc, &graph)?;
    let counts = leaf_counts(alloc, &graph, &own)?;
    let recursive = recursive(alloc, datas.len(), &reached)?;
    let large = past_limit(alloc, &counts)?;
    Ok(Facts { recursive, large })
}

/// Which of n nodes reach themselves.
fn recursive(alloc: Global, n: usize, reached: &Reachability) -> Result<Vec<bool>, AllocError>
    ensures width { IfOk result (λ r. length r.items ≡ n) }
    ensures entries { IfOk result (λ r. (d : ℕ) → d < n → slice_index_or r.items d false ≡ says (table reached.now) d d) }
{
    let mut recursive = Vec::new(alloc);
    for d in 0..n {
        recursive.push(reached.reaches(d, d))?;
    }
    Ok(recursive)
}
