//! What a test may show.

ghost use Rattle.std.specs.Prelude.{◌≡◌, ℕ, ◌<◌, ◌^◌, [], ◌∷◌, map, length, IfOk};
ghost use Rattle.spec_match_compiler.specs.Shapes.{cases_of};
ghost use Rattle.spec_match_compiler.specs.Knowledge.{unknown};
ghost use Rattle.spec_match_compiler.specs.Rule.{outcomes, made_known};
ghost use Rattle.spec_match_compiler.specs.Views.{types, knowledge, test};

use crate::knowledge::{Knowledge, Test};
use crate::shape::{Shape, Sig};
use std::alloc::{AllocError, Global};

/// What is known of the tested value after each answer, in the order of a decision's branches.
pub fn outcomes(alloc: Global, sig: &Sig, asked: &Test) -> Result<Vec<Knowledge>, AllocError>
    requires { (t : ℕ) → length (cases_of (types sig.now) t) < 2 ^ 32 }
    ensures { IfOk result (λ r. map knowledge r.items ≡ outcomes (types sig.now) (test asked.now)) }
{
    match asked {
        Test::Flag => two(alloc, Knowledge::Flag(true), Knowledge::Flag(false)),
        Test::Word {
            width,
            tested,
            value,
        } => {
            let mut more = Vec::from_slice(alloc, tested)?;
            more.push(*value)?;
            let others = Knowledge::Others {
                width: *width,
                tested: more,
            };
            two(alloc, Knowledge::Word(*value), others)
        }
        Test::Case(t) => match sig.datas.get(*t as usize) {
            Some(cases) => made_known(alloc, cases),
            None => Ok(Vec::new(alloc)),
        },
    }
}

/// Two answers.
fn two(alloc: Global, first: Knowledge, second: Knowledge) -> Result<Vec<Knowledge>, AllocError>
    ensures { IfOk result (λ r. r.items ≡ first ∷ (second ∷ [])) }
{
    let mut out = Vec::new(alloc);
    out.push(first)?;
    out.push(second)?;
    Ok(out)
}

/// Each of these constructors, as what is known.
fn made_known(alloc: Global, cases: &[Vec<Shape>]) -> Result<Vec<Knowledge>, AllocError>
    requires { length cases.now < 2 ^ 32 }
    ensures { IfOk result (λ r. map knowledge r.items ≡ made_known 0 (map (λ c. c.items) cases.now)) }
{
    let mut out = Vec::new(alloc);
    for (i, fields) in cases.iter().enumerate() {
        out.push(Knowledge::Made {
            case: i as u32,
            parts: unknown_fields(alloc, fields)?,
        })?;
    }
    Ok(out)
}

/// Fields of which the shapes alone are known.
fn unknown_fields(alloc: Global, shapes: &[Shape]) -> Result<Vec<Knowledge>, AllocError>
    ensures { IfOk result (λ r. map knowledge r.items ≡ map unknown shapes.now) }
{
    let mut out = Vec::new(alloc);
    for shape in shapes {
        out.push(Knowledge::Unknown(*shape))?;
    }
    Ok(out)
}
