//! What an analysis needs of a specification.

ghost use Rattle.std.specs.Prelude.{◌≡◌, IfOk, true};
ghost use Rattle.spec_ir.specs.Views.{specification};
ghost use Rattle.domain_laws.specs.States.{has_states};
ghost use Rattle.program_domain_tasks.specs.Prepared.{IsPrepared};

use code_image::Decoder;
use domain_cells::fields_of;
use domain_laws::Field;
use eval_code::EvaluatorCode;
use eval_code_lowering::lower;
use spec_ir::Spec;
use std::alloc::{AllocError as NoMemory, Global};

/// The fields of states behind the counter, the decoder, and the code of functions.
#[derive(Drop)]
pub struct Prepared {
    pub fields: Vec<Field>,
    pub decoder: Decoder,
    pub cir: EvaluatorCode,
}

/// What is made of a specification once.
pub fn prepare(alloc: Global, spec: &Spec) -> Result<Prepared, NoMemory>
    requires { has_states (specification spec.now) ≡ true }
    ensures { IfOk result (λ r. IsPrepared (specification spec.now) r) }
{
    Ok(Prepared {
        fields: fields_of(alloc, spec)?,
        decoder: Decoder::new(alloc, spec)?,
        cir: lower(alloc, spec)?,
    })
}
