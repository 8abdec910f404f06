//! Where an evaluation takes place.

ghost use Rattle.std.specs.Prelude.{ℕ, List};
ghost use Rattle.abstract_value_laws.specs.Abs.{Abs};
ghost use Rattle.abstract_semantics.specs.Answers.{Answer};

use base_trait::Base;
use eval_code::EvaluatorCode;
use eval_group_turns::Specified;
use spec_ir::Spec;
use std::marker::Brand;
use support_tail_fixpoint::Policy;

/// What does not change while a call is evaluated: the specification with its code, what the words share, the address
/// of the instruction, and how many turns activations have.
#[derive(Drop)]
pub struct Setting<'a, B: Base> {
    pub spec: &'a Spec,
    pub cir: &'a EvaluatorCode,
    pub ctx: &'a B::Ctx,
    pub at: u32,
    pub policy: Policy,
}

/// What contracts speak of, and no code holds: beside the specification, how many entries the memo had and how many steps were
/// ticked when all began.
pub trait Counted: Specified {
    ghost before: { ℕ };

    ghost ticked: { ℕ };
}

/// For a call that picks these in its proof: of itself all are 0.
impl Counted for Brand {
    ghost use Rattle.std.specs.Prelude.{ℕ};

    ghost before = { 0 };

    ghost ticked = { 0 };
}

/// What calls give, by the context of the words.
pub trait Known<B: Base>: Counted {
    ghost calls: { B.Ctx → ℕ → List (Abs B.Word B.Note) → Answer (Abs B.Word B.Note) };
}
