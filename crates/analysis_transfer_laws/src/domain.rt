//! Domains as plain data.

ghost use Rattle.fixpoint_theory.specs.Elements.{Elements};
ghost use Rattle.semantics_values.specs.States.{State};
ghost use Rattle.domain_laws.specs.Domain.{Meaning};

use base_trait::Base;

/// The definitions of a domain over a base.
pub trait PlainDomain {
    /// The words of its state values.
    type B: Base;

    /// What elements are as plain data.
    ghost Plain: { Type 0 };

    ghost elements: { Self → Elements Plain State };

    ghost meaning: { Self → Meaning Plain Self.B.Word Self.B.Note Self.B.Ctx };
}
