//! Domains whose elements keep a property of notes.

ghost use Rattle.std.specs.Prelude.{ℕ, Bool};
ghost use Rattle.fixpoint_theory.specs.Elements.{Elements};
ghost use Rattle.semantics_values.specs.States.{State};
ghost use Rattle.domain_laws.specs.Domain.{Meaning};
ghost use Rattle.analysis_table_laws.specs.Domains.{ElementsKeep};
ghost use Rattle.analysis_table_laws.specs.Notes.{NotesKeep};

use base_trait::Base;

/// The definitions of a domain whose notes and elements keep properties, where a test tells code addresses.
pub trait PrintableDomain {
    /// The words of its state values.
    type B: Base;

    /// What elements are as plain data.
    ghost Plain: { Type 0 };

    ghost elements: { Self → Elements Plain State };

    ghost meaning: { Self → Meaning Plain Self.B.Word Self.B.Note Self.B.Ctx };

    /// What notes have.
    ghost NoteFits: { (ℕ → Bool) → Self.B.Note → Type 0 };

    /// What elements have.
    ghost ElementFits: { (ℕ → Bool) → Plain → Type 0 };

    ghost notes_keep: { (code : ℕ → Bool) → NotesKeep Self.B.algebra.notes code (NoteFits code) };

    ghost elements_keep: { (it : Self) (code : ℕ → Bool) → ElementsKeep (elements it) (meaning it) (NoteFits code) (ElementFits code) };
}
