//! The law that ties checking to the meaning, stated in specs/Laws.antt. Nothing runs.

ghost use Rattle.semantics_accepted.specs.AcceptedLaws.{CheckedAreAccepted};

/// What `check` answers is an accepted specification.
pub fn checked_are_accepted()
    ensures { CheckedAreAccepted }
{}
