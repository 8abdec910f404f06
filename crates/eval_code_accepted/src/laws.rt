//! Laws of the code of accepted specifications, stated in specs/Laws.antt. Nothing runs.

ghost use Rattle.eval_code_accepted.specs.Laws.{AcceptedCodeAsksWithin, AcceptedCodeIsValid, AcceptedTermsAreInScope};

/// The core terms of an accepted specification have their variables in scope.
pub fn accepted_terms_are_in_scope()
    ensures { AcceptedTermsAreInScope }
{}

/// Each node of its code reads slots that were written before it, on every way to it.
pub fn accepted_code_is_valid()
    ensures { AcceptedCodeIsValid }
{}

/// Each call in which a body ends is of a function that is there, of the same group.
pub fn accepted_code_asks_within()
    ensures { AcceptedCodeAsksWithin }
{}
