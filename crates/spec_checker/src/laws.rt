//! Laws of checking, stated in specs/Laws.antt. Nothing runs.

ghost use Rattle.spec_checker.specs.Laws.{AcceptedRowsAreApart, FaultsAreSettled};

/// A tree has a first fault or none, and not both; and one first fault at most.
pub fn faults_are_settled()
    ensures { FaultsAreSettled }
{}

/// No word agrees with two decode rows of an accepted specification on the bits that they fix.
pub fn accepted_rows_are_apart()
    ensures { AcceptedRowsAreApart }
{}
