//! Laws of checking a tree: it has a first fault or none, and one specification.

ghost use Rattle.semantics_accepted.specs.CheckerLaws.{SpecificationsAreOne, SpecificationsAreThere, TreesAreDecided};

/// A tree has a first fault, or none.
pub fn trees_are_decided()
    ensures { TreesAreDecided }
{}

/// A tree has one specification at most.
pub fn specifications_are_one()
    ensures { SpecificationsAreOne }
{}

/// A tree has a specification.
pub fn specifications_are_there()
    ensures { SpecificationsAreThere }
{}
