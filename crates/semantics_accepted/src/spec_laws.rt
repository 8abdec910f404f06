//! Laws of specifications without faults: what the meaning of functions rests on. Nothing runs.

ghost use Rattle.semantics_accepted.specs.Laws.{CoresAreThose, GroupsHaveOneResult, TermsAreTyped, WantedTypesAreHad};

/// A term without a fault has its type.
pub fn terms_are_typed()
    ensures { TermsAreTyped }
{}

/// A term of which a type is wanted, and that has no fault, has that type.
pub fn wanted_types_are_had()
    ensures { WantedTypesAreHad }
{}

/// Functions of one group have one type of results.
pub fn groups_have_one_result()
    ensures { GroupsHaveOneResult }
{}

/// The core term that is found for a term without a fault is that of its typed term.
pub fn cores_are_those()
    ensures { CoresAreThose }
{}
