//! Laws of types and of the machine, stated in specs/Laws.antt. Nothing runs.

ghost use Rattle.spec_declarations.specs.Laws.{MachinesAreThere, StateIsOne, TypesAreRanked, TypesFaultsAreSettled};

/// There is one first fault of types, or none.
pub fn types_faults_are_settled()
    ensures { TypesFaultsAreSettled }
{}

/// Where no fault of types stands all types are there, and those of fields are of lower rank.
pub fn types_are_ranked()
    ensures { TypesAreRanked }
{}

/// Where no fault of the machine stands there is one.
pub fn machines_are_there()
    ensures { MachinesAreThere }
{}

/// The type of states has one constructor, with the counter first and no map type twice.
pub fn state_is_one()
    ensures { StateIsOne }
{}
