//! What holds of the outcomes of the commands. These functions do nothing: their contracts are laws.

ghost use Rattle.program_machine.specs.Laws.{EmulateHasOne, EmulateHasSome, ListHasOne, ListHasSome};

/// Over the bytes that names hold, `emulate` has one outcome at most.
pub fn emulate_has_one()
    ensures { EmulateHasOne }
{}

/// It has an outcome.
pub fn emulate_has_some()
    ensures { EmulateHasSome }
{}

/// So does `list` have one at most.
pub fn list_has_one()
    ensures { ListHasOne }
{}

/// It has an outcome.
pub fn list_has_some()
    ensures { ListHasSome }
{}
