//! Laws of entries, stated in specs/Laws.antt. Nothing runs.

ghost use Rattle.state_entry_laws.specs.Laws.{AcceptedHaveCells, EntriesFit, MachinesHaveFields, OneStatesAreDescribed, ReadStatesAreDescribed};

/// An entry that is read fits the fields of states.
pub fn entries_fit()
    ensures { EntriesFit }
{}

/// The one state of an entry that fits is a state that the entry describes.
pub fn one_states_are_described()
    ensures { OneStatesAreDescribed }
{}

/// The fields of states of an accepted machine are words, and maps with defaults of their widths.
pub fn accepted_have_cells()
    ensures { AcceptedHaveCells }
{}

/// Of an accepted machine, the one state of an entry that is read is a state that the entry describes.
pub fn read_states_are_described()
    ensures { ReadStatesAreDescribed }
{}

/// The machine of a text without faults has few fields of states, of different names, each behind the program counter a word or a map.
pub fn machines_have_fields()
    ensures { MachinesHaveFields }
{}
