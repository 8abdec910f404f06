//! What holds of each entry and each state. These functions do nothing: their contracts are laws.

ghost use Rattle.state_text.specs.Laws.{FormsAreExact, OneIsDescribed, RoundTrip};

/// The form that is computed of a line of an entry is the one that it has.
pub fn forms_are_exact()
    ensures { FormsAreExact }
{}

/// The text of a state is an entry of which that state is the one state.
pub fn round_trip()
    ensures { RoundTrip }
{}

/// The one state of an entry is a state that the entry describes.
pub fn one_state_is_described()
    ensures { OneIsDescribed }
{}
