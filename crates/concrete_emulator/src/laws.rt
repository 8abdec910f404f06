//! Laws of the texts of states, stated in specs/Laws. Nothing runs.

ghost use Rattle.concrete_emulator.specs.Laws.{SameTexts};

/// States that are the same have one text, where the keys of their maps ascend.
pub fn same_states_have_one_text()
    ensures { SameTexts }
{}
