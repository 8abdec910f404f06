//! Laws of code, stated in specs/Laws.antt. Nothing runs.

ghost use Rattle.eval_code.specs.Laws.{CodeIsSmall, CodeIsValid};

/// Each node reads slots that were written before it, on every way to it.
pub fn code_is_valid()
    ensures { CodeIsValid }
{}

/// A function has at most as many nodes as its core term has parts.
pub fn code_is_small()
    ensures { CodeIsSmall }
{}
