//! Laws of calls, stated in specs/Laws. Nothing runs.

ghost use Rattle.concrete_function_calls.specs.Laws.{ValuesAreWritten};

/// Of an accepted specification, what a call gives is a word of its width, or a truth value.
pub fn values_are_written()
    ensures { ValuesAreWritten }
{}
