//! What holds of what a run owes, and of how it ends. These functions do nothing: their contracts are laws.

ghost use Rattle.program_run.specs.Laws.{EndsFollow, ExactAnswers, OneAnswer, RefusalsHaveLines, SomeAnswer};

/// A run owes one status at most, and one text with it, unless that is a table over relations: of such a table it owes each text.
pub fn one_answer()
    ensures { OneAnswer }
{}

/// Each run owes a status and a text.
pub fn some_answer()
    ensures { SomeAnswer }
{}

/// What follows for the caller of `run` from its clauses `ends` and `write_fault`: what is owed is answered, each other
/// answer has its cause, one line or a front of it is written, and nothing is left out. A table that an analysis writes is true of
/// every run of the machine, or, where it was left open, up to the first open address; so is one that a check accepts. A
/// slice holds every chain of reads, and a claim that is answered with yes is true, of a table that may be left open until there.
pub fn ends_follow()
    ensures { EndsFollow }
{}

/// Where one text is owed, it is what is written.
pub fn exact_answers()
    ensures { ExactAnswers }
{}

/// A refusal that a run may come to has a line to write: want of memory, whose line is empty, is none.
pub fn refusals_have_lines()
    ensures { RefusalsHaveLines }
{}
