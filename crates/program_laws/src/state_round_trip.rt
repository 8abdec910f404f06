//! A law of `emulate`: what it prints is an entry of the last state of its run.

ghost use Rattle.program_laws.specs.Laws.{EmulateReadsBack};

/// What `emulate` prints is an entry of one state: of the last one of the run.
pub fn emulate_reads_back()
    ensures { EmulateReadsBack }
{}
