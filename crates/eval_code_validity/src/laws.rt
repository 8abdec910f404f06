//! Laws of valid code, stated in specs/Laws.antt. Nothing runs.

ghost use Rattle.eval_code_validity.specs.Laws.{ValidCodeNeedsNoDefault, ValidCodeReadsWhatIsWritten};

use base_trait::Base;

/// Valid code reads no slot before it is written: whatever a slot that is not there were read as, it gives the same to a turn.
pub fn valid_code_reads_what_is_written<B: Base>()
    ensures { ValidCodeReadsWhatIsWritten B.algebra }
{}

/// It gives the same where every slot that is not there reads as one value, whichever it is.
pub fn valid_code_needs_no_default<B: Base>()
    ensures { ValidCodeNeedsNoDefault B.algebra }
{}
