//! Laws of texts, stated in specs/Readings.antt. Nothing runs.

ghost use Rattle.text_words.specs.Readings.{AddressesTell};

/// Texts of addresses, each behind a space, tell them: what is written is read back, and what is read is what was
/// written.
pub fn addresses_tell()
    ensures { AddressesTell }
{}
