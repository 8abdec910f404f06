//! Laws of images, stated in specs/Laws. Nothing runs.

ghost use Rattle.code_image.specs.Laws.{AddressesAreThoseOfWords, OverlapsAreSharedBytes, WordsAreFound};

/// Two segments overlap exactly where they have a byte at one address.
pub fn overlaps_are_shared_bytes()
    ensures { OverlapsAreSharedBytes }
{}

/// The word that is found at an address is the one that stands there, and each word is found.
pub fn words_are_found()
    ensures { WordsAreFound }
{}

/// The addresses of words ascend, without doubles, and are exactly those at which a word is found.
pub fn addresses_are_those_of_words()
    ensures { AddressesAreThoseOfWords }
{}
