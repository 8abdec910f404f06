//! The trait of bases of cells, whose words and notes are read from their texts, and each such base.

ghost use Rattle.std.specs.Prelude.{◌≡◌, ℕ, Bool, IfOk, is_some};
ghost use Rattle.code_image.specs.Image.{code_at};
ghost use Rattle.text_words.specs.Readings.{Readings, TextsTell};

use crate::base::BaseText;
use crate::reading::{known_in, range_in};
use crate::sets::set_in;
use crate::stamps::{nothing_in, stamps_in};
use crate::strided::strided_in;
use base_bits::{Bits, Known};
use base_defuse::{DefUse, Stamps};
use base_interval::{Interval, Range};
use base_kset::{KSet, Set};
use base_strides::{StridedSet, Strides};
use code_image::Image;
use std::alloc::{AllocError as NoMemory, Global};

/// A base of cells: its words and notes are read from their texts.
///
/// What is written is read back as the same word or note, and a text that is read is the one that is written of it.
pub trait CellBase: BaseText {
    /// What is read of texts.
    ghost readings: { Readings Self.Word Self.Note };

    /// Which notes are read back, where this tells addresses of code words.
    ghost NoteFits: { (ℕ → Bool) → Self.Note → Type 0 };

    /// The word of a width in bits that a text is.
    fn word_in(alloc: Global, w: u32, text: &[u8]) -> Result<Option<Self::Word>, NoMemory>
        ensures { IfOk result (λ r. r ≡ readings.word w text.now) };

    /// The note that a text is, which is all that stands behind a word. Its addresses are those of code words.
    fn note_in(alloc: Global, image: &Image, text: &[u8]) -> Result<Option<Self::Note>, NoMemory>
        ensures { IfOk result (λ r. r ≡ readings.note (λ a. is_some (code_at image.now a)) text.now) };

    /// Texts tell words and notes.
    ghost tell: { TextsTell Self.algebra NoteFits Self.texts readings };
}

impl<const K: usize> CellBase for KSet<K> {
    ghost use Rattle.text_words.specs.Readings.{NothingFits, set_readings};
    ghost use Rattle.text_words.specs.Tell.{sets_tell};

    ghost readings = { set_readings K };

    ghost NoteFits = { NothingFits };

    fn word_in(alloc: Global, w: u32, text: &[u8]) -> Result<Option<Set<K>>, NoMemory> {
        set_in(alloc, w, text)
    }

    fn note_in(_alloc: Global, _image: &Image, text: &[u8]) -> Result<Option<()>, NoMemory> {
        Ok(nothing_in(text))
    }

    ghost tell = { sets_tell K };
}

impl CellBase for Interval {
    ghost use Rattle.text_words.specs.Readings.{NothingFits, interval_readings};
    ghost use Rattle.text_words.specs.Tell.{intervals_tell};

    ghost readings = { interval_readings };

    ghost NoteFits = { NothingFits };

    fn word_in(_alloc: Global, w: u32, text: &[u8]) -> Result<Option<Range>, NoMemory> {
        Ok(range_in(w, text))
    }

    fn note_in(_alloc: Global, _image: &Image, text: &[u8]) -> Result<Option<()>, NoMemory> {
        Ok(nothing_in(text))
    }

    ghost tell = { intervals_tell };
}

impl CellBase for Bits {
    ghost use Rattle.text_words.specs.Readings.{NothingFits, bits_readings};
    ghost use Rattle.text_words.specs.Tell.{bits_tell};

    ghost readings = { bits_readings };

    ghost NoteFits = { NothingFits };

    fn word_in(_alloc: Global, w: u32, text: &[u8]) -> Result<Option<Known>, NoMemory> {
        Ok(known_in(w, text))
    }

    fn note_in(_alloc: Global, _image: &Image, text: &[u8]) -> Result<Option<()>, NoMemory> {
        Ok(nothing_in(text))
    }

    ghost tell = { bits_tell };
}

impl CellBase for Strides {
    ghost use Rattle.text_words.specs.Readings.{NothingFits, strides_readings};
    ghost use Rattle.text_words.specs.Tell.{strides_tell};

    ghost readings = { strides_readings };

    ghost NoteFits = { NothingFits };

    fn word_in(alloc: Global, w: u32, text: &[u8]) -> Result<Option<StridedSet>, NoMemory> {
        strided_in(alloc, w, text)
    }

    fn note_in(_alloc: Global, _image: &Image, text: &[u8]) -> Result<Option<()>, NoMemory> {
        Ok(nothing_in(text))
    }

    ghost tell = { strides_tell };
}

impl CellBase for DefUse {
    ghost use Rattle.text_words.specs.Readings.{StampsFit, defuse_readings};
    ghost use Rattle.text_words.specs.Tell.{defuse_tell};

    ghost readings = { defuse_readings };

    ghost NoteFits = { StampsFit };

    fn word_in(alloc: Global, w: u32, text: &[u8]) -> Result<Option<Set<1>>, NoMemory> {
        set_in(alloc, w, text)
    }

    fn note_in(alloc: Global, image: &Image, text: &[u8]) -> Result<Option<Stamps>, NoMemory> {
        match stamps_in(alloc, image, text)? {
            Some(stamps) => Ok(Some(Stamps::new(stamps))),
            None => Ok(None),
        }
    }

    ghost tell = { defuse_tell };
}
