//! The trait of bases whose words and notes have texts, and each base.

ghost use Rattle.std.specs.Prelude.{◌≡◌, ◌++◌, OnOk};
ghost use Rattle.std.specs.String.{string_bytes};
ghost use Rattle.text_words.specs.Texts.{Texts, noted};

use crate::notes::push_stamps;
use crate::words::{push_affine, push_known, push_number, push_range, push_set, push_strided};
use base_bits::{Bits, Known};
use base_concrete::Concrete;
use base_cuts::CutBase;
use base_defuse::{DefUse, Stamps};
use base_interval::{Interval, Range};
use base_kset::{KSet, Set};
use base_product::{Pair, Paired};
use base_strides::{StridedSet, Strides};
use base_trait::Stamp;
use domain_affine_base::{Affine, Word};
use std::alloc::AllocError as NoMemory;

/// A base whose words and notes have texts. After an error nothing is said of what was appended.
pub trait BaseText: CutBase {
    /// The texts.
    ghost texts: { Texts Self.Word Self.Note };

    /// Appends a word of a width in bits.
    fn push_word(out: &mut String, w: u32, x: &Self::Word) -> Result<(), NoMemory>
        ensures { OnOk result (string_bytes out.new ≡ string_bytes out.old ++ texts.word w x.now) };

    /// Appends where a cell came from, behind its word.
    fn push_note(out: &mut String, note: &Self::Note) -> Result<(), NoMemory>
        ensures { OnOk result (string_bytes out.new ≡ string_bytes out.old ++ texts.note note.now) };
}

/// Appends a cell of a map: its word of a width in bits, and where it came from.
pub fn push_noted<B: BaseText>(
    out: &mut String,
    w: u32,
    cell: (&B::Word, &B::Note),
) -> Result<(), NoMemory>
    ensures { OnOk result (string_bytes out.new ≡ string_bytes out.old ++ noted B.texts w cell.entry.0.now cell.entry.1.now) }
{
    B::push_word(out, w, cell.0)?;
    B::push_note(out, cell.1)
}

impl BaseText for Concrete {
    ghost use Rattle.text_words.specs.Texts.{concrete_texts};

    ghost texts = { concrete_texts };

    fn push_word(out: &mut String, w: u32, x: &u64) -> Result<(), NoMemory> {
        push_number(out, w, *x)
    }

    fn push_note(out: &mut String, note: &Stamp) -> Result<(), NoMemory> {
        push_stamps(out, &[*note])
    }
}

impl<const K: usize> BaseText for KSet<K> {
    ghost use Rattle.text_words.specs.Texts.{set_texts};

    ghost texts = { set_texts };

    fn push_word(out: &mut String, w: u32, x: &Set<K>) -> Result<(), NoMemory> {
        push_set(out, w, x)
    }

    fn push_note(_out: &mut String, _note: &()) -> Result<(), NoMemory> {
        Ok(())
    }
}

impl BaseText for Interval {
    ghost use Rattle.text_words.specs.Texts.{interval_texts};

    ghost texts = { interval_texts };

    fn push_word(out: &mut String, w: u32, x: &Range) -> Result<(), NoMemory> {
        push_range(out, w, *x)
    }

    fn push_note(_out: &mut String, _note: &()) -> Result<(), NoMemory> {
        Ok(())
    }
}

impl BaseText for Bits {
    ghost use Rattle.text_words.specs.Texts.{bits_texts};

    ghost texts = { bits_texts };

    fn push_word(out: &mut String, w: u32, x: &Known) -> Result<(), NoMemory> {
        push_known(out, w, *x)
    }

    fn push_note(_out: &mut String, _note: &()) -> Result<(), NoMemory> {
        Ok(())
    }
}

impl BaseText for Strides {
    ghost use Rattle.text_words.specs.Texts.{strides_texts};

    ghost texts = { strides_texts };

    fn push_word(out: &mut String, w: u32, x: &StridedSet) -> Result<(), NoMemory> {
        push_strided(out, w, x)
    }

    fn push_note(_out: &mut String, _note: &()) -> Result<(), NoMemory> {
        Ok(())
    }
}

impl BaseText for DefUse {
    ghost use Rattle.text_words.specs.Texts.{defuse_texts};

    ghost texts = { defuse_texts };

    fn push_word(out: &mut String, w: u32, x: &Set<1>) -> Result<(), NoMemory> {
        push_set(out, w, x)
    }

    fn push_note(out: &mut String, note: &Stamps) -> Result<(), NoMemory> {
        push_stamps(out, note.items())
    }
}

impl BaseText for Affine {
    ghost use Rattle.text_words.specs.Texts.{affine_texts};

    ghost texts = { affine_texts };

    fn push_word(out: &mut String, w: u32, x: &Word) -> Result<(), NoMemory> {
        push_affine(out, w, x)
    }

    fn push_note(_out: &mut String, _note: &()) -> Result<(), NoMemory> {
        Ok(())
    }
}

impl<A: BaseText, B: BaseText> BaseText for Paired<A, B> {
    ghost use Rattle.text_words.specs.Texts.{paired_texts};

    ghost texts = { paired_texts A.texts B.texts };

    fn push_word(out: &mut String, w: u32, x: &Pair<A::Word, B::Word>) -> Result<(), NoMemory> {
        A::push_word(out, w, &x.0)?;
        out.push_str(" ")?;
        B::push_word(out, w, &x.1)
    }

    fn push_note(out: &mut String, note: &Pair<A::Note, B::Note>) -> Result<(), NoMemory> {
        A::push_note(out, &note.0)?;
        B::push_note(out, &note.1)
    }
}
