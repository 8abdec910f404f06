//! The parts of a pair of bases.

ghost use Rattle.std.specs.Prelude.{◌≡◌, IfOk};

use base_product::{Pair, Paired};
use base_trait::Base;
use std::alloc::{AllocError as NoMemory, Global};
use std::marker::PhantomData;

/// A part of a pair of bases: each word and each note of `From` has one of `To`.
pub trait ProductPart {
    /// The base that is taken apart.
    type From: Base;

    /// The base of the parts.
    type To: Base;

    ghost word_of: { Self.From.Word → Self.To.Word };

    ghost note_of: { Self.From.Note → Self.To.Note };

    /// A copy of the part of a word.
    fn word(
        alloc: Global,
        ctx: &<Self::To as Base>::Ctx,
        x: &<Self::From as Base>::Word,
    ) -> Result<<Self::To as Base>::Word, NoMemory>
        ensures { IfOk result (λ r. r ≡ word_of x.now) };

    /// A copy of the part of a note.
    fn note(
        alloc: Global,
        x: &<Self::From as Base>::Note,
    ) -> Result<<Self::To as Base>::Note, NoMemory>
        ensures { IfOk result (λ r. r ≡ note_of x.now) };

    /// The part of a word, where it stands.
    fn word_in(x: &<Self::From as Base>::Word) -> &<Self::To as Base>::Word
        ensures { result.now ≡ word_of x.now };

    /// The part of a note, where it stands.
    fn note_in(x: &<Self::From as Base>::Note) -> &<Self::To as Base>::Note
        ensures { result.now ≡ note_of x.now };
}

/// The first part.
pub struct First<A: Base, B: Base> {
    parts: PhantomData<(A, B)>,
}

/// The second part.
pub struct Second<A: Base, B: Base> {
    parts: PhantomData<(A, B)>,
}

impl<A: Base, B: Base> ProductPart for First<A, B> {
    type From = Paired<A, B>;

    type To = A;

    ghost word_of = { λ x. x.0 };

    ghost note_of = { λ x. x.0 };

    fn word(alloc: Global, ctx: &A::Ctx, x: &Pair<A::Word, B::Word>) -> Result<A::Word, NoMemory> {
        A::copy(alloc, ctx, &x.0)
    }

    fn note(alloc: Global, x: &Pair<A::Note, B::Note>) -> Result<A::Note, NoMemory> {
        A::copy_note(alloc, &x.0)
    }

    fn word_in(x: &Pair<A::Word, B::Word>) -> &A::Word {
        &x.0
    }

    fn note_in(x: &Pair<A::Note, B::Note>) -> &A::Note {
        &x.0
    }
}

impl<A: Base, B: Base> ProductPart for Second<A, B> {
    type From = Paired<A, B>;

    type To = B;

    ghost word_of = { λ x. x.1 };

    ghost note_of = { λ x. x.1 };

    fn word(alloc: Global, ctx: &B::Ctx, x: &Pair<A::Word, B::Word>) -> Result<B::Word, NoMemory> {
        B::copy(alloc, ctx, &x.1)
    }

    fn note(alloc: Global, x: &Pair<A::Note, B::Note>) -> Result<B::Note, NoMemory> {
        B::copy_note(alloc, &x.1)
    }

    fn word_in(x: &Pair<A::Word, B::Word>) -> &B::Word {
        &x.1
    }

    fn note_in(x: &Pair<A::Note, B::Note>) -> &B::Note {
        &x.1
    }
}
