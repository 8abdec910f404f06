//! Whether values absorb others, where one side is over a pair and the other over a part of it. Nothing is copied.

ghost use Rattle.std.specs.Prelude.{◌≡◌, ◌==◌, ◌&&◌, map};
ghost use Rattle.std.specs.List.{list_all};
ghost use Rattle.word_operations.specs.Width.{IsWidth};
ghost use Rattle.base_trait.specs.Lists.{IsAscending};
ghost use Rattle.abstract_map_laws.specs.Calls.{absorbs_of as absorbs_map};
ghost use Rattle.abstract_map_laws.specs.Cells.{absorbs_cell};
ghost use Rattle.abstract_map_laws.specs.Keys.{either_key};
ghost use Rattle.abstract_map_laws.specs.Maps.{Fits as MapFits, cell, keys};
ghost use Rattle.abstract_value_laws.specs.Abs as plain;
ghost use Rattle.abstract_value_laws.specs.Abs.{parts};
ghost use Rattle.abstract_value_laws.specs.Calls.{absorbs_of, absorbs_parts};
ghost use Rattle.abstract_value_laws.specs.Fits.{Fits, PartsFit};
ghost use Rattle.abstract_value.specs.View.{abs};
ghost use Rattle.domain_product_laws.specs.Calls.{mapped_cell, mapped_map, mapped_parts, mapped_value};
ghost use Rattle.domain_product_states.specs.Leaves.{AreLeaves, IsLeaf};
ghost use Rattle.domain_product_states.specs.Parts.{both_parts};
ghost use Rattle.domain_product_states.specs.Views.{seen};

use crate::both::{Both, PairedValues};
use abstract_map::AbstractMap;
use abstract_value::AbstractValue;
use base_product::{Pair, Paired};
use base_trait::Base;
use domain_cells::values_absorb;
use domain_product_maps::{First, ProductPart, Second};
use std::marker::PhantomData;

/// Two bases whose words and notes stand for those of a third, which one side is to absorb.
pub(crate) trait Sides {
    /// The base of what is compared.
    type To: Base;

    /// The base of the values that are to absorb.
    type Old: Base;

    /// The base of the values that are to be absorbed.
    type New: Base;

    ghost old_word_of: { Self.Old.Word → Self.To.Word };

    ghost old_note_of: { Self.Old.Note → Self.To.Note };

    ghost new_word_of: { Self.New.Word → Self.To.Word };

    ghost new_note_of: { Self.New.Note → Self.To.Note };

    fn old_word(x: &<Self::Old as Base>::Word) -> &<Self::To as Base>::Word
        ensures { result.now ≡ old_word_of x.now };

    fn old_note(x: &<Self::Old as Base>::Note) -> &<Self::To as Base>::Note
        ensures { result.now ≡ old_note_of x.now };

    fn new_word(x: &<Self::New as Base>::Word) -> &<Self::To as Base>::Word
        ensures { result.now ≡ new_word_of x.now };

    fn new_note(x: &<Self::New as Base>::Note) -> &<Self::To as Base>::Note
        ensures { result.now ≡ new_note_of x.now };
}

/// A part of a pair is to absorb what is over its base.
pub(crate) struct Over<P: ProductPart> {
    part: PhantomData<P>,
}

/// What is over the base of a part is to absorb that part of a pair.
pub(crate) struct Under<P: ProductPart> {
    part: PhantomData<P>,
}

impl<P: ProductPart> Sides for Over<P> {
    type To = P::To;

    type Old = P::From;

    type New = P::To;

    ghost old_word_of = { P.word_of };

    ghost old_note_of = { P.note_of };

    ghost new_word_of = { λ x. x };

    ghost new_note_of = { λ x. x };

    fn old_word(x: &<P::From as Base>::Word) -> &<P::To as Base>::Word {
        P::word_in(x)
    }

    fn old_note(x: &<P::From as Base>::Note) -> &<P::To as Base>::Note {
        P::note_in(x)
    }

    fn new_word(x: &<P::To as Base>::Word) -> &<P::To as Base>::Word {
        x
    }

    fn new_note(x: &<P::To as Base>::Note) -> &<P::To as Base>::Note {
        x
    }
}

impl<P: ProductPart> Sides for Under<P> {
    type To = P::To;

    type Old = P::To;

    type New = P::From;

    ghost old_word_of = { λ x. x };

    ghost old_note_of = { λ x. x };

    ghost new_word_of = { P.word_of };

    ghost new_note_of = { P.note_of };

    fn old_word(x: &<P::To as Base>::Word) -> &<P::To as Base>::Word {
        x
    }

    fn old_note(x: &<P::To as Base>::Note) -> &<P::To as Base>::Note {
        x
    }

    fn new_word(x: &<P::From as Base>::Word) -> &<P::To as Base>::Word {
        P::word_in(x)
    }

    fn new_note(x: &<P::From as Base>::Note) -> &<P::To as Base>::Note {
        P::note_in(x)
    }
}

/// The word at a key.
fn word_at<B: Base>(m: &AbstractMap<B>, key: u64) -> &B::Word
    requires order { IsAscending (keys m.now) }
    ensures { result.now ≡ (cell m.now key).word }
{
    m.cell_of(key).0
}

/// The note at a key.
fn note_at<B: Base>(m: &AbstractMap<B>, key: u64) -> &B::Note
    requires order { IsAscending (keys m.now) }
    ensures { result.now ≡ (cell m.now key).note }
{
    m.cell_of(key).1
}

/// The word at the keys that a map does not list.
fn rest_word<B: Base>(m: &AbstractMap<B>) -> &B::Word
    ensures { result.now ≡ m.now.rest.word }
{
    m.rest().0
}

/// The note at the keys that a map does not list.
fn rest_note<B: Base>(m: &AbstractMap<B>) -> &B::Note
    ensures { result.now ≡ m.now.rest.note }
{
    m.rest().1
}

/// Whether the cell of a word and a note absorbs another.
fn absorbs_cell<S: Sides>(
    ctx: &<S::To as Base>::Ctx,
    w: u32,
    old_word: &<S::Old as Base>::Word,
    old_note: &<S::Old as Base>::Note,
    new_word: &<S::New as Base>::Word,
    new_note: &<S::New as Base>::Note,
) -> bool
    requires width { IsWidth w }
    requires old { S.To.algebra.words.fits ctx.now w (S.old_word_of old_word.now) }
    requires new { S.To.algebra.words.fits ctx.now w (S.new_word_of new_word.now) }
    ensures { result ≡ absorbs_cell S.To.algebra ctx.now w (record { word = S.old_word_of old_word.now; note = S.old_note_of old_note.now }) (record { word = S.new_word_of new_word.now; note = S.new_note_of new_note.now }) }
{
    <S::To as Base>::absorbs(ctx, w, S::old_word(old_word), S::new_word(new_word))
        && <S::To as Base>::absorbs_note(S::old_note(old_note), S::new_note(new_note))
}

/// Whether the cell of a word and a note absorbs that of a map at a key.
fn absorbs_there<S: Sides>(
    ctx: &<S::To as Base>::Ctx,
    w: u32,
    word: &<S::Old as Base>::Word,
    note: &<S::Old as Base>::Note,
    new: &AbstractMap<S::New>,
    key: u64,
) -> bool
    requires width { IsWidth w }
    requires old { S.To.algebra.words.fits ctx.now w (S.old_word_of word.now) }
    requires new { MapFits S.To.algebra ctx.now S.To.CAP (mapped_map S.new_word_of S.new_note_of new.now) }
    requires same { w ≡ new.now.width }
    ensures { result ≡ absorbs_cell S.To.algebra ctx.now w (record { word = S.old_word_of word.now; note = S.old_note_of note.now }) (cell (mapped_map S.new_word_of S.new_note_of new.now) key) }
{
    let other = word_at::<S::New>(new, key);
    absorbs_cell::<S>(ctx, w, word, note, other, note_at::<S::New>(new, key))
}

/// Whether a map absorbs another at a key. Both have one width.
fn absorbs_at<S: Sides>(
    ctx: &<S::To as Base>::Ctx,
    old: &AbstractMap<S::Old>,
    new: &AbstractMap<S::New>,
    key: u64,
) -> bool
    requires old { MapFits S.To.algebra ctx.now S.To.CAP (mapped_map S.old_word_of S.old_note_of old.now) }
    requires new { MapFits S.To.algebra ctx.now S.To.CAP (mapped_map S.new_word_of S.new_note_of new.now) }
    requires width { old.now.width ≡ new.now.width }
    ensures { result ≡ absorbs_cell S.To.algebra ctx.now old.now.width (cell (mapped_map S.old_word_of S.old_note_of old.now) key) (cell (mapped_map S.new_word_of S.new_note_of new.now) key) }
{
    let word = word_at::<S::Old>(old, key);
    absorbs_there::<S>(
        ctx,
        old.width(),
        word,
        note_at::<S::Old>(old, key),
        new,
        key,
    )
}

/// Whether it does at each key that a map lists.
fn absorbs_at_keys<S: Sides, B: Base>(
    ctx: &<S::To as Base>::Ctx,
    old: &AbstractMap<S::Old>,
    new: &AbstractMap<S::New>,
    listing: &AbstractMap<B>,
) -> bool
    requires old { MapFits S.To.algebra ctx.now S.To.CAP (mapped_map S.old_word_of S.old_note_of old.now) }
    requires new { MapFits S.To.algebra ctx.now S.To.CAP (mapped_map S.new_word_of S.new_note_of new.now) }
    requires width { old.now.width ≡ new.now.width }
    ensures { result ≡ list_all (λ k. absorbs_cell S.To.algebra ctx.now old.now.width (cell (mapped_map S.old_word_of S.old_note_of old.now) k) (cell (mapped_map S.new_word_of S.new_note_of new.now) k)) (keys listing.now) }
{
    for place in 0..listing.listed() {
        if !absorbs_at::<S>(ctx, old, new, listing.key_at(place)) {
            return false;
        }
    }
    true
}

/// Whether it does at each key that either lists.
fn absorbs_listed<S: Sides>(
    ctx: &<S::To as Base>::Ctx,
    old: &AbstractMap<S::Old>,
    new: &AbstractMap<S::New>,
) -> bool
    requires old { MapFits S.To.algebra ctx.now S.To.CAP (mapped_map S.old_word_of S.old_note_of old.now) }
    requires new { MapFits S.To.algebra ctx.now S.To.CAP (mapped_map S.new_word_of S.new_note_of new.now) }
    requires width { old.now.width ≡ new.now.width }
    ensures { result ≡ list_all (λ k. absorbs_cell S.To.algebra ctx.now old.now.width (cell (mapped_map S.old_word_of S.old_note_of old.now) k) (cell (mapped_map S.new_word_of S.new_note_of new.now) k)) (either_key (keys old.now) (keys new.now)) }
{
    absorbs_at_keys::<S, S::Old>(ctx, old, new, old)
        && absorbs_at_keys::<S, S::New>(ctx, old, new, new)
}

/// Whether it does at each key that neither lists.
fn absorbs_rest<S: Sides>(
    ctx: &<S::To as Base>::Ctx,
    old: &AbstractMap<S::Old>,
    new: &AbstractMap<S::New>,
) -> bool
    requires old { MapFits S.To.algebra ctx.now S.To.CAP (mapped_map S.old_word_of S.old_note_of old.now) }
    requires new { MapFits S.To.algebra ctx.now S.To.CAP (mapped_map S.new_word_of S.new_note_of new.now) }
    requires width { old.now.width ≡ new.now.width }
    ensures { result ≡ absorbs_cell S.To.algebra ctx.now old.now.width (mapped_cell S.old_word_of S.old_note_of old.now.rest) (mapped_cell S.new_word_of S.new_note_of new.now.rest) }
{
    absorbs_cell::<S>(
        ctx,
        old.width(),
        rest_word::<S::Old>(old),
        rest_note::<S::Old>(old),
        rest_word::<S::New>(new),
        rest_note::<S::New>(new),
    )
}

/// Whether a map absorbs another. Both have one width.
fn absorbs_map<S: Sides>(
    ctx: &<S::To as Base>::Ctx,
    old: &AbstractMap<S::Old>,
    new: &AbstractMap<S::New>,
) -> bool
    requires old { MapFits S.To.algebra ctx.now S.To.CAP (mapped_map S.old_word_of S.old_note_of old.now) }
    requires new { MapFits S.To.algebra ctx.now S.To.CAP (mapped_map S.new_word_of S.new_note_of new.now) }
    requires width { old.now.width ≡ new.now.width }
    ensures { result ≡ absorbs_map S.To.algebra ctx.now (mapped_map S.old_word_of S.old_note_of old.now) (mapped_map S.new_word_of S.new_note_of new.now) }
{
    absorbs_listed::<S>(ctx, old, new) && absorbs_rest::<S>(ctx, old, new)
}

/// Whether a map absorbs another, where both have one width.
fn absorbs_of_width<S: Sides>(
    ctx: &<S::To as Base>::Ctx,
    old: &AbstractMap<S::Old>,
    new: &AbstractMap<S::New>,
) -> bool
    requires old { MapFits S.To.algebra ctx.now S.To.CAP (mapped_map S.old_word_of S.old_note_of old.now) }
    requires new { MapFits S.To.algebra ctx.now S.To.CAP (mapped_map S.new_word_of S.new_note_of new.now) }
    ensures { result ≡ (old.now.width == new.now.width && absorbs_map S.To.algebra ctx.now (mapped_map S.old_word_of S.old_note_of old.now) (mapped_map S.new_word_of S.new_note_of new.now)) }
{
    old.width() == new.width() && absorbs_map::<S>(ctx, old, new)
}

/// Whether a word absorbs a value.
fn word_absorbs<S: Sides>(
    ctx: &<S::To as Base>::Ctx,
    w: u32,
    word: &<S::Old as Base>::Word,
    y: &AbstractValue<S::New>,
) -> bool
    requires width { IsWidth w }
    requires old { S.To.algebra.words.fits ctx.now w (S.old_word_of word.now) }
    requires new { Fits S.To.algebra ctx.now S.To.CAP (mapped_value S.new_word_of S.new_note_of (abs y.now)) }
    ensures { result ≡ absorbs_of S.To.algebra ctx.now (plain.word w (S.old_word_of word.now)) (mapped_value S.new_word_of S.new_note_of (abs y.now)) }
{
    match y {
        AbstractValue::Word { w: u, x: other } => {
            w == *u && <S::To as Base>::absorbs(ctx, w, S::old_word(word), S::new_word(other))
        }
        _ => false,
    }
}

/// Whether a map of a map type absorbs a value.
fn map_absorbs<S: Sides>(
    ctx: &<S::To as Base>::Ctx,
    map: u32,
    m: &AbstractMap<S::Old>,
    y: &AbstractValue<S::New>,
) -> bool
    requires old { MapFits S.To.algebra ctx.now S.To.CAP (mapped_map S.old_word_of S.old_note_of m.now) }
    requires new { Fits S.To.algebra ctx.now S.To.CAP (mapped_value S.new_word_of S.new_note_of (abs y.now)) }
    ensures { result ≡ absorbs_of S.To.algebra ctx.now (plain.map map (mapped_map S.old_word_of S.old_note_of m.now)) (mapped_value S.new_word_of S.new_note_of (abs y.now)) }
{
    match y {
        AbstractValue::Map { map: n, m: other } => map == *n
            && absorbs_of_width::<S>(ctx, m, other),
        _ => false,
    }
}

/// Whether a word or a map absorbs a value.
fn absorbs_value<S: Sides>(
    ctx: &<S::To as Base>::Ctx,
    x: &AbstractValue<S::Old>,
    y: &AbstractValue<S::New>,
) -> bool
    requires leaf { IsLeaf (abs x.now) }
    requires old { Fits S.To.algebra ctx.now S.To.CAP (mapped_value S.old_word_of S.old_note_of (abs x.now)) }
    requires new { Fits S.To.algebra ctx.now S.To.CAP (mapped_value S.new_word_of S.new_note_of (abs y.now)) }
    ensures { result ≡ absorbs_of S.To.algebra ctx.now (mapped_value S.old_word_of S.old_note_of (abs x.now)) (mapped_value S.new_word_of S.new_note_of (abs y.now)) }
{
    match x {
        AbstractValue::Word { w, x: word } => word_absorbs::<S>(ctx, *w, word, y),
        AbstractValue::Map { map, m } => map_absorbs::<S>(ctx, *map, m, y),
        AbstractValue::Flag(_t) => false,
        AbstractValue::Data {
            ty: _ty,
            cases: _cases,
        } => false,
    }
}

/// Whether each word or map of one list absorbs that of another, and there are as many.
fn absorbs_values<S: Sides>(
    ctx: &<S::To as Base>::Ctx,
    olds: &[AbstractValue<S::Old>],
    news: &[AbstractValue<S::New>],
) -> bool
    requires leaves { AreLeaves (parts (map abs olds.now)) }
    requires old { PartsFit S.To.algebra ctx.now S.To.CAP (mapped_parts S.old_word_of S.old_note_of (parts (map abs olds.now))) }
    requires new { PartsFit S.To.algebra ctx.now S.To.CAP (mapped_parts S.new_word_of S.new_note_of (parts (map abs news.now))) }
    ensures { result ≡ absorbs_parts S.To.algebra ctx.now (mapped_parts S.old_word_of S.old_note_of (parts (map abs olds.now))) (mapped_parts S.new_word_of S.new_note_of (parts (map abs news.now))) }
{
    if olds.len() != news.len() {
        return false;
    }
    for i in 0..olds.len() {
        if !absorbs_value::<S>(ctx, &olds[i], &news[i]) {
            return false;
        }
    }
    true
}

/// Whether both parts of values absorb those of others, which are apart.
fn absorbed_over<A: Base, B: Base>(
    ctx: &Pair<A::Ctx, B::Ctx>,
    olds: &[AbstractValue<Paired<A, B>>],
    xs: &[AbstractValue<A>],
    ys: &[AbstractValue<B>],
) -> bool
    requires leaves { AreLeaves (parts (map abs olds.now)) }
    requires old { PartsFit A.algebra ctx.now.0 A.CAP (both_parts (parts (map abs olds.now))).0 × PartsFit B.algebra ctx.now.1 B.CAP (both_parts (parts (map abs olds.now))).1 }
    requires new { PartsFit A.algebra ctx.now.0 A.CAP (parts (map abs xs.now)) × PartsFit B.algebra ctx.now.1 B.CAP (parts (map abs ys.now)) }
    ensures { result ≡ (absorbs_parts A.algebra ctx.now.0 (both_parts (parts (map abs olds.now))).0 (parts (map abs xs.now)) && absorbs_parts B.algebra ctx.now.1 (both_parts (parts (map abs olds.now))).1 (parts (map abs ys.now))) }
{
    absorbs_values::<Over<First<A, B>>>(&ctx.0, olds, xs)
        && absorbs_values::<Over<Second<A, B>>>(&ctx.1, olds, ys)
}

/// Whether both of two parts, which are apart, absorb those of other values.
fn absorbed_under<A: Base, B: Base>(
    ctx: &Pair<A::Ctx, B::Ctx>,
    xs: &[AbstractValue<A>],
    ys: &[AbstractValue<B>],
    news: &[AbstractValue<Paired<A, B>>],
) -> bool
    requires leaves { AreLeaves (parts (map abs xs.now)) × AreLeaves (parts (map abs ys.now)) }
    requires old { PartsFit A.algebra ctx.now.0 A.CAP (parts (map abs xs.now)) × PartsFit B.algebra ctx.now.1 B.CAP (parts (map abs ys.now)) }
    requires new { PartsFit A.algebra ctx.now.0 A.CAP (both_parts (parts (map abs news.now))).0 × PartsFit B.algebra ctx.now.1 B.CAP (both_parts (parts (map abs news.now))).1 }
    ensures { result ≡ (absorbs_parts A.algebra ctx.now.0 (parts (map abs xs.now)) (both_parts (parts (map abs news.now))).0 && absorbs_parts B.algebra ctx.now.1 (parts (map abs ys.now)) (both_parts (parts (map abs news.now))).1) }
{
    absorbs_values::<Under<First<A, B>>>(&ctx.0, xs, news)
        && absorbs_values::<Under<Second<A, B>>>(&ctx.1, ys, news)
}

/// Whether both of two parts absorb those of two others.
fn absorbed_apart<A: Base, B: Base>(
    ctx: &Pair<A::Ctx, B::Ctx>,
    xs: &[AbstractValue<A>],
    ys: &[AbstractValue<B>],
    us: &[AbstractValue<A>],
    vs: &[AbstractValue<B>],
) -> bool
    requires old { PartsFit A.algebra ctx.now.0 A.CAP (parts (map abs xs.now)) × PartsFit B.algebra ctx.now.1 B.CAP (parts (map abs ys.now)) }
    requires new { PartsFit A.algebra ctx.now.0 A.CAP (parts (map abs us.now)) × PartsFit B.algebra ctx.now.1 B.CAP (parts (map abs vs.now)) }
    ensures { result ≡ (absorbs_parts A.algebra ctx.now.0 (parts (map abs xs.now)) (parts (map abs us.now)) && absorbs_parts B.algebra ctx.now.1 (parts (map abs ys.now)) (parts (map abs vs.now))) }
{
    values_absorb(&ctx.0, xs, us) && values_absorb(&ctx.1, ys, vs)
}

/// Whether both parts absorb those of others.
pub(crate) fn absorbed_both<A: Base, B: Base>(
    ctx: &Pair<A::Ctx, B::Ctx>,
    old: &PairedValues<A, B>,
    new: &PairedValues<A, B>,
) -> bool
    requires leaves { AreLeaves (seen old.now).0 × AreLeaves (seen old.now).1 }
    requires old { PartsFit A.algebra ctx.now.0 A.CAP (seen old.now).0 × PartsFit B.algebra ctx.now.1 B.CAP (seen old.now).1 }
    requires new { PartsFit A.algebra ctx.now.0 A.CAP (seen new.now).0 × PartsFit B.algebra ctx.now.1 B.CAP (seen new.now).1 }
    ensures { result ≡ (absorbs_parts A.algebra ctx.now.0 (seen old.now).0 (seen new.now).0 && absorbs_parts B.algebra ctx.now.1 (seen old.now).1 (seen new.now).1) }
{
    match (old, new) {
        (Both::Together(olds), Both::Together(news)) => values_absorb::<Paired<A, B>>(
            ctx, olds, news,
        ),
        (Both::Together(olds), Both::Apart(xs, ys)) => absorbed_over(ctx, olds, xs, ys),
        (Both::Apart(xs, ys), Both::Together(news)) => absorbed_under(ctx, xs, ys, news),
        (Both::Apart(xs, ys), Both::Apart(us, vs)) => absorbed_apart(ctx, xs, ys, us, vs),
    }
}
