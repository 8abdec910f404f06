//! Which keys of a map an abstract key may be.

ghost use Rattle.std.specs.Prelude.{◌≡◌, Some, [], ◌∷◌, ◌++◌, map, option_map, if◌then◌else◌, IfOk, OnOk};
ghost use Rattle.std.specs.List.{filter, list_all};
ghost use Rattle.word_operations.specs.Width.{IsWidth};
ghost use Rattle.base_trait.specs.Lists.{IsAscending, items_of};
ghost use Rattle.abstract_map_laws.specs.Keys.{has_key, some};
ghost use Rattle.abstract_map_laws.specs.Maps as maps;
ghost use Rattle.abstract_map_laws.specs.Maps.{keys};
ghost use Rattle.abstract_map.specs.View as view;
ghost use Rattle.abstract_value_laws.specs.Fits.{Fits};
ghost use Rattle.abstract_value.specs.View.{abs, cases_of};
ghost use Rattle.abstract_semantics.specs.Keys as of;

use abstract_map::{AbstractMap, KeySet};
use abstract_value::{AbstractValue, Constructors};
use base_trait::Base;
use std::alloc::{AllocError as NoMemory, Global};

/// What a key may be, in a map: one, where its word is exact or one constructor alone is present, and else several of the
/// listed ones. Nothing where it is no word and no constructor value.
pub fn keys_of<B: Base>(
    alloc: Global,
    ctx: &B::Ctx,
    m: &AbstractMap<B>,
    key: &AbstractValue<B>,
) -> Result<Option<KeySet>, NoMemory>
    requires map { maps.Fits B.algebra ctx.now B.CAP m.now }
    requires key { Fits B.algebra ctx.now B.CAP (abs key.now) }
    ensures { IfOk result (λ r. option_map view.keys_of r ≡ of.keys_of B.algebra ctx.now m.now (abs key.now)) }
{
    match key {
        AbstractValue::Word { w, x } => match B::exact(ctx, *w, x) {
            Some(number) => Ok(Some(KeySet::One(number))),
            None => Ok(Some(word_keys(alloc, ctx, m, *w, x)?)),
        },
        AbstractValue::Data { ty: _ty, cases } => Ok(Some(case_keys(alloc, m, cases)?)),
        _ => Ok(None),
    }
}

/// The listed keys that a word may be. It can be no other where its members are at most 256, and some, and all listed.
fn word_keys<B: Base>(
    alloc: Global,
    ctx: &B::Ctx,
    m: &AbstractMap<B>,
    w: u32,
    x: &B::Word,
) -> Result<KeySet, NoMemory>
    requires order { IsAscending (keys m.now) }
    requires width { IsWidth w }
    requires word { B.algebra.words.fits ctx.now w x.now }
    ensures { IfOk result (λ r. view.keys_of r ≡ some (filter (B.algebra.words.may ctx.now w x.now) (keys m.now)) (of.all_listed (B.algebra.words.members ctx.now w x.now 256) (keys m.now))) }
{
    let listed = may_keys(alloc, ctx, m, w, x)?;
    let members = B::members(alloc, ctx, w, x, 256)?;
    let all_listed = match &members {
        Some(members) => are_listed(m, members),
        None => false,
    };
    Ok(KeySet::Some { listed, all_listed })
}

/// The listed keys that a word may be.
fn may_keys<B: Base>(
    alloc: Global,
    ctx: &B::Ctx,
    m: &AbstractMap<B>,
    w: u32,
    x: &B::Word,
) -> Result<Vec<u64>, NoMemory>
    requires width { IsWidth w }
    requires word { B.algebra.words.fits ctx.now w x.now }
    ensures { IfOk result (λ r. r.items ≡ filter (B.algebra.words.may ctx.now w x.now) (keys m.now)) }
{
    let mut listed = Vec::new(alloc);
    for place in 0..m.listed() {
        let key = m.key_at(place);
        push_if(&mut listed, B::may(ctx, w, x, key), key)?;
    }
    Ok(listed)
}

/// Whether there are such keys, and all are listed.
fn are_listed<B: Base>(m: &AbstractMap<B>, numbers: &[u64]) -> bool
    requires order { IsAscending (keys m.now) }
    ensures { result ≡ of.all_listed (Some numbers.now) (keys m.now) }
{
    match numbers {
        [] => false,
        _ => all_are_listed(m, numbers),
    }
}

/// Whether all are listed.
fn all_are_listed<B: Base>(m: &AbstractMap<B>, numbers: &[u64]) -> bool
    requires order { IsAscending (keys m.now) }
    ensures { result ≡ list_all (has_key (keys m.now)) numbers.now }
{
    for number in numbers {
        if !m.lists(*number) {
            return false;
        }
    }
    true
}

/// The one constructor that is present, or else the listed numbers of those that are.
fn case_keys<B: Base>(
    alloc: Global,
    m: &AbstractMap<B>,
    cases: &Constructors<AbstractValue<B>>,
) -> Result<KeySet, NoMemory>
    requires order { IsAscending (keys m.now) }
    ensures { IfOk result (λ r. view.keys_of r ≡ of.case_keys (of.cases_from 0 (cases_of cases.now)) (keys m.now)) }
{
    match cases.alone() {
        Some((number, _fields)) => Ok(KeySet::One(number as u64)),
        None => several_keys(alloc, m, cases),
    }
}

/// The one constructor that is present, or else the listed numbers of those that are, found one by one.
fn several_keys<B: Base>(
    alloc: Global,
    m: &AbstractMap<B>,
    cases: &Constructors<AbstractValue<B>>,
) -> Result<KeySet, NoMemory>
    requires order { IsAscending (keys m.now) }
    ensures { IfOk result (λ r. view.keys_of r ≡ of.case_keys (of.cases_from 0 (cases_of cases.now)) (keys m.now)) }
{
    let present = present_cases(alloc, cases)?;
    match present.as_slice() {
        [case] => Ok(KeySet::One(*case)),
        several => Ok(KeySet::Some {
            listed: listed_among(alloc, m, several)?,
            all_listed: are_listed(m, several),
        }),
    }
}

/// The listed keys that are among others.
fn listed_among<B: Base>(
    alloc: Global,
    m: &AbstractMap<B>,
    others: &[u64],
) -> Result<Vec<u64>, NoMemory>
    ensures { IfOk result (λ r. r.items ≡ filter (has_key others.now) (keys m.now)) }
{
    let mut listed = Vec::new(alloc);
    for place in 0..m.listed() {
        let key = m.key_at(place);
        push_if(&mut listed, others.contains(&key), key)?;
    }
    Ok(listed)
}

/// The numbers of the constructors that are present.
fn present_cases<B: Base>(
    alloc: Global,
    cases: &Constructors<AbstractValue<B>>,
) -> Result<Vec<u64>, NoMemory>
    ensures { IfOk result (λ r. r.items ≡ of.cases_from 0 (cases_of cases.now)) }
{
    let mut present = Vec::new(alloc);
    for i in 0..cases.len() {
        push_if(&mut present, cases.fields(i).is_some(), i as u64)?;
    }
    Ok(present)
}

/// Adds a number to those picked, or not.
fn push_if(picked: &mut Vec<u64>, adds: bool, number: u64) -> Result<(), NoMemory>
    ensures { OnOk result (picked.new.items ≡ picked.old.items ++ (if adds then number ∷ [] else [])) }
{
    if adds {
        picked.push(number)?;
    }
    Ok(())
}
