//! Reads and writes of maps.

ghost use Rattle.std.specs.Prelude.{◌≡◌, Some, option_map, IfOk, IfSome, IsTrue};
ghost use Rattle.base_trait.specs.Lists.{IsGrown};
ghost use Rattle.base_trait.specs.Uses.{uses_of};
ghost use Rattle.abstract_map_laws.specs.Calls.{update_of};
ghost use Rattle.abstract_map_laws.specs.Maps as maps;
ghost use Rattle.abstract_map.specs.View as view;
ghost use Rattle.abstract_value_laws.specs.Fits.{Fits};
ghost use Rattle.abstract_value.specs.View.{abs};
ghost use Rattle.support_tail_fixpoint.specs.Answer.{gives};
ghost use Rattle.abstract_semantics.specs.Keys as of_keys;
ghost use Rattle.abstract_semantics.specs.Steps as of;

use super::keys::keys_of;
use abstract_map::{AbstractMap, KeySet};
use abstract_value::AbstractValue;
use base_trait::{Base, Log};
use std::alloc::{AllocError as NoMemory, Global};

/// The word of the cells of a map that a key may mean. The read is added to the log. Nothing where the value is no map of
/// the map type, or the key no key.
pub fn access_map<B: Base>(
    alloc: Global,
    ctx: &B::Ctx,
    map: u32,
    x: &AbstractValue<B>,
    key: &AbstractValue<B>,
    log: &mut Log,
) -> Result<Option<AbstractValue<B>>, NoMemory>
    requires map { Fits B.algebra ctx.now B.CAP (abs x.now) }
    requires key { Fits B.algebra ctx.now B.CAP (abs key.now) }
    ensures value { IfOk result (λ r. of.accessed B.algebra ctx.now map (abs x.now) (abs key.now) (uses_of log.old) ≡ gives (option_map abs r) (uses_of log.new)) }
    ensures fits { IfOk result (λ r. IfSome r (λ v. Fits B.algebra ctx.now B.CAP (abs v))) }
    // Where memory runs out a front of the use may have been added.
    ensures kept { IsGrown (uses_of log.old) (uses_of log.new) }
{
    match x {
        AbstractValue::Map { map: n, m } if *n == map => match keys_of(alloc, ctx, m, key)? {
            Some(keys) => Ok(Some(read(alloc, ctx, map, m, &keys, log)?)),
            None => Ok(None),
        },
        _ => Ok(None),
    }
}

/// The word that a read at these keys gives. The read is added to the log.
fn read<B: Base>(
    alloc: Global,
    ctx: &B::Ctx,
    map: u32,
    m: &AbstractMap<B>,
    keys: &KeySet,
    log: &mut Log,
) -> Result<AbstractValue<B>, NoMemory>
    requires map { maps.Fits B.algebra ctx.now B.CAP m.now }
    ensures value { IfOk result (λ r. of.read_of B.algebra ctx.now map m.now (uses_of log.old) (Some (view.keys_of keys.now)) ≡ gives (Some (abs r)) (uses_of log.new)) }
    ensures fits { IfOk result (λ r. Fits B.algebra ctx.now B.CAP (abs r)) }
    ensures kept { IsGrown (uses_of log.old) (uses_of log.new) }
{
    let (word, note) = m.access(alloc, ctx, keys)?;
    B::on_read(alloc, log, map, named_key(keys), &note)?;
    Ok(AbstractValue::Word {
        w: m.width(),
        x: word,
    })
}

/// The key that a use names.
fn named_key(keys: &KeySet) -> Option<u64>
    ensures { result ≡ of_keys.named_key (view.keys_of keys.now) }
{
    match keys {
        KeySet::One(key) => Some(*key),
        KeySet::Some {
            listed: _listed,
            all_listed: _all_listed,
        } => None,
    }
}

/// The map with a cell changed by the instruction at an address. Nothing where the values are of other types.
pub fn update_map<B: Base>(
    alloc: Global,
    ctx: &B::Ctx,
    at: u32,
    map: u32,
    x: AbstractValue<B>,
    key: &AbstractValue<B>,
    v: &AbstractValue<B>,
) -> Result<Option<AbstractValue<B>>, NoMemory>
    requires map { Fits B.algebra ctx.now B.CAP (abs x) }
    requires key { Fits B.algebra ctx.now B.CAP (abs key.now) }
    requires word { Fits B.algebra ctx.now B.CAP (abs v.now) }
    ensures value { IfOk result (λ r. option_map abs r ≡ of.updated B.algebra ctx.now B.CAP at map (abs x) (abs key.now) (abs v.now)) }
    ensures fits { IfOk result (λ r. IfSome r (λ v. Fits B.algebra ctx.now B.CAP (abs v))) }
{
    let AbstractValue::Map { map: n, m } = &x else {
        return Ok(None);
    };
    match v {
        AbstractValue::Word { w, x: word } if *n == map && *w == m.width() => {
            put_word(alloc, ctx, at, map, m, key, word)
        }
        _ => Ok(None),
    }
}

/// The map with a word put at a key; nothing where the key is none.
fn put_word<B: Base>(
    alloc: Global,
    ctx: &B::Ctx,
    at: u32,
    map: u32,
    m: &AbstractMap<B>,
    key: &AbstractValue<B>,
    word: &B::Word,
) -> Result<Option<AbstractValue<B>>, NoMemory>
    requires map { maps.Fits B.algebra ctx.now B.CAP m.now }
    requires key { Fits B.algebra ctx.now B.CAP (abs key.now) }
    requires word { B.algebra.words.fits ctx.now m.now.width word.now }
    ensures value { IfOk result (λ r. option_map abs r ≡ of.put_of B.algebra ctx.now B.CAP at map m.now word.now (of_keys.keys_of B.algebra ctx.now m.now (abs key.now))) }
    ensures fits { IfOk result (λ r. IfSome r (λ v. Fits B.algebra ctx.now B.CAP (abs v))) }
{
    match keys_of(alloc, ctx, m, key)? {
        Some(keys) if is_keyed(&keys) => Ok(Some(AbstractValue::Map {
            map,
            m: put_at(alloc, ctx, at, m, &keys, word)?,
        })),
        _ => Ok(None),
    }
}

/// The map with a word put at these keys.
fn put_at<B: Base>(
    alloc: Global,
    ctx: &B::Ctx,
    at: u32,
    m: &AbstractMap<B>,
    keys: &KeySet,
    word: &B::Word,
) -> Result<AbstractMap<B>, NoMemory>
    requires map { maps.Fits B.algebra ctx.now B.CAP m.now }
    requires keyed { IsTrue (of_keys.is_keyed (view.keys_of keys.now)) }
    requires word { B.algebra.words.fits ctx.now m.now.width word.now }
    ensures value { IfOk result (λ r. r ≡ update_of B.algebra ctx.now B.CAP m.now (view.keys_of keys.now) (of.put_at B.algebra ctx.now at word.now)) }
    ensures fits { IfOk result (λ r. maps.Fits B.algebra ctx.now B.CAP r) }
{
    let note = B::stamp_note(alloc, at)?;
    m.update(alloc, ctx, keys, word, &note)
}

/// Whether a key that is one is below 2^32.
fn is_keyed(keys: &KeySet) -> bool
    ensures value { result ≡ of_keys.is_keyed (view.keys_of keys.now) }
{
    match keys {
        KeySet::One(key) => *key < 1 << 32,
        KeySet::Some {
            listed: _listed,
            all_listed: _all_listed,
        } => true,
    }
}
