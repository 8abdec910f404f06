//! Unions of lists of stamps.

ghost use Rattle.std.specs.Prelude.{◌≡◌, ◌≤◌, length, IfOk, OnOk};
ghost use Rattle.std.specs.List.{insert};
ghost use Rattle.base_trait.specs.Stamps.{AreAscending, is_listed};
ghost use Rattle.base_defuse.specs.Notes.{has_all, placed, union, with_stamp};

use base_trait::Stamp;
use std::alloc::{AllocError as NoMemory, Global};

/// The stamps of both lists.
pub(crate) fn union_of(alloc: Global, xs: &[Stamp], ys: &[Stamp]) -> Result<Vec<Stamp>, NoMemory>
    ensures value { IfOk result (λ r. r.items ≡ union xs.now ys.now) }
{
    let mut out = copied(alloc, xs)?;
    for y in ys {
        add(&mut out, *y)?;
    }
    Ok(out)
}

pub(crate) fn copied(alloc: Global, xs: &[Stamp]) -> Result<Vec<Stamp>, NoMemory>
    ensures { IfOk result (λ r. r.items ≡ xs.now) }
{
    let mut out = Vec::new(alloc);
    for x in xs {
        out.push(*x)?;
    }
    Ok(out)
}

/// Puts a stamp in its place, unless it is there.
fn add(items: &mut Vec<Stamp>, stamp: Stamp) -> Result<(), NoMemory>
    ensures { OnOk result (items.new.items ≡ with_stamp items.old.items stamp) }
{
    if !is_listed(items, stamp) {
        let place = place_of(items, stamp);
        items.insert(place, stamp)?;
    }
    Ok(())
}

/// Before which stamp this one comes.
fn place_of(items: &[Stamp], stamp: Stamp) -> usize
    ensures within { result ≤ length items.now }
    ensures place { insert items.now result stamp ≡ placed stamp items.now }
{
    for i in 0..items.len() {
        if stamp.is_before(items[i]) {
            return i;
        }
    }
    items.len()
}

/// Whether the list has the stamp.
fn is_listed(items: &[Stamp], stamp: Stamp) -> bool
    ensures { result ≡ is_listed items.now stamp }
{
    for x in items {
        if x.is_same(stamp) {
            return true;
        }
    }
    false
}

/// Whether the first list has each stamp of the second.
pub(crate) fn has_all(items: &[Stamp], others: &[Stamp]) -> bool
    ensures { result ≡ has_all items.now others.now }
{
    for x in others {
        if !is_listed(items, *x) {
            return false;
        }
    }
    true
}
