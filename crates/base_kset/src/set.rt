//! Sets of at most `K` numbers.

ghost use Rattle.std.specs.Prelude.{◌≡◌, ◌≤◌, [], List, length, Some, None, is_none, IfSome, IfNone};
ghost use Rattle.std.specs.List.{insert};
ghost use Rattle.base_trait.specs.Lists.{IsAscending};
ghost use Rattle.base_kset.specs.Same.{same_numbers};
ghost use Rattle.base_kset.specs.Sets.{add, add_all, bounded, from_to, items_or_none, placed, set_with};

use arrayvec::ArrayVec;
use std::hash::{Hash, Hasher};
use std::marker::Model;

/// At most `K` numbers, ascending without doubles, or any. A set that the base gives is not empty.
#[derive(Debug, Drop)]
pub struct Set<const K: usize> {
    items: Option<ArrayVec<u64, K>>,
}

impl<const K: usize> Model for Set<K> {
    ghost use Rattle.std.specs.Prelude.{ℕ, List, Option, option_map};
    ghost use Rattle.arrayvec.specs.ArrayVec.{ArrayVec};
    ghost use Rattle.base_trait.specs.Lists.{IsAscending};
    ghost use Rattle.base_kset.specs.Sets.{items_or_none};

    ghost Value = { Option (List ℕ) };

    ghost view = { λ s. option_map (λ v. v.items) s.items };

    ghost invariant = { λ s. IsAscending (items_or_none (option_map (λ v. v.items) s.items)) };

    ghost inverse = { λ s. record { items = option_map (λ xs. record { items = xs }) s } };
}

impl<const K: usize> PartialEq for Set<K> {
    ghost use Rattle.base_kset.specs.Same.{same_set, same_set_partial};

    ghost eq = { same_set };

    ghost laws = { same_set_partial };

    fn eq(&self, other: &Set<K>) -> bool {
        match (self.listed(), other.listed()) {
            (None, None) => true,
            (Some(numbers), Some(others)) => are_same(numbers, others),
            _ => false,
        }
    }
}

impl<const K: usize> Eq for Set<K> {
    ghost use Rattle.base_kset.specs.Same.{same_set_equiv};

    ghost laws = { same_set_equiv };
}

impl<const K: usize> Hash for Set<K> {
    ghost use Rattle.std.proofs.Common.{ap};
    ghost use Rattle.std.specs.Hash as fed;
    ghost use Rattle.base_kset.specs.Same.{same_set_is};
    ghost use Rattle.base_kset.specs.Sets.{items_or_none};

    ghost hash_input = { λ s. fed.slice fed.u64 (items_or_none s) };

    ghost respects_eq = { λ x y e. ap (λ s. fed.slice fed.u64 (items_or_none s)) (same_set_is x y e) };

    fn hash<H: Hasher>(&self, state: &mut H) {
        self.items().hash(state);
    }
}

impl<const K: usize> Set<K> {
    /// Whether it may be any number.
    pub fn is_any(&self) -> bool
        ensures { result ≡ is_none self.now }
    {
        self.items.is_none()
    }

    /// The numbers, ascending; none where it may be any.
    pub fn items(&self) -> &[u64]
        ensures value { result.now ≡ items_or_none self.now }
        ensures ascending { IsAscending result.now }
        ensures few { length result.now ≤ K }
    {
        match &self.items {
            Some(items) => items.as_slice(),
            None => &[],
        }
    }

    /// The word of every number.
    pub(crate) fn any() -> Set<K>
        ensures { result ≡ None }
    {
        Set { items: None }
    }

    /// The set of no number.
    pub(crate) fn empty() -> Set<K>
        ensures { result ≡ Some [] }
    {
        Set {
            items: Some(ArrayVec::new()),
        }
    }

    /// The numbers of the set, where it is not any.
    pub(crate) fn listed(&self) -> Option<&[u64]>
        ensures some { IfSome result (λ s. (self.now ≡ Some s.now) × (length s.now ≤ K)) }
        ensures ascending { IfSome result (λ s. IsAscending s.now) }
        ensures none { IfNone result (self.now ≡ None) }
    {
        match &self.items {
            Some(items) => Some(items.as_slice()),
            None => None,
        }
    }

    /// One more number; past `K` it is any.
    pub(crate) fn add(&mut self, x: u64)
        ensures { self.new ≡ add K self.old x }
    {
        self.items = match self.items.take() {
            Some(items) => with_number(items, x),
            None => None,
        };
    }

    /// Several more numbers.
    pub(crate) fn add_all(&mut self, xs: &[u64])
        ensures { self.new ≡ add_all K self.old xs.now }
    {
        for x in xs {
            self.add(*x);
        }
    }

    /// The numbers from `low` to `high`, or any where they are more than `K`.
    pub(crate) fn from_to(low: u64, high: u64) -> Set<K>
        requires { low ≤ high }
        ensures { result ≡ from_to K low high }
    {
        if high - low >= K as u64 {
            return Set::any();
        }
        let mut items = ArrayVec::new();
        for i in 0..high - low + 1 {
            items.push(low + i);
        }
        Set { items: Some(items) }
    }

    /// The same set once more.
    pub(crate) fn copy(&self) -> Set<K>
        ensures { result ≡ self.now }
    {
        match self.listed() {
            Some(numbers) => Set {
                items: Some(copy_numbers(numbers)),
            },
            None => Set::any(),
        }
    }
}

/// The numbers with one more, or none where they are then more than `K`.
fn with_number<const K: usize>(numbers: ArrayVec<u64, K>, x: u64) -> Option<ArrayVec<u64, K>>
    ensures some { IfSome result (λ v. bounded K (placed x numbers.entry.items) ≡ Some v.items) }
    ensures none { IfNone result (bounded K (placed x numbers.entry.items) ≡ None) }
{
    let mut numbers = numbers;
    match place_of(numbers.as_slice(), x) {
        None => Some(numbers),
        Some(_place) if numbers.is_full() => None,
        Some(place) => {
            numbers.insert(place, x);
            Some(numbers)
        }
    }
}

/// Where the number is to stand among ascending ones, or none where it stands there.
fn place_of(items: &[u64], x: u64) -> Option<usize>
    ensures there { IfNone result (placed x items.now ≡ items.now) }
    ensures within { IfSome result (λ i. i ≤ length items.now) }
    ensures place { IfSome result (λ i. insert items.now i x ≡ placed x items.now) }
{
    for i in 0..items.len() {
        if x < items[i] {
            return Some(i);
        }
        if x == items[i] {
            return None;
        }
    }
    Some(items.len())
}

fn copy_numbers<const K: usize>(numbers: &[u64]) -> ArrayVec<u64, K>
    requires { length numbers.now ≤ K }
    ensures { result.items ≡ numbers.now }
{
    let mut items = ArrayVec::new();
    for x in numbers {
        items.push(*x);
    }
    items
}

fn are_same(numbers: &[u64], others: &[u64]) -> bool
    ensures { result ≡ same_numbers numbers.now others.now }
{
    if numbers.len() != others.len() {
        return false;
    }
    for i in 0..numbers.len() {
        if numbers[i] != others[i] {
            return false;
        }
    }
    true
}
