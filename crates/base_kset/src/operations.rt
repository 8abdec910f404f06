//! Sets of results.

ghost use Rattle.std.specs.Prelude.{◌≡◌, ◌<◌, ◌^◌, map, Some};
ghost use Rattle.std.specs.List.{flat_map};
ghost use Rattle.word_operations.specs.Op2.{op2_of};
ghost use Rattle.word_operations.specs.Width.{IsWidth};
ghost use Rattle.base_trait.specs.Lists.{Each};
ghost use Rattle.base_kset.specs.Changes.{changed, IsChange, width_before};
ghost use Rattle.base_kset.specs.Meaning.{Fits};
ghost use Rattle.base_kset.specs.Sets.{add_all, bounded, images, products, set_of, union};

use super::changes::Change;
use super::set::Set;
use word_operations::{BinaryOperation, op2};

/// What becomes of each number.
pub(crate) fn image<const K: usize>(change: Change, x: &Set<K>) -> Set<K>
    requires change { IsChange change }
    requires word { Fits K (width_before change) x.now }
    ensures { result ≡ images K (changed change) x.now }
{
    let Some(numbers) = x.listed() else {
        return Set::any();
    };
    image_of(change, numbers)
}

fn image_of<const K: usize>(change: Change, numbers: &[u64]) -> Set<K>
    requires change { IsChange change }
    requires below { Each (λ n. n < 2 ^ width_before change) numbers.now }
    ensures { result ≡ bounded K (set_of (map (changed change) numbers.now)) }
{
    let mut out = Set::empty();
    for x in numbers {
        out.add(change.of(*x));
    }
    out
}

/// What the operation gives of each number of the one and each of the other.
pub(crate) fn product<const K: usize>(op: BinaryOperation, w: u32, x: &Set<K>, y: &Set<K>) -> Set<K>
    requires width { IsWidth w }
    requires left { Fits K w x.now }
    requires right { Fits K w y.now }
    ensures { result ≡ products K (op2_of op w) x.now y.now }
{
    match (x.listed(), y.listed()) {
        (Some(xs), Some(ys)) => product_of(op, w, xs, ys),
        _ => Set::any(),
    }
}

fn product_of<const K: usize>(op: BinaryOperation, w: u32, xs: &[u64], ys: &[u64]) -> Set<K>
    requires width { IsWidth w }
    requires left { Each (λ n. n < 2 ^ w) xs.now }
    requires right { Each (λ n. n < 2 ^ w) ys.now }
    ensures { result ≡ bounded K (set_of (flat_map (λ x. map (op2_of op w x) ys.now) xs.now)) }
{
    let mut out = Set::empty();
    for x in xs {
        add_row(&mut out, op, w, *x, ys);
    }
    out
}

fn add_row<const K: usize>(out: &mut Set<K>, op: BinaryOperation, w: u32, x: u64, ys: &[u64])
    requires width { IsWidth w }
    requires left { x < 2 ^ w }
    requires right { Each (λ n. n < 2 ^ w) ys.now }
    ensures { out.new ≡ add_all K out.old (map (op2_of op w x) ys.now) }
{
    for y in ys {
        out.add(op2(op, w, x, *y));
    }
}

/// The numbers of both.
pub(crate) fn both<const K: usize>(x: &Set<K>, y: &Set<K>) -> Set<K>
    ensures { result ≡ union K x.now y.now }
{
    match (x.listed(), y.listed()) {
        (Some(_xs), Some(ys)) => {
            let mut out = x.copy();
            out.add_all(ys);
            out
        }
        _ => Set::any(),
    }
}
