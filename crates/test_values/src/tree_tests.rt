//! Trees of entries: each call of `Tree` at numbers, with lists worked out by hand.

use abstract_cell_tree::Tree;
use std::alloc::{AllocError, Global};
use std::test::Fail;

/// The tree of these entries, put one by one.
fn tree_of(alloc: Global, entries: &[(u64, u8)]) -> Result<Tree<u8>, AllocError> {
    let mut tree = Tree::new();
    for (key, value) in entries {
        tree = tree.put(alloc, *key, *value)?;
    }
    Ok(tree)
}

/// The entries of a tree, place by place.
fn entries_of(alloc: Global, tree: &Tree<u8>) -> Result<Vec<(u64, u8)>, AllocError> {
    let mut out = Vec::new(alloc);
    for place in 0..tree.len() {
        let (key, value) = tree.at(place);
        out.push((key, *value))?;
    }
    Ok(out)
}

/// Keys that part at the greatest, at a middle and at the least bit.
const LAST: u64 = 18_446_744_073_709_551_615;

#[test]
fn writes_in_any_order(rt: HostRuntime) -> Result<(), Fail> {
    let alloc = rt.alloc();
    let wanted = [(0u64, 1u8), (4, 2), (6, 3), (7, 4), (LAST, 5)];
    for order in [
        [(0u64, 1u8), (4, 2), (6, 3), (7, 4), (LAST, 5)],
        [(LAST, 5), (7, 4), (6, 3), (4, 2), (0, 1)],
        [(6, 3), (LAST, 5), (0, 1), (7, 4), (4, 2)],
    ] {
        let tree = tree_of(alloc, &order)?;
        let found = entries_of(alloc, &tree)?;
        assert!(rt; found.as_slice() == wanted.as_slice());
        assert_eq!(rt; tree.get(6), Some(&3));
        assert_eq!(rt; tree.get(5), None);
        assert_eq!(rt; tree.get(LAST - 1), None);
    }
    Ok(())
}

#[test]
fn old_trees_stay(rt: HostRuntime) -> Result<(), Fail> {
    let alloc = rt.alloc();
    let tree = tree_of(alloc, &[(4, 2), (6, 3), (7, 4)])?;
    let copy = tree.copy()?;
    let written = tree.put(alloc, 6, 9)?;
    let shorter = tree.without(alloc, 6)?;
    let same = tree.without(alloc, 5)?;
    let first = tree.first(alloc, 2)?;
    let found = entries_of(alloc, &written)?;
    assert!(rt; found.as_slice() == [(4u64, 2u8), (6, 9), (7, 4)].as_slice());
    let found = entries_of(alloc, &shorter)?;
    assert!(rt; found.as_slice() == [(4u64, 2u8), (7, 4)].as_slice());
    let found = entries_of(alloc, &first)?;
    assert!(rt; found.as_slice() == [(4u64, 2u8), (6, 3)].as_slice());
    for kept in [&tree, &copy, &same] {
        let found = entries_of(alloc, kept)?;
        assert!(rt; found.as_slice() == [(4u64, 2u8), (6, 3), (7, 4)].as_slice());
    }
    Ok(())
}

#[test]
fn of_ascending_entries(rt: HostRuntime) -> Result<(), Fail> {
    let alloc = rt.alloc();
    let none: Tree<u8> = Tree::of_ascending(alloc, Vec::new(alloc))?;
    assert_eq!(rt; none.len(), 0);
    let one = Tree::one(alloc, 8, 1u8)?;
    let found = entries_of(alloc, &one)?;
    assert!(rt; found.as_slice() == [(8u64, 1u8)].as_slice());
    let none = one.without(alloc, 8)?;
    assert_eq!(rt; none.len(), 0);
    let tree = Tree::of_ascending(alloc, vec![in alloc; (1u64, 7u8), (2, 8), (300, 9)]?)?;
    let found = entries_of(alloc, &tree)?;
    assert!(rt; found.as_slice() == [(1u64, 7u8), (2, 8), (300, 9)].as_slice());
    assert_eq!(rt; tree.get(300), Some(&9));
    let all = tree.first(alloc, 4)?;
    let found = entries_of(alloc, &all)?;
    assert!(rt; found.as_slice() == [(1u64, 7u8), (2, 8), (300, 9)].as_slice());
    Ok(())
}
