//! Instructions and joins on few cells.

use base_trait::Base;
use domain_affine_base::{Affine, Tracked, Word};
use domain_affine_elements::{absorbs, close_cells, copy, entry_cells, join, open_cell, rank};
use semantics_values::KeyAt;
use std::test::Fail;
use word_operations::BinaryOperation;

/// Of four registers the first two may be any number; an instruction puts their sum into the third.
#[test]
fn a_sum_is_kept(rt: HostRuntime) -> Result<(), Fail> {
    let alloc = rt.alloc();
    let given = [Word::Any, Word::Any, Word::Const(0), Word::Const(0)];
    let before = entry_cells(alloc, 4, &given)?;
    let r0 = open_cell(alloc, 4, &before, 0)?;
    let r1 = open_cell(alloc, 4, &before, 1)?;
    let r3 = open_cell(alloc, 4, &before, 3)?;
    assert_eq!(rt; r3, Word::Const(0));
    let cells = vec![in alloc;
        (1u32, KeyAt::At(0)),
        (1u32, KeyAt::At(1)),
        (1u32, KeyAt::At(2)),
        (1u32, KeyAt::At(3)),
    ]?;
    let tracked = Tracked { cells };
    let sum = Affine::op2(alloc, &tracked, BinaryOperation::Add, 32, &r0, &r1)?;
    let after = close_cells(alloc, 4, &[r0, r1, sum, r3], &before)?;
    assert_eq!(rt; after.len(), 3);
    assert!(rt; after.contains(&[1, 0, 0, 0, 0]));
    assert!(rt; after.contains(&[0, 1, 0, 1, 0]));
    assert!(rt; after.contains(&[0, 0, 1, 1, 0]));
    assert!(rt; after.contains(&[1, 5, 7, 12, 0]));
    assert!(rt; !after.contains(&[1, 5, 7, 13, 0]));
    Ok(())
}

/// Where one path has 5 and 7 and another 6 and 8, the second cell is the first and 2 more.
#[test]
fn a_join_keeps_the_difference(rt: HostRuntime) -> Result<(), Fail> {
    let alloc = rt.alloc();
    let one = entry_cells(alloc, 2, &[Word::Const(5), Word::Const(7)])?;
    let other = entry_cells(alloc, 2, &[Word::Const(6), Word::Const(8)])?;
    assert_eq!(rt; open_cell(alloc, 2, &one, 0)?, Word::Const(5));
    assert_eq!(rt; rank(&one), 64);
    let both = join(alloc, 2, &one, &other)?;
    assert_eq!(rt; rank(&both), 32);
    assert!(rt; both.contains(&[1, 9, 11]));
    assert!(rt; !both.contains(&[1, 9, 12]));
    assert!(rt; absorbs(&both, &one) && absorbs(&both, &other));
    assert!(rt; !absorbs(&one, &both));
    let again = copy(alloc, 2, &both)?;
    assert!(rt; absorbs(&again, &both) && absorbs(&both, &again));
    assert!(rt; matches!(open_cell(alloc, 2, &both, 1)?, Word::Form(_)));
    Ok(())
}
