//! Submodules in few columns, with answers worked out by hand, and one of full size.

ghost use Rattle.std.specs.Prelude.{◌≡◌, ◌∷◌, []};
ghost use Rattle.support_modular_rows.specs.Laws.{MembersAreLeast};
ghost use Rattle.support_modular_rows.specs.Submodule.{IsMember};

use std::alloc::{AllocError, Global};
use std::hash::{DefaultHasher, Hash, Hasher};
use std::test::Fail;
use support_modular_rows::laws::{
    Property, equal_forms_are_the_same, has_one_rank, members_are_least, relations_hold,
    rows_within,
};
use support_modular_rows::{Form, Rows};

enum Step {
    Insert(&'static [u32], bool),
    Contains(&'static [u32], bool),
    Havoc(u32),
    Len(u32),
    Row(u32, &'static [u32]),
    Rank(u64),
    Multiple(u32, Option<u32>),
}

fn are_equal(x: &[u32], y: &[u32]) -> bool {
    x == y
}

/// Whether a step can be made in k columns, and gives what it says.
fn holds(rows: &mut Rows, k: u32, step: &Step) -> bool
    requires { rows.old.k ≡ k }
    ensures { rows.new.k ≡ k }
{
    match step {
        Step::Insert(row, grew) => {
            if row.len() == k as usize + 1 {
                rows.insert(row) == *grew
            } else {
                false
            }
        }
        Step::Contains(row, is) => row.len() == k as usize + 1 && rows.contains(row) == *is,
        Step::Havoc(cell) => {
            if *cell < k {
                rows.havoc(*cell);
            }
            *cell < k
        }
        Step::Len(len) => rows.len() == *len,
        Step::Row(i, row) => *i < rows.len() && are_equal(rows.row(*i), row),
        Step::Rank(rank) => rows.rank() == *rank,
        Step::Multiple(cell, multiple) => *cell < k && rows.multiple(*cell) == *multiple,
    }
}

/// Whether each of the steps does.
fn all_hold(rows: &mut Rows, k: u32, steps: &[Step]) -> bool
    requires { rows.old.k ≡ k }
    ensures { rows.new.k ≡ k }
{
    for step in steps {
        if !holds(rows, k, step) {
            return false;
        }
    }
    true
}

/// How many entries hold, each over rows of its own, before one that does not.
fn right(alloc: Global, table: &[(u32, &[Step])]) -> Result<usize, AllocError> {
    for (i, (k, steps)) in table.iter().enumerate() {
        if *k > 64 {
            return Ok(i);
        }
        let mut rows = Rows::new(alloc, *k)?;
        if !all_hold(&mut rows, *k, steps) {
            return Ok(i);
        }
    }
    Ok(table.len())
}

#[test]
fn members(rt: HostRuntime) -> Result<(), Fail> {
    let table: [(u32, &[Step]); 10] = [
        (
            1,
            &[
                Step::Multiple(0, Some(0)),
                Step::Insert(&[2, 10], true),
                Step::Multiple(0, Some(5)),
                Step::Insert(&[0, 1], true),
                Step::Multiple(0, None),
            ],
        ),
        (
            1,
            &[
                Step::Insert(&[0x8000_0000, 0x8000_0000], true),
                Step::Multiple(0, Some(1)),
                Step::Insert(&[3, 6], true),
                Step::Multiple(0, None),
            ],
        ),
        (
            2,
            &[
                Step::Insert(&[3, 6, 1], true),
                Step::Multiple(0, Some(2)),
                Step::Multiple(1, Some(0xaaaa_aaab)),
                Step::Insert(&[0, 0, 4], true),
                Step::Multiple(0, Some(2)),
                Step::Multiple(1, None),
            ],
        ),
        (
            1,
            &[
                Step::Len(0),
                Step::Rank(64),
                Step::Contains(&[0, 0], true),
                Step::Insert(&[0, 0], false),
                Step::Insert(&[2, 0], true),
                Step::Insert(&[4, 0], false),
                Step::Rank(33),
                Step::Insert(&[0, 0x8000_0000], true),
                Step::Contains(&[1, 0], false),
                Step::Contains(&[6, 0x8000_0000], true),
                Step::Contains(&[6, 0x4000_0000], false),
                Step::Contains(&[0, 1], false),
                Step::Len(2),
                Step::Row(0, &[0, 0x8000_0000]),
                Step::Row(1, &[2, 0]),
                Step::Rank(32),
            ],
        ),
        (
            1,
            &[
                Step::Insert(&[1, 5], true),
                Step::Contains(&[1, 7], false),
                Step::Contains(&[0xffff_ffff, 0xffff_fffb], true),
                Step::Rank(32),
                Step::Havoc(0),
                Step::Contains(&[1, 7], true),
                Step::Contains(&[0, 1], true),
                Step::Rank(0),
                Step::Len(2),
            ],
        ),
        (
            0,
            &[
                Step::Insert(&[12], true),
                Step::Insert(&[20], false),
                Step::Contains(&[4], true),
                Step::Contains(&[2], false),
                Step::Insert(&[6], true),
                Step::Rank(1),
                Step::Insert(&[0xffff_ffff], true),
                Step::Rank(0),
                Step::Len(1),
            ],
        ),
        (
            1,
            &[
                Step::Insert(&[3, 6], true),
                Step::Contains(&[1, 2], true),
                Step::Contains(&[1, 3], false),
                Step::Contains(&[2, 4], true),
                Step::Len(1),
            ],
        ),
        (
            1,
            &[
                Step::Insert(&[4, 1], true),
                Step::Contains(&[0, 0x4000_0000], true),
                Step::Contains(&[0, 0x2000_0000], false),
                Step::Rank(32),
                Step::Insert(&[6, 0], true),
                Step::Contains(&[2, 0xffff_ffff], true),
                Step::Contains(&[0, 3], true),
                Step::Contains(&[0, 1], true),
                Step::Contains(&[1, 0], false),
                Step::Rank(1),
            ],
        ),
        (
            2,
            &[
                Step::Insert(&[0x8000_0000, 1, 0], true),
                Step::Contains(&[0, 2, 0], true),
                Step::Contains(&[0, 1, 0], false),
                Step::Havoc(1),
                Step::Contains(&[0, 2, 9], true),
                Step::Contains(&[0x8000_0000, 3, 9], true),
                Step::Rank(32),
            ],
        ),
        (
            2,
            &[
                Step::Havoc(0),
                Step::Contains(&[0, 7, 0], true),
                Step::Contains(&[0, 0, 1], false),
            ],
        ),
    ];
    assert_eq!(rt; right(rt.alloc(), &table)?, 10);
    Ok(())
}

#[test]
fn values_of_forms(rt: HostRuntime) -> Result<(), Fail> {
    let forms = [
        Some(Form {
            c: vec![in rt.alloc(); 3, 2, 1]?,
        }),
        None,
    ];
    let mut from = Rows::new(rt.alloc(), 2)?;
    let mut into = Rows::new(rt.alloc(), 2)?;
    let before = all_hold(
        &mut from,
        2,
        &[
            Step::Insert(&[1, 5, 0], true),
            Step::Insert(&[0, 0, 4], true),
        ],
    );
    from.image(&forms, &mut into);
    let after = all_hold(
        &mut into,
        2,
        &[
            Step::Contains(&[1, 13, 7], true),
            Step::Contains(&[1, 17, 0], true),
            Step::Contains(&[1, 10, 0], false),
            Step::Contains(&[1, 14, 0], false),
            Step::Contains(&[2, 26, 1], true),
            Step::Contains(&[0, 0, 1], true),
            Step::Contains(&[0, 4, 0], true),
            Step::Contains(&[0, 2, 0], false),
            Step::Len(3),
            Step::Rank(2),
        ],
    );
    assert!(rt; before && after);
    Ok(())
}

fn hash_of(form: &Form) -> u64 {
    let mut state = DefaultHasher::new();
    form.hash(&mut state);
    state.finish()
}

/// The form with these numbers, with room for some.
fn form(alloc: Global, room: usize, numbers: &[u32]) -> Result<Form, AllocError> {
    let mut c = Vec::with_capacity(alloc, room)?;
    c.extend_from_slice(numbers)?;
    Ok(Form { c })
}

/// Whether two forms are equal and have one hash, where they have room for different numbers.
fn are_same(alloc: Global, x: &[u32], y: &[u32]) -> Result<bool, AllocError> {
    let x = form(alloc, 16, x)?;
    let y = form(alloc, 0, y)?;
    Ok(x == y && hash_of(&x) == hash_of(&y))
}

/// Whether two forms are equal.
fn are_equal_forms(alloc: Global, x: &[u32], y: &[u32]) -> Result<bool, AllocError> {
    let x = form(alloc, 16, x)?;
    let y = form(alloc, 0, y)?;
    Ok(x == y)
}

#[test]
fn equal_forms(rt: HostRuntime) -> Result<(), Fail> {
    let alloc = rt.alloc();
    assert!(rt; are_same(alloc, &[3, 2], &[3, 2])?);
    assert!(rt; !are_equal_forms(alloc, &[3, 2], &[3, 4])?);
    assert!(rt; !are_equal_forms(alloc, &[3, 2], &[3, 2, 0])?);
    Ok(())
}

/// Whether the form with these numbers has the value over the row.
fn has_value(alloc: Global, numbers: &[u32], row: &[u32], value: u32) -> Result<bool, AllocError> {
    let form = form(alloc, 0, numbers)?;
    Ok(form.value(row) == value)
}

#[test]
fn forms_have_values(rt: HostRuntime) -> Result<(), Fail> {
    let alloc = rt.alloc();
    assert!(rt; has_value(alloc, &[3, 2], &[1, 5], 13)?);
    assert!(rt; has_value(alloc, &[3, 4], &[1, 0x4000_0000], 3)?);
    Ok(())
}

/// 2 up to column i, and 1 past it: each row but the first is the one before it and 1 in its column.
fn stair(i: usize) -> [u32; 65] {
    let mut row = [0; 65];
    for j in 0..65usize {
        row[j] = if i < j { 1 } else { 2 };
    }
    row
}

/// Whether 65 rows are taken in as new ones, and are all that there are.
fn are_all(rows: &mut Rows) -> bool
    requires { rows.old.k ≡ 64 }
{
    for i in 0..65usize {
        if !rows.insert(&stair(i)) {
            return false;
        }
    }
    for i in 0..1000usize {
        if !rows.contains(&stair(i)) {
            return false;
        }
    }
    rows.len() == 65 && rows.rank() == 1
}

#[test]
fn full_size(rt: HostRuntime) -> Result<(), Fail> {
    let mut rows = Rows::new(rt.alloc(), 64)?;
    assert!(rt; are_all(&mut rows));
    Ok(())
}

/// The multiples of (2, 6).
struct Multiple;

impl Property for Multiple {
    ghost use Rattle.std.specs.Prelude.{◌∷◌, []};
    ghost use Rattle.support_modular_rows.specs.Submodule.{IsMember};

    ghost holds = { IsMember 1 ((2 ∷ 6 ∷ []) ∷ []) };
}

/// The law of the least closed set, at this property.
fn least_of_a_property()
    ensures { MembersAreLeast (IsMember 1 ((2 ∷ 6 ∷ []) ∷ [])) }
{
    members_are_least::<Multiple>()
}

#[test]
fn has_laws() {
    equal_forms_are_the_same();
    least_of_a_property();
    rows_within();
    relations_hold();
    has_one_rank();
}
