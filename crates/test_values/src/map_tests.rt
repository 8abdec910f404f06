//! Cases worked out by hand.

use super::maps::{absorbs, joined, map_of, numbered, widened, word, written};
use abstract_map::KeySet;
use base_concrete::Concrete;
use base_kset::KSet;
use std::test::Fail;

type Sets = KSet<16>;

#[test]
fn reads_and_writes(rt: HostRuntime) -> Result<(), Fail> {
    let alloc = rt.alloc();
    let map = map_of::<Sets>(alloc, &(), &[0], &[(2, &[2]), (1, &[1])])?;
    for (listed, all_listed, read, rest, first, second) in [
        (
            &[1u64][..],
            true,
            &[1u8][..],
            &[0u8][..],
            &[1u8, 9][..],
            &[2u8][..],
        ),
        (&[1], false, &[0, 1], &[0, 9], &[1, 9], &[2]),
        (&[1, 2], true, &[1, 2], &[0], &[1, 9], &[2, 9]),
        (&[], false, &[0], &[0, 9], &[1], &[2]),
    ] {
        let key = KeySet::Some {
            listed: Vec::from_slice(alloc, listed)?,
            all_listed,
        };
        let found = map.access(alloc, &(), &key)?;
        let wanted = word::<Sets>(alloc, &(), read)?;
        assert!(rt; found.0 == wanted);
        let after = written::<Sets>(alloc, &(), &map, &key, &[9], 7)?;
        let wanted = map_of::<Sets>(alloc, &(), rest, &[(1, first), (2, second)])?;
        assert!(rt; after == wanted);
        assert!(rt; after != map);
    }
    let found = map.access(alloc, &(), &KeySet::One(2))?;
    let wanted = word::<Sets>(alloc, &(), &[2])?;
    assert!(rt; found.0 == wanted);
    let found = map.access(alloc, &(), &KeySet::One(3))?;
    let wanted = word::<Sets>(alloc, &(), &[0])?;
    assert!(rt; found.0 == wanted);
    Ok(())
}

#[test]
fn joins_and_widenings(rt: HostRuntime) -> Result<(), Fail> {
    let alloc = rt.alloc();
    let map = map_of::<Sets>(alloc, &(), &[0], &[(1, &[1])])?;
    let other = map_of::<Sets>(alloc, &(), &[5], &[(2, &[2])])?;
    let both = joined::<Sets>(alloc, &(), &map, &other)?;
    let wanted = map_of::<Sets>(alloc, &(), &[0, 5], &[(1, &[1, 5]), (2, &[0, 2])])?;
    assert!(rt; both == wanted);
    let wide = widened::<Sets>(alloc, &(), &map, &other)?;
    let wanted = map_of::<Sets>(alloc, &(), &[], &[(1, &[])])?;
    assert!(rt; wide == wanted);
    let wide = widened::<Sets>(alloc, &(), &both, &map)?;
    assert!(rt; wide == both);
    assert!(rt; absorbs::<Sets>(&(), &both, &map));
    assert!(rt; absorbs::<Sets>(&(), &both, &other));
    assert!(rt; !absorbs::<Sets>(&(), &map, &both));
    assert!(rt; !absorbs::<Sets>(&(), &map, &other));
    let listed_more = map_of::<Sets>(alloc, &(), &[0], &[(1, &[1]), (2, &[2])])?;
    assert!(rt; !absorbs::<Sets>(&(), &map, &listed_more));
    let copy = both.copy(alloc, &())?;
    assert!(rt; copy == both);
    Ok(())
}

#[test]
fn folds_past_the_room(rt: HostRuntime) -> Result<(), Fail> {
    let alloc = rt.alloc();
    let map = numbered::<Sets>(alloc, &(), 256)?;
    assert_eq!(rt; map.listed(), 256);
    let map = written::<Sets>(alloc, &(), &map, &KeySet::One(300), &[7], 0)?;
    assert_eq!(rt; map.listed(), 256);
    let wanted = word::<Sets>(alloc, &(), &[0, 7])?;
    assert!(rt; *map.rest().0 == wanted);
    assert_eq!(rt; map.key_at(255), 255);
    Ok(())
}

#[test]
fn many_ascending_updates(rt: HostRuntime) -> Result<(), Fail> {
    let alloc = rt.alloc();
    let map = numbered::<Concrete>(alloc, &(), 10_000)?;
    assert_eq!(rt; map.listed(), 10_000);
    assert_eq!(rt; map.key_at(9_999), 9_999);
    assert_eq!(rt; *map.cell_at(9_999).0, 15);
    let found = map.access(alloc, &(), &KeySet::One(4_660))?;
    assert_eq!(rt; found.0, 52);
    Ok(())
}
