//! The table of a graph, worked out by hand.

use crate::Reachability;
use std::test::Fail;

#[test]
fn groups_and_ranks(rt: HostRuntime) -> Result<(), Fail> {
    let a = rt.alloc();
    // the graph of the crate's head, a node that leads past the end, and one that leads nowhere
    let graph = vec![in a;
        vec![in a; 1u32, 3]?,
        vec![in a; 2u32]?,
        vec![in a; 1u32, 1]?,
        vec![in a; 3u32]?,
        vec![in a; 3u32, 9]?,
        Vec::new(a),
    ]?;
    let found = Reachability::of(a, &graph)?;
    let rows = [
        ([false, true, true, true, false, false], 0, 4),
        ([false, true, true, false, false, false], 1, 2),
        ([false, true, true, false, false, false], 1, 2),
        ([false, false, false, true, false, false], 3, 1),
        ([false, false, false, true, false, false], 4, 2),
        ([false, false, false, false, false, false], 5, 1),
    ];
    for (node, (reached, group, rank)) in rows.into_iter().enumerate() {
        for (other, want) in reached.into_iter().enumerate() {
            assert_eq!(rt; found.reaches(node, other), want);
        }
        assert_eq!(rt; found.group(node), group);
        if node < found.rows.len() {
            assert_eq!(rt; found.rank(node), rank);
        }
    }
    assert!(rt; found.same_group(2, 1));
    assert!(rt; found.same_group(4, 4));
    assert!(rt; !found.same_group(3, 4));
    Ok(())
}
