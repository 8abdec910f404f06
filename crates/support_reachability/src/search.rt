//! The nodes that one node reaches, by depth-first search.

ghost use Rattle.std.specs.Prelude.{◌≡◌, ◌<◌, true, [], ◌∷◌, ◌++◌, length, map, slice_index_or, slice_set, if◌then◌else◌, OnOk, IfOk};
ghost use Rattle.support_reachability.specs.Marks.{AreMarked, AreReached};

use std::alloc::{AllocError, Global};

/// Marks a node and puts it on the stack, where it is one of the graph and not marked yet.
fn visit(node: usize, marks: &mut Vec<bool>, stack: &mut Vec<usize>) -> Result<(), AllocError>
    ensures marks { OnOk result (marks.new.items ≡ slice_set marks.old.items node true) }
    ensures stack { OnOk result (stack.new.items ≡ (if slice_index_or marks.old.items node true then stack.old.items else stack.old.items ++ node ∷ [])) }
{
    let is_seen = marks.get(node).copied().unwrap_or(true);
    if !is_seen {
        marks[node] = true;
        stack.push(node)?;
    }
    Ok(())
}

/// Visits all targets of a node.
fn visit_all(
    targets: &[u32],
    marks: &mut Vec<bool>,
    stack: &mut Vec<usize>,
) -> Result<(), AllocError>
    ensures { OnOk result (AreMarked targets.now (length targets.now) marks.old.items marks.new.items stack.old.items stack.new.items) }
{
    for target in targets {
        visit(*target as usize, marks, stack)?;
    }
    Ok(())
}

/// For each node, whether one node reaches it.
pub fn reached_from(alloc: Global, graph: &[Vec<u32>], from: usize) -> Result<Vec<bool>, AllocError>
    requires { from < length graph.now }
    ensures { IfOk result (λ marks. AreReached (map (λ row. row.items) graph.now) from marks.items) }
{
    let mut marks = vec![in alloc; false; graph.len()]?;
    let mut stack = Vec::new(alloc);
    visit_all(&graph[from], &mut marks, &mut stack)?;
    while let Some(node) = stack.pop() {
        visit_all(&graph[node], &mut marks, &mut stack)?;
    }
    Ok(marks)
}
