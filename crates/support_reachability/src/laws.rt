//! Laws of tables, stated in specs/Laws.antt. Nothing runs.

ghost use Rattle.support_reachability.specs.Laws.{GraphsHaveTables, TablesRank, TablesTellGroups};

/// A table of a graph tells which nodes are of one group, and the least of each group.
pub fn tables_tell_groups()
    ensures { TablesTellGroups }
{}

/// The rank falls along each path that does not come back, and is the same all over a group.
pub fn tables_rank()
    ensures { TablesRank }
{}

/// Each graph has a table, so what follows from a table holds of each graph.
pub fn graphs_have_tables()
    ensures { GraphsHaveTables }
{}
