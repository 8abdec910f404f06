//! Which nodes of a graph each node reaches, and what follows from it: groups and ranks.
//!
//! # Tables
//!
//! A graph is given by the list of nodes that each node leads to. A node reaches another where a
//! path of one or more edges leads there, so a node need not reach itself. `Reachability` has a
//! row of truth values for each node. A row is found by a depth-first search with marks and a
//! stack: all nodes that the first leads to are marked and put on the stack, and then those that a
//! node from the stack leads to, until it is empty. A node is marked once, so a row takes time in
//! proportion to the edges.
//!
//! # Groups and ranks
//!
//! Two nodes are of one group where each is the other, or each reaches the other. The rank of a
//! node is the number of nodes that it is or reaches. In the graph
//!
//! | node | leads to | reaches | group | rank |
//! |---|---|---|---|---|
//! | 0 | 1, 3 | 1, 2, 3 | 0 | 4 |
//! | 1 | 2 | 1, 2 | 1, 2 | 2 |
//! | 2 | 1 | 1, 2 | 1, 2 | 2 |
//! | 3 | 3 | 3 | 3 | 1 |
//!
//! the rank falls along each edge between two groups, and is the same all over a group. The count
//! of the reached nodes alone would not do: with an edge from 4 to 3 both would reach just one.
//!
//! # What is proved
//!
//! `specs/Graph.antt` says what paths and groups are, and `specs/Table.antt` what a table of a
//! graph is. `of` ensures that its table is that of its graph, both ways. The laws say that such a
//! table tells groups and their least nodes, that ranks fall, and that each graph has a table.
//! That a search marks nothing but what is reached, and all of it once its stack is empty, is in
//! `proofs/Searching.antt`.
#![tactic(auto)]

pub mod laws;
mod search;
mod table;

pub use table::Reachability;

#[cfg(test)]
mod tests;
