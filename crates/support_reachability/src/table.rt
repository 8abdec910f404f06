//! Tables of reached nodes.

ghost use Rattle.std.specs.Prelude.{◌≡◌, ◌<◌, length, map, IfOk};
ghost use Rattle.support_reachability.specs.Table.{IsTableOf, table, says, same_group, group, rank};

use crate::search::reached_from;
use std::alloc::{AllocError, Global};

/// Which nodes of a graph each node reaches by one or more edges: `rows[a][b]` says whether node a
/// reaches node b.
#[derive(Debug, Drop)]
pub struct Reachability {
    pub rows: Vec<Vec<bool>>,
}

impl Reachability {
    /// The table of a graph, in which `graph[a]` lists the nodes that node a leads to. Nodes past
    /// the graph's end lead nowhere. Takes time in proportion to the nodes times the edges, and one
    /// byte for each two nodes.
    pub fn of(alloc: Global, graph: &[Vec<u32>]) -> Result<Reachability, AllocError>
        ensures { IfOk result (λ r. IsTableOf (map (λ row. row.items) graph.now) (table r)) }
    {
        let mut rows = Vec::new(alloc);
        for from in 0..graph.len() {
            rows.push(reached_from(alloc, graph, from)?)?;
        }
        Ok(Reachability { rows })
    }

    /// Whether node a reaches node b by one or more edges.
    pub fn reaches(&self, a: usize, b: usize) -> bool
        ensures { result ≡ says (table self.now) a b }
    {
        match self.rows.get(a) {
            None => false,
            Some(row) => row.get(b).copied().unwrap_or(false),
        }
    }

    /// Whether two nodes are of one group: each is the other, or each reaches the other.
    pub fn same_group(&self, a: usize, b: usize) -> bool
        ensures { result ≡ same_group (table self.now) a b }
    {
        a == b || (self.reaches(a, b) && self.reaches(b, a))
    }

    /// The least node of a node's group.
    pub fn group(&self, a: usize) -> usize
        ensures { result ≡ group (table self.now) a }
    {
        for b in 0..self.rows.len() {
            if self.same_group(a, b) {
                return b;
            }
        }
        a
    }

    /// How many nodes a node is or reaches, a number that falls along each path that does not come
    /// back.
    pub fn rank(&self, a: usize) -> usize
        requires { a < length (table self.now) }
        ensures { result ≡ rank (table self.now) a }
    {
        let mut count = 0;
        for reached in &self.rows[a] {
            if *reached {
                count += 1;
            }
        }
        if self.reaches(a, a) { count } else { count + 1 }
    }
}
