//! Shortest paths over plain edges with whole-number weights: numbers for the nodes that meet every
//! edge, or a cycle whose weights sum below 0, which shows that there are none.
ghost use Rattle.std.specs.Prelude.{◌≡◌, ◌^◌, ◌≤◌, length, IfOk};
ghost use Rattle.std.specs.List.{All};
ghost use Rattle.carol_difference.specs.Edges.{HasEnds, IsAnswer, IsWithin, weight_limit};

use crate::forest::{Forest, Step};
use std::alloc::{AllocError, Global};

/// Asks that the number at node `to` is at most the number at node `from` plus the weight.
#[derive(Clone, Copy, Debug, PartialEq, Eq)]
pub struct Edge {
    pub from: u32,
    pub to: u32,
    pub weight: i128,
}

/// Which of the two a graph has; no graph has both.
#[derive(Debug, Drop)]
pub enum Paths {
    /// One number a node, which together meet every edge.
    Potentials(Vec<i128>),
    /// The numbers of edges, each beginning where the one before it ends and the first where the
    /// last ends, whose weights sum below 0.
    Cycle(Vec<u32>),
}

/// Decides whether numbers for the nodes `0..nodes` meet every edge. The only error is want of
/// memory.
pub fn potentials_or_cycle(alloc: Global, nodes: u32, edges: &[Edge]) -> Result<Paths, AllocError>
    requires ends { All (HasEnds nodes) edges.now }
    requires count { length edges.now ≤ 2 ^ 29 }
    requires weights { All (IsWithin weight_limit) edges.now }

    ensures { IfOk result (IsAnswer nodes edges.now) }
{
    let mut forest = Forest::new(alloc, nodes)?;
    loop {
        match forest.round(nodes, edges)? {
            Step::Kept => return Ok(Paths::Potentials(forest.totals(alloc, nodes, edges)?)),
            Step::Lowered => {
                if let Some(numbers) = forest.cycle(alloc, nodes, edges)? {
                    return Ok(Paths::Cycle(numbers));
                }
            }
            Step::Deep => return Ok(Paths::Cycle(forest.deep_cycle(alloc, nodes, edges)?)),
        }
    }
}
