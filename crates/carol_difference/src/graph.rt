ghost use Rattle.std.specs.Prelude.{◌≡◌, ◌+◌, ◌*◌, ◌^◌, ◌<◌, ◌≤◌, length, Some, IfOk, OnOk};
ghost use Rattle.std.specs.List.{All};
ghost use Rattle.carol_difference.specs.Graph.{Grows, IsGraph, IsTable, variable_at};
ghost use Rattle.carol_difference.specs.Rows.{IsDifference, IsNarrow};

use crate::Edge;
use crate::sides::sides_of;
use carol_formula::Row;
use std::alloc::{AllocError, Global};
use std::collections::BTreeMap;

/// The rows as edges between the nodes of their variables. Node 0 stands for zero, and node k + 1
/// for variable k.
#[derive(Drop)]
pub struct Graph {
    pub numbers: BTreeMap<u32, u32>,
    pub variables: Vec<u32>,
    pub edges: Vec<Edge>,
}

/// The graph of rows of differences.
pub fn graph_of(alloc: Global, rows: &[Row]) -> Result<Graph, AllocError>
    requires count { length rows.now ≤ 2 ^ 29 }
    requires narrow { All IsNarrow rows.now }
    requires differences { All IsDifference rows.now }

    ensures { IfOk result (λ g.
        IsGraph rows.now (length rows.now) g.numbers g.variables.items g.edges.items) }
{
    let mut graph = Graph {
        numbers: BTreeMap::new(alloc),
        variables: Vec::new(alloc),
        edges: Vec::with_capacity(alloc, rows.len())?,
    };
    for number in 0..rows.len() {
        graph.add(rows, number)?;
    }
    Ok(graph)
}

impl Graph {
    // The node of a variable, which is made where there is none yet.
    fn node(&mut self, variable: u32) -> Result<u32, AllocError>
        requires table { IsTable self.old.numbers self.old.variables.items }
        requires few { length self.old.variables.items < 2 ^ 31 }

        ensures table { OnOk result (IsTable self.new.numbers self.new.variables.items) }
        ensures grows { OnOk result (Grows self.old.variables.items self.new.variables.items) }
        ensures node { IfOk result (λ node. (node ≤ length self.new.variables.items)
            × (variable_at self.new.variables.items node ≡ Some variable)) }
        ensures edges { OnOk result (self.new.edges.items ≡ self.old.edges.items) }
    {
        if let Some(node) = self.numbers.get(&variable) {
            return Ok(*node);
        }
        self.variables.push(variable)?;
        let node = self.variables.len() as u32;
        self.numbers.insert(variable, node)?;
        Ok(node)
    }

    // The node of a variable, or that of zero.
    fn end(&mut self, variable: Option<u32>) -> Result<u32, AllocError>
        requires table { IsTable self.old.numbers self.old.variables.items }
        requires few { length self.old.variables.items < 2 ^ 31 }

        ensures table { OnOk result (IsTable self.new.numbers self.new.variables.items) }
        ensures grows { OnOk result (Grows self.old.variables.items self.new.variables.items) }
        ensures node { IfOk result (λ node. (node ≤ length self.new.variables.items)
            × (variable_at self.new.variables.items node ≡ variable)) }
        ensures edges { OnOk result (self.new.edges.items ≡ self.old.edges.items) }
    {
        match variable {
            Some(variable) => self.node(variable),
            None => Ok(0),
        }
    }

    // Appends the edge of the row with this number, which is the next.
    fn add(&mut self, rows: &[Row], number: usize) -> Result<(), AllocError>
        requires count { length rows.now ≤ 2 ^ 29 }
        requires narrow { All IsNarrow rows.now }
        requires differences { All IsDifference rows.now }
        requires known { number < length rows.now }
        requires graph { let old = self.old in
            IsGraph rows.now number old.numbers old.variables.items old.edges.items }

        ensures { let new = self.new in
            OnOk result (IsGraph rows.now (number + 1) new.numbers new.variables.items
            new.edges.items) }
    {
        let row = &rows[number];
        let Some(sides) = sides_of(row) else {
            unreachable!()
        };
        let to = self.end(sides.plus)?;
        let from = self.end(sides.minus)?;
        self.edges.push(Edge {
            from,
            to,
            weight: -row.0.rest(),
        })?;
        Ok(())
    }
}
