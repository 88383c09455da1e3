ghost use Rattle.std.specs.Prelude.{◌≡◌, List, ◌^◌, ◌<◌, ◌≤◌, [], ◌∷◌, ◌++◌, length, reverse, IfNone, IfOk, IfSome, IsNone, OnOk};
ghost use Rattle.std.specs.List.{All};
ghost use Rattle.carol_difference.specs.declared.paths.Edge.{Edge};
ghost use Rattle.carol_difference.specs.Edges.{HasEnds, IsNegativeCycle, IsPotential, IsWithin, Meets, edge_at, weight_limit};
ghost use Rattle.carol_difference.specs.Forest.{IsDeep, IsForest, IsLighter, IsShallow, Leaves, total_at};

use crate::Edge;
use std::alloc::{AllocError, Global};

/// A walk to a node: the parent's walk and one more edge, or no edge at all where the depth is 0.
#[derive(Clone, Copy)]
pub struct Entry {
    pub total: i128,
    pub edge: u32,
    pub parent: u32,
    pub node: u32,
    pub depth: u32,
}

/// What became of the forest.
#[derive(Clone, Copy)]
pub enum Step {
    /// It is as it was.
    Kept,
    /// A node's total was lowered.
    Lowered,
    /// The last entry's walk has as many edges as there are nodes.
    Deep,
}

/// Walks to the nodes, a later one of a node lighter than an earlier one.
#[derive(Drop)]
pub struct Forest {
    pub entries: Vec<Entry>,
    pub latest: Vec<u32>,
}

impl Forest {
    /// A walk of no edges to each node.
    pub fn new(alloc: Global, nodes: u32) -> Result<Forest, AllocError>
        ensures forest { IfOk result (λ f. (edges : List Edge)
            → IsForest nodes edges f.entries.items f.latest.items) }
        ensures shallow { IfOk result (λ f. IsShallow nodes f.entries.items) }
    {
        let mut entries = Vec::with_capacity(alloc, nodes as usize)?;
        let mut latest = Vec::with_capacity(alloc, nodes as usize)?;
        for node in 0..nodes {
            entries.push(Entry {
                total: 0,
                edge: 0,
                parent: 0,
                node,
                depth: 0,
            })?;
            latest.push(node)?;
        }
        Ok(Forest { entries, latest })
    }

    // The walk through this edge to its end, where it is lighter than the latest one to that node.
    fn lighter(&self, nodes: u32, edges: &[Edge], number: u32) -> Option<Entry>
        requires ends { All (HasEnds nodes) edges.now }
        requires weights { All (IsWithin weight_limit) edges.now }
        requires edge { number < length edges.now }
        requires forest { IsForest nodes edges.now self.now.entries.items self.now.latest.items }
        requires shallow { IsShallow nodes self.now.entries.items }

        ensures none { IfNone result
            (Meets (total_at self.now.entries.items self.now.latest.items)
            (edge_at edges.now number)) }
        ensures some { IfSome result
            (IsLighter nodes edges.now self.now.entries.items self.now.latest.items) }
    {
        let edge = edges[number as usize];
        let parent = self.latest[edge.from as usize];
        let from = self.entries[parent as usize];
        let latest = self.latest[edge.to as usize];
        let total = from.total + edge.weight;
        if self.entries[latest as usize].total <= total {
            return None;
        }
        Some(Entry {
            total,
            edge: number,
            parent,
            node: edge.to,
            depth: from.depth + 1,
        })
    }

    // Appends a lighter walk.
    fn add(&mut self, nodes: u32, edges: &[Edge], entry: Entry) -> Result<(), AllocError>
        requires forest { IsForest nodes edges.now self.old.entries.items self.old.latest.items }
        requires lighter { IsLighter nodes edges.now self.old.entries.items
            self.old.latest.items entry }

        ensures forest { OnOk result
            (IsForest nodes edges.now self.new.entries.items self.new.latest.items) }
        ensures entries { OnOk result (self.new.entries.items
            ≡ self.old.entries.items ++ entry ∷ []) }
    {
        let Ok(number) = u32::try_from(self.entries.len()) else {
            return Err(AllocError);
        };
        self.entries.push(entry)?;
        self.latest[entry.node as usize] = number;
        Ok(())
    }

    // Looks whether one edge makes a lighter walk to its end, and keeps that walk.
    fn relax(&mut self, nodes: u32, edges: &[Edge], number: u32) -> Result<Step, AllocError>
        requires ends { All (HasEnds nodes) edges.now }
        requires weights { All (IsWithin weight_limit) edges.now }
        requires edge { number < length edges.now }
        requires forest { IsForest nodes edges.now self.old.entries.items self.old.latest.items }
        requires shallow { IsShallow nodes self.old.entries.items }

        ensures kept { result ≡ Ok Step.Kept → (self.new.entries.items ≡ self.old.entries.items)
            × (self.new.latest.items ≡ self.old.latest.items) }
        ensures leaves { IfOk result
            (Leaves nodes edges.now self.old.entries.items self.new.entries.items
            self.new.latest.items
            (Meets (total_at self.new.entries.items self.new.latest.items)
            (edge_at edges.now number))) }
    {
        let Some(entry) = self.lighter(nodes, edges, number) else {
            return Ok(Step::Kept);
        };
        self.add(nodes, edges, entry)?;
        if entry.depth == nodes {
            Ok(Step::Deep)
        } else {
            Ok(Step::Lowered)
        }
    }

    /// Looks at every edge in turn.
    pub fn round(&mut self, nodes: u32, edges: &[Edge]) -> Result<Step, AllocError>
        requires ends { All (HasEnds nodes) edges.now }
        requires count { length edges.now ≤ 2 ^ 29 }
        requires weights { All (IsWithin weight_limit) edges.now }
        requires forest { IsForest nodes edges.now self.old.entries.items self.old.latest.items }
        requires shallow { IsShallow nodes self.old.entries.items }

        ensures leaves { IfOk result
            (Leaves nodes edges.now self.old.entries.items self.new.entries.items
            self.new.latest.items
            (All (Meets (total_at self.new.entries.items self.new.latest.items)) edges.now)) }
    {
        let mut is_lower = false;
        for number in 0..edges.len() as u32 {
            match self.relax(nodes, edges, number)? {
                Step::Kept => {}
                Step::Lowered => is_lower = true,
                Step::Deep => return Ok(Step::Deep),
            }
        }
        if is_lower {
            Ok(Step::Lowered)
        } else {
            Ok(Step::Kept)
        }
    }

    /// The totals of the nodes' latest walks.
    pub fn totals(&self, alloc: Global, nodes: u32, edges: &[Edge]) -> Result<Vec<i128>, AllocError>
        requires ends { All (HasEnds nodes) edges.now }
        requires forest { IsForest nodes edges.now self.now.entries.items self.now.latest.items }
        requires shallow { IsShallow nodes self.now.entries.items }
        requires meets { All (Meets (total_at self.now.entries.items self.now.latest.items))
            edges.now }

        ensures { IfOk result (λ v. IsPotential nodes edges.now v.items) }
    {
        let mut values = Vec::with_capacity(alloc, self.latest.len())?;
        for entry in &self.latest {
            values.push(self.entries[*entry as usize].total)?;
        }
        Ok(values)
    }

    /// The cycle on the walk of the last entry, if that walk comes to a node again. A deep one
    /// does.
    pub fn cycle(
        &self,
        alloc: Global,
        nodes: u32,
        edges: &[Edge],
    ) -> Result<Option<Vec<u32>>, AllocError>
        requires forest { IsForest nodes edges.now self.now.entries.items self.now.latest.items }
        requires some { 0 < length self.now.entries.items }

        ensures cycle { IfOk result (λ o. IfSome o (λ v. IsNegativeCycle nodes edges.now v.items)) }
        ensures deep { IfOk result (λ o. IsNone o → ¬ IsDeep nodes self.now.entries.items) }
    {
        let mut passed = vec![in alloc; None; nodes as usize]?;
        let mut trail = Vec::new(alloc);
        let mut at = self.entries.len() - 1;
        loop {
            let entry = self.entries[at];
            if let Some(start) = passed[entry.node as usize] {
                let (_, closed) = trail.as_slice().split_at(start);
                let numbers = reversed(alloc, closed)?;
                return Ok(Some(numbers));
            }
            if entry.depth == 0 {
                return Ok(None);
            }
            passed[entry.node as usize] = Some(trail.len());
            trail.push(entry.edge)?;
            at = entry.parent as usize;
        }
    }

    /// The cycle on the walk of the last entry, which is deep.
    pub fn deep_cycle(
        &self,
        alloc: Global,
        nodes: u32,
        edges: &[Edge],
    ) -> Result<Vec<u32>, AllocError>
        requires forest { IsForest nodes edges.now self.now.entries.items self.now.latest.items }
        requires deep { IsDeep nodes self.now.entries.items }

        ensures { IfOk result (λ v. IsNegativeCycle nodes edges.now v.items) }
    {
        match self.cycle(alloc, nodes, edges)? {
            Some(numbers) => Ok(numbers),
            None => unreachable!(),
        }
    }
}

fn reversed(alloc: Global, numbers: &[u32]) -> Result<Vec<u32>, AllocError>
    ensures { IfOk result (λ v. v.items ≡ reverse numbers.now) }
{
    numbers.iter().rev().copied().collect(alloc)
}
