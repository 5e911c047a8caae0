//! Graphs in arrays whose nodes are ranked. A walk expands only nodes that rank above what it looks
//! for.
ghost use Rattle.std.specs.Prelude.{◌≡◌, IfOk, MatchBool};
ghost use Rattle.std.specs.List.Sorted.{IsStrictlyIncreasing};
ghost use Rattle.jj_dag.specs.ArrayGraphs.{HasCycle, graph_of};
ghost use Rattle.jj_dag.specs.CommonNodes.{AreClosestCommon, HasNoCommonCycle};
ghost use Rattle.jj_dag.specs.Graph.{AreMaximalElements, IsAcyclicFrom};

use crate::array_graph::{ArrayGraph, Visited};
use crate::ranked_common::ranked_closest_in;
use crate::ranked_heads::ranked_heads_in;
use crate::ranks::Ranks;
use crate::walk_error::WalkError;
use std::alloc::{AllocError, Global};
use std::marker::Model;

/// A graph in arrays whose nodes are ranked, unless it has a cycle: each node ranks above its
/// neighbors. Its value is the list of the lists of neighbors.
#[derive(Drop)]
pub struct RankedGraph {
    graph: ArrayGraph,
    ranks: Option<Ranks>,
}

impl Model for RankedGraph {
    ghost use Rattle.std.specs.Prelude.{MatchOption, ℕ, List};
    ghost use Rattle.jj_dag.specs.ArrayGraphs.{HasCycle, graph_of};
    ghost use Rattle.jj_dag.specs.Ranks.{AreRanks, rank_in};

    ghost Value = { List (List ℕ) };

    ghost view = { λ ranked. ranked.graph };

    ghost invariant = { λ ranked. MatchOption ranked.ranks (HasCycle (graph_of ranked.graph))
        (λ ranks. AreRanks (graph_of ranked.graph) (rank_in ranks)) };
}

impl RankedGraph {
    /// Ranks the nodes of a graph. Fails if memory runs out. Takes `O(n + e)` for n nodes and e
    /// edges.
    pub fn new(alloc: Global, graph: ArrayGraph) -> Result<RankedGraph, AllocError>
        ensures { IfOk result (λ ranked. ranked ≡ graph) }
    {
        let ranks = match Ranks::new(alloc, &graph) {
            Ok(ranks) => Some(ranks),
            Err(error) => match error {
                WalkError::Node(_) => None,
                WalkError::Memory => return Err(AllocError),
            },
        };
        Ok(RankedGraph { graph, ranks })
    }

    /// Returns the graph without the ranks, for walks that do not use them.
    pub fn graph(&self) -> &ArrayGraph
        ensures { result.now ≡ self.now }
    {
        &self.graph
    }

    /// Returns whether the graph has a cycle.
    pub fn has_cycle(&self) -> bool
        ensures { MatchBool result (HasCycle (graph_of self.now))
            (¬ (HasCycle (graph_of self.now))) }
    {
        self.ranks.is_none()
    }

    /// Returns the starts that no other of them reaches, in ascending order. Fails if memory runs
    /// out. Expands only nodes that rank above the least start.
    pub fn heads(
        &self,
        alloc: Global,
        visited: &mut Visited,
        starts: &[usize],
    ) -> Result<Vec<usize>, AllocError>
        ensures maximal { IfOk result (λ heads. IsAcyclicFrom (graph_of self.now) starts.now
            → AreMaximalElements (graph_of self.now) starts.now heads.items) }
        ensures ascending { IfOk result (λ heads. IsAcyclicFrom (graph_of self.now) starts.now
            → IsStrictlyIncreasing heads.items) }
    {
        let Some(ranks) = &self.ranks else {
            return self.graph.heads(alloc, visited, starts);
        };
        let is_dense = self.graph.has_dense_nodes(starts);
        visited.heads.clear(alloc, is_dense);
        visited.visited.clear(alloc, is_dense);
        ranked_heads_in(
            alloc,
            &self.graph,
            ranks,
            &mut visited.heads,
            &mut visited.visited,
            starts,
        )?;
        let mut ascending = visited.heads.to_vec(alloc)?;
        ascending.sort_unstable();
        Ok(ascending)
    }

    /// Returns the nodes that both sets reach and that no other such node reaches, in ascending
    /// order. Fails if memory runs out. Expands only nodes that rank above such a node, or above
    /// all nodes of one of the sets.
    pub fn closest_common_nodes(
        &self,
        alloc: Global,
        visited: &mut Visited,
        set1: &[usize],
        set2: &[usize],
    ) -> Result<Vec<usize>, AllocError>
        ensures closest { IfOk result (λ found.
            HasNoCommonCycle (graph_of self.now) set1.now set2.now
            → AreClosestCommon (graph_of self.now) set1.now set2.now found.items) }
        ensures ascending { IfOk result (λ found.
            HasNoCommonCycle (graph_of self.now) set1.now set2.now
            → IsStrictlyIncreasing found.items) }
    {
        let Some(ranks) = &self.ranks else {
            return self.graph.closest_common_nodes(alloc, visited, set1, set2);
        };
        let is_dense = self.graph.has_dense_nodes(set1) && self.graph.has_dense_nodes(set2);
        visited.known.clear(alloc, is_dense);
        let mut closest = ranked_closest_in(
            alloc,
            &self.graph,
            ranks,
            &mut visited.known,
            set1,
            set2,
        )?;
        closest.sort_unstable();
        Ok(closest)
    }
}
