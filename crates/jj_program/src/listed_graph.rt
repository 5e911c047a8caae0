//! A graph as adjacency lists over dense numbers, which are the nodes of all walks. Walks keep what
//! they know of these numbers without hashing, so an input cannot choose hash collisions.
ghost use Rattle.std.specs.Prelude.{◌≡◌, ◌++◌, All, IfOk, MatchBool, OnOk, map};
ghost use Rattle.std.specs.List.{Contains};
ghost use Rattle.std.specs.List.Sorted.{IsStrictlyIncreasing};
ghost use Rattle.jj_dag.specs.CommonNodes.{AreClosestCommon};
ghost use Rattle.jj_dag.specs.Graph.{AreMaximalElements, Graph, IsGreatestTopologicalOrder};
ghost use Rattle.jj_dag.specs.PackedLists.{lists_of, open_list_of};
ghost use Rattle.jj_program.specs.GraphCommand.{HasCycle, graph_of};
ghost use Rattle.jj_program.specs.GraphViews.{listed_by};
ghost use Rattle.jj_program.specs.Parts.{AreWithin, id_of};

use crate::edges::Edges;
use crate::numbering::Numbering;
use jj_dag::array_graph::{ArrayGraph, Visited};
use jj_dag::packed_lists::PackedLists;
use jj_dag::ranked_graph::RankedGraph;
use jj_dag::walk_error::WalkError;
use std::alloc::{AllocError, Global};

// The numbers of ids, and the graph of these numbers.
#[derive(Drop)]
pub(crate) struct ListedGraph {
    numbering: Numbering,
    graph: RankedGraph,
    ghost within: { AreWithin numbering.ids.items graph },
}

impl ListedGraph {
    ghost use Rattle.jj_program.specs.ListedGraphs.{Represents, named_by, numbered_by};

    // Numbers the ids of the lists and of the requests.
    pub(crate) fn new(
        alloc: Global,
        edges: &Edges,
        requested: &[u64],
    ) -> Result<ListedGraph, AllocError>
        ensures graph { IfOk result (λ graph. Represents graph (graph_of (listed_by edges.now))) }
        ensures requested { IfOk result (λ graph. All (Contains (named_by graph)) requested.now) }
    {
        let numbering = Numbering::new(alloc, edges.limit(), requested, edges.targets())?;
        let lists = numbered_lists(alloc, edges, &numbering)?;
        let array = ArrayGraph::new(lists);
        let graph = RankedGraph::new(alloc, array)?;
        Ok(ListedGraph { numbering, graph })
    }

    // Whether the graph has a cycle anywhere.
    pub(crate) fn has_cycle(&self) -> bool
        ensures { MatchBool result (HasCycle (numbered_by self.now))
            (¬ (HasCycle (numbered_by self.now))) }
    {
        self.graph.has_cycle()
    }

    // Returns the lexicographically greatest topological order of the nodes reachable from `ids`.
    pub(crate) fn greatest_order(
        &self,
        alloc: Global,
        visited: &mut Visited,
        ids: &[u64],
    ) -> Result<Vec<u64>, AllocError>
        requires acyclic { ¬ (HasCycle (numbered_by self.now)) }
        requires named { All (Contains (named_by self.now)) ids.now }
        ensures { IfOk result (λ order. (shown : Graph) → Represents self.now shown
            → IsGreatestTopologicalOrder shown ids.now order.items) }
    {
        let starts = self.numbering.numbers_of(alloc, ids)?;
        let plain = self.graph.graph();
        match plain.greatest_order(alloc, visited, &starts) {
            Ok(order) => self.numbering.ids_of(alloc, &order),
            Err(error) => match error {
                WalkError::Memory => Err(AllocError),
                // Only a cycle makes a node error.
                WalkError::Node(_) => unreachable!(),
            },
        }
    }

    // Returns the ids that are reachable from no other of them, in ascending order.
    pub(crate) fn heads(
        &self,
        alloc: Global,
        visited: &mut Visited,
        ids: &[u64],
    ) -> Result<Vec<u64>, AllocError>
        requires acyclic { ¬ (HasCycle (numbered_by self.now)) }
        requires named { All (Contains (named_by self.now)) ids.now }
        ensures maximal { IfOk result (λ heads. (shown : Graph) → Represents self.now shown
            → AreMaximalElements shown ids.now heads.items) }
        ensures ascending { IfOk result (λ heads. IsStrictlyIncreasing heads.items) }
    {
        let starts = self.numbering.numbers_of(alloc, ids)?;
        let heads = self.graph.heads(alloc, visited, &starts)?;
        self.numbering.ids_of(alloc, &heads)
    }

    // Returns the maximal nodes reachable from both sets of ids, in ascending order.
    pub(crate) fn closest_common_nodes(
        &self,
        alloc: Global,
        visited: &mut Visited,
        set1: &[u64],
        set2: &[u64],
    ) -> Result<Vec<u64>, AllocError>
        requires acyclic { ¬ (HasCycle (numbered_by self.now)) }
        requires named { All (Contains (named_by self.now)) set1.now }
        requires named_second { All (Contains (named_by self.now)) set2.now }
        ensures closest { IfOk result (λ common. (shown : Graph) → Represents self.now shown
            → AreClosestCommon shown set1.now set2.now common.items) }
        ensures ascending { IfOk result (λ common. IsStrictlyIncreasing common.items) }
    {
        let first = self.numbering.numbers_of(alloc, set1)?;
        let second = self.numbering.numbers_of(alloc, set2)?;
        let common = self
            .graph
            .closest_common_nodes(alloc, visited, &first, &second)?;
        self.numbering.ids_of(alloc, &common)
    }
}

// Returns the numbers of the neighbors of each id that is numbered.
fn numbered_lists(
    alloc: Global,
    edges: &Edges,
    numbering: &Numbering,
) -> Result<PackedLists, AllocError>
    requires { All (Contains numbering.now.ids.items) edges.now.targets.items }
    ensures { IfOk result (λ lists. map (map (id_of numbering.now.ids.items)) (lists_of lists)
        ≡ map (graph_of (listed_by edges.now)) numbering.now.ids.items) }
{
    let mut lists = PackedLists::new(alloc);
    for (number, id) in numbering.ids().iter().enumerate() {
        push_numbers(&mut lists, numbering, number, edges.neighbors_of(*id))?;
        lists.finish_list()?;
    }
    Ok(lists)
}

// Appends the numbers of these ids to the open list. The first is looked for beside `near`, each
// other one beside the one before.
fn push_numbers(
    lists: &mut PackedLists,
    numbering: &Numbering,
    near: usize,
    ids: &[u64],
) -> Result<(), AllocError>
    requires { All (Contains numbering.now.ids.items) ids.now }
    ensures lists { OnOk result (lists_of lists.new ≡ lists_of lists.old) }
    ensures open_list { OnOk result (map (id_of numbering.now.ids.items) (open_list_of lists.new)
        ≡ map (id_of numbering.now.ids.items) (open_list_of lists.old) ++ ids.now) }
{
    let mut last = near;
    for id in ids {
        last = numbering.number(last, *id);
        lists.push(last)?;
    }
    Ok(())
}
