//! A commit graph: the parents of each commit of a history, by numbers in arrays.
ghost use Rattle.std.specs.Prelude.{◌≡◌, ◌↔◌, ◌++◌, ◌∷◌, [], All, IfOk, IfSome, IsSome, IsTrue, OnOk, map};
ghost use Rattle.std.specs.List.{Contains};
ghost use Rattle.jj_dag.specs.NodeGraph.{AreMaximalNodes, IsCommonNode};
ghost use Rattle.jj_dag.specs.Outcomes.{IfFails};
ghost use Rattle.jj_dag.specs.PackedLists.{lists_of, open_list_of};
ghost use Rattle.jj_store_walks.specs.Histories.{IsHistoryError};
ghost use Rattle.jj_store_walks.specs.ReadCommits.{id_of};
ghost use Rattle.jj_commit_graph.specs.CommitGraphs.{InEachHistoryOf, IsGraphOf};
ghost use Rattle.jj_commit_graph.specs.Numberings.{AreFallingEdges, AreParentsFirst, IsNumbering, named_lists, parents_of};

use crate::numbering::Numbering;
use jj_backend::backend::{Backend, CommitId};
use jj_dag::array_graph::{ArrayGraph, Visited};
use jj_dag::packed_lists::PackedLists;
use jj_dag::ranked_graph::RankedGraph;
use jj_dag::walk_error::WalkError;
use jj_store_walks::{HistoryError, ReadCommit, history_order};
use std::alloc::{AllocError, Global};
use std::marker::Model;

/// The ancestors of some commits, in memory. Its value has the ids of the commits, and those of
/// their parents. It stores each id twice, and a few numbers for each commit and each parent.
#[derive(Drop)]
pub struct CommitGraph {
    numbering: Numbering,
    // The numbers of the parents of each commit, which are less than its own.
    parents: RankedGraph,
    visited: Visited,
}

impl Model for CommitGraph {
    ghost use Rattle.jj_commit_graph.specs.CommitGraphs.{CommitParents, commit_parents_code};
    ghost use Rattle.jj_commit_graph.specs.Numberings.{IsParentsFirstGraph, commits_of};

    ghost Value = { CommitParents };

    ghost coded = { commit_parents_code };

    ghost view = { λ graph. commits_of graph.numbering.ids.items graph.parents };

    ghost invariant = { λ graph. IsParentsFirstGraph graph.numbering graph.parents };
}

// Numbers a commit, and appends the list of the numbers of its parents.
fn add_commit(
    alloc: Global,
    numbering: &mut Numbering,
    lists: &mut PackedLists,
    id: &CommitId,
    parents: &[CommitId],
) -> Result<(), AllocError>
    requires numbering { IsNumbering numbering.old }
    requires edges { AreFallingEdges numbering.old.ids.items (lists_of lists.old) }
    requires open_list { open_list_of lists.old ≡ [] }
    requires parents { All (Contains numbering.old.ids.items) parents.now }
    requires new { ¬ (Contains numbering.old.ids.items id.now) }
    ensures numbering { OnOk result (IsNumbering numbering.new) }
    ensures edges { OnOk result (AreFallingEdges numbering.new.ids.items (lists_of lists.new)) }
    ensures open_list { OnOk result (open_list_of lists.new ≡ []) }
    ensures ids { OnOk result (numbering.new.ids.items
        ≡ numbering.old.ids.items ++ id.now ∷ []) }
    ensures parents { OnOk result (named_lists numbering.new.ids.items (lists_of lists.new)
        ≡ named_lists numbering.old.ids.items (lists_of lists.old)
        ++ parents.now ∷ []) }
{
    match numbering.numbers_of(alloc, parents)? {
        Some(numbers) => lists.push_list(&numbers)?,
        // All parents are numbered.
        None => unreachable!(),
    }
    numbering.push(id.clone()?)
}

impl CommitGraph {
    /// Reads the commits that the starts reach, one for each start and each parent of a commit.
    /// Fails with `Node` of `Read` of the error of a failed read or of `Cycle` of some ancestor if
    /// there is a cycle, and with `Memory` if memory runs out. Takes `O(n log n + e)` for n commits
    /// and e parents.
    pub fn read<B: Backend>(
        alloc: Global,
        store: &B,
        starts: &[CommitId],
    ) -> Result<CommitGraph, WalkError<HistoryError>>
        // The graph has exactly the ancestors of the starts, with their parents in the store.
        ensures graph { IfOk result (IsGraphOf (B.objects store.now) starts.now) }
        // The starts are among them.
        ensures starts { IfOk result (λ graph. All (Contains graph.ids) starts.now) }
        // An error but `Memory` is that of a failed read of such an ancestor, or of a cycle.
        ensures error { IfFails result (IsHistoryError (B.objects store.now)
            (B.may_fail store.now) starts.now) }
    {
        let mut commits = history_order(alloc, store, starts)?;
        commits.reverse();
        Ok(CommitGraph::from_commits(alloc, &commits)?)
    }

    // The graph of these commits, which come after their parents.
    fn from_commits(alloc: Global, commits: &[ReadCommit]) -> Result<CommitGraph, AllocError>
        requires { AreParentsFirst commits.now }
        ensures ids { IfOk result (λ graph. graph.ids ≡ map id_of commits.now) }
        ensures parents { IfOk result (λ graph. graph.parents ≡ map parents_of commits.now) }
    {
        let mut numbering = Numbering::new(alloc);
        let mut lists = PackedLists::new(alloc);
        for commit in commits {
            add_commit(
                alloc,
                &mut numbering,
                &mut lists,
                &commit.id,
                &commit.commit.parents,
            )?;
        }
        Ok(CommitGraph {
            numbering,
            parents: RankedGraph::new(alloc, ArrayGraph::new(lists))?,
            visited: Visited::new(alloc),
        })
    }

    /// Returns whether the graph has a commit of this id.
    pub fn contains(&self, id: &CommitId) -> bool
        ensures { IsTrue result ↔ Contains self.now.ids id.now }
    {
        self.numbering.number(id).is_some()
    }

    /// Returns the common ancestors of both sets that are no proper ancestor of another one, each
    /// once, or `None` if the graph lacks one of these ids. Fails if memory runs out.
    pub fn merge_bases(
        &mut self,
        alloc: Global,
        set1: &[CommitId],
        set2: &[CommitId],
    ) -> Result<Option<Vec<CommitId>>, AllocError>
        // It finds them exactly if the graph has all these ids.
        ensures found { IfOk result (λ found. IsSome found
            ↔ (All (Contains self.old.ids) set1.now × All (Contains self.old.ids) set2.now)) }
        // In each history that has the commits of the graph with these parents, the ids are exactly
        // the common ancestors of both sets that are no proper ancestor of another one.
        ensures bases { IfOk result (λ found. IfSome found (λ bases.
            InEachHistoryOf self.old (λ parents.
            AreMaximalNodes parents (IsCommonNode parents set1.now set2.now) bases.items))) }
        // The graph has not changed.
        ensures unchanged { self.new ≡ self.old }
    {
        let Some(numbers1) = self.numbering.numbers_of(alloc, set1)? else {
            return Ok(None);
        };
        let Some(numbers2) = self.numbering.numbers_of(alloc, set2)? else {
            return Ok(None);
        };
        let visited = &mut self.visited;
        let bases = self
            .parents
            .closest_common_nodes(alloc, visited, &numbers1, &numbers2)?;
        let ids = self.numbering.ids_of(alloc, &bases)?;
        Ok(Some(ids))
    }

    /// Returns the ids that are no proper ancestor of another one, each once, or `None` if the
    /// graph lacks one of them. Fails if memory runs out.
    pub fn heads(
        &mut self,
        alloc: Global,
        ids: &[CommitId],
    ) -> Result<Option<Vec<CommitId>>, AllocError>
        // It finds them exactly if the graph has all these ids.
        ensures found { IfOk result (λ found. IsSome found
            ↔ All (Contains self.old.ids) ids.now) }
        // In each history that has the commits of the graph with these parents, the heads are
        // exactly the ids that are no proper ancestor of another one.
        ensures heads { IfOk result (λ found. IfSome found (λ heads.
            InEachHistoryOf self.old (λ parents.
            AreMaximalNodes parents (Contains ids.now) heads.items))) }
        // The graph has not changed.
        ensures unchanged { self.new ≡ self.old }
    {
        let Some(numbers) = self.numbering.numbers_of(alloc, ids)? else {
            return Ok(None);
        };
        let visited = &mut self.visited;
        let heads = self.parents.heads(alloc, visited, &numbers)?;
        let ids = self.numbering.ids_of(alloc, &heads)?;
        Ok(Some(ids))
    }
}
