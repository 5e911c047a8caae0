//! Candidates for the next node of a grouped graph: a stack of ids with in-degrees.
ghost use Rattle.std.specs.Prelude.{◌≡◌, ◌⊎◌, ◌<◌, ◌++◌, ◌∷◌, ◌&&◌, ◌||◌, Bool, [], List, Option, None, IfOk, IsSome, OnOk, OnErr, MatchOption, IsTrue, true, false, option_to_list};
ghost use Rattle.std.specs.List.{list_any};
ghost use Rattle.std.specs.HashMap.{get};
ghost use Rattle.std.specs.VecDeque.{deque_items};
ghost use Rattle.jj_walks.specs.Branches.{AreCounts, Climbs, IsFirstBranch, IsUntaken, TakesHead, Unblocks, has_child};
ghost use Rattle.jj_walks.specs.Candidates.{AreSameIds, AreToFollow, has_id, is_listed, is_zero, rounds_left};
ghost use Rattle.jj_walks.specs.Grouped.{leads_to, targets_of};

use crate::graph::GraphEdge;
use crate::lists::push_at;
use std::alloc::{AllocError, Global};
use std::collections::{HashMap, VecDeque};
use std::hash::Hash;

/// Ids to be yielded, and the children that must be yielded before them.
#[derive(Debug, Clone, Drop)]
pub struct Candidates<ID: Hash + Eq> {
    /// The last one is yielded first, unless it has a pending child.
    ids: Vec<ID>,
    /// Candidates with a pending child.
    blocked: Vec<ID>,
    /// The children of each id, in the order of the input, until they were made candidates.
    children: HashMap<ID, Vec<ID>>,
    /// The prioritized ids, and those of nodes that no node had an edge to when they were read.
    heads: VecDeque<ID>,
}

impl<ID: Hash + Eq + Clone + Drop> Candidates<ID> {
    /// Creates an empty collection.
    pub fn new(alloc: Global) -> Self
        ensures ids { result.ids.items ≡ [] }
        ensures heads { deque_items result.heads ≡ [] }
        ensures untaken { IsUntaken ID.eq (λ _ _. false) [] result }
    {
        Candidates {
            ids: Vec::new(alloc),
            blocked: Vec::new(alloc),
            children: HashMap::new(alloc),
            heads: VecDeque::new(alloc),
        }
    }

    /// Appends a candidate. Fails if memory runs out.
    pub fn push(&mut self, id: ID) -> Result<(), AllocError>
        ensures ids { OnOk result (self.new.ids.items ≡ self.old.ids.items ++ id ∷ []) }
        ensures heads { self.new.heads ≡ self.old.heads }
        ensures blocked { self.new.blocked ≡ self.old.blocked }
        ensures children { self.new.children ≡ self.old.children }
    {
        self.ids.push(id)?;
        Ok(())
    }

    /// Appends a head. Fails if memory runs out.
    pub fn push_head(&mut self, id: ID) -> Result<(), AllocError>
        ensures ids { self.new.ids ≡ self.old.ids }
        ensures heads { OnOk result (deque_items self.new.heads ≡ deque_items self.old.heads
            ++ id ∷ []) }
        ensures on_error { OnErr result (deque_items self.new.heads ≡ deque_items self.old.heads) }
        ensures blocked { self.new.blocked ≡ self.old.blocked }
        ensures children { self.new.children ≡ self.old.children }
    {
        self.heads.push_back(id)?;
        Ok(())
    }

    /// Drops the head that was pushed last.
    pub fn drop_head(&mut self)
        ensures ids { self.new.ids ≡ self.old.ids }
        ensures heads { (heads : List ID) (id : ID) → deque_items self.old.heads ≡ heads ++ id ∷ []
            → deque_items self.new.heads ≡ heads }
        ensures blocked { self.new.blocked ≡ self.old.blocked }
        ensures children { self.new.children ≡ self.old.children }
    {
        self.heads.pop_back();
    }

    /// Appends the targets of a yielded node to the candidates. Fails if memory runs out.
    pub fn push_targets(&mut self, edges: &[GraphEdge<ID>]) -> Result<(), AllocError>
        requires clones { (i j : ID) → ID.is_clone i j → IsTrue (ID.eq i j) }
        ensures ids { OnOk result ((more : List ID)
            × (self.new.ids.items ≡ self.old.ids.items ++ more)
            × AreSameIds ID.eq (targets_of edges.now) more) }
        ensures heads { self.new.heads ≡ self.old.heads }
    {
        for edge in edges {
            if !edge.is_missing() {
                self.ids.push(edge.target.clone()?)?;
            }
        }
        Ok(())
    }

    /// Adds the node to the children of the targets of its edges. Fails if memory runs out.
    pub fn remember(&mut self, id: &ID, edges: &[GraphEdge<ID>]) -> Result<(), AllocError>
        requires clones { (i j : ID) → ID.is_clone i j → IsTrue (ID.eq i j) }
        ensures ids { self.new.ids ≡ self.old.ids }
        ensures heads { self.new.heads ≡ self.old.heads }
        ensures blocked { self.new.blocked ≡ self.old.blocked }
        ensures children { OnOk result ((j i : ID) → has_child ID.eq self.new.children j i
            ≡ (has_child ID.eq self.old.children j i
            || (list_any (leads_to ID.eq j) edges.now && ID.eq id.now i))) }
    {
        for edge in edges {
            if !edge.is_missing() {
                push_at(&mut self.children, edge.target.clone()?, id.clone()?)?;
            }
        }
        Ok(())
    }

    /// Removes and returns the last candidate whose in-degree is 0. Drops ids without an in-degree.
    /// Fails if memory runs out.
    pub fn take(&mut self, counts: &HashMap<ID, usize>) -> Result<Option<ID>, AllocError>
        ensures taken { IfOk result (λ o. MatchOption o
            ((self.new.ids.items ≡ []) × (deque_items self.new.heads ≡ []))
            (λ i. is_zero (get ID.eq counts.now i) ≡ true)) }
        ensures listed { IfOk result (λ o. (i : ID) → is_zero (get ID.eq counts.now i) ≡ true
            → is_listed ID.eq self.old.ids.items (deque_items self.old.heads) i ≡ true
            → is_listed ID.eq (self.new.ids.items ++ option_to_list o)
            (deque_items self.new.heads) i ≡ true) }
        ensures follows { IfOk result (λ o. (targets : List ID)
            → AreToFollow ID.eq (get ID.eq counts.now) targets self.old.ids.items
            → AreToFollow ID.eq (get ID.eq counts.now) targets
            (self.new.ids.items ++ option_to_list o)) }
        ensures begun { IfOk result (λ o. IsUntaken ID.eq (λ _ _. false) [] self.old
            → (o ≡ None) × IsUntaken ID.eq (λ _ _. false) [] self.new) }
        ensures branch { IfOk result (λ o. (edge : ID → ID → Bool) (required : ID)
            → AreCounts ID.eq edge (get ID.eq counts.now) required
            → IsFirstBranch ID.eq edge required self.old
            → IsSome o × Climbs ID.eq edge required (self.new.ids.items ++ option_to_list o)
            self.new.blocked.items (has_child ID.eq self.new.children)) }
    {
        'turns: loop {
            let Some(id) = self.ids.pop() else {
                if !self.refill()? {
                    return Ok(None);
                }
                continue;
            };
            match counts.get(&id) {
                None => {}
                Some(0) => return Ok(Some(id)),
                Some(_) => self.blocked.push(id)?,
            }
        }
    }

    // Makes the children of the last blocked id candidates, or else the first head. Returns `false`
    // if there is neither.
    fn refill(&mut self) -> Result<bool, AllocError>
        requires { self.old.ids.items ≡ [] }
        ensures listed { IfOk result (λ _. (i : ID)
            → has_id ID.eq (deque_items self.old.heads) i ≡ true
            → is_listed ID.eq self.new.ids.items (deque_items self.new.heads) i ≡ true) }
        ensures falls { IfOk result (λ more. more ≡ true
            → rounds_left self.new < rounds_left self.old) }
        ensures more { IfOk result (λ more. more ≡ true
            → Unblocks ID.eq self.old self.new ⊎ TakesHead ID.eq self.old self.new) }
        ensures none { IfOk result (λ more. more ≡ false → (self.new.ids.items ≡ [])
            × (self.old.blocked.items ≡ []) × (self.new.blocked.items ≡ [])
            × (deque_items self.old.heads ≡ []) × (deque_items self.new.heads ≡ [])
            × (self.new.children ≡ self.old.children)) }
    {
        if let Some(id) = self.blocked.pop() {
            if let Some(mut children) = self.children.remove(&id) {
                while let Some(child) = children.pop() {
                    self.ids.push(child)?;
                }
            }
            return Ok(true);
        }
        let Some(id) = self.heads.pop_front() else {
            return Ok(false);
        };
        self.ids.push(id)?;
        Ok(true)
    }
}
