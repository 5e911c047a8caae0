//! Numbers of commits: the number of an id is its index in a list without duplicates.
ghost use Rattle.std.specs.Prelude.{◌≡◌, ◌↔◌, ◌<◌, ◌++◌, ◌∷◌, [], All, IfOk, IfSome, IsSome, MatchOption, OnOk, length, map};
ghost use Rattle.std.specs.List.{Contains};
ghost use Rattle.jj_commit_graph.specs.Numberings.{IsNumbering, id_at};

use jj_backend::backend::CommitId;
use jj_dag::node_map::NodeMap;
use std::alloc::{AllocError, Global};
use std::collections::HashMap;

// Ids, and the index of each.
#[derive(Drop)]
pub(crate) struct Numbering {
    ids: Vec<CommitId>,
    number_of: HashMap<CommitId, usize>,
}

impl Numbering {
    // Creates a numbering of no ids.
    pub(crate) fn new(alloc: Global) -> Numbering
        ensures numbering { IsNumbering result }
        ensures ids { result.ids.items ≡ [] }
    {
        Numbering {
            ids: Vec::new(alloc),
            number_of: HashMap::new(alloc),
        }
    }

    // Assigns the next number to an id.
    pub(crate) fn push(&mut self, id: CommitId) -> Result<(), AllocError>
        requires numbering { IsNumbering self.old }
        requires new { ¬ (Contains self.old.ids.items id) }
        ensures numbering { OnOk result (IsNumbering self.new) }
        ensures ids { OnOk result (self.new.ids.items ≡ self.old.ids.items ++ id ∷ []) }
    {
        let number = self.ids.len();
        NodeMap::insert(&mut self.number_of, id.clone()?, number)?;
        self.ids.push(id)?;
        Ok(())
    }

    // Returns the number of an id, if it has one.
    pub(crate) fn number(&self, id: &CommitId) -> Option<usize>
        requires { IsNumbering self.now }
        ensures { MatchOption result (¬ (Contains self.now.ids.items id.now))
            (λ number. (number < length self.now.ids.items)
            × (id_at self.now.ids.items number ≡ id.now)) }
    {
        NodeMap::get(&self.number_of, id)
    }

    // Returns the numbers of these ids, or `None` if one has no number.
    pub(crate) fn numbers_of(
        &self,
        alloc: Global,
        ids: &[CommitId],
    ) -> Result<Option<Vec<usize>>, AllocError>
        requires { IsNumbering self.now }
        ensures known { IfOk result (λ found. IsSome found
            ↔ All (Contains self.now.ids.items) ids.now) }
        ensures named { IfOk result (λ found. IfSome found (λ numbers.
            map (id_at self.now.ids.items) numbers.items ≡ ids.now)) }
        ensures within { IfOk result (λ found. IfSome found (λ numbers.
            All (λ number. number < length self.now.ids.items) numbers.items)) }
    {
        let mut numbers = Vec::with_capacity(alloc, ids.len())?;
        for id in ids {
            match self.number(id) {
                Some(number) => numbers.push(number)?,
                None => return Ok(None),
            }
        }
        Ok(Some(numbers))
    }

    // Returns the ids of these numbers.
    pub(crate) fn ids_of(
        &self,
        alloc: Global,
        numbers: &[usize],
    ) -> Result<Vec<CommitId>, AllocError>
        requires { All (λ number. number < length self.now.ids.items) numbers.now }
        ensures { IfOk result (λ ids. ids.items ≡ map (id_at self.now.ids.items) numbers.now) }
    {
        let mut ids = Vec::with_capacity(alloc, numbers.len())?;
        for number in numbers {
            ids.push(self.ids[*number].clone()?)?;
        }
        Ok(ids)
    }
}
