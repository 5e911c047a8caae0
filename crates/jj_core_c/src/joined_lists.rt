//! Lists of results one after another, and the index at which each ends.
ghost use Rattle.std.specs.Prelude.{◌∷◌, ◌++◌, [], length, List, MatchResult, OnOk, ℕ};
ghost use Rattle.jj_core_c.specs.GraphBatches.{FailsBoth, IsRoomCause, Joins, WritesLists};

use crate::buffers::write_indices;
use crate::error::Error;
use std::alloc::{AllocError, Global};

/// Joined lists of indices.
#[derive(Drop)]
pub struct JoinedLists {
    /// The items of all lists.
    pub items: Vec<usize>,
    /// Where each list ends.
    pub ends: Vec<usize>,
}

impl JoinedLists {
    /// No lists.
    pub fn new(alloc: Global) -> JoinedLists
        ensures { Joins [] result }
    {
        JoinedLists {
            items: Vec::new(alloc),
            ends: Vec::new(alloc),
        }
    }

    /// Appends a list. Fails if memory runs out.
    pub fn push(&mut self, list: &[usize]) -> Result<(), AllocError>
        ensures { (found : List (List ℕ)) → Joins found self.old
            → OnOk result (Joins (found ++ list.now ∷ []) self.new) }
    {
        self.items.extend_from_slice(list)?;
        let end = self.items.len();
        self.ends.push(end)?;
        Ok(())
    }
}

/// Writes the lists and their ends. Returns the number of items. Fails with `Length` if one of the
/// buffers is too short.
pub fn write_joined(
    lists: &JoinedLists,
    buffer: &mut [usize],
    ends: &mut [usize],
) -> Result<usize, Error>
    ensures { (found : List (List ℕ)) → Joins found lists.now
        → MatchResult result (WritesLists found buffer.old buffer.new ends.old ends.new)
        (FailsBoth buffer.old buffer.new ends.old ends.new
        (IsRoomCause found (length buffer.old) (length ends.old))) }
{
    if buffer.len() < lists.items.len() {
        return Err(Error::Length);
    }
    if ends.len() < lists.ends.len() {
        return Err(Error::Length);
    }
    let _count = write_indices(ends, lists.ends.as_slice());
    Ok(write_indices(buffer, lists.items.as_slice()))
}
