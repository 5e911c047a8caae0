//! The adjacency lists of the input, as parts of one array.
ghost use Rattle.std.specs.Prelude.{◌≡◌, ◌==◌, ◌<◌, ◌+◌, ◌^◌, ℕ, IsTrue, MatchResult, Some, None, if◌then◌else◌, is_some, length, not, slice_index_or, IfOk};
ghost use Rattle.jj_program.specs.Parts.{AreParts, entry_part, part_in};

use std::alloc::{AllocError, Global};
use std::collections::BTreeMap;

// The entry of an id without a list. No list ends before it starts.
const NO_PART: (usize, usize) = (1, 0);

// Where the list of each node starts and ends among the targets: by id for ids below the limit, and
// in a map for greater ones.
#[derive(Drop)]
pub(crate) struct Edges {
    limit: u64,
    table: Vec<(usize, usize)>,
    others: BTreeMap<u64, (usize, usize)>,
    targets: Vec<u64>,
    ghost within: { AreParts (part_in limit table.items others) (length targets.items) },
}

impl Edges {
    ghost use Rattle.jj_program.specs.GraphCommand.{graph_of};
    ghost use Rattle.jj_program.specs.GraphViews.{listed_by, part_at};

    // Creates it without lists.
    pub(crate) fn new(alloc: Global, limit: u64) -> Edges
        ensures { listed_by result ≡ (λ id. None) }
    {
        Edges {
            limit,
            table: Vec::new(alloc),
            others: BTreeMap::new(alloc),
            targets: Vec::new(alloc),
        }
    }

    // Sets the list of a node. Returns whether it had none; if it had one, its list is unspecified
    // afterwards.
    pub(crate) fn list(&mut self, id: u64, neighbors: &[u64]) -> Result<bool, AllocError>
        ensures first { IfOk result (λ first. first ≡ not (is_some (listed_by self.old id))) }
        ensures listed { IfOk result (λ first. IsTrue first → listed_by self.new ≡ (λ other.
            if id == other then Some neighbors.now else listed_by self.old other)) }
    {
        let start = self.targets.len();
        self.targets.extend_from_slice(neighbors)?;
        let part = (start, self.targets.len());
        if id < self.limit {
            return put(&mut self.table, id as usize, part);
        }
        let old = self.others.insert(id, part)?;
        Ok(old.is_none())
    }

    // The table has no entries for ids from this one on.
    pub(crate) fn limit(&self) -> u64 {
        self.limit
    }

    // The neighbors of all nodes.
    pub(crate) fn targets(&self) -> &[u64]
        ensures { result.now ≡ self.now.targets.items }
    {
        &self.targets
    }

    // Returns the neighbors of an id; none if it has no list.
    pub(crate) fn neighbors_of(&self, id: u64) -> &[u64]
        ensures { result.now ≡ graph_of (listed_by self.now) id }
    {
        let (start, end) = self.part(id);
        &self.targets[start..end]
    }

    // Returns the part of an id.
    fn part(&self, id: u64) -> (usize, usize)
        ensures { result ≡ part_at self.now id }
    {
        if id < self.limit {
            return table_part(&self.table, id).unwrap_or((0, 0));
        }
        match self.others.get(&id) {
            Some(part) => *part,
            None => (0, 0),
        }
    }
}

// Sets the entry at an index of the table, which grows if it is too short. Returns whether it had
// none.
fn put(
    table: &mut Vec<(usize, usize)>,
    index: usize,
    part: (usize, usize),
) -> Result<bool, AllocError>
    requires { index + 1 < 2 ^ 64 }
    ensures first { IfOk result (λ first.
        first ≡ not (is_some (entry_part (slice_index_or table.old.items index (1, 0))))) }
    ensures entries { MatchResult result
        (λ _. (other : ℕ) → slice_index_or table.new.items other (1, 0)
        ≡ (if index == other then part else slice_index_or table.old.items other (1, 0)))
        (λ _. (other : ℕ) → slice_index_or table.new.items other (1, 0)
        ≡ slice_index_or table.old.items other (1, 0)) }
{
    if table.len() <= index {
        table.resize(index + 1, NO_PART)?;
    }
    let is_first = entry_part(table[index]).is_none();
    table[index] = part;
    Ok(is_first)
}

// Returns the part at an index, which may be past the end of the table.
fn table_part(table: &[(usize, usize)], index: u64) -> Option<(usize, usize)>
    ensures { result ≡ entry_part (slice_index_or table.now index (1, 0)) }
{
    if index < table.len() as u64 {
        entry_part(table[index as usize])
    } else {
        None
    }
}

// Returns the part of an entry.
fn entry_part(entry: (usize, usize)) -> Option<(usize, usize)>
    ensures { result ≡ entry_part entry }
{
    if entry.0 <= entry.1 {
        Some(entry)
    } else {
        None
    }
}
