//! Dense numbering of ids: the number of an id is its index in a sorted list, which starts with all
//! ids below a size.
ghost use Rattle.std.specs.Prelude.{◌≡◌, ◌↔◌, ◌<◌, ◌≤◌, ℕ, IfOk, IsTrue, OnOk, All, length, map};
ghost use Rattle.std.specs.List.{Contains};
ghost use Rattle.std.specs.List.Sorted.{IsStrictlyIncreasing};
ghost use Rattle.jj_program.specs.Parts.{IsNumberOf, id_of};

use std::alloc::{AllocError, Global};

// A sorted list without duplicates.
#[derive(Drop)]
pub(crate) struct Numbering {
    ids: Vec<u64>,
    ghost ascending: { IsStrictlyIncreasing ids.items },
}

impl Numbering {
    // Numbers these ids. Those below the limit are their own numbers, so only others are sorted.
    pub(crate) fn new(
        alloc: Global,
        limit: u64,
        requested: &[u64],
        targets: &[u64],
    ) -> Result<Numbering, AllocError>
        ensures requested { IfOk result (λ numbering.
            All (Contains numbering.ids.items) requested.now) }
        ensures targets { IfOk result (λ numbering.
            All (Contains numbering.ids.items) targets.now) }
    {
        let size = size_below(limit, requested).max(size_below(limit, targets));
        let mut others = Vec::new(alloc);
        push_others(&mut others, size, requested)?;
        push_others(&mut others, size, targets)?;
        sort(&mut others);
        Numbering::from_parts(alloc, size, &others)
    }

    // Joins all ids below a size and a sorted list of others.
    fn from_parts(alloc: Global, size: u64, others: &[u64]) -> Result<Numbering, AllocError>
        requires ascending { IsStrictlyIncreasing others.now }
        requires above { All (λ id. size ≤ id) others.now }
        ensures below { IfOk result (λ numbering. (id : ℕ) → id < size
            → Contains numbering.ids.items id) }
        ensures others { IfOk result (λ numbering. (id : ℕ) → Contains others.now id
            → Contains numbering.ids.items id) }
    {
        let mut ids = Vec::with_capacity(alloc, (size as usize).saturating_add(others.len()))?;
        for id in 0..size {
            ids.push(id)?;
        }
        ids.extend_from_slice(others)?;
        Ok(Numbering { ids })
    }

    pub(crate) fn ids(&self) -> &[u64]
        ensures { result.now ≡ self.now.ids.items }
    {
        &self.ids
    }

    // Returns the numbers of these ids; takes the least time where neighbors in the list are
    // neighbors in the numbering.
    pub(crate) fn numbers_of(&self, alloc: Global, ids: &[u64]) -> Result<Vec<usize>, AllocError>
        requires { All (Contains self.now.ids.items) ids.now }
        ensures { IfOk result (λ numbers. map (id_of self.now.ids.items) numbers.items
            ≡ ids.now) }
    {
        let mut numbers = Vec::with_capacity(alloc, ids.len())?;
        let mut last = 0;
        for id in ids {
            let number = self.number(last, *id);
            numbers.push(number)?;
            last = number;
        }
        Ok(numbers)
    }

    // Returns the ids of these numbers.
    pub(crate) fn ids_of(&self, alloc: Global, numbers: &[usize]) -> Result<Vec<u64>, AllocError>
        requires { All (λ number. number < length self.now.ids.items) numbers.now }
        ensures { IfOk result (λ ids. ids.items ≡ map (id_of self.now.ids.items) numbers.now) }
    {
        let mut ids = Vec::with_capacity(alloc, numbers.len())?;
        for number in numbers {
            ids.push(self.ids[*number])?;
        }
        Ok(ids)
    }

    // Returns the index of an id, which is looked for at the id itself and beside the index `near`
    // first; unspecified for an id that is not in the list.
    pub(crate) fn number(&self, near: usize, id: u64) -> usize
        ensures { Contains self.now.ids.items id → IsNumberOf self.now.ids.items id result }
    {
        let own = id as usize;
        if self.is_number(own, id) {
            return own;
        }
        let next = near.wrapping_add(1);
        if self.is_number(next, id) {
            return next;
        }
        let before = near.wrapping_sub(1);
        if self.is_number(before, id) {
            return before;
        }
        if self.is_number(near, id) {
            return near;
        }
        match self.ids.binary_search(&id) {
            Ok(index) => index,
            Err(index) => index,
        }
    }

    // Whether the id is at this index.
    fn is_number(&self, index: usize, id: u64) -> bool
        ensures { IsTrue result ↔ IsNumberOf self.now.ids.items id index }
    {
        index < self.ids.len() && self.ids[index] == id
    }
}

// Returns a size above all of these ids that are below the limit.
fn size_below(limit: u64, ids: &[u64]) -> u64 {
    let mut size = 0;
    for id in ids {
        if *id < limit {
            size = size.max(*id + 1);
        }
    }
    size
}

// Sorts the ids, and removes duplicates.
fn sort(ids: &mut Vec<u64>)
    ensures ascending { IsStrictlyIncreasing ids.new.items }
    ensures same { (id : ℕ) → Contains ids.new.items id ↔ Contains ids.old.items id }
{
    ids.sort_unstable();
    ids.dedup();
}

// Appends the ids that are not below a size, mostly without duplicates.
fn push_others(others: &mut Vec<u64>, size: u64, ids: &[u64]) -> Result<(), AllocError>
    requires { All (λ id. size ≤ id) others.old.items }
    ensures above { OnOk result (All (λ id. size ≤ id) others.new.items) }
    ensures kept { OnOk result ((id : ℕ) → Contains others.old.items id
        → Contains others.new.items id) }
    ensures pushed { OnOk result (All (λ id. size ≤ id → Contains others.new.items id) ids.now) }
{
    for id in ids {
        push_other(others, size, *id)?;
    }
    Ok(())
}

// Appends an id unless it is below a size or the last one again.
fn push_other(others: &mut Vec<u64>, size: u64, id: u64) -> Result<(), AllocError>
    requires { All (λ other. size ≤ other) others.old.items }
    ensures above { OnOk result (All (λ other. size ≤ other) others.new.items) }
    ensures kept { OnOk result ((other : ℕ) → Contains others.old.items other
        → Contains others.new.items other) }
    ensures pushed { OnOk result (size ≤ id → Contains others.new.items id) }
{
    if id < size || is_last(others, id) {
        return Ok(());
    }
    others.push(id)?;
    Ok(())
}

// Whether the id is the last of the list.
fn is_last(ids: &[u64], id: u64) -> bool
    ensures { IsTrue result → Contains ids.now id }
{
    !ids.is_empty() && ids[ids.len() - 1] == id
}
