//! Lists of numbers that are stored one after another in one array.
ghost use Rattle.std.specs.Prelude.{◌≡◌, ◌≤◌, ◌<◌, ◌++◌, ◌∷◌, [], All, OnOk, length, slice_index_or};
ghost use Rattle.std.specs.List.{Contains};

use std::alloc::{AllocError, Global};

/// Complete lists, and after them the open list, to which numbers are appended.
#[derive(Drop)]
pub struct PackedLists {
    numbers: Vec<usize>,
    // Where each complete list starts and ends.
    parts: Vec<(usize, usize)>,
    // Where the open list starts.
    open_start: usize,
    ghost within: { All (λ part. (part.0 ≤ part.1) × (part.1 ≤ open_start)) parts.items },
    ghost open_within: { open_start ≤ length numbers.items },
}

impl PackedLists {
    ghost use Rattle.std.specs.Prelude.{ℕ};
    ghost use Rattle.jj_dag.specs.PackedLists.{lists_of, open_list_of};

    /// Creates it without complete lists. The open list is empty.
    pub fn new(alloc: Global) -> PackedLists
        ensures lists { lists_of result ≡ [] }
        ensures open_list { open_list_of result ≡ [] }
    {
        PackedLists {
            numbers: Vec::new(alloc),
            parts: Vec::new(alloc),
            open_start: 0,
        }
    }

    /// Appends a number to the open list. Fails if memory runs out.
    pub fn push(&mut self, number: usize) -> Result<(), AllocError>
        ensures lists { OnOk result (lists_of self.new ≡ lists_of self.old) }
        ensures open_list { OnOk result (open_list_of self.new
            ≡ open_list_of self.old ++ number ∷ []) }
    {
        self.numbers.push(number)?;
        Ok(())
    }

    /// Appends a complete list. Fails if memory runs out.
    pub fn push_list(&mut self, list: &[usize]) -> Result<(), AllocError>
        requires { open_list_of self.old ≡ [] }
        ensures lists { OnOk result (lists_of self.new ≡ lists_of self.old ++ list.now ∷ []) }
        ensures open_list { OnOk result (open_list_of self.new ≡ []) }
    {
        self.numbers.extend_from_slice(list)?;
        self.finish_list()
    }

    /// Completes the open list and opens an empty one. Fails if memory runs out.
    pub fn finish_list(&mut self) -> Result<(), AllocError>
        ensures lists { OnOk result (lists_of self.new
            ≡ lists_of self.old ++ open_list_of self.old ∷ []) }
        ensures open_list { OnOk result (open_list_of self.new ≡ []) }
    {
        let end = self.numbers.len();
        self.parts.push((self.open_start, end))?;
        self.open_start = end;
        Ok(())
    }

    /// Returns the number of complete lists.
    pub fn len(&self) -> usize
        ensures { result ≡ length (lists_of self.now) }
    {
        self.parts.len()
    }

    /// Returns the numbers of all lists.
    pub fn numbers(&self) -> &[usize]
        ensures { (index number : ℕ)
            → Contains (slice_index_or (lists_of self.now) index []) number
            → Contains result.now number }
    {
        &self.numbers
    }

    /// Returns the complete list at this index.
    pub fn list(&self, index: usize) -> &[usize]
        requires { index < length (lists_of self.now) }
        ensures { result.now ≡ slice_index_or (lists_of self.now) index [] }
    {
        let (start, end) = self.parts[index];
        &self.numbers[start..end]
    }
}
