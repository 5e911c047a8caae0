//! Conversion of a merge into its removes and its adds.
ghost use Rattle.std.specs.Prelude.{◌≡◌, ◌++◌, [], IfOk, OnOk};
ghost use Rattle.std.specs.Option.{option_to_list};
ghost use Rattle.std.specs.Vec.Iter.{into_iter_items};
ghost use Rattle.jj_merges.specs.Merge as merge;
ghost use Rattle.jj_merges.specs.Options.{present};

use super::{IntoIter, Merge};
use std::alloc::{AllocError, Global};
use std::vec;

#[derive(Drop)]
struct Sides<T> {
    removes: Vec<T>,
    adds: Vec<T>,
}

impl<T: Drop> Merge<T> {
    /// Converts the merge into iterators over its removes and its adds.
    pub fn into_removes_adds(
        self,
        alloc: Global,
    ) -> Result<(vec::IntoIter<T>, vec::IntoIter<T>), AllocError>
        ensures removes { IfOk result (λ p. into_iter_items p.0 ≡ merge.removes self) }
        ensures adds { IfOk result (λ p. into_iter_items p.1 ≡ merge.adds self) }
    {
        let mut sides = Sides::with_capacity(alloc, self.as_slice().len())?;
        sides.push_terms(&mut self.into_iter())?;
        let Sides { removes, adds } = sides;
        Ok((removes.into_iter(), adds.into_iter()))
    }
}

impl<T: Drop> Merge<Option<T>> {
    /// Returns the present removes and the present adds.
    pub fn into_legacy_form(self, alloc: Global) -> Result<(Vec<T>, Vec<T>), AllocError>
        ensures removes { IfOk result (λ p. p.0.items ≡ present (merge.removes self)) }
        ensures adds { IfOk result (λ p. p.1.items ≡ present (merge.adds self)) }
    {
        let mut sides = Sides::with_capacity(alloc, self.as_slice().len())?;
        sides.push_present_terms(&mut self.into_iter())?;
        let Sides { removes, adds } = sides;
        Ok((removes, adds))
    }
}

impl<T: Drop> Sides<T> {
    // Reserves room for a merge of `len` terms.
    fn with_capacity(alloc: Global, len: usize) -> Result<Self, AllocError>
        ensures { IfOk result (λ sides. (sides.removes.items ≡ []) × (sides.adds.items ≡ [])) }
    {
        let removes = Vec::with_capacity(alloc, len / 2)?;
        let adds = Vec::with_capacity(alloc, len / 2 + 1)?;
        Ok(Sides { removes, adds })
    }

    // Appends terms alternately to the adds and the removes, first to the adds.
    fn push_terms(&mut self, terms: &mut IntoIter<T>) -> Result<(), AllocError>
        ensures removes { OnOk result (self.new.removes.items
            ≡ self.old.removes.items ++ merge.removes terms.old) }
        ensures adds { OnOk result (self.new.adds.items
            ≡ self.old.adds.items ++ merge.adds terms.old) }
    {
        while let Some(add) = terms.next() {
            self.adds.push(add)?;
            match terms.next() {
                Some(remove) => self.removes.push(remove)?,
                None => return Ok(()),
            }
        }
        Ok(())
    }

    // Appends present terms alternately to the adds and the removes, first to the adds.
    fn push_present_terms(&mut self, terms: &mut IntoIter<Option<T>>) -> Result<(), AllocError>
        ensures removes { OnOk result (self.new.removes.items
            ≡ self.old.removes.items ++ present (merge.removes terms.old)) }
        ensures adds { OnOk result (self.new.adds.items
            ≡ self.old.adds.items ++ present (merge.adds terms.old)) }
    {
        while let Some(add) = terms.next() {
            push_present(&mut self.adds, add)?;
            match terms.next() {
                Some(remove) => push_present(&mut self.removes, remove)?,
                None => return Ok(()),
            }
        }
        Ok(())
    }
}

fn push_present<T: Drop>(values: &mut Vec<T>, term: Option<T>) -> Result<(), AllocError>
    ensures { OnOk result (values.new.items ≡ values.old.items ++ option_to_list term) }
{
    if let Some(value) = term {
        values.push(value)?;
    }
    Ok(())
}
