//! Termwise operations: map, zip, unzip and clone. None allocates for a resolved merge.
ghost use Rattle.std.specs.Prelude.{◌≡◌, ◌⊎◌, ℕ, ◌+◌, ◌*◌, ◌<◌, ◌++◌, [], ◌∷◌, Option, length, map, IfOk, IfErr, OnOk, alloc_error};
ghost use Rattle.std.specs.Fn.{CalledAt};
ghost use Rattle.std.specs.List.{AllZip};
ghost use Rattle.std.specs.Option.{option_copied};
ghost use Rattle.jj_merges.specs.Counts.{HaveCountsOfClones, HaveCountsOfImages};
ghost use Rattle.jj_merges.specs.Calls.{AreImages, StopsAtFailure};
ghost use Rattle.jj_merges.specs.Merge.{IsOdd};
ghost use Rattle.jj_merges.specs.Options.{IsOptionClone};
ghost use Rattle.jj_merges.specs.Terms.{items, InlineHasOne};

use super::storage::Terms;
use super::{IntoIter, Merge};
use std::alloc::{AllocError, Global};

impl<T> Merge<T> {
    /// Calls `f` on each term in order, and returns the merge of the results.
    #[tactic(auto, using(crate::proofs::StorageLaws::is_merge_storage))]
    pub fn map<'a, U: Drop, F: FnMut(&'a T) -> U>(
        &'a self,
        alloc: Global,
        f: F,
    ) -> Result<Merge<U>, AllocError>
        requires { F.IsAlwaysCallable f }
        ensures termwise { IfOk result (AreImages (CalledAt F.FnMut) f self.now) }
        ensures counts { IfOk result (HaveCountsOfImages (CalledAt F.FnMut) self.now) }
    {
        let values = self.as_slice();
        let mut f = f;
        let mut termwise = Terms::with_capacity(alloc, values.len())?;
        for term in values {
            termwise.push(alloc, f(term))?;
        }
        Ok(Merge { terms: termwise })
    }

    /// Calls `f` on each term in order, and returns the merge of the results or the first error.
    pub fn try_map<'a, U: Drop, E: From<AllocError>, F: FnMut(&'a T) -> Result<U, E>>(
        &'a self,
        alloc: Global,
        f: F,
    ) -> Result<Merge<U>, E>
        requires { F.IsAlwaysCallable f }
        ensures termwise { IfOk result
            (AreImages (λ f x y next. CalledAt F.FnMut f x (Ok y) next) f self.now) }
        ensures counts { IfOk result
            (HaveCountsOfImages (λ f x y next. CalledAt F.FnMut f x (Ok y) next) self.now) }
        // An error is either the closure's, at the first term where it fails, or out of memory.
        ensures error { IfErr result (λ e. StopsAtFailure
            (λ f x y next. CalledAt F.FnMut f x (Ok y) next)
            (λ f x. (last : F) × CalledAt F.FnMut f x (Err e) last) f self.now
            ⊎ E.from_gives alloc_error e) }
    {
        let values = self.as_slice();
        let mut f = f;
        let mut termwise = Terms::with_capacity(alloc, values.len())?;
        for term in values {
            match f(term) {
                Ok(image) => termwise.push(alloc, image)?,
                Err(error) => return Err(error),
            }
        }
        Ok(Merge { terms: termwise })
    }

    /// Returns a merge of references to the terms.
    pub fn as_ref(&self, alloc: Global) -> Result<Merge<&T>, AllocError>
        ensures { IfOk result (λ m. map (λ x. x.now) m ≡ self.now) }
    {
        let values = self.as_slice();
        let mut terms = Terms::with_capacity(alloc, values.len())?;
        for term in values {
            terms.push(alloc, term)?;
        }
        Ok(Merge { terms })
    }
}

impl<T: Drop> Merge<T> {
    /// Like `map`, but consumes the terms.
    pub fn into_map<U: Drop, F: FnMut(T) -> U>(
        self,
        alloc: Global,
        f: F,
    ) -> Result<Merge<U>, AllocError>
        requires { F.IsAlwaysCallable f }
        ensures termwise { IfOk result (AreImages F.step f self) }
        ensures counts { IfOk result (HaveCountsOfImages F.step self) }
    {
        let len = self.as_slice().len();
        map_remaining(alloc, len, &mut self.into_iter(), f)
    }

    /// Pairs the terms of two merges of the same length, index by index.
    pub fn zip<U: Drop>(self, alloc: Global, other: Merge<U>) -> Result<Merge<(T, U)>, AllocError>
        requires { length self ≡ length other }
        ensures firsts { IfOk result (λ m. map (λ p. p.0) m ≡ self) }
        ensures seconds { IfOk result (λ m. map (λ p. p.1) m ≡ other) }
    {
        let len = self.as_slice().len();
        zip_terms(alloc, len, &mut self.into_iter(), &mut other.into_iter())
    }
}

impl<T: Drop, U: Drop> Merge<(T, U)> {
    /// Splits a merge of pairs into a merge of first and a merge of second components.
    pub fn unzip(self, alloc: Global) -> Result<(Merge<T>, Merge<U>), AllocError>
        ensures firsts { IfOk result (λ ms. ms.0 ≡ map (λ p. p.0) self) }
        ensures seconds { IfOk result (λ ms. ms.1 ≡ map (λ p. p.1) self) }
    {
        let len = self.as_slice().len();
        unzip_terms(alloc, len, &mut self.into_iter())
    }
}

impl<T: Clone> Merge<&T> {
    /// Clones the referenced terms.
    pub fn cloned(&self, alloc: Global) -> Result<Merge<T>, AllocError>
        ensures terms { IfOk result (AllZip T.is_clone (map (λ x. x.now) self.now)) }
        ensures counts { IfOk result
            (HaveCountsOfClones T.is_clone (map (λ x. x.now) self.now)) }
    {
        let values = self.as_slice();
        let mut terms = Terms::with_capacity(alloc, values.len())?;
        for term in values {
            terms.push_clone(alloc, *term)?;
        }
        Ok(Merge { terms })
    }
}

fn push_option_clone<T: Clone>(
    terms: &mut Terms<Option<T>>,
    alloc: Global,
    term: &Option<&T>,
) -> Result<(), AllocError>
    requires { InlineHasOne terms.old }
    ensures ok { OnOk result ((x : Option T)
        × IsOptionClone T.is_clone (option_copied term.now) x
        × (items terms.new ≡ items terms.old ++ x ∷ [])) }
    ensures inline_has_one { InlineHasOne terms.new }
{
    match term {
        Some(value) => terms.push(alloc, Some(T::clone(*value)?)),
        None => terms.push(alloc, None),
    }
}

impl<T: Clone> Merge<Option<&T>> {
    /// Clones the referenced terms. `None` stays `None`.
    pub fn cloned(&self, alloc: Global) -> Result<Merge<Option<T>>, AllocError>
        ensures terms { IfOk result (AllZip (IsOptionClone T.is_clone)
            (map option_copied self.now)) }
        ensures counts { IfOk result (HaveCountsOfClones (IsOptionClone T.is_clone)
            (map option_copied self.now)) }
    {
        let values = self.as_slice();
        let mut terms = Terms::with_capacity(alloc, values.len())?;
        for term in values {
            push_option_clone(&mut terms, alloc, term)?;
        }
        Ok(Merge { terms })
    }
}

impl<T: Clone> Merge<T> {
    /// Clones all terms. Their list is allocated with `alloc`.
    pub fn clone(&self, alloc: Global) -> Result<Merge<T>, AllocError>
        ensures terms { IfOk result (AllZip T.is_clone self.now) }
        ensures counts { IfOk result (HaveCountsOfClones T.is_clone self.now) }
    {
        let terms = Terms::from_slice(alloc, self.as_slice())?;
        Ok(Merge { terms })
    }
}

fn map_remaining<T: Drop, U: Drop, F: FnMut(T) -> U>(
    alloc: Global,
    len: usize,
    terms: &mut IntoIter<T>,
    f: F,
) -> Result<Merge<U>, AllocError>
    requires callable { F.IsAlwaysCallable f }
    requires odd { IsOdd (length terms.old) }
    ensures termwise { IfOk result (AreImages F.step f terms.old) }
    ensures counts { IfOk result (HaveCountsOfImages F.step terms.old) }
{
    let mut f = f;
    let mut termwise = Terms::with_capacity(alloc, len)?;
    while let Some(term) = terms.next() {
        termwise.push(alloc, f(term))?;
    }
    Ok(Merge { terms: termwise })
}

fn zip_terms<T: Drop, U: Drop>(
    alloc: Global,
    len: usize,
    firsts: &mut IntoIter<T>,
    seconds: &mut IntoIter<U>,
) -> Result<Merge<(T, U)>, AllocError>
    requires odd { IsOdd (length firsts.old) }
    requires same_len { length firsts.old ≡ length seconds.old }
    ensures firsts { IfOk result (λ m. map (λ p. p.0) m ≡ firsts.old) }
    ensures seconds { IfOk result (λ m. map (λ p. p.1) m ≡ seconds.old) }
{
    let mut pairs = Terms::with_capacity(alloc, len)?;
    while let Some(first) = firsts.next() {
        match seconds.next() {
            Some(second) => pairs.push(alloc, (first, second))?,
            None => unreachable!(),
        }
    }
    Ok(Merge { terms: pairs })
}

fn unzip_terms<T: Drop, U: Drop>(
    alloc: Global,
    len: usize,
    pairs: &mut IntoIter<(T, U)>,
) -> Result<(Merge<T>, Merge<U>), AllocError>
    requires { IsOdd (length pairs.old) }
    ensures firsts { IfOk result (λ ms. ms.0 ≡ map (λ p. p.0) pairs.old) }
    ensures seconds { IfOk result (λ ms. ms.1 ≡ map (λ p. p.1) pairs.old) }
{
    let mut firsts = Terms::with_capacity(alloc, len)?;
    let mut seconds = Terms::with_capacity(alloc, len)?;
    push_unzipped(&mut firsts, &mut seconds, alloc, pairs)?;
    Ok((Merge { terms: firsts }, Merge { terms: seconds }))
}

fn push_unzipped<T: Drop, U: Drop>(
    firsts: &mut Terms<T>,
    seconds: &mut Terms<U>,
    alloc: Global,
    pairs: &mut IntoIter<(T, U)>,
) -> Result<(), AllocError>
    requires firsts { (items firsts.old ≡ []) × InlineHasOne firsts.old }
    requires seconds { (items seconds.old ≡ []) × InlineHasOne seconds.old }
    ensures firsts { OnOk result (items firsts.new ≡ map (λ p. p.0) pairs.old) }
    ensures seconds { OnOk result (items seconds.new ≡ map (λ p. p.1) pairs.old) }
    ensures inline_has_one { InlineHasOne firsts.new × InlineHasOne seconds.new }
{
    while let Some((first, second)) = pairs.next() {
        firsts.push(alloc, first)?;
        seconds.push(alloc, second)?;
    }
    Ok(())
}
