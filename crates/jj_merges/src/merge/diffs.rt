//! `Diff`, a value before and after a change.
ghost use Rattle.std.specs.Prelude.{◌≡◌, ◌↔◌, IsTrue, IfOk, false, [], ◌∷◌};

use std::alloc::{AllocError, Global};
use std::ops::AsDeref;

/// A value before and after a change.
#[derive(Clone, Copy, Debug, PartialEq, Eq, Drop)]
pub struct Diff<T> {
    pub before: T,
    pub after: T,
}

impl<T> Diff<T> {
    /// Creates a diff of two values.
    pub fn new(before: T, after: T) -> Self
        ensures before { result.before ≡ before }
        ensures after { result.after ≡ after }
    {
        Diff { before, after }
    }

    /// Applies `f` to both values, first to `before`.
    pub fn map<U, F: FnMut(T) -> U + Drop>(self, f: F) -> Diff<U>
        requires { F.IsAlwaysCallable f }
        ensures { (next : F) × (last : F) × F.step f self.before result.before next
            × F.step next self.after result.after last }
    {
        let mut f = f;
        let before = f(self.before);
        let after = f(self.after);
        Diff { before, after }
    }

    /// Pairs the values of two diffs.
    pub fn zip<U>(self, other: Diff<U>) -> Diff<(T, U)>
        ensures before { (result.before.0 ≡ self.before) × (result.before.1 ≡ other.before) }
        ensures after { (result.after.0 ≡ self.after) × (result.after.1 ≡ other.after) }
    {
        Diff {
            before: (self.before, other.before),
            after: (self.after, other.after),
        }
    }

    /// Swaps `before` and `after`.
    pub fn invert(self) -> Self
        ensures before { result.before ≡ self.after }
        ensures after { result.after ≡ self.before }
    {
        Diff {
            before: self.after,
            after: self.before,
        }
    }

    /// Returns a diff of references to the values.
    pub fn as_ref(&self) -> Diff<&T>
        ensures before { result.before.now ≡ self.now.before }
        ensures after { result.after.now ≡ self.now.after }
    {
        Diff {
            before: &self.before,
            after: &self.after,
        }
    }

    /// Dereferences both values, for example from `Diff<String>` to `Diff<&str>`.
    pub fn as_deref<'a>(&'a self) -> Diff<T::Shown>
    where
        T: AsDeref<'a>,
        ensures before { T.as_deref_gives self.now.before result.before }
        ensures after { T.as_deref_gives self.now.after result.after }
        ensures views { (T.output_view result.before ≡ T.view self.now.before)
            × (T.output_view result.after ≡ T.view self.now.after) }
    {
        Diff {
            before: self.before.shown(),
            after: self.after.shown(),
        }
    }

    /// Returns `[before, after]`.
    pub fn into_array(self) -> [T; 2]
        ensures { result ≡ self.before ∷ self.after ∷ [] }
    {
        [self.before, self.after]
    }
}

impl<T: Eq> Diff<T> {
    /// Returns whether the values differ by `==`.
    pub fn is_changed(&self) -> bool
        ensures { IsTrue result ↔ (T.eq self.now.before self.now.after ≡ false) }
    {
        self.before != self.after
    }
}

impl<T: Clone> Diff<T> {
    /// Clones both values.
    pub fn clone(&self, _alloc: Global) -> Result<Self, AllocError>
        ensures before { IfOk result (λ d. T.is_clone self.now.before d.before) }
        ensures after { IfOk result (λ d. T.is_clone self.now.after d.after) }
    {
        Ok(Diff {
            before: self.before.clone()?,
            after: self.after.clone()?,
        })
    }
}
