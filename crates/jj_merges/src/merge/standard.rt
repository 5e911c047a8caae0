//! Standard traits of merges. Equality and hash are those of the list of terms.
ghost use Rattle.std.specs.Prelude.{◌≡◌, ◌^◌, ◌<◌, length};
ghost use Rattle.std.specs.Borrow.{sem};
ghost use Rattle.std.specs.Cmp.{on_equiv, on_per};
ghost use Rattle.std.specs.Cmp.Lexicographic.{pointwise, lists_per, lists_equiv};
ghost use Rattle.std.specs.Hash as fed;
ghost use Rattle.std.specs.Hash.{on_Alike, items_Alike};
ghost use Rattle.std.specs.Iterator.Runs.{EveryRun, ItemsMapTo};
ghost use Rattle.std.specs.Slice.Iter.{iter_rest, iter_mut_rest, iter_steps, iter_mut_steps};
ghost use Rattle.jj_merges.specs.Lends.{lends_iter};

use super::Merge;
use std::hash::{Hash, Hasher};
use std::{fmt, slice};

impl<T: PartialEq> PartialEq for Merge<T> {
    ghost eq = { pointwise T.eq };

    ghost laws = { lists_per T.laws };

    fn eq(&self, other: &Self) -> bool {
        self.as_slice() == other.as_slice()
    }
}

impl<T: Eq> Eq for Merge<T> {
    ghost laws = { lists_equiv T.Eq.laws };
}

impl<T: Hash> Hash for Merge<T> {
    ghost hash_input = { fed.slice T.hash_input };

    ghost respects_eq = { (items_Alike (record { fed = T.respects_eq })).fed };

    fn hash<H: Hasher>(&self, state: &mut H) {
        self.as_slice().hash(state);
    }
}

impl<T: fmt::Debug> fmt::Debug for Merge<T> {
    fn fmt<W: fmt::Write>(&self, f: &mut fmt::Formatter<W>) -> fmt::Result {
        match self.as_resolved() {
            Some(value) => f.debug_tuple("Resolved").field(value).finish(),
            None => f.debug_tuple("Conflicted").field(&self.as_slice()).finish(),
        }
    }
}

impl<'a, T> IntoIterator for &'a Merge<T> {
    type Item = &'a T;

    type IntoIter = slice::Iter<'a, T>;

    ghost into_iter_gives = { λ m it. (iter_rest it ≡ m.now) × (length (iter_rest it) < 2 ^ 64)
        × EveryRun (iter_steps {A = T}) (λ p. ItemsMapTo p (λ x. x.now) (iter_rest p.from)) };

    fn into_iter(self) -> slice::Iter<'a, T> {
        self.as_slice().iter()
    }
}

impl<'a, T> IntoIterator for &'a mut Merge<T> {
    type Item = &'a mut T;

    type IntoIter = slice::IterMut<'a, T>;

    ghost into_iter_gives = { λ m it. (iter_mut_rest it ≡ m.now)
        × (length (iter_mut_rest it) < 2 ^ 64)
        × EveryRun (iter_mut_steps {A = T}) (λ p.
        ItemsMapTo p (λ x. x.now) (iter_mut_rest p.from)) };

    fn into_iter(self) -> slice::IterMut<'a, T>
        ensures* writes_back { sem 𝓛 (lends_iter T.row self.entry result) }
        ensures into_iter_gives { (iter_mut_rest result ≡ self.old)
            × (length (iter_mut_rest result) < 2 ^ 64)
            × EveryRun (iter_mut_steps {A = T}) (λ p.
            ItemsMapTo p (λ x. x.now) (iter_mut_rest p.from)) }
    {
        self.as_mut_slice().iter_mut()
    }
}
