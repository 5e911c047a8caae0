//! Iterator over the terms of a merge, by value and from both ends.
ghost use Rattle.std.specs.Prelude.{◌≡◌, ◌%◌, ◌∷◌, [], length};
ghost use Rattle.std.specs.Iterator.{YieldsFirst, YieldsLast, item_count};
ghost use Rattle.std.specs.Iterator.Runs.{YieldsInOrder, YieldsInReverse};
ghost use Rattle.jj_merges.specs.Merge.{IsOdd};

use super::Merge;
use super::storage::{Terms, into_single};
use std::iter::FusedIterator;
use std::marker::Model;
use std::vec;

#[derive(Drop)]
enum Remaining<T> {
    Inline(Option<T>),
    Heap(vec::IntoIter<T>),
}

/// Iterator over the terms of a merge by value. Contracts see the list of terms not yet yielded.
#[derive(Drop)]
pub struct IntoIter<T> {
    rest: Remaining<T>,
}

impl<T> Model for IntoIter<T> {
    ghost use Rattle.std.specs.Prelude.{List};
    ghost use Rattle.jj_merges.specs.Remaining.{remaining_terms};

    ghost Value = { List T };

    ghost view = { λ it. remaining_terms it.rest };
}

impl<T: Drop> Iterator for IntoIter<T> {
    type Item = T;

    ghost next_gives = { YieldsFirst (λ rest. rest) };

    ghost remaining = { item_count (λ rest. rest) };

    fn next(&mut self) -> Option<T> {
        match &mut self.rest {
            Remaining::Inline(value) => value.take(),
            Remaining::Heap(values) => values.next(),
        }
    }

    fn size_hint(&self) -> (usize, Option<usize>) {
        let len = self.len();
        (len, Some(len))
    }
}

impl<T: Drop> ExactSizeIterator for IntoIter<T> {
    fn len(&self) -> usize {
        match &self.rest {
            Remaining::Inline(Some(_)) => 1,
            Remaining::Inline(None) => 0,
            Remaining::Heap(values) => values.len(),
        }
    }
}

impl<T: Drop> FusedIterator for IntoIter<T> {}

impl<T: Drop> IntoIterator for Merge<T> {
    type Item = T;

    type IntoIter = IntoIter<T>;

    ghost into_iter_gives = { λ m it. (it ≡ m)
        × YieldsInOrder (YieldsFirst {A = T} (λ rest. rest)) (λ rest. rest)
        × YieldsInReverse (YieldsLast {A = T} (λ rest. rest)) (λ rest. rest) };

    fn into_iter(self) -> IntoIter<T> {
        let Merge { terms } = self;
        match terms {
            Terms::Inline(values) => IntoIter {
                rest: Remaining::Inline(Some(into_single(values))),
            },
            Terms::Heap(values) => IntoIter {
                rest: Remaining::Heap(values.into_iter()),
            },
        }
    }
}

impl<T: Drop> DoubleEndedIterator for IntoIter<T> {
    ghost next_back_gives = { YieldsLast (λ rest. rest) };

    fn next_back(&mut self) -> Option<T> {
        match &mut self.rest {
            Remaining::Inline(value) => value.take(),
            Remaining::Heap(values) => values.next_back(),
        }
    }
}
