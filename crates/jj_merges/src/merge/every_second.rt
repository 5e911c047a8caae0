//! Iterators over the adds or the removes of a merge, by reference.
ghost use Rattle.std.specs.Prelude.{◌≡◌, List, length};
ghost use Rattle.std.specs.Iterator.{YieldsFirstRef, item_count};
ghost use Rattle.jj_merges.specs.Merge.{adds, removes};

use super::Merge;
use std::iter::FusedIterator;
use std::marker::Model;

/// Iterator over every second term of a merge. Contracts see the list of terms not yet yielded.
#[derive(Drop)]
pub struct EverySecond<'a, T> {
    rest: &'a [T],
}

impl<'a, T> Model for EverySecond<'a, T> {
    ghost Value = { List T };

    ghost view = { λ it. adds it.rest.now };
}

impl<T> Merge<T> {
    /// Iterates over the adds in order.
    pub fn adds(&self) -> EverySecond<'_, T>
        ensures { result ≡ adds self.now }
    {
        EverySecond {
            rest: self.as_slice(),
        }
    }

    /// Iterates over the removes in order.
    pub fn removes(&self) -> EverySecond<'_, T>
        ensures { result ≡ removes self.now }
    {
        match self.as_slice() {
            [_, rest @ ..] => EverySecond { rest },
            [] => unreachable!(),
        }
    }
}

impl<'a, T> Iterator for EverySecond<'a, T> {
    type Item = &'a T;

    ghost next_gives = { YieldsFirstRef (λ rest. rest) };

    ghost remaining = { item_count (λ rest. rest) };

    fn next(&mut self) -> Option<&'a T> {
        let (first, others) = self.rest.split_first()?;
        self.rest = match others {
            [_, rest @ ..] => rest,
            [] => others,
        };
        Some(first)
    }

    fn size_hint(&self) -> (usize, Option<usize>) {
        let len = self.len();
        (len, Some(len))
    }
}

impl<T> ExactSizeIterator for EverySecond<'_, T> {
    fn len(&self) -> usize {
        self.rest.len().div_ceil(2)
    }
}

impl<T> FusedIterator for EverySecond<'_, T> {}
