//! Lookups: an item is the commit that was found, or the id of a missing one.
ghost use Rattle.std.specs.Prelude.{◌≡◌};

use crate::commits::{Commit, commit_of};

/// Iterates over the commits with these ids. The item of a missing commit is its id.
#[derive(Drop)]
pub struct Lookups<'a> {
    commits: &'a [Commit],
    ids: &'a [u64],
}

impl<'a> Iterator for Lookups<'a> {
    type Item = Result<&'a Commit, u64>;

    ghost use Rattle.std.specs.Iterator.{YieldsFirstBy, item_count};
    ghost use Rattle.jj_walks_tests.specs.Missing.{lookups_left};
    ghost use Rattle.jj_walks_tests.specs.Parents.{value_of_item};

    ghost next_gives = { YieldsFirstBy value_of_item lookups_left };

    ghost remaining = { item_count lookups_left };

    fn next(&mut self) -> Option<Result<&'a Commit, u64>> {
        let (id, others) = self.ids.split_first()?;
        self.ids = others;
        match commit_of(self.commits, *id) {
            Some(commit) => Some(Ok(commit)),
            None => Some(Err(*id)),
        }
    }
}

/// Returns the commits with these ids, in the order of the ids.
pub fn look_up<'a>(commits: &'a [Commit], ids: &'a [u64]) -> Lookups<'a>
    ensures commits { result.commits.now ≡ commits.now }
    ensures ids { result.ids.now ≡ ids.now }
{
    Lookups { commits, ids }
}
