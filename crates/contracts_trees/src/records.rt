//! Callers of `jj_backend`.
ghost use Rattle.std.specs.Prelude.{◌≡◌, IfOk, OnOk};
ghost use Rattle.std.specs.Int.{int_div_euclid};
ghost use Rattle.std.specs.List.Sorted.{IsPermutation};
ghost use Rattle.jiff.specs.Words.{plain_zoned};
ghost use Rattle.jj_backend.specs.Contents.{commit_content};
ghost use Rattle.jj_backend.specs.MergedTreeValues.{file_id_of, parts};
ghost use Rattle.jj_dates.specs.Times.{nanoseconds_in_millisecond};
ghost use Rattle.jj_content.specs.Content.{Absorbs};

use jiff::Zoned;
use jj_backend::backend::{
    Commit, DuplicateEntryError, FileId, MergedTreeValueExt, MillisSinceEpoch, Timestamp, Tree,
    TreeValue,
};
use jj_content::content_hash::{ContentHash, DigestUpdate};
use jj_dates::timestamp::TimestampExt;
use jj_merges::merge::Merge;
use jj_paths::repo_path::RepoPathComponentBuf;
use std::alloc::{AllocError, Global};

/// `ContentHash::hash` of `Commit`.
pub fn hash_commit<D: DigestUpdate>(
    alloc: Global,
    commit: &Commit,
    state: &mut D,
) -> Result<(), AllocError>
    ensures { OnOk result (Absorbs D.absorbed state.old state.new (commit_content commit.now)) }
{
    commit.hash(alloc, state)
}

/// `MergedTreeValueExt::to_file_merge`.
pub fn to_file_merge<V: MergedTreeValueExt>(
    alloc: Global,
    values: &V,
) -> Result<Option<Merge<Option<FileId>>>, AllocError>
    ensures { IfOk result (λ merge. merge ≡ parts file_id_of (V.values values.now)) }
{
    values.to_file_merge(alloc)
}

/// `TimestampExt::from_datetime`.
pub fn from_datetime(datetime: &Zoned<'_>) -> Timestamp
    ensures { result.timestamp.0 ≡ int_div_euclid
        (plain_zoned datetime.now).timestamp.nanosecond nanoseconds_in_millisecond }
{
    Timestamp::from_datetime(datetime)
}

/// `Tree::from_entries`.
pub fn from_entries(
    entries: Vec<(RepoPathComponentBuf, TreeValue)>,
) -> Result<Tree, DuplicateEntryError>
    ensures { IfOk result (IsPermutation entries.items) }
{
    Tree::from_entries(entries)
}
