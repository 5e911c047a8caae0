//! The merge of two commits over their only merge base.
ghost use Rattle.std.specs.Prelude.{◌≡◌, ◌∷◌, [], ℕ, List, Some, codes, map, string_bytes, IfOk};
ghost use Rattle.std.specs.List.{AllZip};
ghost use Rattle.jj_merges.specs.declared.merge.SameChange.TheVariants.{Accept};
ghost use Rattle.jj_content_merges.specs.declared.files.FileMergeHunkLevel.TheVariants.{Line};
ghost use Rattle.jj_trees.specs.TreeMerges.{IsTreeMerge, root_values};
ghost use Rattle.jj_trees.specs.WrittenTrees.{IsTreeOf, values_to_write};
ghost use Rattle.jj_file_merges.specs.MergedTrees.{IsOutcome, outcome_value};
ghost use Rattle.jj_history_merges.specs.CommitMerges.{AddsCommits, AreTreesOf, IsMergeCommit, IsOnlyBase};

use crate::error::MergeError;
use jj_backend::backend::{
    Backend, BackendError, ChangeId, Commit, CommitId, NoSigner, Signature, Timestamp, TreeId,
    TreeValue, make_root_commit,
};
use jj_conflicts::conflicts::ConflictMarkerStyle;
use jj_content::blake2b::Blake2b512;
use jj_content_merges::files::{FileMergeHunkLevel, MergeOptions};
use jj_file_merges::trees::{FileMerge, merge_files};
use jj_history::ancestry::bases;
use jj_history_commands::contents::tree_of;
use jj_ids::object_id::ObjectId;
use jj_merges::conflict_labels::ConflictLabels;
use jj_merges::merge::{Diff, Merge, SameChange};
use jj_store_walks::ReadCommit;
use smallvec::SmallVec;
use std::alloc::{AllocError, Global};

const OPTIONS: MergeOptions = MergeOptions {
    hunk_level: FileMergeHunkLevel::Line,
    same_change: SameChange::Accept,
};

// The label of the merge base.
const BASE: &str = "merge base";

// The bytes of a change id.
const CHANGE_ID_LENGTH: usize = 16;

/// The revisions that named two commits. They label the sides of conflicts.
#[derive(Drop)]
pub struct SideNames {
    pub first: String,
    pub second: String,
}

/// A merge of two commits.
#[derive(Drop)]
pub struct CommitMerge {
    /// The commit that was written.
    pub id: CommitId,
    /// The merge base.
    pub base: CommitId,
    /// The merge of the trees and of the files in conflict.
    pub files: FileMerge,
}

fn several_bases(alloc: Global, found: &[ReadCommit]) -> Result<MergeError, AllocError> {
    let mut names = String::new(alloc);
    for base in found {
        names.push(' ')?;
        names.push_str(base.id.hex(alloc)?.as_str())?;
    }
    Ok(MergeError::SeveralBases { names })
}

fn only_base<B: Backend>(
    alloc: Global,
    store: &B,
    first: &CommitId,
    second: &CommitId,
) -> Result<CommitId, MergeError>
    ensures { IfOk result (IsOnlyBase (B.objects store.now) first.now second.now) }
{
    let mut others = Vec::new(alloc);
    others.push(second.clone()?)?;
    let found = bases(alloc, store, first, &others)?;
    match found.as_slice() {
        [] => Err(MergeError::NoBase),
        [base] => Ok(base.id.clone()?),
        several => Err(several_bases(alloc, several)?),
    }
}

fn merge_of_trees(
    alloc: Global,
    first: TreeId,
    base: TreeId,
    second: TreeId,
) -> Result<Merge<TreeId>, AllocError>
    ensures { IfOk result (λ merge. merge ≡ first ∷ base ∷ second ∷ []) }
{
    let mut diffs = Vec::new(alloc);
    diffs.push(Diff::new(base, second))?;
    let merge = Merge::from_diffs(alloc, first, diffs)?;
    Ok(merge)
}

fn labels_of(alloc: Global, names: &SideNames) -> Result<ConflictLabels, AllocError>
    ensures { IfOk result (λ labels. labels ≡ string_bytes names.now.first
        ∷ codes "merge base" ∷ string_bytes names.now.second ∷ []) }
{
    let mut labels = Vec::new(alloc);
    labels.push(names.first.clone()?)?;
    labels.push(String::from_str(alloc, BASE)?)?;
    labels.push(names.second.clone()?)?;
    Ok(ConflictLabels::from_vec(SmallVec::from_vec(labels)))
}

// Merges the trees of two commits over that of a base.
fn merge_sides<B: Backend>(
    alloc: Global,
    store: &mut B,
    first: &CommitId,
    base: &CommitId,
    second: &CommitId,
    names: &SideNames,
    style: ConflictMarkerStyle,
) -> Result<FileMerge, MergeError>
    ensures merge { IfOk result (λ files. (trees : List (List ℕ))
        × AreTreesOf (B.objects store.old) first.now base.now second.now trees
        × IsTreeMerge (B.objects store.old).trees ⟦<Option<TreeValue> as PartialEq>⟧.eq Accept
        (root_values trees) (string_bytes names.now.first ∷ codes "merge base"
        ∷ string_bytes names.now.second ∷ []) files.merge.resolved.items
        files.merge.conflicts.items) }
    ensures outcomes { IfOk result (λ files. AllZip (IsOutcome (B.objects store.new).files Line
        Accept (Some style)) files.merge.conflicts.items files.outcomes.items) }
    ensures tree { IfOk result (λ files. IsTreeOf (B.objects store.new).trees
        (values_to_write files.merge.resolved.items files.merge.conflicts.items
        (map outcome_value files.outcomes.items)) files.tree) }
{
    let left = tree_of(alloc, store, first, names.first.as_str())?;
    let middle = tree_of(alloc, store, base, BASE)?;
    let right = tree_of(alloc, store, second, names.second.as_str())?;
    let trees = merge_of_trees(alloc, left, middle, right)?;
    let labels = labels_of(alloc, names)?;
    let files = merge_files(alloc, store, &trees, &labels, &OPTIONS, Some(style))?;
    Ok(files)
}

// Returns the prefix of the digest of both ids.
fn change_id_of(
    alloc: Global,
    first: &CommitId,
    second: &CommitId,
) -> Result<ChangeId, AllocError> {
    let mut hasher = Blake2b512::new();
    hasher.update(first.as_bytes());
    hasher.update(second.as_bytes());
    let digest = hasher.finalize();
    ChangeId::from_bytes(alloc, &digest[..CHANGE_ID_LENGTH])
}

fn time_of(commit: &Commit) -> Timestamp {
    let committer = &commit.committer;
    committer.timestamp
}

fn commit_time<B: Backend>(
    alloc: Global,
    store: &B,
    id: &CommitId,
) -> Result<Timestamp, BackendError> {
    let commit = store.read_commit(alloc, id)?;
    Ok(time_of(&commit))
}

// Returns the signature of merges at a time.
fn signature_at(alloc: Global, timestamp: Timestamp) -> Result<Signature, AllocError> {
    Ok(Signature {
        name: String::from_str(alloc, "jj-history")?,
        email: String::new(alloc),
        timestamp,
    })
}

fn description_of(alloc: Global, names: &SideNames) -> Result<String, AllocError> {
    let first = names.first.as_str();
    let second = names.second.as_str();
    format!(in alloc; "merge {second} into {first}\n")
}

fn both(alloc: Global, first: &CommitId, second: &CommitId) -> Result<Vec<CommitId>, AllocError>
    ensures { IfOk result (λ parents. parents.items ≡ first.now ∷ second.now ∷ []) }
{
    let mut parents = Vec::new(alloc);
    parents.push(first.clone()?)?;
    parents.push(second.clone()?)?;
    Ok(parents)
}

// Returns the commit with these parents and this tree, at a time.
fn record_of(
    alloc: Global,
    parents: Vec<CommitId>,
    tree: TreeId,
    change_id: ChangeId,
    description: String,
    timestamp: Timestamp,
) -> Result<Commit, AllocError>
    ensures parents { IfOk result (λ commit. commit.parents ≡ parents.items) }
    ensures tree { IfOk result (λ commit. commit.root_tree ≡ tree ∷ []) }
{
    let author = signature_at(alloc, timestamp)?;
    let committer = signature_at(alloc, timestamp)?;
    let mut commit = make_root_commit(alloc, change_id, tree);
    commit.parents = parents;
    commit.description = description;
    commit.author = author;
    commit.committer = committer;
    Ok(commit)
}

// Returns the commit of a merge with this tree, at the later one of the times of both commits.
fn commit_of_merge<B: Backend>(
    alloc: Global,
    store: &B,
    first: &CommitId,
    second: &CommitId,
    names: &SideNames,
    tree: &TreeId,
) -> Result<Commit, MergeError>
    ensures parents { IfOk result (λ commit.
        commit.parents ≡ first.now ∷ second.now ∷ []) }
    ensures tree { IfOk result (λ commit. commit.root_tree ≡ tree.now ∷ []) }
{
    let left = commit_time(alloc, store, first)?;
    let right = commit_time(alloc, store, second)?;
    let parents = both(alloc, first, second)?;
    let change_id = change_id_of(alloc, first, second)?;
    let description = description_of(alloc, names)?;
    let time = left.max(right);
    let commit = record_of(alloc, parents, tree.clone()?, change_id, description, time)?;
    Ok(commit)
}

// Writes the commit of a merge without a signature.
fn write_merge<B: Backend>(
    alloc: Global,
    store: &mut B,
    first: &CommitId,
    second: &CommitId,
    names: &SideNames,
    tree: &TreeId,
) -> Result<CommitId, MergeError>
    ensures commit { IfOk result (λ id.
        IsMergeCommit (B.objects store.new) id first.now second.now tree.now) }
    ensures objects { AddsCommits (B.objects store.old) (B.objects store.new) }
{
    let commit = commit_of_merge(alloc, store, first, second, names, tree)?;
    let (id, _) = store.write_commit(alloc, commit, None::<&mut NoSigner>)?;
    Ok(id)
}

/// Merges two commits over their only merge base, and writes a commit with both as parents. Its
/// tree has the merged files; a conflict of files is a file with markers in the style, labeled by
/// the names, and nothing is at the path of another conflict. The same commits and names have the
/// same merge.
///
/// Fails with `SeveralBases` and `NoBase` if there is not one merge base, with `Command` if a tree
/// is in conflict, with `Store` of the error of a read or a write, and with `Memory` if memory runs
/// out. Objects that were written before an error stay in the store.
pub fn merge_commits<B: Backend>(
    alloc: Global,
    store: &mut B,
    first: &CommitId,
    second: &CommitId,
    names: &SideNames,
    style: ConflictMarkerStyle,
) -> Result<CommitMerge, MergeError>
    // The base is the only merge base of the commits.
    ensures base { IfOk result (λ m.
        IsOnlyBase (B.objects store.old) first.now second.now m.base) }
    // The merge has exactly the resolved paths and the conflicts of the trees of both commits over
    // that of the base.
    ensures merge { IfOk result (λ m. (trees : List (List ℕ))
        × AreTreesOf (B.objects store.old) first.now m.base second.now trees
        × IsTreeMerge (B.objects store.old).trees ⟦<Option<TreeValue> as PartialEq>⟧.eq Accept
        (root_values trees) (string_bytes names.now.first ∷ codes "merge base"
        ∷ string_bytes names.now.second ∷ []) m.files.merge.resolved.items
        m.files.merge.conflicts.items) }
    // Each conflict has its outcome: the file with the merged content; else that with markers, if
    // its values are files or absent; else nothing.
    ensures outcomes { IfOk result (λ m. AllZip (IsOutcome (B.objects store.new).files Line
        Accept (Some style)) m.files.merge.conflicts.items m.files.outcomes.items) }
    // The tree has the value of each resolved path and of each outcome, and nothing else.
    ensures tree { IfOk result (λ m. IsTreeOf (B.objects store.new).trees
        (values_to_write m.files.merge.resolved.items m.files.merge.conflicts.items
        (map outcome_value m.files.outcomes.items)) m.files.tree) }
    // The store has the commit, with both commits as parents, in order, and with the merged tree.
    ensures commit { IfOk result (λ m.
        IsMergeCommit (B.objects store.new) m.id first.now second.now m.files.tree) }
{
    let base = only_base(alloc, store, first, second)?;
    let files = merge_sides(alloc, store, first, &base, second, names, style)?;
    let id = write_merge(alloc, store, first, second, names, &files.tree)?;
    Ok(CommitMerge { id, base, files })
}
