//! Proved callers of trees and of merges of tree values.
ghost use Rattle.std.specs.Prelude.{◌≡◌, ◌≤◌, ◌++◌, [], ◌∷◌, true, false, Some, IfOk, MatchResult, count_by, is_some, codes, string_bytes};
ghost use Rattle.std.specs.Str.{bytes_eq};
ghost use Rattle.jj_content.specs.Hex.{hex};
ghost use Rattle.jj_paths.specs.Names.{name_of};
ghost use Rattle.jj_paths.specs.Paths.{Name};
ghost use Rattle.jj_backend.specs.MergedTreeValues.{are_trees, newline};
ghost use Rattle.jj_backend.specs.Trees.{value_at};

use jj_backend::backend::{
    CopyId, FileId, MergedTreeValue, MergedTreeValueExt, SymlinkId, Tree, TreeValue,
};
use jj_merges::conflict_labels::ConflictLabels;
use jj_merges::merge::Merge;
use jj_paths::repo_path::{RepoPathComponent, RepoPathComponentBuf};
use std::alloc::{AllocError, Global};

/// Returns whether a tree has an entry with this name.
pub fn has_name(tree: &Tree, name: RepoPathComponent<'_>) -> bool
    ensures { result ≡ is_some (value_at tree.now (name_of name.entry)) }
{
    tree.value(name).is_some()
}

/// Creates the tree of a directory listing in any order: the value of each name is that of the
/// listing. Returns a name that the listing has twice.
pub fn tree_of_listing(
    listing: Vec<(RepoPathComponentBuf, TreeValue)>,
) -> Result<Tree, RepoPathComponentBuf>
    ensures { MatchResult result
        (λ tree. (name : Name) → value_at tree name ≡ value_at listing.items name)
        (λ name. 2 ≤ count_by (λ entry. bytes_eq name entry.0) listing.items) }
{
    match Tree::from_entries(listing) {
        Ok(tree) => Ok(tree),
        Err(error) => Err(error.name),
    }
}

/// Returns whether a merge is a tree; the contract models the merge as the list of its terms.
pub fn are_all_trees(values: &MergedTreeValue) -> bool
    ensures { result ≡ are_trees values.now }
{
    values.is_tree()
}

/// Creates a new file from an absent value: it is neither executable nor a copy.
pub fn new_file(alloc: Global, id: FileId) -> Result<MergedTreeValue, AllocError>
    ensures { IfOk result (λ merge. merge ≡ Some (TreeValue.File id false []) ∷ []) }
{
    let ids = Merge::normal(alloc, id);
    MergedTreeValue::absent(alloc).with_new_file_ids(alloc, &ids)
}

/// Replaces the id of an executable file: it stays executable, with the same copy id.
pub fn changed_file(
    alloc: Global,
    id: FileId,
    copy_id: CopyId,
    new_id: FileId,
) -> Result<MergedTreeValue, AllocError>
    ensures { IfOk result (λ merge. merge ≡ Some (TreeValue.File new_id true copy_id) ∷ []) }
{
    let file = TreeValue::File {
        id,
        executable: true,
        copy_id,
    };
    let ids = Merge::normal(alloc, new_id);
    MergedTreeValue::normal(alloc, file).with_new_file_ids(alloc, &ids)
}

/// Describes the merge of a new symbolic link without a label: one line with its id.
pub fn describe_link(alloc: Global, id: SymlinkId) -> Result<String, AllocError>
    ensures { IfOk result (λ text. string_bytes text ≡ codes "Conflict:" ++ (newline
        ++ (codes "  Adding " ++ (codes "symlink with id " ++ (hex id ++ newline))))) }
{
    let link = MergedTreeValue::normal(alloc, TreeValue::Symlink(id));
    link.describe(alloc, &ConflictLabels::unlabeled(alloc))
}
