//! The paths at which a merge reads and writes trees: a backend that reads at no other path and
//! records the writes.
ghost use Rattle.std.specs.Prelude.{◌≡◌, ◌++◌, ℕ, List, length, Some, All, Any, IfOk};
ghost use Rattle.jj_backend.specs.Trees.{Entries};
ghost use Rattle.jj_backend.specs.declared.backend.tree_value.TreeValue.TheVariants.{Tree as SubTree};
ghost use Rattle.jj_paths.specs.Paths.{Path};
ghost use Rattle.jj_trees.specs.MemoryObjects.{objects_of};
ghost use Rattle.jj_trees.specs.TreeWrites.{IsDirectory};
ghost use Rattle.jj_trees.specs.WrittenTrees.{stored_at, values_to_write};

use crate::building::{ascending_tree, component, path, plain_file, sides_of};
use crate::three_sides::side_values;
use jj_backend::backend::{
    Backend, BackendError, BackendResult, ChangeId, Commit, CommitId, CopyHistory, CopyId,
    CopyRecord, FileId, RelatedCopy, SigningFn, SymlinkId, Tree, TreeId, TreeValue,
};
use jj_content_tests::retry::holds;
use jj_merges::conflict_labels::ConflictLabels;
use jj_merges::merge::{Merge, SameChange};
use jj_paths::repo_path::{RepoPath, RepoPathBuf};
use jj_trees::memory_backend::MemoryBackend;
use jj_trees::tree_merge::{TreeMerge, merge_trees, write_back};
use std::alloc::Global;
use std::cell::Cell;
use std::process::Abort;

/// Reads each tree only at the path at which it is stored, counts the reads of trees, and records
/// the path and the tree of each write of a tree. All other reads and writes fail.
#[derive(Drop)]
pub struct PathBackend {
    inner: MemoryBackend,
    paths: Vec<(TreeId, RepoPathBuf)>,
    reads: Cell<u32>,
    written: Vec<(RepoPathBuf, Tree)>,
}

impl PathBackend {
    fn is_stored_at(&self, path: RepoPath<'_>, id: &TreeId) -> bool {
        for (tree, stored) in &self.paths {
            if tree == id && stored.as_path() == path {
                return true;
            }
        }
        false
    }
}

impl Backend for PathBackend {
    ghost use Rattle.std.specs.Prelude.{◌≡◌, ⊤, codes, IfOk, IsErrAnd};
    ghost use Rattle.jj_backend.specs.declared.backend.errors.BackendError.TheVariants.{Memory};
    ghost use Rattle.jj_trees.specs.MemoryObjects.{fixed_of, objects_of, MayFailToWrite};
    ghost use Rattle.jj_trees_tests.specs.Recorded.{Records};

    ghost objects = { λ backend. objects_of backend.inner };

    ghost fixed = { λ backend. record (fixed_of backend.inner) { name = codes "paths" } };

    ghost may_fail = { λ _ e. e ≡ Memory };

    ghost may_read_tree = { λ _ path id r. ⊤ };

    ghost may_fail_to_write = { λ backend object e. MayFailToWrite backend.inner object e };

    ghost may_write = { λ backend path object r after. IfOk r (λ _.
        Records backend.written.items path object after.written.items) };

    ghost may_relate = { λ _ _ r. IsErrAnd r (λ e. e ≡ Memory) };

    ghost may_list_copies = { λ _ _ _ _ r. IsErrAnd r (λ e. e ≡ Memory) };

    fn name(&self) -> &str {
        "paths"
    }

    fn commit_id_length(&self) -> usize {
        self.inner.commit_id_length()
    }

    fn change_id_length(&self) -> usize {
        self.inner.change_id_length()
    }

    fn root_commit_id(&self) -> &CommitId {
        self.inner.root_commit_id()
    }

    fn root_change_id(&self) -> &ChangeId {
        self.inner.root_change_id()
    }

    fn empty_tree_id(&self) -> &TreeId {
        self.inner.empty_tree_id()
    }

    fn concurrency(&self) -> usize {
        1
    }

    fn read_file(
        &self,
        _alloc: Global,
        _path: RepoPath<'_>,
        _id: &FileId,
    ) -> BackendResult<Vec<u8>> {
        Err(BackendError::Memory)
    }

    fn write_file(
        &mut self,
        _alloc: Global,
        _path: RepoPath<'_>,
        _contents: &[u8],
    ) -> BackendResult<FileId> {
        Err(BackendError::Memory)
    }

    fn read_symlink(
        &self,
        _alloc: Global,
        _path: RepoPath<'_>,
        _id: &SymlinkId,
    ) -> BackendResult<String> {
        Err(BackendError::Memory)
    }

    fn write_symlink(
        &mut self,
        _alloc: Global,
        _path: RepoPath<'_>,
        _target: &str,
    ) -> BackendResult<SymlinkId> {
        Err(BackendError::Memory)
    }

    fn read_copy(&self, _alloc: Global, _id: &CopyId) -> BackendResult<CopyHistory> {
        Err(BackendError::Memory)
    }

    fn write_copy(&mut self, _alloc: Global, _copy: &CopyHistory) -> BackendResult<CopyId> {
        Err(BackendError::Memory)
    }

    fn get_related_copies(
        &self,
        _alloc: Global,
        _copy_id: &CopyId,
    ) -> BackendResult<Vec<RelatedCopy>> {
        Err(BackendError::Memory)
    }

    fn read_tree(&self, alloc: Global, path: RepoPath<'_>, id: &TreeId) -> BackendResult<Tree> {
        self.reads.set(self.reads.get().saturating_add(1));
        if self.is_stored_at(path, id) {
            return self.inner.read_tree(alloc, path, id);
        }
        Err(BackendError::Memory)
    }

    fn write_tree(
        &mut self,
        alloc: Global,
        path: RepoPath<'_>,
        contents: &Tree,
    ) -> BackendResult<TreeId> {
        self.written
            .push((path.to_owned(alloc)?, contents.clone()?))?;
        self.inner.write_tree(alloc, path, contents)
    }

    fn read_commit(&self, _alloc: Global, _id: &CommitId) -> BackendResult<Commit> {
        Err(BackendError::Memory)
    }

    fn write_commit<S: SigningFn>(
        &mut self,
        _alloc: Global,
        _contents: Commit,
        _sign_with: Option<&mut S>,
    ) -> BackendResult<(CommitId, Commit)> {
        Err(BackendError::Memory)
    }

    fn get_copy_records(
        &self,
        _alloc: Global,
        _paths: Option<&[RepoPathBuf]>,
        _root: &CommitId,
        _head: &CommitId,
    ) -> BackendResult<Vec<CopyRecord>> {
        Err(BackendError::Memory)
    }
}

// Stores the tree of one entry at `dir`.
fn store(
    alloc: Global,
    backend: &mut PathBackend,
    dir: &str,
    name: &str,
    value: TreeValue,
) -> BackendResult<TreeId> {
    let mut entries = Vec::new(alloc);
    entries.push((component(alloc, name)?, value))?;
    let tree = ascending_tree(alloc, entries)?;
    let id = backend.inner.write_tree(alloc, RepoPath::root(), &tree)?;
    backend.paths.push((id.clone()?, path(alloc, dir)?))?;
    Ok(id)
}

// Stores the trees of the file `d/e/x` of one byte.
fn store_file(alloc: Global, backend: &mut PathBackend, byte: u8) -> BackendResult<TreeId> {
    let file = backend.inner.write_file(alloc, RepoPath::root(), &[byte])?;
    let e = store(alloc, backend, "d/e", "x", plain_file(alloc, file))?;
    let d = store(alloc, backend, "d", "e", TreeValue::Tree(e))?;
    store(alloc, backend, "", "d", TreeValue::Tree(d))
}

// Stores three trees that differ in one nested file, and returns their merge.
fn store_sides(alloc: Global, backend: &mut PathBackend) -> BackendResult<Merge<TreeId>> {
    let left = store_file(alloc, backend, b'1')?;
    let base = store_file(alloc, backend, b'0')?;
    let right = store_file(alloc, backend, b'2')?;
    Ok(sides_of(alloc, left, base, right)?)
}

fn merge_nested(alloc: Global, backend: &mut PathBackend) -> BackendResult<TreeMerge> {
    let roots = store_sides(alloc, backend)?;
    let labels = ConflictLabels::unlabeled(alloc);
    merge_trees(alloc, backend, &roots, &labels, SameChange::Accept)
}

fn has_conflict_at(merge: &TreeMerge, expected: &str) -> bool {
    match merge.conflicts.as_slice() {
        [(path, _, _)] => path.as_path().as_internal_file_string() == expected,
        _ => false,
    }
}

fn new_backend(alloc: Global) -> BackendResult<PathBackend> {
    Ok(PathBackend {
        inner: MemoryBackend::new(alloc)?,
        paths: Vec::new(alloc),
        reads: Cell::new(0),
        written: Vec::new(alloc),
    })
}

/// Writes a merge back: the trees whose writes were recorded are those of the directories, each at
/// its path.
pub fn recorded_write_back(
    alloc: Global,
    backend: &mut PathBackend,
    merge: &TreeMerge,
    chosen: &[Option<TreeValue>],
) -> BackendResult<TreeId>
    requires { length chosen.now ≡ length merge.now.conflicts.items }
    ensures { IfOk result (λ root. (recorded : List (Path × Entries))
        × (backend.new.written.items ≡ backend.old.written.items ++ recorded)
        × All (λ write. (id : List ℕ)
        × (stored_at (objects_of backend.new.inner).trees (Some (SubTree root)) write.0
        ≡ Some (SubTree id))
        × ((objects_of backend.new.inner).trees id ≡ Some write.1)) recorded
        × ((path : Path) → IsDirectory (values_to_write merge.now.resolved.items
        merge.now.conflicts.items chosen.now) path → Any (λ write. write.0 ≡ path) recorded)) }
{
    write_back(alloc, backend, merge, chosen)
}

// Each of the three merged directories is read once for each of the three terms.
fn reads_at_paths(alloc: Global) -> BackendResult<bool> {
    let mut backend = new_backend(alloc)?;
    let is_merged = has_conflict_at(&merge_nested(alloc, &mut backend)?, "d/e/x");
    Ok(is_merged && backend.reads.get() == 9)
}

// Each directory is written after its subdirectories.
fn writes_at_paths(alloc: Global) -> BackendResult<bool> {
    let mut backend = new_backend(alloc)?;
    let merge = merge_nested(alloc, &mut backend)?;
    let chosen = side_values(alloc, &merge, 0)?;
    recorded_write_back(alloc, &mut backend, &merge, &chosen)?;
    match backend.written.as_slice() {
        [first, second, root] => Ok(
            first.0.as_path().as_internal_file_string() == "d/e"
                && second.0.as_path().as_internal_file_string() == "d"
                && root.0.as_path().is_root(),
        ),
        _ => Ok(false),
    }
}

#[test]
fn trees_are_read_at_their_paths(rt: HostRuntime) {
    assert!(rt; holds(&rt, reads_at_paths));
}

#[test]
fn trees_are_written_at_their_paths(rt: HostRuntime) {
    assert!(rt; holds(&rt, writes_at_paths));
}
