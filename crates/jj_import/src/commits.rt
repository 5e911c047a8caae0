//! The commit that a commit of a stream becomes.
ghost use Rattle.std.specs.Prelude.{◌≡◌, ◌∷◌, [], Some, IfOk, map};
ghost use Rattle.std.specs.Option.{option_copied, option_map};
ghost use Rattle.jj_backend.specs.Objects.{Objects};
ghost use Rattle.jj_fast_import.specs.Values.{ByName, commit_value, reference_value};
ghost use Rattle.jj_import.specs.ImportStates.{AreReferences, IsContinued, IsImportedCommit, IsNameIn, IsReference, IsTreeBefore, commit_named, parents_of, state_of};
ghost use Rattle.jj_import.specs.Imported.{imported_string};
ghost use Rattle.jj_import.specs.Stored.{IsExtended};

use crate::change_paths::check_files;
use crate::changes::change_tree;
use crate::error::ImportError;
use crate::importer::Importer;
use crate::records::record_of;
use jj_backend::backend::{Backend, Commit, CommitId, NoSigner, TreeId};
use jj_fast_import::command;
use jj_fast_import::command::Reference;
use std::alloc::{AllocError, Global};

// Returns a name without `^0`, which says that it names a commit.
fn without_suffix(name: &str) -> &str
    ensures { IsNameIn name.now result.now }
{
    match name.strip_suffix("^0") {
        Some(name) => name,
        None => name,
    }
}

// Returns the tree of a parent, and the empty tree without one.
fn base_tree<B: Backend>(
    alloc: Global,
    backend: &B,
    parent: Option<&CommitId>,
) -> Result<TreeId, ImportError>
    ensures { IfOk result (IsTreeBefore (B.objects backend.now) (option_copied parent.entry)) }
{
    match parent {
        Some(parent) => {
            let commit = backend.read_commit(alloc, parent)?;
            resolved_tree(&commit)
        }
        None => {
            let tree = backend.empty_tree_id().clone()?;
            Ok(tree)
        }
    }
}

// Returns the tree of a commit without conflicts.
fn resolved_tree(commit: &Commit) -> Result<TreeId, ImportError>
    ensures { IfOk result (λ tree. commit.now.root_tree ≡ tree ∷ []) }
{
    match commit.root_tree.as_resolved() {
        Some(tree) => Ok(tree.clone()?),
        None => Err(ImportError::Conflict),
    }
}

// Writes a commit without a signature.
fn write_record<B: Backend>(
    alloc: Global,
    backend: &mut B,
    contents: Commit,
) -> Result<CommitId, ImportError>
    ensures commit { IfOk result (λ id. (B.objects backend.new).commits id ≡ Some contents) }
    ensures objects { IsExtended (B.objects backend.old) (B.objects backend.new) }
    ensures fixed { B.fixed backend.new ≡ B.fixed backend.old }
{
    let (id, _) = backend.write_commit(alloc, contents, None::<&mut NoSigner>)?;
    Ok(id)
}

// Returns the first parent and the others, and the root commit if there are none.
fn join_parents(
    first: Option<CommitId>,
    merged: Vec<CommitId>,
    root: CommitId,
) -> Result<Vec<CommitId>, AllocError>
    ensures { IfOk result (λ parents. parents.items ≡ parents_of first merged.items root) }
{
    let mut parents = merged;
    match first {
        Some(first) => parents.insert(0, first)?,
        None => {
            if parents.is_empty() {
                parents.push(root)?;
            }
        }
    }
    Ok(parents)
}

impl Importer {
    // Returns the commit that a name names: a ref of the stream, an earlier ref, or Git's id.
    fn find_name(&self, name: &str) -> Option<&CommitId>
        ensures { option_copied result ≡ commit_named (state_of self.now) name.now }
    {
        match self.stream_refs.get(name) {
            Some(id) => id.as_ref(),
            None => match self.names.refs.get(name) {
                Some(id) => Some(id),
                None => self.names.git_ids.get(name),
            },
        }
    }

    // Returns the commit that a ref or Git's id names.
    fn commit_by_name(
        &self,
        alloc: Global,
        field: &'static str,
        name: &[u8],
    ) -> Result<CommitId, ImportError>
        ensures { IfOk result (IsReference (state_of self.now) (ByName name.now)) }
    {
        let name = String::from_utf8_lossy(alloc, name)?;
        match self.find_name(without_suffix(name.as_str())) {
            Some(id) => Ok(id.clone()?),
            None => Err(ImportError::UnknownName { field, name }),
        }
    }

    // Returns the commit of a reference.
    pub(crate) fn commit_of(
        &self,
        alloc: Global,
        field: &'static str,
        reference: &Reference,
    ) -> Result<CommitId, ImportError>
        ensures { IfOk result (IsReference (state_of self.now) (reference_value reference.now)) }
    {
        match reference {
            Reference::Name(name) => self.commit_by_name(alloc, field, name),
            Reference::Mark(mark) => self.marks.commit(field, *mark),
        }
    }

    // Returns the commit that `from` names, and without it that of the ref in this stream.
    fn first_parent(
        &self,
        alloc: Global,
        from: Option<&Reference>,
        ref_name: &str,
    ) -> Result<Option<CommitId>, ImportError>
        ensures { IfOk result (IsContinued (state_of self.now) ref_name.now
            (option_map (λ from. reference_value from.now) from.entry)) }
    {
        match from {
            Some(from) => {
                let id = self.commit_of(alloc, "from", from)?;
                Ok(Some(id))
            }
            None => match self.stream_refs.get(ref_name) {
                Some(Some(id)) => Ok(Some(id.clone()?)),
                _ => Ok(None),
            },
        }
    }

    // Returns the commits of `merge`.
    fn merged(&self, alloc: Global, references: &[Reference]) -> Result<Vec<CommitId>, ImportError>
        ensures { IfOk result (λ ids. AreReferences (state_of self.now)
            (map reference_value references.now) ids.items) }
    {
        let mut ids = Vec::new(alloc);
        for reference in references {
            let id = self.commit_of(alloc, "merge", reference)?;
            ids.push(id)?;
        }
        Ok(ids)
    }

    // Writes the commit that a commit of the stream becomes.
    pub(crate) fn write_commit<B: Backend>(
        &self,
        alloc: Global,
        backend: &mut B,
        commit: &command::Commit,
        ref_name: &str,
        git_id: &Option<String>,
    ) -> Result<CommitId, ImportError>
        requires { ref_name.now ≡ imported_string commit.now.ref_name.items }
        ensures commit { IfOk result (λ id. (objects : Objects)
            → IsExtended (B.objects backend.new) objects → IsImportedCommit objects
            (B.fixed backend.old).root_commit_id (state_of self.now) (commit_value commit.now) id) }
        ensures objects { IsExtended (B.objects backend.old) (B.objects backend.new) }
        ensures fixed { B.fixed backend.new ≡ B.fixed backend.old }
    {
        let first = self.first_parent(alloc, commit.from.as_ref(), ref_name)?;
        let base = base_tree(alloc, backend, first.as_ref())?;
        let root = backend.root_commit_id().clone()?;
        let merged = self.merged(alloc, &commit.merges)?;
        check_files(alloc, &commit.changes)?;
        let parents = join_parents(first, merged, root)?;
        let tree = change_tree(alloc, backend, &self.marks, base, &commit.changes)?;
        let record = record_of(alloc, commit, parents, tree, git_id.as_ref())?;
        let id = write_record(alloc, backend, record)?;
        Ok(id)
    }
}
