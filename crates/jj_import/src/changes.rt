//! Changes of a commit, applied to a tree.
ghost use Rattle.std.specs.Prelude.{◌≡◌, Some, IfOk, map};
ghost use Rattle.jj_paths.specs.Names.{path_of};
ghost use Rattle.jj_paths.specs.Paths.{Path};
ghost use Rattle.jj_backend.specs.Objects.{Objects};
ghost use Rattle.jj_backend.specs.declared.backend.tree_value.TreeValue.TheVariants.{Tree as TreeOf};
ghost use Rattle.jj_fast_import.specs.Values.{change_value, content_value};
ghost use Rattle.jj_tree_builder.specs.Changes.{files_at};
ghost use Rattle.jj_import.specs.AppliedChanges.{AreApplied, IsApplied, IsCopied, IsFileOf, IsFound, IsLinkTo, IsRenamed, IsSubmodule, IsValueOf, files_of, table_of};
ghost use Rattle.jj_import.specs.Stored.{IsExtended};

use crate::change_paths::{file_path_of, path_of};
use crate::error::ImportError;
use crate::marks::Marks;
use jj_backend::backend::{Backend, CommitId, CopyId, FileId, SymlinkId, TreeId, TreeValue};
use jj_fast_import::command::{Change, Content, Mode, Reference};
use jj_paths::repo_path::{RepoPath, RepoPathBuf};
use jj_tree_builder::path_value::path_value;
use jj_tree_builder::tree_builder::TreeBuilder;
use std::alloc::Global;

fn unknown_name(alloc: Global, field: &'static str, name: &[u8]) -> ImportError {
    match String::from_utf8_lossy(alloc, name) {
        Ok(name) => ImportError::UnknownName { field, name },
        Err(_) => ImportError::Memory,
    }
}

// Writes a file.
pub(crate) fn write_contents<B: Backend>(
    alloc: Global,
    backend: &mut B,
    path: RepoPath<'_>,
    contents: &[u8],
) -> Result<FileId, ImportError>
    ensures file { IfOk result (λ id. (B.objects backend.new).files id ≡ Some contents.now) }
    ensures objects { IsExtended (B.objects backend.old) (B.objects backend.new) }
    ensures fixed { B.fixed backend.new ≡ B.fixed backend.old }
{
    let id = backend.write_file(alloc, path, contents)?;
    Ok(id)
}

// Returns the id of a file's content, which is written if it is in the stream here.
fn file_of<B: Backend>(
    alloc: Global,
    backend: &mut B,
    marks: &Marks,
    path: RepoPath<'_>,
    content: &Content,
) -> Result<FileId, ImportError>
    ensures file { IfOk result
        (IsFileOf (B.objects backend.new) (table_of marks.now) (content_value content.now)) }
    ensures objects { IsExtended (B.objects backend.old) (B.objects backend.new) }
    ensures fixed { B.fixed backend.new ≡ B.fixed backend.old }
{
    match content {
        Content::Inline(bytes) => write_contents(alloc, backend, path, bytes),
        Content::Stored(Reference::Name(name)) => Err(unknown_name(alloc, "M", name)),
        Content::Stored(Reference::Mark(mark)) => marks.file("M", *mark),
    }
}

// Returns the submodule at the commit that a content names.
fn submodule_of(alloc: Global, content: &Content) -> Result<CommitId, ImportError>
    ensures { IfOk result (IsSubmodule (content_value content.now)) }
{
    let Content::Stored(Reference::Name(name)) = content else {
        return Err(ImportError::Unsupported { field: "M 160000" });
    };
    match CommitId::try_from_hex(alloc, name.as_slice())? {
        Some(id) => Ok(id),
        None => Err(unknown_name(alloc, "M 160000", name)),
    }
}

// Writes the symbolic link whose target is a file's content.
fn symlink_of<B: Backend>(
    alloc: Global,
    backend: &mut B,
    path: RepoPath<'_>,
    file: &FileId,
) -> Result<SymlinkId, ImportError>
    ensures link { IfOk result (λ link. IsLinkTo (B.objects backend.new) link file.now) }
    ensures objects { IsExtended (B.objects backend.old) (B.objects backend.new) }
    ensures fixed { B.fixed backend.new ≡ B.fixed backend.old }
{
    let target = backend.read_file(alloc, path, file)?;
    let Ok(target) = str::from_utf8(&target) else {
        return Err(ImportError::NoUtf8 { field: "M 120000" });
    };
    let link = backend.write_symlink(alloc, path, target)?;
    Ok(link)
}

// Returns the value of a changed entry.
fn value_of<B: Backend>(
    alloc: Global,
    backend: &mut B,
    marks: &Marks,
    path: RepoPath<'_>,
    mode: Mode,
    content: &Content,
) -> Result<TreeValue, ImportError>
    ensures value { IfOk result
        (IsValueOf (B.objects backend.new) (table_of marks.now) mode (content_value content.now)) }
    ensures objects { IsExtended (B.objects backend.old) (B.objects backend.new) }
    ensures fixed { B.fixed backend.new ≡ B.fixed backend.old }
{
    match mode {
        Mode::Normal | Mode::Executable => {
            let id = file_of(alloc, backend, marks, path, content)?;
            Ok(TreeValue::File {
                id,
                executable: matches!(mode, Mode::Executable),
                copy_id: CopyId::placeholder(alloc),
            })
        }
        Mode::Symlink => {
            let file = file_of(alloc, backend, marks, path, content)?;
            let link = symlink_of(alloc, backend, path, &file)?;
            Ok(TreeValue::Symlink(link))
        }
        Mode::Gitlink => {
            let id = submodule_of(alloc, content)?;
            Ok(TreeValue::GitSubmodule(id))
        }
        Mode::Directory => Err(ImportError::Unsupported { field: "M 040000" }),
    }
}

// Writes the tree of the earlier changes, and returns it with the value at a path.
fn value_to_move<B: Backend>(
    alloc: Global,
    backend: &mut B,
    earlier: TreeBuilder,
    field: &'static str,
    from: RepoPath<'_>,
) -> Result<(TreeId, TreeValue), ImportError>
    ensures tree { IfOk result (λ found. (objects : Objects)
        → IsExtended (B.objects backend.new) objects → (place : Path)
        → files_at objects.trees (Some (TreeOf found.0)) place
        ≡ files_of objects.trees earlier place) }
    ensures value { IfOk result (λ found. (objects : Objects)
        → IsExtended (B.objects backend.new) objects
        → IsFound objects.trees (path_of from.entry) found.1 (files_of objects.trees earlier)) }
    ensures objects { IsExtended (B.objects backend.old) (B.objects backend.new) }
    ensures fixed { B.fixed backend.new ≡ B.fixed backend.old }
{
    let base = earlier.write_tree(alloc, backend)?;
    let value = path_value(alloc, backend, &base, from)?;
    match value {
        Some(value) => Ok((base, value)),
        None => {
            let path = String::from_str(alloc, from.as_internal_file_string())?;
            Err(ImportError::MissingPath { field, path })
        }
    }
}

// Applies `R`.
fn rename<B: Backend>(
    alloc: Global,
    backend: &mut B,
    earlier: TreeBuilder,
    from: RepoPathBuf,
    to: RepoPathBuf,
) -> Result<TreeBuilder, ImportError>
    ensures renamed { IfOk result (λ later. (objects : Objects)
        → IsExtended (B.objects backend.new) objects → IsRenamed objects.trees from to
        (files_of objects.trees earlier) (files_of objects.trees later)) }
    ensures objects { IsExtended (B.objects backend.old) (B.objects backend.new) }
    ensures fixed { B.fixed backend.new ≡ B.fixed backend.old }
{
    let (base, value) = value_to_move(alloc, backend, earlier, "R", from.as_path())?;
    let mut builder = TreeBuilder::new(alloc, base);
    builder.remove(from)?;
    builder.set(to, value)?;
    Ok(builder)
}

// Applies `C`.
fn copy<B: Backend>(
    alloc: Global,
    backend: &mut B,
    earlier: TreeBuilder,
    from: RepoPathBuf,
    to: RepoPathBuf,
) -> Result<TreeBuilder, ImportError>
    ensures copied { IfOk result (λ later. (objects : Objects)
        → IsExtended (B.objects backend.new) objects → IsCopied objects.trees from to
        (files_of objects.trees earlier) (files_of objects.trees later)) }
    ensures objects { IsExtended (B.objects backend.old) (B.objects backend.new) }
    ensures fixed { B.fixed backend.new ≡ B.fixed backend.old }
{
    let (base, value) = value_to_move(alloc, backend, earlier, "C", from.as_path())?;
    let mut builder = TreeBuilder::new(alloc, base);
    builder.set(to, value)?;
    Ok(builder)
}

// Applies a change after the earlier ones.
fn apply<B: Backend>(
    alloc: Global,
    backend: &mut B,
    marks: &Marks,
    earlier: TreeBuilder,
    change: &Change,
) -> Result<TreeBuilder, ImportError>
    ensures change { IfOk result (λ later. (objects : Objects)
        → IsExtended (B.objects backend.new) objects
        → IsApplied objects (table_of marks.now) (change_value change.now)
        (files_of objects.trees earlier) (files_of objects.trees later)) }
    ensures objects { IsExtended (B.objects backend.old) (B.objects backend.new) }
    ensures fixed { B.fixed backend.new ≡ B.fixed backend.old }
{
    let mut builder = earlier;
    match change {
        Change::Modify {
            mode,
            content,
            path,
        } => {
            let path = file_path_of(alloc, "M", path)?;
            let value = value_of(alloc, backend, marks, path.as_path(), *mode, content)?;
            builder.set(path, value)?;
            Ok(builder)
        }
        Change::Delete { path } => {
            let path = path_of(alloc, "D", path)?;
            builder.remove(path)?;
            Ok(builder)
        }
        Change::DeleteAll => {
            builder.remove(RepoPathBuf::root(alloc))?;
            Ok(builder)
        }
        Change::Rename { from, to } => {
            let from = file_path_of(alloc, "R", from)?;
            let to = file_path_of(alloc, "R", to)?;
            rename(alloc, backend, builder, from, to)
        }
        Change::Copy { from, to } => {
            let from = file_path_of(alloc, "C", from)?;
            let to = file_path_of(alloc, "C", to)?;
            copy(alloc, backend, builder, from, to)
        }
        Change::NoteModify { .. } => Err(ImportError::Unsupported { field: "N" }),
    }
}

// Applies changes to the tree with this id, and returns the id of the tree that it becomes.
pub(crate) fn change_tree<B: Backend>(
    alloc: Global,
    backend: &mut B,
    marks: &Marks,
    base: TreeId,
    changes: &[Change],
) -> Result<TreeId, ImportError>
    ensures files { IfOk result (λ id. (objects : Objects)
        → IsExtended (B.objects backend.new) objects
        → AreApplied objects (table_of marks.now) (map change_value changes.now)
        (files_at objects.trees (Some (TreeOf base)))
        (files_at objects.trees (Some (TreeOf id)))) }
    ensures objects { IsExtended (B.objects backend.old) (B.objects backend.new) }
    ensures fixed { B.fixed backend.new ≡ B.fixed backend.old }
{
    let mut builder = TreeBuilder::new(alloc, base);
    let mut rest = changes;
    while let Some((change, others)) = rest.split_first() {
        let next = apply(alloc, backend, marks, builder, change)?;
        builder = next;
        rest = others;
    }
    let id = builder.write_tree(alloc, backend)?;
    Ok(id)
}
