//! Changes of a tree: grouped by first names, and applied directory by directory in postorder.
ghost use Rattle.std.specs.Prelude.{◌≡◌, ◌++◌, ◌∷◌, [], ℕ, Some, None, IfOk, OnOk, OnErr};
ghost use Rattle.std.specs.Prelude.{false, not, ◌&&◌, is_some, if◌then◌else◌};
ghost use Rattle.std.specs.BTreeMap.{get};
ghost use Rattle.std.specs.Ordering.{is_eq};
ghost use Rattle.jj_paths.specs.Names.{name_of, path_of};
ghost use Rattle.jj_paths.specs.Paths.{Name, Path, name_cmp};
ghost use Rattle.jj_backend.specs.Objects.{ById};
ghost use Rattle.jj_backend.specs.Trees.{Entries, entry_of, value_at};
ghost use Rattle.jj_backend.specs.declared.backend.tree_value.TreeValue.TheVariants.{Tree as Directory};
ghost use Rattle.jj_trees.specs.TreeMerges.{child};
ghost use Rattle.jj_trees.specs.WrittenTrees.{AddsTrees};
ghost use Rattle.jj_tree_builder.specs.Changes.{IsGrown, changed, files_at, put};
ghost use Rattle.jj_tree_builder.specs.PendingChanges.{IsOpen, changes_of, is_file, pending_files};

use jj_backend::backend::{
    Backend, BackendError, BackendResult, Tree, TreeEntry, TreeId, TreeValue,
};
use jj_files::file_util::{SourceError, SourceKind};
use jj_paths::repo_path::{RepoPath, RepoPathBuf, RepoPathComponent, RepoPathComponentBuf};
use std::alloc::{AllocError, Global};
use std::collections::BTreeMap;
use std::marker::Model;

// The number of levels of directories that are written.
const MAX_LEVELS: usize = 1024;

// A path and the value to put there; `None` removes what is there.
type Change = (RepoPathBuf, Option<TreeValue>);

// The outcome of changes: the last value at their own path, and the changes below it since, by
// the first names of their paths. If there are any, the value is absent or a directory.
#[derive(Drop)]
struct Pending {
    value: Option<TreeValue>,
    below: BTreeMap<RepoPathComponentBuf, Vec<Change>>,
}

fn error_of(alloc: Global, message: &str) -> BackendError {
    match String::from_str(alloc, message) {
        Ok(message) => BackendError::Other(SourceError {
            kind: SourceKind::Data,
            message,
        }),
        Err(_) => BackendError::Memory,
    }
}

fn too_deep_error(alloc: Global) -> BackendError {
    match String::from_str(alloc, "a path has more than 1,024 names") {
        Ok(message) => BackendError::Unsupported(message),
        Err(_) => BackendError::Memory,
    }
}

// Takes the changes of a name.
fn take_changes(
    alloc: Global,
    below: &mut BTreeMap<RepoPathComponentBuf, Vec<Change>>,
    name: &RepoPathComponentBuf,
) -> Vec<Change>
    ensures changes { result.items ≡ changes_of below.old name.now }
    ensures others { (other : Name) → get name_cmp below.new other
        ≡ (if is_eq (name_cmp name.now other) then None else get name_cmp below.old other) }
{
    match below.remove(name) {
        Some(changes) => changes,
        None => Vec::new(alloc),
    }
}

// Appends a change to those of a name.
fn push_change(
    alloc: Global,
    below: &mut BTreeMap<RepoPathComponentBuf, Vec<Change>>,
    name: RepoPathComponentBuf,
    change: Change,
) -> Result<(), AllocError>
    ensures { OnOk result ((other : Name) → changes_of below.new other
        ≡ (if is_eq (name_cmp name other) then changes_of below.old other ++ change ∷ []
        else changes_of below.old other)) }
{
    let mut changes = take_changes(alloc, below, &name);
    changes.push(change)?;
    below.insert(name, changes)?;
    Ok(())
}

// Appends the change of a value at a path below a name.
fn push_below(
    alloc: Global,
    below: &mut BTreeMap<RepoPathComponentBuf, Vec<Change>>,
    name: RepoPathComponent<'_>,
    rest: RepoPath<'_>,
    value: Option<TreeValue>,
) -> Result<(), AllocError>
    ensures { OnOk result ((other : Name) → changes_of below.new other
        ≡ (if is_eq (name_cmp (name_of name.entry) other)
        then changes_of below.old other ++ (path_of rest.entry, value) ∷ []
        else changes_of below.old other)) }
{
    let name = name.to_owned(alloc)?;
    let rest = rest.to_owned(alloc)?;
    push_change(alloc, below, name, (rest, value))?;
    Ok(())
}

// Whether there is a value that is no directory.
fn is_file(value: &Option<TreeValue>) -> bool
    ensures { result ≡ is_file value.now }
{
    match value {
        None | Some(TreeValue::Tree(_)) => false,
        Some(_) => true,
    }
}

// Whether the value is a file, and the change a removal below it.
fn is_ignored(value: &Option<TreeValue>, change: &Option<TreeValue>) -> bool
    ensures { result ≡ (is_file value.now && not (is_some change.now)) }
{
    is_file(value) && change.is_none()
}

impl Pending {
    // Removes a file, so that there is room for a directory.
    fn open(&mut self)
        ensures directory { is_file self.new.value ≡ false }
        ensures below { self.new.below ≡ self.old.below }
        ensures files { (trees : ById Entries) (name : Name) (place : Path)
            → files_at trees self.new.value (name ∷ place)
            ≡ files_at trees self.old.value (name ∷ place) }
    {
        if is_file(&self.value) {
            self.value = None;
        }
    }

    // Adds a change. There is nothing below a file to remove, and a value below a file replaces it.
    fn push(
        &mut self,
        alloc: Global,
        path: RepoPath<'_>,
        value: Option<TreeValue>,
    ) -> Result<(), AllocError>
        requires { IsOpen self.old }
        ensures files { OnOk result ((trees : ById Entries) (place : Path)
            → pending_files trees self.new place
            ≡ put trees (path_of path.entry) value (pending_files trees self.old) place) }
        ensures open { OnOk result (IsOpen self.new) }
    {
        match path.split_first() {
            None => {
                self.value = value;
                self.below = BTreeMap::new(alloc);
                Ok(())
            }
            Some((name, rest)) => {
                if is_ignored(&self.value, &value) {
                    return Ok(());
                }
                self.open();
                push_below(alloc, &mut self.below, name, rest, value)?;
                Ok(())
            }
        }
    }
}

// Sorts changes of a value by the first names of their paths.
fn collect(
    alloc: Global,
    base: Option<TreeValue>,
    changes: Vec<Change>,
) -> Result<Pending, AllocError>
    ensures files { IfOk result (λ pending. (trees : ById Entries) (place : Path)
        → pending_files trees pending place
        ≡ changed trees changes.items (files_at trees base) place) }
    ensures open { IfOk result IsOpen }
{
    let mut pending = Pending {
        value: base,
        below: BTreeMap::new(alloc),
    };
    for (path, value) in changes {
        pending.push(alloc, path.as_path(), value)?;
    }
    Ok(pending)
}

// Gives an entry a value, or removes it.
fn set_entry(
    entries: &mut BTreeMap<RepoPathComponentBuf, TreeValue>,
    name: RepoPathComponentBuf,
    value: Option<TreeValue>,
) -> Result<(), AllocError>
    ensures { OnOk result ((other : Name) → get name_cmp entries.new other
        ≡ (if is_eq (name_cmp name other) then value else get name_cmp entries.old other)) }
{
    match value {
        Some(value) => {
            entries.insert(name, value)?;
        }
        None => {
            let _value = entries.remove(&name);
        }
    }
    Ok(())
}

fn copy_entry(
    alloc: Global,
    entries: &mut BTreeMap<RepoPathComponentBuf, TreeValue>,
    entry: TreeEntry<'_>,
) -> Result<(), AllocError>
    ensures { OnOk result ((other : Name) → get name_cmp entries.new other
        ≡ (if is_eq (name_cmp (entry_of entry.entry).0 other) then Some (entry_of entry.entry).1
        else get name_cmp entries.old other)) }
{
    let name = entry.name().to_owned(alloc)?;
    let value = entry.value().clone()?;
    set_entry(entries, name, Some(value))?;
    Ok(())
}

// Returns the entries of a tree as a map.
fn entries_of(
    alloc: Global,
    tree: &Tree,
) -> Result<BTreeMap<RepoPathComponentBuf, TreeValue>, AllocError>
    ensures { IfOk result (λ entries. (name : Name)
        → get name_cmp entries name ≡ value_at tree.now name) }
{
    let mut entries = BTreeMap::new(alloc);
    for entry in tree.entries() {
        copy_entry(alloc, &mut entries, entry)?;
    }
    Ok(entries)
}

// Reads the entries of a directory. A value that is no directory has none.
fn read_entries<B: Backend>(
    alloc: Global,
    backend: &B,
    dir: RepoPath<'_>,
    value: &Option<TreeValue>,
) -> BackendResult<BTreeMap<RepoPathComponentBuf, TreeValue>>
    ensures { IfOk result (λ entries. (trees : ById Entries)
        → IsGrown (B.objects backend.now).trees trees → (name : Name)
        → get name_cmp entries name ≡ child trees name value.now) }
{
    match value {
        Some(TreeValue::Tree(id)) => {
            let tree = backend.read_tree(alloc, dir, id)?;
            let entries = entries_of(alloc, &tree)?;
            Ok(entries)
        }
        _ => Ok(BTreeMap::new(alloc)),
    }
}

// Writes the tree of entries, whose names differ.
fn write_list<B: Backend>(
    alloc: Global,
    backend: &mut B,
    dir: RepoPath<'_>,
    entries: Vec<(RepoPathComponentBuf, TreeValue)>,
) -> BackendResult<TreeId>
    ensures tree { IfOk result (λ id. (tree : Entries)
        × ((B.objects backend.new).trees id ≡ Some tree)
        × ((name : Name) → value_at tree name ≡ value_at entries.items name)) }
    ensures objects { AddsTrees (B.objects backend.old) (B.objects backend.new) }
    ensures fixed { B.fixed backend.new ≡ B.fixed backend.old }
{
    match Tree::from_entries(entries) {
        Ok(tree) => backend.write_tree(alloc, dir, &tree),
        Err(_) => Err(error_of(alloc, "two entries of a tree have one name")),
    }
}

// Writes the tree of a directory, unless it is empty.
fn write_entries<B: Backend>(
    alloc: Global,
    backend: &mut B,
    dir: RepoPath<'_>,
    entries: BTreeMap<RepoPathComponentBuf, TreeValue>,
) -> BackendResult<Option<TreeValue>>
    ensures entries { IfOk result (λ value. (trees : ById Entries)
        → IsGrown (B.objects backend.new).trees trees → (name : Name)
        → child trees name value ≡ get name_cmp entries name) }
    ensures directory { IfOk result (λ value. is_file value ≡ false) }
    ensures objects { AddsTrees (B.objects backend.old) (B.objects backend.new) }
    ensures fixed { B.fixed backend.new ≡ B.fixed backend.old }
{
    if entries.is_empty() {
        return Ok(None);
    }
    let mut entries = entries;
    let mut list = Vec::new(alloc);
    while let Some(entry) = entries.pop_first() {
        list.push(entry)?;
    }
    let id = write_list(alloc, backend, dir, list)?;
    Ok(Some(TreeValue::Tree(id)))
}

// Applies changes to the value at `dir`, and writes the directories on their paths.
fn write_value<B: Backend>(
    alloc: Global,
    backend: &mut B,
    dir: RepoPath<'_>,
    base: Option<TreeValue>,
    changes: Vec<Change>,
    levels: usize,
) -> BackendResult<Option<TreeValue>>
    ensures files { IfOk result (λ value. (trees : ById Entries)
        → IsGrown (B.objects backend.new).trees trees → (place : Path)
        → files_at trees value place ≡ changed trees changes.items (files_at trees base) place) }
    ensures objects { AddsTrees (B.objects backend.old) (B.objects backend.new) }
    ensures fixed { B.fixed backend.new ≡ B.fixed backend.old }
{
    let Pending { value, mut below } = collect(alloc, base, changes)?;
    if below.is_empty() {
        return Ok(value);
    }
    if levels == 0 {
        return Err(too_deep_error(alloc));
    }
    let mut entries = read_entries(alloc, backend, dir, &value)?;
    while let Some((name, changes)) = below.pop_first() {
        let path = dir.join(alloc, name.as_component())?;
        let base = entries.remove(&name);
        let entry = write_value(alloc, backend, path.as_path(), base, changes, levels - 1)?;
        set_entry(&mut entries, name, entry)?;
    }
    let written = write_entries(alloc, backend, dir, entries)?;
    Ok(written)
}

// Returns the id of the empty tree.
fn empty_root<B: Backend>(backend: &B) -> BackendResult<TreeId>
    ensures { IfOk result (λ id. (B.objects backend.now).trees id ≡ Some []) }
{
    let id = backend.empty_tree_id().clone()?;
    Ok(id)
}

// Returns the id of a root, and that of the empty tree if there is none.
fn root_of<B: Backend>(
    alloc: Global,
    backend: &B,
    value: Option<TreeValue>,
) -> BackendResult<TreeId>
    ensures { IfOk result (λ id. (trees : ById Entries)
        → IsGrown (B.objects backend.now).trees trees → (place : Path)
        → files_at trees (Some (Directory id)) place ≡ files_at trees value place) }
{
    match value {
        Some(TreeValue::Tree(id)) => Ok(id),
        None => {
            let id = empty_root(backend)?;
            Ok(id)
        }
        Some(_) => Err(error_of(alloc, "the root is not a directory")),
    }
}

/// A tree and changes of it that are not written yet.
#[derive(Drop)]
pub struct TreeBuilder {
    base: TreeId,
    changes: Vec<Change>,
}

impl Model for TreeBuilder {
    ghost use Rattle.jj_tree_builder.specs.Changes.{TreeBuilderValue};

    ghost Value = { TreeBuilderValue };

    ghost view = { λ builder. record { base = builder.base; changes = builder.changes.items } };
}

impl TreeBuilder {
    /// Returns a builder of the tree with this id, without changes.
    pub fn new(alloc: Global, base: TreeId) -> Self
        ensures { result ≡ record { base = base; changes = [] } }
    {
        TreeBuilder {
            base,
            changes: Vec::new(alloc),
        }
    }

    /// Sets the value at a path. It replaces the value at the path and all values below it, and a
    /// file above it.
    pub fn set(&mut self, path: RepoPathBuf, value: TreeValue) -> Result<(), AllocError>
        ensures set { OnOk result (self.new ≡ record self.old {
          changes = self.old.changes ++ (path, Some value) ∷ [];
        }) }
        ensures unchanged { OnErr result (self.new ≡ self.old) }
    {
        self.changes.push((path, Some(value)))?;
        Ok(())
    }

    /// Removes what is at a path and below it.
    pub fn remove(&mut self, path: RepoPathBuf) -> Result<(), AllocError>
        ensures removed { OnOk result (self.new ≡ record self.old {
          changes = self.old.changes ++ (path, None) ∷ [];
        }) }
        ensures unchanged { OnErr result (self.new ≡ self.old) }
    {
        self.changes.push((path, None))?;
        Ok(())
    }

    /// Writes the tree and returns its id. Reads and writes only directories on a changed path;
    /// directories without entries are left out, except for the root.
    ///
    /// Fails with `Other` of kind `Data` if a file was put at the root, with `Unsupported` if a
    /// path has more than 1,024 names, and with any error of `read_tree` and `write_tree`. Trees
    /// that were written before an error stay in the backend.
    pub fn write_tree<B: Backend>(self, alloc: Global, backend: &mut B) -> BackendResult<TreeId>
        // At each path the tree has the file that the changes, one after the other, leave there of
        // the first tree, and nothing else: in the store now, and whatever is added to it later.
        ensures files { IfOk result (λ id. (trees : ById Entries)
            → IsGrown (B.objects backend.new).trees trees → (place : Path)
            → files_at trees (Some (Directory id)) place
            ≡ changed trees self.changes (files_at trees (Some (Directory self.base))) place) }
        // No object but trees was added, and none has changed.
        ensures objects { AddsTrees (B.objects backend.old) (B.objects backend.new) }
        // The values of the backend that no write changes are unchanged.
        ensures fixed { B.fixed backend.new ≡ B.fixed backend.old }
    {
        let TreeBuilder { base, changes } = self;
        let root = Some(TreeValue::Tree(base));
        let value = write_value(alloc, backend, RepoPath::root(), root, changes, MAX_LEVELS)?;
        root_of(alloc, backend, value)
    }
}
