//! Tests of a backend beside a log: the logged entries by value, and a log that fails.
use crate::callers::written_commit;
use jj_backend::backend::{
    Backend, BackendError, BackendResult, ChangeId, Commit, FileId, NoSigner, SigningFn, SymlinkId,
    Tree, TreeValue, make_root_commit,
};
use jj_backend::signing::SignResult;
use jj_content::content_hash::{blake2b_hash, content_of};
use jj_content_tests::retry::holds;
use jj_files::file_util::{SourceError, SourceKind};
use jj_ids::object_id::ObjectId;
use jj_mirror::memory_log::MemoryLog;
use jj_mirror::mirrored::Mirrored;
use jj_mirror::object_log::{LogEntry, ObjectKind, ObjectLog};
use jj_paths::repo_path::{RepoPath, RepoPathComponentBuf};
use jj_trees::memory_backend::MemoryBackend;
use std::alloc::Global;

// A log that fails after a number of entries.
#[derive(Drop)]
struct FullLog {
    entries: MemoryLog,
    capacity: usize,
}

impl ObjectLog for FullLog {
    ghost use Rattle.std.specs.Prelude.{◌≡◌, ⊤};

    ghost contains = { λ log entries. log.entries ≡ entries };

    ghost may_fail = { λ _ entry e. ⊤ };

    fn append(
        &mut self,
        alloc: Global,
        kind: ObjectKind,
        id: &[u8],
        bytes: &[u8],
    ) -> BackendResult<()> {
        if self.entries.entries().len() >= self.capacity {
            return Err(BackendError::Other(SourceError {
                kind: SourceKind::Io,
                message: String::from_str(alloc, "disk full")?,
            }));
        }
        self.entries.append(alloc, kind, id, bytes)
    }
}

fn is_disk_full(error: &BackendError) -> bool {
    match error {
        BackendError::Other(source) => source.message.as_str() == "disk full",
        _ => false,
    }
}

// Signs with the bytes "sig".
#[derive(Drop)]
struct FixedSigner;

impl SigningFn for FixedSigner {
    ghost use Rattle.std.specs.Prelude.{⊤};

    ghost may_sign = { λ _ _ _. ⊤ };

    fn sign(&mut self, alloc: Global, _data: &[u8]) -> SignResult<Vec<u8>> {
        Ok(Vec::from_slice(alloc, b"sig")?)
    }
}

// The tests borrow the store: one that owned it would drop it at each `?`, and each drop of it is
// proved.
type Store = Mirrored<MemoryLog>;

fn new_store(alloc: Global) -> BackendResult<Store> {
    over(alloc, MemoryLog::new(alloc))
}

// Puts a new backend beside a log.
fn over<L: ObjectLog + Drop>(alloc: Global, log: L) -> BackendResult<Mirrored<L>> {
    let backend = MemoryBackend::new(alloc)?;
    match Mirrored::new(backend, log) {
        Ok(store) => Ok(store),
        Err(_) => Err(BackendError::Memory),
    }
}

// A child of the root commit.
fn child_of_root<B: Backend>(alloc: Global, store: &B) -> BackendResult<Commit> {
    let change = ChangeId::from_bytes(alloc, &[7; 16])?;
    let mut commit = make_root_commit(alloc, change, store.empty_tree_id().clone()?);
    commit.parents.push(store.root_commit_id().clone()?)?;
    commit.description = String::from_str(alloc, "first")?;
    Ok(commit)
}

fn is_entry(entry: &LogEntry, kind: ObjectKind, id: &[u8], bytes: &[u8]) -> bool {
    entry.kind == kind && entry.id.as_slice() == id && entry.bytes.as_slice() == bytes
}

// A tree with one entry, a link named "l".
fn tree_of_link(alloc: Global, link: SymlinkId) -> BackendResult<Tree> {
    let name = match RepoPathComponentBuf::new(String::from_str(alloc, "l")?) {
        Ok(name) => name,
        Err(_) => return Err(BackendError::Memory),
    };
    match Tree::from_entries(vec![in alloc; (name, TreeValue::Symlink(link))]?) {
        Ok(tree) => Ok(tree),
        Err(_) => Err(BackendError::Memory),
    }
}

// A file, a link and a tree: the entries have the ids of the objects and their bytes.
fn logs_objects(alloc: Global, store: &mut Store) -> BackendResult<bool> {
    let file = store.write_file(alloc, RepoPath::root(), b"abc")?;
    let link = store.write_symlink(alloc, RepoPath::root(), "to")?;
    let tree = tree_of_link(alloc, link.clone()?)?;
    let tree_id = store.write_tree(alloc, RepoPath::root(), &tree)?;
    let content = content_of(alloc, &tree)?;
    let is_logged = match store.log().entries() {
        [first, second, third] => {
            is_entry(first, ObjectKind::File, file.as_bytes(), b"abc")
                && is_entry(second, ObjectKind::Symlink, link.as_bytes(), b"to")
                && is_entry(third, ObjectKind::Tree, tree_id.as_bytes(), &content)
        }
        _ => false,
    };
    let is_read = store.read_file(alloc, RepoPath::root(), &file)?.as_slice() == b"abc".as_slice();
    Ok(is_logged && is_read)
}

// An object that is stored is not logged again, and neither is the empty tree.
fn logs_once(alloc: Global, store: &mut Store) -> BackendResult<bool> {
    let file = store.write_file(alloc, RepoPath::root(), b"abc")?;
    let file_again = store.write_file(alloc, RepoPath::root(), b"abc")?;
    let link = store.write_symlink(alloc, RepoPath::root(), "to")?;
    let link_again = store.write_symlink(alloc, RepoPath::root(), "to")?;
    store.write_tree(alloc, RepoPath::root(), &Tree::default(alloc))?;
    Ok(file == file_again && link == link_again && store.log().entries().len() == 2)
}

fn logs_commit_once(alloc: Global, store: &mut Store) -> BackendResult<bool> {
    let commit = child_of_root(alloc, store)?;
    let again = commit.clone()?;
    let (id, _) = store.write_commit(alloc, commit, None::<&mut NoSigner>)?;
    let (id_again, _) = store.write_commit(alloc, again, None::<&mut NoSigner>)?;
    Ok(id == id_again && store.log().entries().len() == 1)
}

// The stored form of a signed commit is logged, with its digest as the id.
fn logs_signed_commit(alloc: Global, store: &mut Store) -> BackendResult<bool> {
    let commit = child_of_root(alloc, store)?;
    let (id, stored) = store.write_commit(alloc, commit, Some(&mut FixedSigner))?;
    let content = content_of(alloc, &stored)?;
    let digest = blake2b_hash(alloc, &stored)?;
    let is_logged = match store.log().entries() {
        [entry] => is_entry(entry, ObjectKind::Commit, &digest, &content),
        _ => false,
    };
    Ok(is_logged && stored.secure_sig.is_some() && id.as_bytes() == digest.as_slice())
}

fn writes_and_reads_commit(alloc: Global, store: &mut Store) -> BackendResult<bool> {
    let commit = child_of_root(alloc, store)?;
    let expected = commit.clone()?;
    Ok(written_commit(alloc, store, commit)? == expected)
}

// Nothing is logged for a commit without parents.
fn refuses_parentless_commit(alloc: Global, store: &mut Store) -> BackendResult<bool> {
    let mut commit = child_of_root(alloc, store)?;
    commit.parents.clear();
    match store.write_commit(alloc, commit, None::<&mut NoSigner>) {
        Err(BackendError::Other(_)) => Ok(store.log().entries().is_empty()),
        Err(error) => Err(error),
        Ok(_) => Ok(false),
    }
}

// The id that a file has in any backend.
fn id_of_file(alloc: Global, bytes: &[u8]) -> BackendResult<FileId> {
    let mut backend = MemoryBackend::new(alloc)?;
    backend.write_file(alloc, RepoPath::root(), bytes)
}

// A failed log fails the write with its error, and the object is not stored. It does not fail the
// write of an object that is stored.
fn fails_with_log(alloc: Global, store: &mut Mirrored<FullLog>) -> BackendResult<bool> {
    let first = store.write_file(alloc, RepoPath::root(), b"1")?;
    let failed = match store.write_file(alloc, RepoPath::root(), b"2") {
        Err(error) => is_disk_full(&error),
        Ok(_) => false,
    };
    let second = id_of_file(alloc, b"2")?;
    let is_absent = match store.read_file(alloc, RepoPath::root(), &second) {
        Err(BackendError::ObjectNotFound { .. }) => true,
        _ => false,
    };
    let again = store.write_file(alloc, RepoPath::root(), b"1")?;
    let is_read = store.read_file(alloc, RepoPath::root(), &again)?.as_slice() == b"1".as_slice();
    Ok(failed && is_absent && is_read && first == again && store.log().entries.entries().len() == 1)
}

// A backend with ids of 20 bytes is returned: an entry has the whole digest.
fn returns_short_ids(alloc: Global) -> BackendResult<bool> {
    let backend = MemoryBackend::with_id_length(alloc, 20)?;
    match Mirrored::new(backend, MemoryLog::new(alloc)) {
        Ok(_) => Ok(false),
        Err((backend, log)) => Ok(backend.commit_id_length() == 20 && log.entries().is_empty()),
    }
}

fn logs(alloc: Global) -> BackendResult<bool> {
    let mut store = new_store(alloc)?;
    logs_objects(alloc, &mut store)
}

fn logs_each_once(alloc: Global) -> BackendResult<bool> {
    let mut store = new_store(alloc)?;
    logs_once(alloc, &mut store)
}

fn logs_each_commit_once(alloc: Global) -> BackendResult<bool> {
    let mut store = new_store(alloc)?;
    logs_commit_once(alloc, &mut store)
}

fn logs_commits(alloc: Global) -> BackendResult<bool> {
    let mut store = new_store(alloc)?;
    Ok(refuses_parentless_commit(alloc, &mut store)? && logs_signed_commit(alloc, &mut store)?)
}

fn stores_commits(alloc: Global) -> BackendResult<bool> {
    let mut store = new_store(alloc)?;
    writes_and_reads_commit(alloc, &mut store)
}

fn stores_nothing(alloc: Global) -> BackendResult<bool> {
    let log = FullLog {
        entries: MemoryLog::new(alloc),
        capacity: 1,
    };
    let mut store = over(alloc, log)?;
    fails_with_log(alloc, &mut store)
}

#[test]
fn objects_are_logged(rt: HostRuntime) {
    assert!(rt; holds(&rt, logs));
    assert!(rt; holds(&rt, logs_commits));
    assert!(rt; holds(&rt, stores_commits));
    assert!(rt; holds(&rt, returns_short_ids));
    assert!(rt; holds(&rt, logs_each_once));
    assert!(rt; holds(&rt, logs_each_commit_once));
}

#[test]
fn failed_writes_store_nothing(rt: HostRuntime) {
    assert!(rt; holds(&rt, stores_nothing));
}
