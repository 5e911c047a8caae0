//! Requests on the backend in memory. A length is that of the ids, in bytes.
use crate::trees::{error_name, expect_ok};
use crate::values::tree_of;
use jj_backend::backend::{
    Backend, BackendError, BackendResult, Commit, CommitId, CopyHistory, CopyId, FileId, NoSigner,
    SecureSig, SigningFn, SymlinkId, Tree, TreeId,
};
use jj_backend::signing::{SignError, SignResult};
use jj_content::hex_util::encode_hex;
use jj_files::file_util::{SourceError, SourceKind};
use jj_ids::object_id::ObjectId;
use jj_paths::repo_path::{RepoPath, RepoPathBuf};
use jj_trees::memory_backend::MemoryBackend;
use rows::request::{Fields, Request};
use rows::row_error::{RowError, agree, needs};
use rows::values::Values;
use std::alloc::{AllocError, Global};

fn backend_of(alloc: Global, id_length: usize) -> Result<MemoryBackend, RowError> {
    needs(1 <= id_length && id_length <= 64, "1 to 64 bytes")?;
    Ok(MemoryBackend::with_id_length(alloc, id_length)?)
}

fn write_error(error: &BackendError, values: &mut Values) -> Result<(), RowError> {
    values.word(error_name(error)?);
    match error {
        BackendError::ObjectNotFound {
            object_type,
            hash,
            ..
        } => {
            values.string(object_type.as_str());
            values.string(hash.as_str());
        }
        BackendError::Other(source) => values.debug(&source.kind),
        _ => {}
    }
    Ok(())
}

fn write_read<T: Drop>(read: BackendResult<T>, values: &mut Values) -> Result<(), RowError> {
    match read {
        Ok(_) => values.word("ok"),
        Err(error) => write_error(&error, values)?,
    }
    Ok(())
}

// `memory-backend LENGTH`: name, concurrency, lengths and ids of a backend without writes.
fn describe(alloc: Global, backend: &MemoryBackend, values: &mut Values) -> Result<(), RowError> {
    values.word(backend.name());
    values.index(backend.concurrency());
    values.index(backend.commit_id_length());
    values.index(backend.change_id_length());
    values.allocated(backend.root_commit_id().hex(alloc));
    values.allocated(backend.empty_tree_id().hex(alloc));
    let tree = expect_ok(backend.read_tree(alloc, RepoPath::root(), backend.empty_tree_id()))?;
    agree(tree.is_empty(), "the empty tree")
}

fn is_root_commit(backend: &MemoryBackend, commit: &Commit) -> bool {
    let has_tree = match commit.root_tree.as_slice() {
        [tree] => tree == backend.empty_tree_id(),
        _ => false,
    };
    has_tree
        && &commit.change_id == backend.root_change_id()
        && commit.parents.is_empty()
        && commit.predecessors.is_empty()
        && commit.description.is_empty()
        && commit.secure_sig.is_none()
}

// `memory-root LENGTH`: whether the root commit has no parents and the empty tree.
fn root_commit(
    alloc: Global,
    backend: &MemoryBackend,
    values: &mut Values,
) -> Result<(), RowError> {
    let commit = expect_ok(backend.read_commit(alloc, backend.root_commit_id()))?;
    values.flag(is_root_commit(backend, &commit));
    Ok(())
}

fn read_file(
    alloc: Global,
    backend: &MemoryBackend,
    id: &[u8],
    values: &mut Values,
) -> Result<(), RowError> {
    let id = FileId::from_bytes(alloc, id)?;
    write_read(backend.read_file(alloc, RepoPath::root(), &id), values)
}

fn read_tree(
    alloc: Global,
    backend: &MemoryBackend,
    id: &[u8],
    values: &mut Values,
) -> Result<(), RowError> {
    let id = TreeId::from_bytes(alloc, id)?;
    write_read(backend.read_tree(alloc, RepoPath::root(), &id), values)
}

fn read_symlink(
    alloc: Global,
    backend: &MemoryBackend,
    id: &[u8],
    values: &mut Values,
) -> Result<(), RowError> {
    let id = SymlinkId::from_bytes(alloc, id)?;
    write_read(backend.read_symlink(alloc, RepoPath::root(), &id), values)
}

fn read_copy(
    alloc: Global,
    backend: &MemoryBackend,
    id: &[u8],
    values: &mut Values,
) -> Result<(), RowError> {
    let id = CopyId::from_bytes(alloc, id)?;
    write_read(backend.read_copy(alloc, &id), values)
}

fn read_commit(
    alloc: Global,
    backend: &MemoryBackend,
    id: &[u8],
    values: &mut Values,
) -> Result<(), RowError> {
    let id = CommitId::from_bytes(alloc, id)?;
    write_read(backend.read_commit(alloc, &id), values)
}

// `memory-missing ID`: the errors of reads of a file, a tree, a symlink, a copy and a commit.
fn missing(
    alloc: Global,
    backend: &MemoryBackend,
    id: &[u8],
    values: &mut Values,
) -> Result<(), RowError> {
    read_file(alloc, backend, id, values)?;
    read_tree(alloc, backend, id, values)?;
    read_symlink(alloc, backend, id, values)?;
    read_copy(alloc, backend, id, values)?;
    read_commit(alloc, backend, id, values)
}

fn is_file(
    alloc: Global,
    backend: &MemoryBackend,
    id: &FileId,
    contents: &[u8],
) -> Result<bool, RowError> {
    let read = expect_ok(backend.read_file(alloc, RepoPath::root(), id))?;
    Ok(read.as_slice() == contents)
}

// `memory-file LENGTH CONTENTS`: the id. A second write returns the same one.
fn file(
    alloc: Global,
    backend: &mut MemoryBackend,
    contents: &[u8],
    values: &mut Values,
) -> Result<(), RowError> {
    let id = expect_ok(backend.write_file(alloc, RepoPath::root(), contents))?;
    values.allocated(id.hex(alloc));
    let again = expect_ok(backend.write_file(alloc, RepoPath::root(), contents))?;
    agree(
        again == id && is_file(alloc, backend, &id, contents)?,
        "a file",
    )
}

// A file of the same id does not count.
fn read_file_as_symlink(
    alloc: Global,
    backend: &mut MemoryBackend,
    target: &str,
    values: &mut Values,
) -> Result<(), RowError> {
    let file = expect_ok(backend.write_file(alloc, RepoPath::root(), target.as_bytes()))?;
    read_symlink(alloc, backend, file.as_bytes(), values)
}

fn put_symlink(
    alloc: Global,
    backend: &mut MemoryBackend,
    target: &str,
    values: &mut Values,
) -> Result<(), RowError> {
    let id = expect_ok(backend.write_symlink(alloc, RepoPath::root(), target))?;
    values.allocated(id.hex(alloc));
    let read = expect_ok(backend.read_symlink(alloc, RepoPath::root(), &id))?;
    agree(read.as_str() == target, "a symlink")
}

// `memory-symlink LENGTH TARGET`: the error of a read of the file of this id, and the id.
fn symlink(
    alloc: Global,
    backend: &mut MemoryBackend,
    target: &str,
    values: &mut Values,
) -> Result<(), RowError> {
    read_file_as_symlink(alloc, backend, target, values)?;
    put_symlink(alloc, backend, target, values)
}

fn path_of(alloc: Global, path: &str) -> Result<RepoPathBuf, RowError> {
    match RepoPathBuf::from_internal_string(String::from_str(alloc, path)?) {
        Ok(path) => Ok(path),
        Err(_) => Err(RowError::Unreadable("path")),
    }
}

fn copy_ids(alloc: Global, fields: &Fields) -> Result<Vec<CopyId>, AllocError> {
    let mut ids = Vec::new(alloc);
    for index in 0..fields.len() {
        ids.push(CopyId::from_bytes(alloc, fields.bytes(index))?)?;
    }
    Ok(ids)
}

fn copy_history(alloc: Global, request: &Request) -> Result<CopyHistory, RowError> {
    let fields = request.group(0);
    let current_path = path_of(alloc, fields.string(1))?;
    let parents = copy_ids(alloc, request.group(1))?;
    Ok(CopyHistory {
        current_path,
        parents,
        salt: Vec::from_slice(alloc, fields.bytes(2))?,
    })
}

fn put_copy(
    alloc: Global,
    backend: &mut MemoryBackend,
    history: &CopyHistory,
    values: &mut Values,
) -> Result<(), RowError> {
    let id = expect_ok(backend.write_copy(alloc, history))?;
    values.allocated(id.hex(alloc));
    let read = expect_ok(backend.read_copy(alloc, &id))?;
    agree(read == *history, "a copy history")
}

// `memory-copy LENGTH PATH SALT | PARENT ..`: the id of a copy history.
fn copy(
    alloc: Global,
    backend: &mut MemoryBackend,
    request: &Request,
    values: &mut Values,
) -> Result<(), RowError> {
    let history = copy_history(alloc, request)?;
    put_copy(alloc, backend, &history, values)
}

fn put_tree(
    alloc: Global,
    backend: &mut MemoryBackend,
    tree: &Tree,
    values: &mut Values,
) -> Result<(), RowError> {
    let id = expect_ok(backend.write_tree(alloc, RepoPath::root(), tree))?;
    values.allocated(id.hex(alloc));
    let read = expect_ok(backend.read_tree(alloc, RepoPath::root(), &id))?;
    agree(read == *tree, "a tree")
}

// `memory-tree LENGTH | ENTRY ..`: the id of a tree.
fn tree(
    alloc: Global,
    backend: &mut MemoryBackend,
    entries: &Fields,
    values: &mut Values,
) -> Result<(), RowError> {
    let tree = tree_of(alloc, entries)?;
    put_tree(alloc, backend, &tree, values)
}

fn get_related(
    alloc: Global,
    backend: &MemoryBackend,
    values: &mut Values,
) -> Result<(), RowError> {
    let id = CopyId::from_bytes(alloc, b"\x01")?;
    write_read(backend.get_related_copies(alloc, &id), values)
}

// `memory-unsupported`: the errors of the two calls on copies.
fn unsupported(
    alloc: Global,
    backend: &MemoryBackend,
    values: &mut Values,
) -> Result<(), RowError> {
    get_related(alloc, backend, values)?;
    let root = backend.root_commit_id();
    write_read(backend.get_copy_records(alloc, None, root, root), values)
}

// The behavior of a signer.
#[derive(Clone, Copy)]
enum Behavior {
    Signs,
    RejectsFormat,
    Fails,
}

// A signer that counts its calls and records the data.
#[derive(Drop)]
struct RecordingSigner {
    behavior: Behavior,
    calls: usize,
    data: Vec<u8>,
}

impl SigningFn for RecordingSigner {
    ghost may_sign = { λ signer content result. Unit {0} };

    fn sign(&mut self, alloc: Global, data: &[u8]) -> SignResult<Vec<u8>> {
        self.calls = self.calls.saturating_add(1);
        self.data = Vec::from_slice(alloc, data)?;
        match self.behavior {
            Behavior::Signs => Ok(Vec::from_slice(alloc, b"signed by Ann")?),
            Behavior::RejectsFormat => Err(SignError::InvalidSignatureFormat),
            Behavior::Fails => Err(SignError::Backend(SourceError {
                kind: SourceKind::Io,
                message: String::from_str(alloc, "no key")?,
            })),
        }
    }
}

fn behavior_of(name: &str) -> Result<Option<Behavior>, RowError> {
    match name {
        "none" => Ok(None),
        "signs" => Ok(Some(Behavior::Signs)),
        "rejects" => Ok(Some(Behavior::RejectsFormat)),
        "fails" => Ok(Some(Behavior::Fails)),
        _ => Err(RowError::Unreadable("signer")),
    }
}

// DESCRIPTION IS_ROOT: sets the description, and adds the root as a parent unless IS_ROOT is set.
fn edit_commit(commit: &mut Commit, root: &CommitId, fields: &Fields) -> Result<(), RowError> {
    commit.description = fields.owned(1)?;
    if !fields.flag(2) {
        commit.parents.push(root.clone()?)?;
    }
    Ok(())
}

// The root commit as `edit_commit` changes it.
fn commit_of(alloc: Global, backend: &MemoryBackend, fields: &Fields) -> Result<Commit, RowError> {
    let root = backend.root_commit_id();
    let mut commit = expect_ok(backend.read_commit(alloc, root))?;
    edit_commit(&mut commit, root, fields)?;
    Ok(commit)
}

type Written = BackendResult<(CommitId, Commit)>;

fn write_unsigned(
    alloc: Global,
    backend: &mut MemoryBackend,
    fields: &Fields,
) -> Result<Written, RowError> {
    let commit = commit_of(alloc, backend, fields)?;
    Ok(backend.write_commit(alloc, commit, None::<&mut NoSigner>))
}

// A signature from before is replaced.
fn write_signed(
    alloc: Global,
    backend: &mut MemoryBackend,
    fields: &Fields,
    signer: &mut RecordingSigner,
) -> Result<Written, RowError> {
    let mut commit = commit_of(alloc, backend, fields)?;
    commit.secure_sig = Some(SecureSig {
        signed_data: Vec::new(alloc),
        sig: Vec::new(alloc),
    });
    Ok(backend.write_commit(alloc, commit, Some(signer)))
}

fn write_with(
    alloc: Global,
    backend: &mut MemoryBackend,
    fields: &Fields,
    values: &mut Values,
) -> Result<Written, RowError> {
    let Some(behavior) = behavior_of(fields.string(3))? else {
        return write_unsigned(alloc, backend, fields);
    };
    let mut signer = RecordingSigner {
        behavior,
        calls: 0,
        data: Vec::new(alloc),
    };
    let written = write_signed(alloc, backend, fields, &mut signer);
    values.index(signer.calls);
    values.allocated(encode_hex(alloc, &signer.data));
    written
}

fn put_commit(
    alloc: Global,
    backend: &MemoryBackend,
    written: &(CommitId, Commit),
    values: &mut Values,
) -> Result<(), RowError> {
    let (id, kept) = written;
    values.allocated(id.hex(alloc));
    values.flag(kept.secure_sig.is_some());
    let read = expect_ok(backend.read_commit(alloc, id))?;
    agree(read == *kept, "a commit")
}

// `memory-commit LENGTH DESCRIPTION IS_ROOT SIGNER`: the id of a commit on the root commit and
// whether it is signed, after the signer's number of calls and the data that it signed.
fn commit(
    alloc: Global,
    backend: &mut MemoryBackend,
    fields: &Fields,
    values: &mut Values,
) -> Result<(), RowError> {
    match write_with(alloc, backend, fields, values)? {
        Ok(written) => put_commit(alloc, backend, &written, values),
        Err(error) => write_error(&error, values),
    }
}

// Runs the request of this name on a backend without writes.
fn run(
    alloc: Global,
    name: &str,
    backend: &mut MemoryBackend,
    request: &Request,
    values: &mut Values,
) -> Result<(), RowError> {
    match name {
        "memory-backend" => describe(alloc, backend, values),
        "memory-root" => root_commit(alloc, backend, values),
        "memory-missing" => missing(alloc, backend, request.group(0).bytes(0), values),
        "memory-file" => file(alloc, backend, request.group(0).bytes(1), values),
        "memory-symlink" => symlink(alloc, backend, request.group(0).string(1), values),
        "memory-copy" => copy(alloc, backend, request, values),
        "memory-tree" => tree(alloc, backend, request.group(1), values),
        "memory-unsupported" => unsupported(alloc, backend, values),
        "memory-commit" => commit(alloc, backend, request.group(0), values),
        _ => Err(RowError::Unreadable("no such request")),
    }
}

fn run_by_length(
    alloc: Global,
    name: &str,
    request: &Request,
    values: &mut Values,
) -> Result<(), RowError> {
    let mut backend = match name {
        "memory-missing" | "memory-unsupported" => MemoryBackend::new(alloc)?,
        _ => backend_of(alloc, request.group(0).index(0))?,
    };
    run(alloc, name, &mut backend, request, values)
}

/// Runs the request of this name. Returns `false` if there is none.
pub fn call(alloc: Global, name: &str, request: &Request, values: &mut Values) -> bool {
    if !name.starts_with("memory-") {
        return false;
    }
    let called = run_by_length(alloc, name, request, values);
    values.record(called);
    true
}
