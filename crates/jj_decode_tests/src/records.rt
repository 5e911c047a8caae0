//! Sample records of the tests. Each field has a value of its own.
use jj_backend::backend::{
    ChangeId, Commit, CopyHistory, MillisSinceEpoch, SecureSig, Signature, Timestamp, Tree,
    TreeValue,
};
use jj_ids::object_id::Id;
use jj_ids::ref_name::NameBuf;
use jj_merges::merge::{Diff, Merge};
use jj_paths::repo_path::{RepoPathBuf, RepoPathComponentBuf};
use jj_stores::op_store::{
    Operation, OperationMetadata, RefTarget, RemoteRef, RemoteRefState, RemoteView, TimestampRange,
    View,
};
use std::alloc::{AllocError, Global};
use std::collections::{BTreeMap, HashSet};
use std::test::Fail;

/// Creates an id of two bytes.
pub fn id<K>(alloc: Global, byte: u8) -> Result<Id<K>, AllocError> {
    Id::from_bytes(alloc, &[byte, 0])
}

/// Creates a merge of three terms.
pub fn three_way<T: Drop>(
    alloc: Global,
    left: T,
    base: T,
    right: T,
) -> Result<Merge<T>, AllocError> {
    let mut diffs = Vec::new(alloc);
    diffs.push(Diff::new(base, right))?;
    Merge::from_diffs(alloc, left, diffs)
}

/// Creates a path component.
pub fn component(alloc: Global, name: &str) -> Result<RepoPathComponentBuf, Fail> {
    Ok(RepoPathComponentBuf::new(String::from_str(alloc, name)?)?)
}

/// Creates a path.
pub fn path(alloc: Global, path: &str) -> Result<RepoPathBuf, Fail> {
    Ok(RepoPathBuf::from_internal_string(String::from_str(alloc, path)?)?)
}

/// Creates a time.
pub fn time(millis: i64) -> Timestamp {
    Timestamp {
        timestamp: MillisSinceEpoch(millis),
        tz_offset: -90,
    }
}

/// Creates the signature of an author.
pub fn signature(alloc: Global, name: &str) -> Result<Signature, AllocError> {
    Ok(Signature {
        name: String::from_str(alloc, name)?,
        email: String::from_str(alloc, "ä@example.org")?,
        timestamp: time(-1),
    })
}

/// Creates a cryptographic signature.
pub fn secure_sig(alloc: Global) -> Result<SecureSig, AllocError> {
    Ok(SecureSig {
        signed_data: [1, 2].to_vec(alloc)?,
        sig: [0xff].to_vec(alloc)?,
    })
}

/// Creates a tree value.
pub fn file(alloc: Global) -> Result<TreeValue, AllocError> {
    Ok(TreeValue::File {
        id: id(alloc, 1)?,
        executable: true,
        copy_id: id(alloc, 2)?,
    })
}

fn push_entry(
    alloc: Global,
    entries: &mut Vec<(RepoPathComponentBuf, TreeValue)>,
    name: &str,
    value: TreeValue,
) -> Result<(), Fail> {
    entries.push((component(alloc, name)?, value))?;
    Ok(())
}

fn push_entries(
    alloc: Global,
    entries: &mut Vec<(RepoPathComponentBuf, TreeValue)>,
) -> Result<(), Fail> {
    push_entry(alloc, entries, "file", file(alloc)?)?;
    push_entry(alloc, entries, "link", TreeValue::Symlink(id(alloc, 3)?))?;
    push_entry(alloc, entries, "tree", TreeValue::Tree(id(alloc, 4)?))?;
    push_entry(
        alloc,
        entries,
        "submodule",
        TreeValue::GitSubmodule(id(alloc, 5)?),
    )
}

/// Creates a tree with an entry of each kind.
pub fn tree(alloc: Global) -> Result<Tree, Fail> {
    let mut entries = Vec::new(alloc);
    push_entries(alloc, &mut entries)?;
    Ok(Tree::from_entries(entries)?)
}

/// Creates a copy history.
pub fn history(alloc: Global) -> Result<CopyHistory, Fail> {
    Ok(CopyHistory {
        current_path: path(alloc, "dir/file")?,
        parents: vec![in alloc; id(alloc, 1)?, id(alloc, 2)?]?,
        salt: [7].to_vec(alloc)?,
    })
}

/// Creates a commit with a conflict.
pub fn commit(alloc: Global) -> Result<Commit, AllocError> {
    let left = String::from_str(alloc, "left")?;
    let base = String::from_str(alloc, "base")?;
    Ok(Commit {
        parents: vec![in alloc; id(alloc, 1)?, id(alloc, 2)?]?,
        predecessors: vec![in alloc; id(alloc, 3)?]?,
        root_tree: three_way(alloc, id(alloc, 4)?, id(alloc, 5)?, id(alloc, 6)?)?,
        conflict_labels: three_way(alloc, left, base, String::new(alloc))?,
        change_id: ChangeId::from_bytes(alloc, &[7])?,
        description: String::from_str(alloc, "merge\n")?,
        author: signature(alloc, "author")?,
        committer: signature(alloc, "committer")?,
        secure_sig: Some(secure_sig(alloc)?),
    })
}

/// Creates a target with an absent term.
pub fn target(alloc: Global) -> Result<RefTarget, AllocError> {
    three_way(alloc, Some(id(alloc, 1)?), None, Some(id(alloc, 2)?))
}

/// Creates a tracked ref.
pub fn remote_ref(alloc: Global) -> Result<RemoteRef, AllocError> {
    Ok(RemoteRef {
        target: target(alloc)?,
        state: RemoteRefState::Tracked,
    })
}

fn single<K: Ord + Drop, V: Drop>(
    alloc: Global,
    key: K,
    value: V,
) -> Result<BTreeMap<K, V>, AllocError> {
    let mut map = BTreeMap::new(alloc);
    map.insert(key, value)?;
    Ok(map)
}

fn name<K>(alloc: Global, text: &str) -> Result<NameBuf<K>, AllocError> {
    NameBuf::from_text(alloc, text)
}

/// Creates the view of a remote.
pub fn remote_view(alloc: Global) -> Result<RemoteView, AllocError> {
    Ok(RemoteView {
        bookmarks: single(alloc, name(alloc, "main")?, remote_ref(alloc)?)?,
        tags: single(alloc, name(alloc, "v1")?, RemoteRef::absent(alloc))?,
    })
}

/// Creates a view.
pub fn view(alloc: Global) -> Result<View, AllocError> {
    let mut head_ids = HashSet::new(alloc);
    head_ids.insert(id(alloc, 1)?)?;
    head_ids.insert(id(alloc, 2)?)?;
    Ok(View {
        head_ids,
        local_bookmarks: single(alloc, name(alloc, "main")?, target(alloc)?)?,
        local_tags: single(alloc, name(alloc, "v2")?, target(alloc)?)?,
        remote_views: single(alloc, name(alloc, "origin")?, remote_view(alloc)?)?,
        git_refs: single(alloc, name(alloc, "refs/heads/main")?, target(alloc)?)?,
        git_heads: single(alloc, name(alloc, "default")?, target(alloc)?)?,
        wc_commit_ids: single(alloc, name(alloc, "default")?, id(alloc, 3)?)?,
    })
}

/// Creates the metadata of an operation.
pub fn metadata(alloc: Global) -> Result<OperationMetadata, AllocError> {
    let value = String::from_str(alloc, "new")?;
    Ok(OperationMetadata {
        time: TimestampRange {
            start: time(1),
            end: time(2),
        },
        description: String::from_str(alloc, "new empty commit")?,
        hostname: String::from_str(alloc, "host")?,
        username: String::from_str(alloc, "user")?,
        is_snapshot: true,
        workspace_name: Some(name(alloc, "default")?),
        attributes: single(alloc, String::from_str(alloc, "args")?, value)?,
    })
}

/// Creates an operation.
pub fn operation(alloc: Global) -> Result<Operation, AllocError> {
    let predecessors = vec![in alloc; id(alloc, 4)?, id(alloc, 5)?]?;
    Ok(Operation {
        view_id: id(alloc, 1)?,
        parents: vec![in alloc; id(alloc, 2)?]?,
        metadata: metadata(alloc)?,
        commit_predecessors: Some(single(alloc, id(alloc, 3)?, predecessors)?),
    })
}
