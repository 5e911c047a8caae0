//! Marked paths in path order, by an MSD string sort with cached 8-byte keys, and their tree.
ghost use Rattle.std.specs.Prelude.{◌≡◌, ◌<◌, ◌≤◌, ◌↔◌, Contains, map, length, IfOk};
ghost use Rattle.std.specs.List.Sorted.{IsPermutation};
ghost use Rattle.jj_paths.specs.Paths.{Path};
ghost use Rattle.jj_paths.specs.Names.{path_of};
ghost use Rattle.jj_matchers.specs.Marks.{IsMarkedTree};
ghost use Rattle.jj_matchers.specs.Walk.{AreInOrder};
ghost use Rattle.jj_matchers.specs.KeyedMarks.{keyed_path};

use jj_paths::repo_path::RepoPath;
use jj_paths::repo_path_tree::RepoPathTree;
use std::alloc::{AllocError, Global};
use std::cmp::Ordering;

// A path, and eight bytes of its string as a number.
#[derive(Clone, Copy)]
struct KeyedMark<'t> {
    key: u64,
    path: RepoPath<'t>,
}

// Lists of at most this many paths are sorted by comparing paths whose keys agree.
const SMALL_LIST: usize = 32;

// The number of keys that are compared; marks that agree in all of them are compared as paths.
const MAX_KEYS: usize = 8;

// The length of a key in bytes.
const KEY_LEN: usize = 8;

/// Returns the tree with `true` at each mark, and `false` at the ancestors that are no marks. The
/// marks may be in any order and repeat.
pub fn marked_tree(alloc: Global, marks: &[RepoPath<'_>]) -> Result<RepoPathTree<bool>, AllocError>
    ensures { IfOk result (IsMarkedTree (map path_of marks.now)) }
{
    let sorted = sorted_marks(alloc, marks)?;
    let mut tree = RepoPathTree::default(alloc);
    for mark in &sorted {
        tree.set(*mark, true)?;
    }
    Ok(tree)
}

/// Returns the marks in path order, each once. The last sort finds them in order already, so it
/// takes one pass.
pub fn sorted_marks<'t>(
    alloc: Global,
    marks: &[RepoPath<'t>],
) -> Result<Vec<RepoPath<'t>>, AllocError>
    ensures ascending { IfOk result (λ sorted. AreInOrder (map path_of sorted.items)) }
    ensures same { IfOk result (λ sorted. (path : Path)
        → Contains (map path_of sorted.items) path ↔ Contains (map path_of marks.now) path) }
{
    let mut keyed = keyed_marks(alloc, marks)?;
    sort_by_keys(&mut keyed, 0);
    let mut sorted = Vec::with_capacity(alloc, keyed.len())?;
    for mark in &keyed {
        sorted.push(mark.path)?;
    }
    sorted.sort_unstable();
    sorted.dedup();
    Ok(sorted)
}

// The keys are set later, by `set_keys`.
fn keyed_marks<'t>(alloc: Global, marks: &[RepoPath<'t>]) -> Result<Vec<KeyedMark<'t>>, AllocError>
    ensures { IfOk result (λ keyed. map keyed_path keyed.items ≡ map path_of marks.now) }
{
    let mut keyed = Vec::with_capacity(alloc, marks.len())?;
    for mark in marks {
        keyed.push(KeyedMark {
            key: 0,
            path: *mark,
        })?;
    }
    Ok(keyed)
}

// Sorts marks that agree in all keys before this one into path order. Each key is read once, as a
// number; marks that agree in it are sorted next, while their strings are in the cache.
fn sort_by_keys(marks: &mut [KeyedMark<'_>], depth: usize)
    ensures { IsPermutation (map keyed_path marks.old) (map keyed_path marks.new) }
{
    if marks.len() <= 1 {
        return;
    }
    if depth >= MAX_KEYS {
        marks.sort_unstable_by_key(|mark| mark.path);
        return;
    }
    set_keys(marks, depth * KEY_LEN);
    if marks.len() <= SMALL_LIST {
        marks.sort_unstable_by(|a, b| cmp_keyed(a, b));
        return;
    }
    marks.sort_unstable_by_key(|mark| mark.key);
    let mut start = 0;
    while start < marks.len() {
        let end = run_end(marks, start);
        sort_by_keys(&mut marks[start..end], depth + 1);
        start = end;
    }
}

fn cmp_keyed(a: &KeyedMark<'_>, b: &KeyedMark<'_>) -> Ordering {
    match a.key.cmp(&b.key) {
        Ordering::Equal => a.path.cmp(&b.path),
        order => order,
    }
}

// Sets the key of each mark to the eight bytes at this offset.
fn set_keys(marks: &mut [KeyedMark<'_>], from: usize)
    ensures { map keyed_path marks.new ≡ map keyed_path marks.old }
{
    for mark in marks.iter_mut() {
        mark.key = key_from(mark.path.as_internal_file_string().as_bytes(), from);
    }
}

// Returns eight bytes at this offset as a big-endian number, padded with zeros. A slash counts as
// the least byte, so the order of keys is that of paths.
fn key_from(text: &[u8], from: usize) -> u64 {
    let Some(rest) = text.get(from..) else {
        return 0;
    };
    let mut bytes = [0; KEY_LEN];
    match rest.first_chunk::<KEY_LEN>() {
        Some(chunk) => bytes = *chunk,
        None => bytes[..rest.len()].copy_from_slice(rest),
    }
    for i in 0..KEY_LEN {
        bytes[i] = slash_first(bytes[i]);
    }
    u64::from_be_bytes(bytes)
}

// Returns the rank of a byte in the order in which `/` comes first.
fn slash_first(byte: u8) -> u8 {
    if byte == b'/' {
        0
    } else if byte < b'/' {
        byte + 1
    } else {
        byte
    }
}

// Returns the end of the run of marks with the same key as the one at `start`.
fn run_end(marks: &[KeyedMark<'_>], start: usize) -> usize
    requires { start < length marks.now }
    ensures above { start < result }
    ensures in_range { result ≤ length marks.now }
{
    let key = marks[start].key;
    for end in start + 1..marks.len() {
        if marks[end].key != key {
            return end;
        }
    }
    marks.len()
}
