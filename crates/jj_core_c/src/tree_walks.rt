//! Pruned walks of the tree of a batch of files.
ghost use Rattle.std.specs.Prelude.{◌≡◌, ◌<◌, ◌^◌, length, map, IfOk, MatchResult};
ghost use Rattle.jj_paths.specs.Names.{path_of};
ghost use Rattle.jj_core_c.specs.Buffers.{Fails};
ghost use Rattle.jj_core_c.specs.JoinedPaths.{paths_of};
ghost use Rattle.jj_core_c.specs.Statuses.{Accepts, Returns};
ghost use Rattle.jj_core_c.specs.TreeWalks.{AreContained, AreTreeWalkArguments, CountsEntered, FindsListed, IsTreeWalkCause, WritesWalk};

use crate::buffers::write_flags;
use crate::error::{Error, status_of};
use crate::paths::parse_paths;
use crate::pieces::are_ends;
use jj_matchers::laws::walks_find_accepted_marks;
use jj_matchers::matchers::{
    FilesMatcher, Matcher, PrefixMatcher, Walk, marked_tree, walk_matching,
};
use jj_paths::repo_path::{RepoPath, RepoPathBuf};
use std::alloc::{AllocError, Global};

// Walks the tree of the files by the matcher of the list.
fn walk_files(
    alloc: Global,
    listed: &[RepoPath<'_>],
    prefixes: bool,
    files: &[RepoPath<'_>],
) -> Result<Walk, AllocError>
    ensures found { IfOk result (λ walk. FindsListed prefixes (map path_of listed.now)
        (map path_of files.now) walk.files.items) }
    ensures entered { IfOk result (λ walk. CountsEntered prefixes (map path_of listed.now)
        (map path_of files.now) (length walk.entered.items)) }
{
    walks_find_accepted_marks();
    let tree = marked_tree(alloc, files)?;
    if prefixes {
        let matcher = PrefixMatcher::new(alloc, listed)?;
        walk_matching(alloc, &tree, &matcher)
    } else {
        let matcher = FilesMatcher::new(alloc, listed)?;
        walk_matching(alloc, &tree, &matcher)
    }
}

fn borrowed_paths<'a>(
    alloc: Global,
    paths: &'a [RepoPathBuf],
) -> Result<Vec<RepoPath<'a>>, AllocError>
    ensures { IfOk result (λ borrowed. map path_of borrowed.items ≡ paths.now) }
{
    let mut borrowed = Vec::with_capacity(alloc, paths.len())?;
    for path in paths {
        borrowed.push(path.as_path())?;
    }
    Ok(borrowed)
}

// Returns whether each file is among those found.
fn found_flags(
    alloc: Global,
    found: &[RepoPathBuf],
    files: &[RepoPath<'_>],
) -> Result<Vec<bool>, AllocError>
    ensures flags { IfOk result (λ flags.
        AreContained found.now (map path_of files.now) flags.items) }
    ensures len { IfOk result (λ flags. length flags.items ≡ length files.now) }
{
    let found = borrowed_paths(alloc, found)?;
    let set = FilesMatcher::new(alloc, &found)?;
    let mut flags = Vec::with_capacity(alloc, files.len())?;
    for file in files {
        flags.push(set.matches(*file))?;
    }
    Ok(flags)
}

fn walk(
    alloc: Global,
    listed: &[u8],
    listed_ends: &[usize],
    prefixes: bool,
    bytes: &[u8],
    ends: &[usize],
    found: &mut [bool],
) -> Result<usize, Error>
    ensures bound { IfOk result (λ entered. entered < 2 ^ 63) }
    ensures outcome { MatchResult result
        (Accepts (AreTreeWalkArguments listed.now listed_ends.now bytes.now ends.now)
        (WritesWalk prefixes (paths_of listed.now listed_ends.now) (paths_of bytes.now ends.now)
        found.old found.new))
        (Fails found.old found.new (IsTreeWalkCause listed.now listed_ends.now bytes.now ends.now
        (length found.old))) }
{
    if !are_ends(listed.len(), listed_ends) || !are_ends(bytes.len(), ends) {
        return Err(Error::Ends);
    }
    if found.len() < ends.len() {
        return Err(Error::Length);
    }
    let listed = parse_paths(alloc, listed, listed_ends)?;
    let files = parse_paths(alloc, bytes, ends)?;
    let walk = walk_files(alloc, &listed, prefixes, &files)?;
    let flags = found_flags(alloc, &walk.files, &files)?;
    write_flags(found, &flags);
    Ok(walk.entered.len())
}

/// Walks the tree of the files at these paths, and writes whether it finds each: whether the path
/// is not the root, and on the list or, with `prefixes`, at or below a path of the list. Returns
/// the number of directories that the walk enters: ancestors of listed paths and, with `prefixes`,
/// those at or below one. O(bytes · depth · log n) for n paths of at most `depth` components, and
/// O(bytes · depth) memory.
///
/// Errors: `Ends`, `Length`, `Path`, `Memory`.
#[unsafe(no_mangle)]
pub extern "C" fn jj_walk(
    alloc: Global,
    listed: &[u8],
    listed_ends: &[usize],
    prefixes: bool,
    bytes: &[u8],
    ends: &[usize],
    found: &mut [bool],
) -> i64
    ensures { Returns result
        (Accepts (AreTreeWalkArguments listed.now listed_ends.now bytes.now ends.now)
        (WritesWalk prefixes (paths_of listed.now listed_ends.now) (paths_of bytes.now ends.now)
        found.old found.new))
        (Fails found.old found.new (IsTreeWalkCause listed.now listed_ends.now bytes.now ends.now
        (length found.old))) }
{
    status_of(walk(alloc, listed, listed_ends, prefixes, bytes, ends, found))
}
