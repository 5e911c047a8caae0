//! The commit that a revision names: a ref, or a prefix of an id of the store or of Git.
ghost use Rattle.std.specs.Prelude.{◌≡◌, ◌≢◌, ◌↔◌, ◌++◌, ℕ, List, All, Contains, IfOk, IfErr, IsTrue, string_bytes};
ghost use Rattle.std.specs.BTreeMap.{get_by_text, values};
ghost use Rattle.std.specs.Bool.{MatchBool};
ghost use Rattle.std.specs.Option.{option_or};
ghost use Rattle.jj_history.specs.Revisions.{IsAmbiguousError, IsChoiceError, IsNamed, IsOnly, IsResolution, IsRevisionError, IsUnknownError, commits_at, git_commits_with, prefix_of, ref_commit, store_commits_with};

use crate::error::RevisionError;
use jj_excerpts::excerpt;
use jj_ids::object_id::{CommitId, HexPrefix, PrefixResolution};
use std::alloc::{AllocError, Global};
use std::collections::BTreeMap;

/// The fewest digits of a prefix of an id.
pub const MIN_DIGITS: usize = 4;

// Concatenates two strings.
fn joined(alloc: Global, prefix: &str, name: &str) -> Result<String, AllocError>
    ensures { IfOk result (λ full. string_bytes full ≡ prefix.now ++ name.now) }
{
    let mut full = String::from_str(alloc, prefix)?;
    full.push_str(name)?;
    Ok(full)
}

fn commit_named(
    refs: &BTreeMap<String, CommitId>,
    name: &str,
) -> Result<Option<CommitId>, AllocError>
    ensures { IfOk result (λ found. found ≡ get_by_text refs.now name.now) }
{
    match refs.get(name) {
        Some(id) => Ok(Some(id.clone()?)),
        None => Ok(None),
    }
}

// Returns the commit of the ref with this name after the prefix.
fn ref_in(
    alloc: Global,
    refs: &BTreeMap<String, CommitId>,
    prefix: &str,
    name: &str,
) -> Result<Option<CommitId>, AllocError>
    ensures { IfOk result (λ found. found ≡ get_by_text refs.now (prefix.now ++ name.now)) }
{
    let full = joined(alloc, prefix, name)?;
    let named = commit_named(refs, full.as_str())?;
    Ok(named)
}

// Returns the commit found, and else that of the ref with this name after the prefix.
fn or_named(
    alloc: Global,
    found: Option<CommitId>,
    refs: &BTreeMap<String, CommitId>,
    prefix: &str,
    name: &str,
) -> Result<Option<CommitId>, AllocError>
    ensures { IfOk result (λ either. either
        ≡ option_or found (get_by_text refs.now (prefix.now ++ name.now))) }
{
    match found {
        Some(id) => Ok(Some(id)),
        None => ref_in(alloc, refs, prefix, name),
    }
}

// Returns the commit of a ref whose name may lack its first components, as Git has it.
fn find_ref(
    alloc: Global,
    refs: &BTreeMap<String, CommitId>,
    name: &str,
) -> Result<Option<CommitId>, AllocError>
    ensures { IfOk result (λ found. found ≡ ref_commit refs.now name.now) }
{
    let full = commit_named(refs, name)?;
    let short = or_named(alloc, full, refs, "refs/", name)?;
    let tag = or_named(alloc, short, refs, "refs/tags/", name)?;
    let head = or_named(alloc, tag, refs, "refs/heads/", name)?;
    let remote = or_named(alloc, head, refs, "refs/remotes/", name)?;
    Ok(remote)
}

// Returns the revision as a prefix of an id, if it has enough digits and nothing else.
fn prefix_of(alloc: Global, revision: &str) -> Result<Option<HexPrefix>, AllocError>
    ensures { IfOk result (λ prefix. prefix ≡ prefix_of revision.now) }
{
    if revision.len() < MIN_DIGITS {
        return Ok(None);
    }
    HexPrefix::try_from_hex(alloc, revision)
}

// Returns those of the ids that have the prefix.
fn store_commits_with(
    alloc: Global,
    ids: &[CommitId],
    prefix: &HexPrefix,
) -> Result<Vec<CommitId>, AllocError>
    ensures { IfOk result (λ found. found.items ≡ store_commits_with ids.now prefix.now) }
{
    let mut found = Vec::new(alloc);
    for id in ids {
        if prefix.matches(id) {
            found.push(id.clone()?)?;
        }
    }
    Ok(found)
}

// Returns those of the commits of a map whose ids have the prefix.
fn values_with(
    alloc: Global,
    ids: &BTreeMap<String, CommitId>,
    prefix: &HexPrefix,
) -> Result<Vec<CommitId>, AllocError>
    ensures { IfOk result (λ found. found.items
        ≡ store_commits_with (values ids.now) prefix.now) }
{
    let mut found = Vec::new(alloc);
    for id in ids.values() {
        if prefix.matches(id) {
            found.push(id.clone()?)?;
        }
    }
    Ok(found)
}

// Appends the commits whose ids in Git have the prefix.
fn push_git_commits(
    git_ids: &BTreeMap<String, CommitId>,
    prefix: &str,
    found: &mut Vec<CommitId>,
) -> Result<(), AllocError>
    ensures { IfOk result (λ done. found.new.items
        ≡ found.old.items ++ git_commits_with git_ids.now prefix.now) }
{
    for (git_id, id) in git_ids {
        if git_id.as_bytes().starts_with(prefix.as_bytes()) {
            found.push(id.clone()?)?;
        }
    }
    Ok(())
}

// Returns the commits with an id that begins with the revision.
fn commits_at(
    alloc: Global,
    git_ids: &BTreeMap<String, CommitId>,
    ids: &[CommitId],
    revision: &str,
) -> Result<Vec<CommitId>, AllocError>
    ensures { IfOk result (λ found. found.items ≡ commits_at git_ids.now ids.now revision.now) }
{
    let Some(prefix) = prefix_of(alloc, revision)? else {
        return Ok(Vec::new(alloc));
    };
    let mut found = store_commits_with(alloc, ids, &prefix)?;
    push_git_commits(git_ids, prefix.hex()?.as_str(), &mut found)?;
    Ok(found)
}

// Returns the commits of Git's ids with an id that begins with the revision.
fn known_commits_at(
    alloc: Global,
    git_ids: &BTreeMap<String, CommitId>,
    revision: &str,
) -> Result<Vec<CommitId>, AllocError>
    ensures { IfOk result (λ found. found.items
        ≡ commits_at git_ids.now (values git_ids.now) revision.now) }
{
    let Some(prefix) = prefix_of(alloc, revision)? else {
        return Ok(Vec::new(alloc));
    };
    let mut found = values_with(alloc, git_ids, &prefix)?;
    push_git_commits(git_ids, prefix.hex()?.as_str(), &mut found)?;
    Ok(found)
}

fn are_equal(left: &CommitId, right: &CommitId) -> bool
    ensures { IsTrue result ↔ (left.now ≡ right.now) }
{
    left == right
}

// Whether all commits of a list are this one.
fn are_all(found: &[CommitId], id: &CommitId) -> bool
    ensures { MatchBool result (All (λ other. other ≡ id.now) found.now)
        ((other : List ℕ) × Contains found.now other × (other ≢ id.now)) }
{
    for other in found {
        if !are_equal(other, id) {
            return false;
        }
    }
    true
}

// Returns the only commit of a list, which may have it several times.
fn only_commit(found: &[CommitId]) -> Result<PrefixResolution<CommitId>, AllocError>
    ensures { IfOk result (IsResolution found.now) }
{
    let Some(first) = found.first() else {
        return Ok(PrefixResolution::NoMatch);
    };
    if !are_all(found, first) {
        return Ok(PrefixResolution::AmbiguousMatch);
    }
    let only = first.clone()?;
    Ok(PrefixResolution::SingleMatch(only))
}

fn unknown(alloc: Global, revision: &str) -> RevisionError
    ensures { IsUnknownError revision.now result }
{
    match excerpt(alloc, revision.as_bytes()) {
        Ok(quoted) => RevisionError::Unknown { quoted },
        Err(_) => RevisionError::Memory,
    }
}

fn ambiguous(alloc: Global, revision: &str) -> RevisionError
    ensures { IsAmbiguousError revision.now result }
{
    match excerpt(alloc, revision.as_bytes()) {
        Ok(quoted) => RevisionError::Ambiguous { quoted },
        Err(_) => RevisionError::Memory,
    }
}

// Returns the only commit of those found, or the error that there is none or that there are
// several.
fn choose(alloc: Global, found: &[CommitId], revision: &str) -> Result<CommitId, RevisionError>
    ensures commit { IfOk result (IsOnly found.now) }
    ensures error { IfErr result (IsChoiceError found.now revision.now) }
{
    match only_commit(found)? {
        PrefixResolution::SingleMatch(id) => Ok(id),
        PrefixResolution::NoMatch => Err(unknown(alloc, revision)),
        PrefixResolution::AmbiguousMatch => Err(ambiguous(alloc, revision)),
    }
}

/// Returns the commit that a revision names: that of the ref with this name, which may lack
/// `refs/`, `refs/tags/`, `refs/heads/` or `refs/remotes/`, the first of these that there is; and
/// else the only commit whose id, one of `ids` or Git's, has the revision as a prefix, in hex
/// digits of either case and at least `MIN_DIGITS` of them. Fails with `Unknown` if there is none,
/// with `Ambiguous` if there are several, and with `Memory` if memory runs out. Linear in the ids.
pub fn resolve(
    alloc: Global,
    refs: &BTreeMap<String, CommitId>,
    git_ids: &BTreeMap<String, CommitId>,
    ids: &[CommitId],
    revision: &str,
) -> Result<CommitId, RevisionError>
    // The commit is that of the ref, or without one the only commit with the prefix.
    ensures commit { IfOk result (IsNamed refs.now git_ids.now ids.now revision.now) }
    // No ref has the name, and no commit has the prefix or several have it; the error quotes the
    // revision.
    ensures error { IfErr result (IsRevisionError refs.now git_ids.now ids.now revision.now) }
{
    if let Some(id) = find_ref(alloc, refs, revision)? {
        return Ok(id);
    }
    let found = commits_at(alloc, git_ids, ids, revision)?;
    choose(alloc, &found, revision)
}

/// Returns the commit that a revision names, as `resolve` does among the commits of Git's ids,
/// which are not copied.
pub fn resolve_known(
    alloc: Global,
    refs: &BTreeMap<String, CommitId>,
    git_ids: &BTreeMap<String, CommitId>,
    revision: &str,
) -> Result<CommitId, RevisionError>
    ensures commit { IfOk result
        (IsNamed refs.now git_ids.now (values git_ids.now) revision.now) }
    ensures error { IfErr result
        (IsRevisionError refs.now git_ids.now (values git_ids.now) revision.now) }
{
    if let Some(id) = find_ref(alloc, refs, revision)? {
        return Ok(id);
    }
    let found = known_commits_at(alloc, git_ids, revision)?;
    choose(alloc, &found, revision)
}
