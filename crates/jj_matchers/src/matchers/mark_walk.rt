//! Pruned walk of marked paths in path order, with a stack of the directories above the last one.
ghost use Rattle.std.specs.Prelude.{◌≡◌, ◌<◌, ◌⊎◌, ◌+◌, ◌++◌, ◌∷◌, [], Contains, IfOk, List, OnOk, length, map};
ghost use Rattle.std.specs.declared.cmp.Ordering.TheVariants.{Less};
ghost use Rattle.jj_paths.specs.Names.{name_of, path_of};
ghost use Rattle.jj_paths.specs.Paths.{Name, Path, path_cmp};
ghost use Rattle.jj_matchers.specs.SortedVisits.{sorted_visit_spec};
ghost use Rattle.jj_matchers.specs.Walk.{is_entered, path_if};
ghost use Rattle.jj_matchers.specs.WalkInvariants.{DeterminesWalk};
ghost use Rattle.jj_matchers.specs.MarkWalk.{WalksMarks};
ghost use Rattle.jj_matchers.specs.MarkWalkInvariants.{DecidesFile, IsAtOrAbove, IsClosed, IsCutTo, IsFull, IsListedDown, IsNextDirectory, IsOnWay, WalkedMarks, dir_of, top};
ghost use Rattle.jj_matchers.specs.declared.matchers.mark_walk.OpenDirectory.{OpenDirectory};

use crate::matchers::marks::sorted_marks;
use crate::matchers::{Matcher, SortedVisit, Walk};
use jj_paths::repo_path::{RepoPath, RepoPathComponent};
use std::alloc::{AllocError, Global};

// A directory above the last mark, and its visit.
#[derive(Drop)]
struct OpenDirectory<'m, 't> {
    dir: RepoPath<'t>,
    visit: SortedVisit<'m>,
}

/// Returns the marks below the root that the matcher accepts, and the directories that were entered
/// to find them, as `walk_matching` does for the tree of the marks, without building it. The marks
/// may be in any order and repeat. O(n log n) comparisons of names for n names of the marks and the
/// visits, apart from the calls of the matcher.
pub fn walk_marks<'t, M: Matcher>(
    alloc: Global,
    marks: &[RepoPath<'t>],
    matcher: &M,
) -> Result<Walk<RepoPath<'t>>, AllocError>
    // The files are the marks below the root that the matcher accepts, and the directories are
    // those above a mark that the visits lead to; both are in path order, each once.
    ensures { IfOk result (λ walk. WalksMarks (M.accepts matcher.now) (M.visits matcher.now)
        (map path_of marks.now) (map path_of walk.files.items) (map path_of walk.entered.items)) }
{
    let sorted = sorted_marks(alloc, marks)?;
    let files = Vec::new(alloc);
    let entered = Vec::new(alloc);
    let mut walk = Walk { files, entered };
    let mut stack = Vec::new(alloc);
    for mark in &sorted {
        visit_mark(alloc, *mark, matcher, &mut walk, &mut stack)?;
    }
    Ok(walk)
}

// Visits a mark that follows all earlier ones in path order.
fn visit_mark<'m, 't: 'm, M: Matcher>(
    alloc: Global,
    mark: RepoPath<'t>,
    matcher: &'m M,
    walk: &mut Walk<RepoPath<'t>>,
    stack: &mut Vec<OpenDirectory<'m, 't>>,
) -> Result<(), AllocError>
    ensures { OnOk result ((done : List Path)
        → ((earlier : Path) → Contains done earlier
        → path_cmp earlier (path_of mark.entry) ≡ Less)
        → WalkedMarks (M.accepts matcher.now) (M.opens matcher.now) (M.visits matcher.now) done
        (map path_of walk.old.files.items) (map path_of walk.old.entered.items) stack.old.items
        → WalkedMarks (M.accepts matcher.now) (M.opens matcher.now) (M.visits matcher.now)
        (done ++ path_of mark.entry ∷ []) (map path_of walk.new.files.items)
        (map path_of walk.new.entered.items) stack.new.items) }
{
    let Some((above, name)) = mark.split() else {
        return Ok(());
    };
    close_others(stack, above);
    open_root(alloc, matcher, walk, stack)?;
    open_down(alloc, above, matcher, walk, stack)?;
    push_file(mark, name, matcher, walk, stack)?;
    Ok(())
}

// Closes the directories after the last one that is at or above a path.
fn close_others(stack: &mut Vec<OpenDirectory<'_, '_>>, path: RepoPath<'_>)
    ensures { IsCutTo (path_of path.entry) stack.old.items stack.new.items }
{
    while let Some(directory) = stack.last() {
        if path.starts_with(directory.dir) {
            return;
        }
        stack.truncate(stack.len() - 1);
    }
}

// Opens the root, unless it is open.
fn open_root<'m, 't, M: Matcher>(
    alloc: Global,
    matcher: &'m M,
    walk: &mut Walk<RepoPath<'t>>,
    stack: &mut Vec<OpenDirectory<'m, 't>>,
) -> Result<(), AllocError>
    ensures files { OnOk result (walk.new.files.items ≡ walk.old.files.items) }
    ensures opened { OnOk result ((done : List Path) (path : Path) → 0 < length path
        → IsOnWay (M.accepts matcher.now) (M.opens matcher.now) (M.visits matcher.now) done path
        (map path_of walk.old.entered.items) stack.old.items
        → IsOnWay (M.accepts matcher.now) (M.opens matcher.now) (M.visits matcher.now) done path
        (map path_of walk.new.entered.items) stack.new.items) }
    ensures above { OnOk result ((path : Path) → IsAtOrAbove path stack.old.items
        → (0 < length stack.new.items) × IsAtOrAbove path stack.new.items) }
{
    if stack.is_empty() {
        let visit = matcher.visit_sorted(alloc, RepoPath::root())?;
        open_directory(RepoPath::root(), visit, walk, stack)?;
    }
    Ok(())
}

// Opens the directories at and above a path that are not yet open, until one has no accepted files.
fn open_down<'m, 't: 'm, M: Matcher>(
    alloc: Global,
    path: RepoPath<'t>,
    matcher: &'m M,
    walk: &mut Walk<RepoPath<'t>>,
    stack: &mut Vec<OpenDirectory<'m, 't>>,
) -> Result<(), AllocError>
    ensures files { OnOk result (walk.new.files.items ≡ walk.old.files.items) }
    ensures opened { OnOk result ((done : List Path) (name : Name) → 0 < length stack.old.items
        → IsAtOrAbove (path_of path.entry) stack.old.items
        → IsOnWay (M.accepts matcher.now) (M.opens matcher.now) (M.visits matcher.now) done
        (path_of path.entry ++ name ∷ []) (map path_of walk.old.entered.items) stack.old.items
        → IsOnWay (M.accepts matcher.now) (M.opens matcher.now) (M.visits matcher.now) done
        (path_of path.entry ++ name ∷ []) (map path_of walk.new.entered.items) stack.new.items
        × IsFull (path_of path.entry ++ name ∷ []) stack.new.items) }
{
    let mut pending = directories_down(alloc, path, stack)?;
    while let Some((dir, name)) = pending.pop() {
        open_child(alloc, dir, name, matcher, walk, stack)?;
    }
    Ok(())
}

// Returns the directories at and above a path that are below the last open one, each with its last
// name, the deepest first; none if that one has no accepted files.
fn directories_down<'t>(
    alloc: Global,
    path: RepoPath<'t>,
    stack: &[OpenDirectory<'_, 't>],
) -> Result<Vec<(RepoPath<'t>, RepoPathComponent<'t>)>, AllocError>
    ensures { IfOk result (λ pending. 0 < length stack.now
        → IsAtOrAbove (path_of path.entry) stack.now → IsClosed stack.now ⊎ ((d : OpenDirectory)
        → IsListedDown (path_of path.entry) (length (dir_of (top stack.now d))) pending.items)) }
{
    let mut pending = Vec::new(alloc);
    let Some(directory) = stack.last() else {
        return Ok(pending);
    };
    if directory.visit.is_nothing() {
        return Ok(pending);
    }
    let Some(below) = path.strip_prefix(directory.dir) else {
        return Ok(pending);
    };
    list_down(path, below, &mut pending)?;
    Ok(pending)
}

// Appends a path and its ancestors that have a part of `below`, with which it ends.
fn list_down<'t>(
    path: RepoPath<'t>,
    below: RepoPath<'t>,
    pending: &mut Vec<(RepoPath<'t>, RepoPathComponent<'t>)>,
) -> Result<(), AllocError>
    ensures { OnOk result (pending.old.items ≡ [] → (from : Path)
        → path_of path.entry ≡ from ++ path_of below.entry
        → IsListedDown (path_of path.entry) (length from) pending.new.items) }
{
    let mut dir = path;
    let mut rest = below;
    while let Some((further, name)) = rest.split() {
        pending.push((dir, name))?;
        rest = further;
        let Some(parent) = dir.parent() else {
            return Ok(());
        };
        dir = parent;
    }
    Ok(())
}

// Opens a directory in the last open one, unless that one has no accepted files.
fn open_child<'m, 't: 'm, M: Matcher>(
    alloc: Global,
    dir: RepoPath<'t>,
    name: RepoPathComponent<'t>,
    matcher: &'m M,
    walk: &mut Walk<RepoPath<'t>>,
    stack: &mut Vec<OpenDirectory<'m, 't>>,
) -> Result<(), AllocError>
    ensures files { OnOk result (walk.new.files.items ≡ walk.old.files.items) }
    ensures opened { OnOk result ((done : List Path) (path : Path) → 0 < length stack.old.items
        → IsClosed stack.old.items
        ⊎ IsNextDirectory path (length stack.old.items) (path_of dir.entry) (name_of name.entry)
        → IsOnWay (M.accepts matcher.now) (M.opens matcher.now) (M.visits matcher.now) done path
        (map path_of walk.old.entered.items) stack.old.items
        → (0 < length stack.new.items) × (IsClosed stack.old.items → IsClosed stack.new.items)
        × (IsClosed stack.new.items ⊎ (length stack.new.items ≡ length stack.old.items + 1))
        × IsOnWay (M.accepts matcher.now) (M.opens matcher.now) (M.visits matcher.now) done path
        (map path_of walk.new.entered.items) stack.new.items) }
{
    let Some(parent) = stack.last() else {
        return Ok(());
    };
    if parent.visit.is_nothing() {
        return Ok(());
    }
    let visit = child_visit(alloc, &parent.visit, dir, name, matcher)?;
    open_directory(dir, visit, walk, stack)?;
    Ok(())
}

// Pushes a directory, and enters it unless its visit is `Nothing`.
fn open_directory<'m, 't>(
    dir: RepoPath<'t>,
    visit: SortedVisit<'m>,
    walk: &mut Walk<RepoPath<'t>>,
    stack: &mut Vec<OpenDirectory<'m, 't>>,
) -> Result<(), AllocError>
    ensures files { OnOk result (walk.new.files.items ≡ walk.old.files.items) }
    ensures entered { OnOk result (map path_of walk.new.entered.items
        ≡ map path_of walk.old.entered.items
        ++ path_if (is_entered (sorted_visit_spec visit.entry)) (path_of dir.entry)) }
    ensures pushed { OnOk result ((directory : OpenDirectory)
        × (dir_of directory ≡ path_of dir.entry)
        × (sorted_visit_spec directory.visit ≡ sorted_visit_spec visit.entry)
        × (stack.new.items ≡ stack.old.items ++ directory ∷ [])) }
{
    if !visit.is_nothing() {
        walk.entered.push(dir)?;
    }
    stack.push(OpenDirectory { dir, visit })?;
    Ok(())
}

// Returns the visit of a child of a directory with the visit `parent`. Calls the matcher only in a
// `Specific` visit.
fn child_visit<'m, M: Matcher>(
    alloc: Global,
    parent: &SortedVisit<'m>,
    dir: RepoPath<'_>,
    name: RepoPathComponent<'m>,
    matcher: &'m M,
) -> Result<SortedVisit<'m>, AllocError>
    ensures { IfOk result (λ visit. (above : Path)
        → path_of dir.entry ≡ above ++ name_of name.entry ∷ []
        → DeterminesWalk (M.accepts matcher.now) (M.opens matcher.now) (M.visits matcher.now) above
        (sorted_visit_spec parent.now)
        → DeterminesWalk (M.accepts matcher.now) (M.opens matcher.now) (M.visits matcher.now)
        (path_of dir.entry) (sorted_visit_spec visit)) }
{
    match parent {
        SortedVisit::AllRecursively => Ok(SortedVisit::AllRecursively),
        SortedVisit::Specific { dirs, files: _ } => {
            if dirs.contains(name) {
                matcher.visit_sorted(alloc, dir)
            } else {
                Ok(SortedVisit::Nothing)
            }
        }
        SortedVisit::Nothing => Ok(SortedVisit::Nothing),
    }
}

// Adds a mark to the files, if it is accepted.
fn push_file<'m, 't: 'm, M: Matcher>(
    mark: RepoPath<'t>,
    name: RepoPathComponent<'t>,
    matcher: &M,
    walk: &mut Walk<RepoPath<'t>>,
    stack: &[OpenDirectory<'m, 't>],
) -> Result<(), AllocError>
    ensures files { OnOk result (0 < length stack.now → ((d : OpenDirectory)
        → DecidesFile (M.accepts matcher.now) (M.opens matcher.now) (path_of mark.entry)
        (name_of name.entry) (top stack.now d)) → map path_of walk.new.files.items
        ≡ map path_of walk.old.files.items
        ++ path_if (M.accepts matcher.now (path_of mark.entry)) (path_of mark.entry)) }
    ensures entered { OnOk result (walk.new.entered.items ≡ walk.old.entered.items) }
{
    let Some(directory) = stack.last() else {
        return Ok(());
    };
    if is_accepted(mark, name, directory, matcher) {
        walk.files.push(mark)?;
    }
    Ok(())
}

// Calls the matcher only in a `Specific` visit.
fn is_accepted<'m, M: Matcher>(
    mark: RepoPath<'_>,
    name: RepoPathComponent<'m>,
    directory: &OpenDirectory<'m, '_>,
    matcher: &M,
) -> bool
    ensures { DecidesFile (M.accepts matcher.now) (M.opens matcher.now)
        (path_of mark.entry) (name_of name.entry) directory.now
        → result ≡ M.accepts matcher.now (path_of mark.entry) }
{
    match &directory.visit {
        SortedVisit::AllRecursively => true,
        SortedVisit::Specific { dirs: _, files } => files.contains(name) && matcher.matches(mark),
        SortedVisit::Nothing => false,
    }
}
