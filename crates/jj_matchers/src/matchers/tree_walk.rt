//! Iterative depth-first traversal of a tree of marked paths, pruned by a matcher.
ghost use Rattle.std.specs.Prelude.{◌≡◌, ◌<◌, ◌⊎◌, Bool, true, false, List, [], ◌∷◌, ◌++◌, IfOk, OnOk, MatchOption, All};
ghost use Rattle.jj_paths.specs.Tree.{Tree};
ghost use Rattle.jj_paths.specs.Nodes.{node_at};
ghost use Rattle.jj_matchers.specs.VisitSpecs.{IsSound};
ghost use Rattle.jj_matchers.specs.SortedVisits.{sorted_visit_spec};
ghost use Rattle.jj_matchers.specs.Walk.{AreInOrder, files_of, entered_by, is_file, path_if};
ghost use Rattle.jj_matchers.specs.WalkInvariants.{DeterminesWalk, IsChildVisit, PushesFrame, IsValidFrame, WalkInvariant, walk_measure, with_left};

use crate::matchers::{Matcher, SortedVisit};
use jj_paths::repo_path::{RepoPathBuf, RepoPathComponentBuf};
use jj_paths::repo_path_tree::RepoPathTree;
use std::alloc::{AllocError, Global};

/// The result of a walk, both lists in path order. A walk of a tree copies the paths, one of a list
/// of marks borrows them.
#[derive(Drop)]
pub struct Walk<P = RepoPathBuf> {
    /// The marked paths that the matcher accepts.
    pub files: Vec<P>,
    /// The directories that were entered to find them.
    pub entered: Vec<P>,
}

// A stack frame: a directory that was entered, its visit, and its children not yet visited.
#[derive(Drop)]
struct Frame<'t> {
    dir: RepoPathBuf,
    visit: SortedVisit<'t>,
    left: &'t [(RepoPathComponentBuf, RepoPathTree<bool>)],
}

/// Returns the marked paths below the root that the matcher accepts, and the directories that were
/// entered to find them. Looks at each child of an entered directory once. Uses an explicit stack,
/// so a deep tree does not overflow the call stack.
pub fn walk_matching<M: Matcher>(
    alloc: Global,
    tree: &RepoPathTree<bool>,
    matcher: &M,
) -> Result<Walk, AllocError>
    // The files are the marked paths below the root that the matcher accepts, each once.
    ensures files { IfOk result (λ walk. walk.files.items
        ≡ files_of (M.accepts matcher.now) tree.now) }
    // The directories are exactly those that the visits lead to.
    ensures entered { IfOk result (λ walk. walk.entered.items
        ≡ entered_by (M.visits matcher.now) tree.now) }
    // Both lists are in path order.
    ensures ordered { IfOk result (λ walk. AreInOrder walk.files.items
        × AreInOrder walk.entered.items) }
    // Besides the root, only directories that the matcher opens were entered.
    ensures only_open { IfOk result (λ walk.
        All (λ dir. (dir ≡ []) ⊎ (M.opens matcher.now dir ≡ true)) walk.entered.items) }
{
    let mut walk = Walk {
        files: Vec::new(alloc),
        entered: Vec::new(alloc),
    };
    let mut stack = enter_root(alloc, tree, matcher, &mut walk)?;
    while let Some(directory) = stack.pop() {
        visit_next_child(alloc, directory, matcher, &mut walk, &mut stack)?;
    }
    Ok(walk)
}

// Enters the root, unless it has no children or its visit is `Nothing`.
fn enter_root<'t, M: Matcher>(
    alloc: Global,
    tree: &'t RepoPathTree<bool>,
    matcher: &'t M,
    walk: &mut Walk,
) -> Result<Vec<Frame<'t>>, AllocError>
    requires { (walk.old.files.items ≡ []) × (walk.old.entered.items ≡ []) }
    ensures { IfOk result (λ stack. WalkInvariant (M.accepts matcher.now) (M.opens matcher.now)
        (M.visits matcher.now) tree.now walk.new.files.items walk.new.entered.items
        stack.items) }
{
    let mut stack = Vec::new(alloc);
    if !tree.has_children() {
        return Ok(stack);
    }
    let root = RepoPathBuf::root(alloc);
    let visit = matcher.visit_sorted(alloc, root.as_path())?;
    enter(alloc, tree, root, visit, walk, &mut stack)?;
    Ok(stack)
}

// Visits the next child of a directory, as a file and as a directory.
fn visit_next_child<'t, M: Matcher>(
    alloc: Global,
    directory: Frame<'t>,
    matcher: &'t M,
    walk: &mut Walk,
    stack: &mut Vec<Frame<'t>>,
) -> Result<(), AllocError>
    requires { IsValidFrame (M.accepts matcher.now) (M.opens matcher.now)
        (M.visits matcher.now) directory }
    ensures on_the_way { OnOk result ((tree : Tree Bool) →
        WalkInvariant (M.accepts matcher.now) (M.opens matcher.now)
        (M.visits matcher.now) tree walk.old.files.items walk.old.entered.items
        (stack.old.items ++ directory.entry ∷ []) →
        WalkInvariant (M.accepts matcher.now) (M.opens matcher.now)
        (M.visits matcher.now) tree walk.new.files.items walk.new.entered.items
        stack.new.items) }
    ensures less_left { OnOk result (walk_measure stack.new.items < walk_measure
        (stack.old.items ++ directory.entry ∷ [])) }
{
    let Some((child, left)) = directory.left.split_first() else {
        return Ok(());
    };
    push_file(alloc, &directory, child, matcher, walk)?;
    let (name, sub) = child;
    if !sub.has_children() {
        return push_frame(stack, directory, left);
    }
    let Some((path, visit)) = child_visit(alloc, &directory, name, matcher)? else {
        return push_frame(stack, directory, left);
    };
    push_frame(stack, directory, left)?;
    enter(alloc, sub, path, visit, walk, stack)?;
    Ok(())
}

// Pushes a directory, with these children not yet visited.
fn push_frame<'t>(
    stack: &mut Vec<Frame<'t>>,
    directory: Frame<'t>,
    left: &'t [(RepoPathComponentBuf, RepoPathTree<bool>)],
) -> Result<(), AllocError>
    ensures { OnOk result (stack.new.items
        ≡ stack.old.items ++ with_left directory.entry left.entry ∷ []) }
{
    let mut frame = directory;
    frame.left = left;
    stack.push(frame)?;
    Ok(())
}

// Adds the child to the files, if it is marked and accepted.
fn push_file<'t, M: Matcher>(
    alloc: Global,
    directory: &Frame<'t>,
    child: &'t (RepoPathComponentBuf, RepoPathTree<bool>),
    matcher: &M,
    walk: &mut Walk,
) -> Result<(), AllocError>
    requires { IsSound (M.accepts matcher.now) (M.opens matcher.now) directory.now.dir
        (sorted_visit_spec directory.now.visit) }
    ensures files { OnOk result (walk.new.files.items ≡ walk.old.files.items
        ++ path_if (is_file (M.accepts matcher.now)
        (node_at (directory.now.dir ++ child.now.0 ∷ []) child.now.1))
        (directory.now.dir ++ child.now.0 ∷ [])) }
    ensures entered { OnOk result (walk.new.entered.items ≡ walk.old.entered.items) }
{
    let (name, sub) = child;
    if !*sub.value() {
        return Ok(());
    }
    let Some(path) = accepted_path(alloc, directory, name, matcher)? else {
        return Ok(());
    };
    walk.files.push(path)?;
    Ok(())
}

// Enters a directory, unless its visit is `Nothing`.
fn enter<'t>(
    alloc: Global,
    tree: &'t RepoPathTree<bool>,
    dir: RepoPathBuf,
    visit: SortedVisit<'t>,
    walk: &mut Walk,
    stack: &mut Vec<Frame<'t>>,
) -> Result<(), AllocError>
    ensures files { OnOk result (walk.new.files.items ≡ walk.old.files.items) }
    ensures entered { OnOk result (PushesFrame dir
        (sorted_visit_spec visit.entry) tree.now walk.old.entered.items walk.new.entered.items
        stack.old.items stack.new.items) }
{
    if visit.is_nothing() {
        return Ok(());
    }
    walk.entered.push(dir.as_path().to_owned(alloc)?)?;
    stack.push(Frame {
        dir,
        visit,
        left: tree.entries(),
    })?;
    Ok(())
}

// Returns the path of a child, if it is accepted. Joins the path only if the visit does not already
// exclude the child, and calls the matcher only for a file of a `Specific` visit.
fn accepted_path<'t, M: Matcher>(
    alloc: Global,
    directory: &Frame<'t>,
    name: &'t RepoPathComponentBuf,
    matcher: &M,
) -> Result<Option<RepoPathBuf>, AllocError>
    requires { IsSound (M.accepts matcher.now) (M.opens matcher.now) directory.now.dir
        (sorted_visit_spec directory.now.visit) }
    ensures { IfOk result (λ accepted. MatchOption accepted
        (M.accepts matcher.now (directory.now.dir ++ name.now ∷ []) ≡ false)
        (λ path. (path ≡ directory.now.dir ++ name.now ∷ [])
        × (M.accepts matcher.now (directory.now.dir ++ name.now ∷ []) ≡ true))) }
{
    match &directory.visit {
        SortedVisit::AllRecursively => Ok(Some(child_path(alloc, directory, name)?)),
        SortedVisit::Specific { dirs: _, files } => {
            if !files.contains(name.as_component()) {
                return Ok(None);
            }
            let path = child_path(alloc, directory, name)?;
            if matcher.matches(path.as_path()) {
                Ok(Some(path))
            } else {
                Ok(None)
            }
        }
        SortedVisit::Nothing => Ok(None),
    }
}

// Returns the path and the visit of a child, or `None` if no path below it is accepted. Calls the
// matcher only for a directory of a `Specific` visit.
fn child_visit<'t, M: Matcher>(
    alloc: Global,
    directory: &Frame<'t>,
    name: &'t RepoPathComponentBuf,
    matcher: &'t M,
) -> Result<Option<(RepoPathBuf, SortedVisit<'t>)>, AllocError>
    requires { DeterminesWalk (M.accepts matcher.now) (M.opens matcher.now)
        (M.visits matcher.now) directory.now.dir (sorted_visit_spec directory.now.visit) }
    ensures { IfOk result (IsChildVisit (M.accepts matcher.now) (M.opens matcher.now)
        (M.visits matcher.now) (directory.now.dir ++ name.now ∷ [])) }
{
    match &directory.visit {
        SortedVisit::AllRecursively => {
            let path = child_path(alloc, directory, name)?;
            Ok(Some((path, SortedVisit::AllRecursively)))
        }
        SortedVisit::Specific { dirs, files: _ } => {
            if !dirs.contains(name.as_component()) {
                return Ok(None);
            }
            let path = child_path(alloc, directory, name)?;
            let visit = matcher.visit_sorted(alloc, path.as_path())?;
            Ok(Some((path, visit)))
        }
        SortedVisit::Nothing => Ok(None),
    }
}

// Returns the path of a child.
fn child_path(
    alloc: Global,
    directory: &Frame<'_>,
    name: &RepoPathComponentBuf,
) -> Result<RepoPathBuf, AllocError>
    ensures { IfOk result (λ path. path ≡ directory.now.dir ++ name.now ∷ []) }
{
    directory.dir.as_path().join(alloc, name.as_component())
}
