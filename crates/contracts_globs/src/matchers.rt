//! Callers of `jj_matchers`.
ghost use Rattle.std.specs.Prelude.{◌≡◌, ◌↔◌, true, IfOk, map};
ghost use Rattle.jj_paths.specs.Names.{path_of};
ghost use Rattle.jj_paths.specs.Paths.{Path};
ghost use Rattle.jj_matchers.specs.Combined.{difference_spec};
ghost use Rattle.jj_matchers.specs.MarkWalk.{WalksMarks};
ghost use Rattle.jj_matchers.specs.PathLists.{files_spec, prefix_spec};
ghost use Rattle.jj_matchers.specs.Patterns.{IsAccepted, is_accepted};
ghost use Rattle.jj_matchers.specs.SortedVisits.{sorted_visit_spec};
ghost use Rattle.jj_matchers.specs.Visits.{visit_spec};
ghost use Rattle.jj_matchers.specs.Walk.{entered_by, files_of};

use jj_matchers::matchers::{
    self, EverythingMatcher, FilesMatcher, GlobsMatcher, GlobsMatcherBuilder, Matcher,
    PrefixMatcher, SortedVisit, Visit, VisitDirs, VisitFiles, Walk,
};
use jj_paths::repo_path::RepoPath;
use jj_paths::repo_path_tree::RepoPathTree;
use std::alloc::{AllocError, Global};

/// `difference_visit`.
pub fn difference_visit<'a>(wanted: SortedVisit<'a>, unwanted: SortedVisit<'a>) -> SortedVisit<'a>
    ensures { sorted_visit_spec result
        ≡ difference_spec (sorted_visit_spec wanted.entry) (sorted_visit_spec unwanted.entry) }
{
    matchers::difference_visit(wanted, unwanted)
}

/// `Matcher::visit` of `PrefixMatcher`.
pub fn prefix_visit(
    alloc: Global,
    prefixes: &PrefixMatcher,
    dir: RepoPath<'_>,
) -> Result<Visit, AllocError>
    ensures { IfOk result (λ visit. visit_spec visit
        ≡ prefix_spec prefixes.now (path_of dir.entry)) }
{
    prefixes.visit(alloc, dir)
}

/// `Matcher::visit` of `FilesMatcher`.
pub fn files_visit(
    alloc: Global,
    files: &FilesMatcher,
    dir: RepoPath<'_>,
) -> Result<Visit, AllocError>
    ensures { IfOk result (λ visit. visit_spec visit ≡ files_spec files.now (path_of dir.entry)) }
{
    files.visit(alloc, dir)
}

/// `GlobsMatcherBuilder::build`.
pub fn build(alloc: Global, builder: &GlobsMatcherBuilder<'_>) -> Result<GlobsMatcher, AllocError>
    ensures { IfOk result (λ matcher. (path : Path) → (is_accepted matcher path ≡ true)
        ↔ IsAccepted builder.now path) }
{
    let _alloc = alloc;
    builder.build()
}

/// `walk_matching`.
pub fn walk_matching<M: Matcher>(
    alloc: Global,
    tree: &RepoPathTree<bool>,
    matcher: &M,
) -> Result<Walk, AllocError>
    ensures files { IfOk result (λ walk. walk.files.items
        ≡ files_of (M.accepts matcher.now) tree.now) }
    ensures entered { IfOk result (λ walk. walk.entered.items
        ≡ entered_by (M.visits matcher.now) tree.now) }
{
    let walk = matchers::walk_matching(alloc, tree, matcher)?;
    Ok(walk)
}

/// `walk_marks`.
pub fn walk_marks<'t, M: Matcher>(
    alloc: Global,
    marks: &[RepoPath<'t>],
    matcher: &M,
) -> Result<Walk<RepoPath<'t>>, AllocError>
    ensures { IfOk result (λ walk. WalksMarks (M.accepts matcher.now) (M.visits matcher.now)
        (map path_of marks.now) (map path_of walk.files.items) (map path_of walk.entered.items)) }
{
    matchers::walk_marks(alloc, marks, matcher)
}
