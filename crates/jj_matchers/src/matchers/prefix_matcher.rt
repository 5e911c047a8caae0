//! The matcher of all paths at or below a list of prefixes, as a tree of marked paths.
ghost use Rattle.std.specs.Prelude.{◌≡◌, ◌↔◌, ◌||◌, true, Any, IfOk, map};
ghost use Rattle.jj_paths.specs.Paths.{Path, IsBelow};
ghost use Rattle.jj_paths.specs.Names.{path_of};
ghost use Rattle.jj_matchers.specs.MentionedNames.{names_of};
ghost use Rattle.jj_matchers.specs.SortedVisits.{sorted_visit_spec};
ghost use Rattle.jj_matchers.specs.PathLists.{HasSamePaths, has_prefix, leads_to_prefix, prefix_spec};

use crate::matchers::children_visit::visit_children;
use crate::matchers::{Matcher, SortedVisit, marked_tree};
use jj_paths::repo_path::RepoPath;
use jj_paths::repo_path_tree::RepoPathTree;
use std::alloc::{AllocError, Global};
use std::marker::Model;

/// The paths at or below a prefix. Contracts model the prefixes as a list of paths in unspecified
/// order.
#[derive(Debug, Drop)]
pub struct PrefixMatcher {
    tree: RepoPathTree<bool>,
}

impl Model for PrefixMatcher {
    ghost use Rattle.std.specs.Prelude.{List};
    ghost use Rattle.jj_paths.specs.Paths.{Path};
    ghost use Rattle.jj_matchers.specs.Marks.{marked_paths, LeadsToMarks};

    ghost Value = { List Path };

    ghost view = { λ m. marked_paths m.tree };

    ghost invariant = { λ m. LeadsToMarks m.tree };
}

impl PrefixMatcher {
    /// Returns the matcher of all paths at or below one of the prefixes. The prefixes may be in any
    /// order and repeat.
    pub fn new(alloc: Global, prefixes: &[RepoPath<'_>]) -> Result<PrefixMatcher, AllocError>
        ensures same { IfOk result (λ matcher. HasSamePaths matcher (map path_of prefixes.now)) }
        ensures accepts { IfOk result (λ matcher. (path : Path) → (has_prefix matcher path ≡ true)
            ↔ Any (IsBelow path) (map path_of prefixes.now)) }
    {
        Ok(PrefixMatcher {
            tree: marked_tree(alloc, prefixes)?,
        })
    }

    // Returns the visit of the children in the tree.
    fn compute_visit(&self, alloc: Global, dir: RepoPath<'_>) -> Result<SortedVisit<'_>, AllocError>
        ensures { IfOk result (λ visit. sorted_visit_spec visit
            ≡ prefix_spec self.now (path_of dir.entry)) }
    {
        if self.matches(dir) {
            return Ok(SortedVisit::AllRecursively);
        }
        match self.tree.get(dir) {
            Some(node) => visit_children(alloc, node, true),
            None => Ok(SortedVisit::Nothing),
        }
    }
}

impl Matcher for PrefixMatcher {
    ghost accepts = { has_prefix };

    ghost opens = { λ prefixes path. has_prefix prefixes path || leads_to_prefix prefixes path };

    ghost visits = { prefix_spec };

    ghost mentioned = { λ prefixes dir. names_of prefixes };

    fn matches(&self, file: RepoPath<'_>) -> bool {
        self.tree.walk_to(file).any(|(node, _)| *node.value())
    }

    fn visit_sorted(
        &self,
        alloc: Global,
        dir: RepoPath<'_>,
    ) -> Result<SortedVisit<'_>, AllocError> {
        self.compute_visit(alloc, dir)
    }
}
