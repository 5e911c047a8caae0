//! The matcher of an explicit list of files, as a tree of marked paths.
ghost use Rattle.std.specs.Prelude.{◌≡◌, ◌↔◌, true, Contains, IfOk, map};
ghost use Rattle.jj_paths.specs.Paths.{Path};
ghost use Rattle.jj_paths.specs.Names.{path_of};
ghost use Rattle.jj_matchers.specs.MentionedNames.{names_of};
ghost use Rattle.jj_matchers.specs.SortedVisits.{sorted_visit_spec};
ghost use Rattle.jj_matchers.specs.PathLists.{HasSamePaths, is_listed, leads_to_listed, files_spec};

use crate::matchers::children_visit::visit_children;
use crate::matchers::{Matcher, SortedVisit, marked_tree};
use jj_paths::repo_path::RepoPath;
use jj_paths::repo_path_tree::RepoPathTree;
use std::alloc::{AllocError, Global};
use std::marker::Model;

/// A finite set of files. Contracts model it as a list of paths in unspecified order.
#[derive(Debug, Drop)]
pub struct FilesMatcher {
    tree: RepoPathTree<bool>,
}

impl Model for FilesMatcher {
    ghost use Rattle.std.specs.Prelude.{List};
    ghost use Rattle.jj_paths.specs.Paths.{Path};
    ghost use Rattle.jj_matchers.specs.Marks.{marked_paths, LeadsToMarks};

    ghost Value = { List Path };

    ghost view = { λ m. marked_paths m.tree };

    ghost invariant = { λ m. LeadsToMarks m.tree };
}

impl FilesMatcher {
    /// Returns the matcher of exactly these files, in any order and with repetitions.
    pub fn new(alloc: Global, files: &[RepoPath<'_>]) -> Result<FilesMatcher, AllocError>
        ensures same { IfOk result (λ matcher. HasSamePaths matcher (map path_of files.now)) }
        ensures accepts { IfOk result (λ matcher. (path : Path) → (is_listed matcher path ≡ true)
            ↔ Contains (map path_of files.now) path) }
    {
        Ok(FilesMatcher {
            tree: marked_tree(alloc, files)?,
        })
    }

    // Returns the visit of the children in the tree.
    fn compute_visit(&self, alloc: Global, dir: RepoPath<'_>) -> Result<SortedVisit<'_>, AllocError>
        ensures { IfOk result (λ visit. sorted_visit_spec visit
            ≡ files_spec self.now (path_of dir.entry)) }
    {
        match self.tree.get(dir) {
            Some(node) => visit_children(alloc, node, false),
            None => Ok(SortedVisit::Nothing),
        }
    }
}

impl Matcher for FilesMatcher {
    ghost accepts = { is_listed };

    ghost opens = { leads_to_listed };

    ghost visits = { files_spec };

    ghost mentioned = { λ files dir. names_of files };

    fn matches(&self, file: RepoPath<'_>) -> bool {
        match self.tree.get(file) {
            Some(node) => *node.value(),
            None => false,
        }
    }

    fn visit_sorted(
        &self,
        alloc: Global,
        dir: RepoPath<'_>,
    ) -> Result<SortedVisit<'_>, AllocError> {
        self.compute_visit(alloc, dir)
    }
}
