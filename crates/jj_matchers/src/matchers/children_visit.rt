//! The visit of a node in a tree of marked paths.
ghost use Rattle.std.specs.Prelude.{◌≡◌, IfOk};
ghost use Rattle.jj_matchers.specs.Marks.{children_spec, counts_as_dir, has_mark};
ghost use Rattle.jj_matchers.specs.SortedVisits.{sorted_visit_spec};

use crate::matchers::SortedVisit;
use crate::matchers::sorted_visits::insert_if;
use jj_paths::repo_path_tree::RepoPathTree;
use std::alloc::{AllocError, Global};
use std::collections::BTreeSet;

/// Returns the visit of the marked children as files, and of the children with children of their
/// own (with `all_dirs`: of all children) as directories.
pub fn visit_children(
    alloc: Global,
    tree: &RepoPathTree<bool>,
    all_dirs: bool,
) -> Result<SortedVisit<'_>, AllocError>
    ensures { IfOk result (λ visit. sorted_visit_spec visit
        ≡ children_spec (counts_as_dir all_dirs) has_mark tree.now.branches) }
{
    let mut dirs = BTreeSet::new(alloc);
    let mut files = BTreeSet::new(alloc);
    for (name, child) in tree.children() {
        insert_if(&mut dirs, name, counts_as_dir(child, all_dirs))?;
        insert_if(&mut files, name, *child.value())?;
    }
    Ok(SortedVisit::sets(dirs, files))
}

fn counts_as_dir(child: &RepoPathTree<bool>, all_dirs: bool) -> bool
    ensures { result ≡ counts_as_dir all_dirs child.now }
{
    all_dirs || child.has_children()
}
