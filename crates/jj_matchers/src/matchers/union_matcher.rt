//! The matcher of the union of two sets.
ghost use Rattle.std.specs.Prelude.{◌≡◌, ◌||◌, ◌++◌, IfOk};
ghost use Rattle.jj_paths.specs.Paths.{Name};
ghost use Rattle.jj_matchers.specs.Combined.{union_spec};
ghost use Rattle.jj_matchers.specs.SortedVisits.{is_named, sorted_names, sorted_visit_spec};

use crate::matchers::sorted_visits::insert_if;
use crate::matchers::{Matcher, SortedNames, SortedVisit};
use jj_paths::repo_path::{RepoPath, RepoPathComponent};
use std::alloc::{AllocError, Global};
use std::collections::BTreeSet;

/// The paths that are in at least one of two sets.
#[derive(Clone, Debug, Drop)]
pub struct UnionMatcher<M1, M2> {
    input1: M1,
    input2: M2,
}

impl<M1: Matcher, M2: Matcher> UnionMatcher<M1, M2> {
    /// Returns the union of two sets.
    pub fn new(input1: M1, input2: M2) -> Self
        ensures first { result.input1 ≡ input1 }
        ensures second { result.input2 ≡ input2 }
    {
        UnionMatcher { input1, input2 }
    }
}

impl<M1: Matcher, M2: Matcher> Matcher for UnionMatcher<M1, M2> {
    ghost accepts = { λ m path. M1.accepts m.input1 path || M2.accepts m.input2 path };

    ghost opens = { λ m path. M1.opens m.input1 path || M2.opens m.input2 path };

    ghost visits = { λ m dir. union_spec (M1.visits m.input1 dir) (M2.visits m.input2 dir) };

    ghost mentioned = { λ m dir. M1.mentioned m.input1 dir ++ M2.mentioned m.input2 dir };

    fn matches(&self, file: RepoPath<'_>) -> bool {
        self.input1.matches(file) || self.input2.matches(file)
    }

    fn visit_sorted(
        &self,
        alloc: Global,
        dir: RepoPath<'_>,
    ) -> Result<SortedVisit<'_>, AllocError> {
        let first = self.input1.visit_sorted(alloc, dir)?;
        if matches!(first, SortedVisit::AllRecursively) {
            return Ok(first);
        }
        let second = self.input2.visit_sorted(alloc, dir)?;
        union_visit(first, second)
    }
}

/// Returns the union of two visits. Folded over the visits of many matchers, it computes the visit
/// of their union without nested matchers.
pub fn union_visit<'a>(
    first: SortedVisit<'a>,
    second: SortedVisit<'a>,
) -> Result<SortedVisit<'a>, AllocError>
    // The visit is the union of both: it mentions the names of either.
    ensures { IfOk result (λ visit. sorted_visit_spec visit
        ≡ union_spec (sorted_visit_spec first.entry) (sorted_visit_spec second.entry)) }
{
    match first {
        SortedVisit::AllRecursively => Ok(SortedVisit::AllRecursively),
        SortedVisit::Nothing => Ok(second),
        SortedVisit::Specific { dirs, files } => match second {
            SortedVisit::AllRecursively => Ok(SortedVisit::AllRecursively),
            SortedVisit::Nothing => Ok(SortedVisit::Specific { dirs, files }),
            SortedVisit::Specific {
                dirs: more_dirs,
                files: more_files,
            } => Ok(SortedVisit::Specific {
                dirs: union_names(dirs, more_dirs)?,
                files: union_names(files, more_files)?,
            }),
        },
    }
}

fn union_names<'a>(
    first: SortedNames<'a>,
    second: SortedNames<'a>,
) -> Result<SortedNames<'a>, AllocError>
    ensures { IfOk result (λ names. (name : Name)
        → sorted_names names name
        ≡ (sorted_names first.entry name || sorted_names second.entry name)) }
{
    match first {
        SortedNames::All => Ok(SortedNames::All),
        SortedNames::Set(names) => match second {
            SortedNames::All => Ok(SortedNames::All),
            SortedNames::Set(more) => Ok(SortedNames::Set(union_sets(names, more)?)),
        },
    }
}

// Moves the names of the smaller set to the larger one.
fn union_sets<'a>(
    first: BTreeSet<RepoPathComponent<'a>>,
    second: BTreeSet<RepoPathComponent<'a>>,
) -> Result<BTreeSet<RepoPathComponent<'a>>, AllocError>
    ensures { IfOk result (λ names. (name : Name)
        → is_named names.keys name
        ≡ (is_named first.entry.keys name || is_named second.entry.keys name)) }
{
    if first.len() < second.len() {
        insert_names(second, first)
    } else {
        insert_names(first, second)
    }
}

fn insert_names<'a>(
    names: BTreeSet<RepoPathComponent<'a>>,
    more: BTreeSet<RepoPathComponent<'a>>,
) -> Result<BTreeSet<RepoPathComponent<'a>>, AllocError>
    ensures { IfOk result (λ all. (name : Name)
        → is_named all.keys name
        ≡ (is_named names.entry.keys name || is_named more.entry.keys name)) }
{
    let mut all = names;
    for name in more {
        insert_if(&mut all, name, true)?;
    }
    Ok(all)
}
