//! The matcher of the intersection of two sets.
ghost use Rattle.std.specs.Prelude.{◌≡◌, ◌&&◌, ◌++◌, IfOk, List};
ghost use Rattle.jj_paths.specs.Paths.{Name};
ghost use Rattle.jj_matchers.specs.Combined.{intersection_spec, spec_of_names};
ghost use Rattle.jj_matchers.specs.MentionedNames.{MentionsOnly, IsAllOrAmong};
ghost use Rattle.jj_matchers.specs.SortedVisits.{is_named, sorted_names, sorted_visit_spec};

use crate::matchers::sorted_visits::insert_if;
use crate::matchers::{Matcher, SortedNames, SortedVisit};
use jj_paths::repo_path::{RepoPath, RepoPathComponent};
use std::alloc::{AllocError, Global};
use std::collections::BTreeSet;

/// The paths that are in both sets.
#[derive(Clone, Debug, Drop)]
pub struct IntersectionMatcher<M1, M2> {
    input1: M1,
    input2: M2,
}

impl<M1: Matcher, M2: Matcher> IntersectionMatcher<M1, M2> {
    /// Returns the intersection of two sets.
    pub fn new(input1: M1, input2: M2) -> Self
        ensures first { result.input1 ≡ input1 }
        ensures second { result.input2 ≡ input2 }
    {
        IntersectionMatcher { input1, input2 }
    }
}

impl<M1: Matcher, M2: Matcher> Matcher for IntersectionMatcher<M1, M2> {
    ghost accepts = { λ m path. M1.accepts m.input1 path && M2.accepts m.input2 path };

    ghost opens = { λ m path. M1.opens m.input1 path && M2.opens m.input2 path };

    ghost visits = { λ m dir. intersection_spec
        (M1.mentioned m.input1 dir ++ M2.mentioned m.input2 dir) (M1.visits m.input1 dir)
        (M2.visits m.input2 dir) };

    ghost mentioned = { λ m dir. M1.mentioned m.input1 dir ++ M2.mentioned m.input2 dir };

    fn matches(&self, file: RepoPath<'_>) -> bool {
        self.input1.matches(file) && self.input2.matches(file)
    }

    fn visit_sorted(
        &self,
        alloc: Global,
        dir: RepoPath<'_>,
    ) -> Result<SortedVisit<'_>, AllocError> {
        let first = self.input1.visit_sorted(alloc, dir)?;
        if matches!(first, SortedVisit::Nothing) {
            return Ok(first);
        }
        let second = self.input2.visit_sorted(alloc, dir)?;
        intersection_visit(alloc, first, second)
    }
}

/// Returns the intersection of two visits: `Nothing` if they are specific and share no name.
pub fn intersection_visit<'a>(
    alloc: Global,
    first: SortedVisit<'a>,
    second: SortedVisit<'a>,
) -> Result<SortedVisit<'a>, AllocError>
    // The visit is the intersection of both: it mentions the names of both.
    ensures { IfOk result (λ visit. (names : List Name)
        → MentionsOnly names (sorted_visit_spec first.entry)
        → MentionsOnly names (sorted_visit_spec second.entry)
        → sorted_visit_spec visit ≡ intersection_spec names (sorted_visit_spec first.entry)
        (sorted_visit_spec second.entry)) }
{
    match first {
        SortedVisit::AllRecursively => Ok(second),
        SortedVisit::Nothing => Ok(SortedVisit::Nothing),
        SortedVisit::Specific { dirs, files } => match second {
            SortedVisit::AllRecursively => Ok(SortedVisit::Specific { dirs, files }),
            SortedVisit::Nothing => Ok(SortedVisit::Nothing),
            SortedVisit::Specific {
                dirs: other_dirs,
                files: other_files,
            } => Ok(visit_of_names(
                intersection_names(alloc, dirs, other_dirs)?,
                intersection_names(alloc, files, other_files)?,
            )),
        },
    }
}

// Returns the visit of these names, and `Nothing` if both sets are empty.
fn visit_of_names<'a>(dirs: SortedNames<'a>, files: SortedNames<'a>) -> SortedVisit<'a>
    ensures { (names : List Name) → IsAllOrAmong names (sorted_names dirs.entry)
        → IsAllOrAmong names (sorted_names files.entry) → sorted_visit_spec result
        ≡ spec_of_names names (sorted_names dirs.entry) (sorted_names files.entry) }
{
    match dirs {
        SortedNames::All => SortedVisit::Specific {
            dirs: SortedNames::All,
            files,
        },
        SortedNames::Set(dirs) => match files {
            SortedNames::All => SortedVisit::Specific {
                dirs: SortedNames::Set(dirs),
                files: SortedNames::All,
            },
            SortedNames::Set(files) => SortedVisit::sets(dirs, files),
        },
    }
}

fn intersection_names<'a>(
    alloc: Global,
    first: SortedNames<'a>,
    second: SortedNames<'a>,
) -> Result<SortedNames<'a>, AllocError>
    ensures { IfOk result (λ names. (name : Name) → sorted_names names name
        ≡ (sorted_names first.entry name && sorted_names second.entry name)) }
{
    match first {
        SortedNames::All => Ok(second),
        SortedNames::Set(names) => match second {
            SortedNames::All => Ok(SortedNames::Set(names)),
            SortedNames::Set(others) => {
                Ok(SortedNames::Set(intersection_sets(alloc, names, others)?))
            }
        },
    }
}

// Keeps the names of the smaller set that the larger one has.
fn intersection_sets<'a>(
    alloc: Global,
    first: BTreeSet<RepoPathComponent<'a>>,
    second: BTreeSet<RepoPathComponent<'a>>,
) -> Result<BTreeSet<RepoPathComponent<'a>>, AllocError>
    ensures { IfOk result (λ common. (name : Name) → is_named common.keys name
        ≡ (is_named first.entry.keys name && is_named second.entry.keys name)) }
{
    if second.len() < first.len() {
        common_names(alloc, second, first)
    } else {
        common_names(alloc, first, second)
    }
}

fn common_names<'a>(
    alloc: Global,
    names: BTreeSet<RepoPathComponent<'a>>,
    others: BTreeSet<RepoPathComponent<'a>>,
) -> Result<BTreeSet<RepoPathComponent<'a>>, AllocError>
    ensures { IfOk result (λ common. (name : Name) → is_named common.keys name
        ≡ (is_named names.entry.keys name && is_named others.entry.keys name)) }
{
    let mut common = BTreeSet::new(alloc);
    for name in names {
        insert_if(&mut common, name, others.contains(&name))?;
    }
    Ok(common)
}
