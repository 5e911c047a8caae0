//! Visits whose names are sorted and borrowed from a matcher, so that a lookup costs a logarithmic
//! number of comparisons whatever the names, and copies none.
ghost use Rattle.std.specs.Prelude.{◌≡◌, ◌↔◌, ◌&&◌, ◌||◌, Bool, List, IfOk, OnOk, IsTrue, map};
ghost use Rattle.std.specs.Str.{bytes_eq};
ghost use Rattle.jj_paths.specs.Names.{name_of};
ghost use Rattle.jj_paths.specs.Paths.{Name, Path};
ghost use Rattle.jj_matchers.specs.VisitSpecs.{IsSound, NamesAll, nothing};
ghost use Rattle.jj_matchers.specs.MentionedNames.{MentionsOnly, IsAllOrAmong};
ghost use Rattle.jj_matchers.specs.Visits.{visit_spec, dir_names, file_names, is_among, sets_spec};
ghost use Rattle.jj_matchers.specs.SortedVisits.{is_named, sorted_names, sorted_visit_spec};

use crate::matchers::{Visit, VisitDirs, VisitFiles};
use jj_paths::repo_path::{RepoPathComponent, RepoPathComponentBuf};
use std::alloc::{AllocError, Global};
use std::collections::{BTreeSet, HashSet};

/// A `Visit` with sorted names, borrowed from the matcher.
#[derive(Drop)]
pub enum SortedVisit<'a> {
    /// Every path below is in the set.
    AllRecursively,
    /// Children that are in the set are in `files`, and deeper paths in the set are below children
    /// in `dirs`.
    Specific {
        dirs: SortedNames<'a>,
        files: SortedNames<'a>,
    },
    /// No path below is in the set.
    Nothing,
}

/// The names of children to visit.
#[derive(Drop)]
pub enum SortedNames<'a> {
    All,
    Set(BTreeSet<RepoPathComponent<'a>>),
}

impl<'a> SortedVisit<'a> {
    /// Returns the visit of these children; `Nothing` if both sets are empty. It is sound for a
    /// matcher that accepts no other children, and no paths below other directories.
    pub fn sets(
        dirs: BTreeSet<RepoPathComponent<'a>>,
        files: BTreeSet<RepoPathComponent<'a>>,
    ) -> SortedVisit<'a>
        ensures visit { sorted_visit_spec result
            ≡ sets_spec (map name_of dirs.entry.keys) (map name_of files.entry.keys) }
        ensures sound { (accepts opens : Path → Bool) (dir : Path)
            → NamesAll accepts opens dir (is_named dirs.entry.keys) (is_named files.entry.keys)
            → IsSound accepts opens dir (sorted_visit_spec result) }
        ensures names { (names : List Name) → IsAllOrAmong names (is_named dirs.entry.keys)
            → IsAllOrAmong names (is_named files.entry.keys)
            → MentionsOnly names (sorted_visit_spec result) }
    {
        if dirs.is_empty() && files.is_empty() {
            SortedVisit::Nothing
        } else {
            SortedVisit::Specific {
                dirs: SortedNames::Set(dirs),
                files: SortedNames::Set(files),
            }
        }
    }

    /// Returns whether the visit is `Nothing`.
    pub fn is_nothing(&self) -> bool
        ensures { IsTrue result ↔ (sorted_visit_spec self.now ≡ nothing) }
    {
        matches!(self, SortedVisit::Nothing)
    }

    /// Returns the visit with hashed and owned names.
    pub fn to_visit(&self, alloc: Global) -> Result<Visit, AllocError>
        ensures { IfOk result (λ visit. visit_spec visit ≡ sorted_visit_spec self.now) }
    {
        match self {
            SortedVisit::AllRecursively => Ok(Visit::AllRecursively),
            SortedVisit::Specific { dirs, files } => Ok(Visit::Specific {
                dirs: visit_dirs(alloc, dirs)?,
                files: visit_files(alloc, files)?,
            }),
            SortedVisit::Nothing => Ok(Visit::Nothing),
        }
    }
}

impl<'a> SortedNames<'a> {
    /// Returns whether the child is to be visited. O(log n) comparisons for n names.
    pub fn contains(&self, name: RepoPathComponent<'a>) -> bool
        ensures { result ≡ sorted_names self.now (name_of name.entry) }
    {
        match self {
            SortedNames::All => true,
            SortedNames::Set(names) => names.contains(&name),
        }
    }
}

fn visit_dirs(alloc: Global, names: &SortedNames<'_>) -> Result<VisitDirs, AllocError>
    ensures { IfOk result (λ dirs. dir_names dirs ≡ sorted_names names.now) }
{
    match names {
        SortedNames::All => Ok(VisitDirs::All),
        SortedNames::Set(names) => Ok(VisitDirs::Set(owned_names(alloc, names)?)),
    }
}

fn visit_files(alloc: Global, names: &SortedNames<'_>) -> Result<VisitFiles, AllocError>
    ensures { IfOk result (λ files. file_names files ≡ sorted_names names.now) }
{
    match names {
        SortedNames::All => Ok(VisitFiles::All),
        SortedNames::Set(names) => Ok(VisitFiles::Set(owned_names(alloc, names)?)),
    }
}

fn owned_names(
    alloc: Global,
    names: &BTreeSet<RepoPathComponent<'_>>,
) -> Result<HashSet<RepoPathComponentBuf>, AllocError>
    ensures { IfOk result (λ owned. (name : Name)
        → is_among owned.keys name ≡ is_named names.now.keys name) }
{
    let mut owned = HashSet::new(alloc);
    for &name in names {
        owned.insert(name.to_owned(alloc)?)?;
    }
    Ok(owned)
}

/// Adds a name to a set, if the condition is true.
pub fn insert_if<'a>(
    names: &mut BTreeSet<RepoPathComponent<'a>>,
    name: RepoPathComponent<'a>,
    condition: bool,
) -> Result<(), AllocError>
    ensures { OnOk result ((other : Name) → is_named names.new.keys other
        ≡ (bytes_eq other (name_of name.entry) && condition || is_named names.old.keys other)) }
{
    if condition {
        names.insert(name)?;
    }
    Ok(())
}
