//! Tests of walks with combined and with boxed matchers.
use crate::fixtures::{check_walk, file, glob, prefix};
use jj_content_tests::retry::{Passed, passes};
use jj_matchers::matchers::{
    DifferenceMatcher, EverythingMatcher, IntersectionMatcher, Matcher, PrefixMatcher, SortedVisit,
    UnionMatcher,
};
use jj_paths::repo_path::RepoPath;
use std::alloc::{AllocError, Global};
use std::process::Abort;
use std::test::Fail;

static FILES_BELOW: [&str; 2] = ["a/x", "a/y/z"];

static ENTERED_BELOW: [&str; 3] = ["", "a", "a/y"];

fn walks_intersection<R: Abort>(rt: &R, alloc: Global) -> Passed {
    let matcher = IntersectionMatcher::new(prefix(rt, alloc, "a")?, glob(rt, alloc, "a", "*")?);
    check_walk(rt, alloc, &matcher, &FILES_BELOW, &["a/x"], &ENTERED_BELOW)
}

fn all_but_a<R: Abort>(
    rt: &R,
    alloc: Global,
) -> Result<DifferenceMatcher<EverythingMatcher, PrefixMatcher>, AllocError> {
    Ok(DifferenceMatcher::new(EverythingMatcher, prefix(rt, alloc, "a")?))
}

static MARKS: [&str; 5] = ["c", "b/x", "a/out", "a/in", "a/d/e"];

static FILES: [&str; 3] = ["a/in", "b/x", "c"];

static ENTERED: [&str; 3] = ["", "a", "b"];

// Checks a matcher of all paths that are not at or below `a`, and of `a/in`.
fn walks_around<R: Abort, M: Matcher>(rt: &R, alloc: Global, matcher: &M) -> Passed {
    check_walk(rt, alloc, matcher, &MARKS, &FILES, &ENTERED)
}

fn walks_union<R: Abort>(rt: &R, alloc: Global) -> Passed {
    let union = UnionMatcher::new(all_but_a(rt, alloc)?, file(rt, alloc, "a/in")?);
    check_walk(rt, alloc, &&union, &MARKS, &FILES, &ENTERED)
}

fn walks_box_in_union<R: Abort>(rt: &R, alloc: Global) -> Passed {
    let inner: Box<dyn Matcher> = Box::new(alloc, all_but_a(rt, alloc)?)?;
    walks_around(
        rt,
        alloc,
        &UnionMatcher::new(inner, file(rt, alloc, "a/in")?),
    )
}

fn walks_boxed_union<R: Abort>(rt: &R, alloc: Global) -> Passed {
    let union = UnionMatcher::new(all_but_a(rt, alloc)?, file(rt, alloc, "a/in")?);
    let outer: Box<dyn Matcher> = Box::new(alloc, union)?;
    walks_around(rt, alloc, &outer)
}

// A matcher that delegates to a boxed matcher of a known type.
#[derive(Drop)]
struct Boxed<M> {
    matcher: Box<M>,
}

impl<M: Matcher> Matcher for Boxed<M> {
    ghost accepts = { λ b. M.accepts b.matcher.value };

    ghost opens = { λ b. M.opens b.matcher.value };

    ghost visits = { λ b. M.visits b.matcher.value };

    ghost mentioned = { λ b. M.mentioned b.matcher.value };

    fn matches(&self, file: RepoPath<'_>) -> bool {
        self.matcher.matches(file)
    }

    fn visit_sorted(
        &self,
        alloc: Global,
        dir: RepoPath<'_>,
    ) -> Result<SortedVisit<'_>, AllocError> {
        self.matcher.visit_sorted(alloc, dir)
    }
}

fn walks_box_in_boxed_union<R: Abort>(rt: &R, alloc: Global) -> Passed {
    let inner = Boxed {
        matcher: Box::new(alloc, all_but_a(rt, alloc)?)?,
    };
    let union = UnionMatcher::new(inner, file(rt, alloc, "a/in")?);
    let outer: Box<dyn Matcher> = Box::new(alloc, union)?;
    walks_around(rt, alloc, &outer)
}

#[test]
fn combined_and_boxed(rt: HostRuntime) -> Result<(), Fail> {
    passes(&rt, walks_intersection)?;
    passes(&rt, walks_union)?;
    passes(&rt, walks_box_in_union)?;
    passes(&rt, walks_boxed_union)?;
    passes(&rt, walks_box_in_boxed_union)
}
