//! Requests on matchers: the files that one accepts, its visits of directories, and walks with it.
//! The first field is the kind of matcher, its arguments follow; those of a union, a difference or
//! an intersection are two groups, a matcher each. The last group has the files, the directories or
//! the marked paths.
use crate::paths::{parse_path, parse_paths};
use crate::visits::put_visit;
use jj_globs::glob::GlobError;
use jj_matchers::matchers::{
    DifferenceMatcher, EverythingMatcher, FilesMatcher, GlobsMatcher, IntersectionMatcher, Matcher,
    NothingMatcher, PathGlobPattern, PrefixMatcher, UnionMatcher, marked_tree, walk_matching,
};
use jj_paths::repo_path::{RepoPath, RepoPathBuf};
use rows::request::{Fields, Request};
use rows::row_error::{RowError, agree};
use rows::values::Values;
use std::alloc::{AllocError, Global};

fn put_matches<M: Matcher>(
    alloc: Global,
    matcher: &M,
    files: &Fields,
    values: &mut Values,
) -> Result<(), RowError> {
    for index in 0..files.len() {
        values.flag(matcher.matches(parse_path(alloc, files.string(index))?));
    }
    Ok(())
}

fn put_visits<M: Matcher>(
    alloc: Global,
    matcher: &M,
    dirs: &Fields,
    values: &mut Values,
) -> Result<(), RowError> {
    for index in 0..dirs.len() {
        let visit = matcher.visit(alloc, parse_path(alloc, dirs.string(index))?)?;
        put_visit(alloc, &visit, values);
    }
    Ok(())
}

fn put_paths(paths: &[RepoPathBuf], values: &mut Values) {
    for path in paths {
        let path = path.as_path();
        values.string(if path.is_root() {
            "."
        } else {
            path.as_internal_file_string()
        });
    }
}

// Appends the files that a walk finds, and the directories that it enters.
fn put_walk<M: Matcher>(
    alloc: Global,
    matcher: &M,
    marks: &Fields,
    values: &mut Values,
) -> Result<(), RowError> {
    let tree = marked_tree(alloc, parse_paths(alloc, marks, 0)?.as_slice())?;
    let walk = walk_matching(alloc, &tree, matcher)?;
    put_paths(walk.files.as_slice(), values);
    values.word("|");
    put_paths(walk.entered.as_slice(), values);
    Ok(())
}

// Runs the request of this name on a matcher.
fn run<M: Matcher>(
    alloc: Global,
    name: &str,
    matcher: &M,
    subjects: &Fields,
    values: &mut Values,
) -> Result<(), RowError> {
    match name {
        "accepts" => put_matches(alloc, matcher, subjects, values),
        "visit" => put_visits(alloc, matcher, subjects, values),
        _ => put_walk(alloc, matcher, subjects, values),
    }
}

fn files_matcher(alloc: Global, fields: &Fields) -> Result<FilesMatcher, RowError> {
    let files = parse_paths(alloc, fields, 1)?;
    Ok(FilesMatcher::new(alloc, files.as_slice())?)
}

fn prefix_matcher(alloc: Global, fields: &Fields) -> Result<PrefixMatcher, RowError> {
    let prefixes = parse_paths(alloc, fields, 1)?;
    Ok(PrefixMatcher::new(alloc, prefixes.as_slice())?)
}

// Parses a glob, which ignores case if it begins with `(?i)`.
fn parse_glob(alloc: Global, text: &str) -> Result<Result<PathGlobPattern, GlobError>, RowError> {
    let parsed = match text.strip_prefix("(?i)") {
        Some(text) => PathGlobPattern::parse_i(alloc, text),
        None => PathGlobPattern::parse(alloc, text),
    };
    match parsed {
        Err(GlobError::Memory) => Err(RowError::Memory),
        parsed => Ok(parsed),
    }
}

// Splits a field into a directory and its glob, at the first colon.
fn split_pattern(field: &str) -> Result<(&str, &str), RowError> {
    match field.split_once(':') {
        Some(pattern) => Ok(pattern),
        None => Err(RowError::Unreadable("directory and glob")),
    }
}

fn parse_dirs(alloc: Global, fields: &Fields) -> Result<Vec<RepoPath<'_>>, RowError> {
    let mut dirs = Vec::new(alloc);
    for index in 1..fields.len() {
        let (dir, _) = split_pattern(fields.string(index))?;
        dirs.push(parse_path(alloc, dir)?)?;
    }
    Ok(dirs)
}

fn parse_globs(alloc: Global, fields: &Fields) -> Result<Vec<PathGlobPattern>, RowError> {
    let mut globs = Vec::new(alloc);
    for index in 1..fields.len() {
        let (_, text) = split_pattern(fields.string(index))?;
        match parse_glob(alloc, text)? {
            Ok(glob) => globs.push(glob)?,
            Err(_) => return Err(RowError::Unreadable("glob")),
        }
    }
    Ok(globs)
}

fn build_globs(
    alloc: Global,
    prefix_paths: bool,
    dirs: &[RepoPath<'_>],
    globs: &[PathGlobPattern],
) -> Result<GlobsMatcher, AllocError> {
    let mut builder = GlobsMatcher::builder(alloc).prefix_paths(prefix_paths);
    for (dir, glob) in dirs.iter().zip(globs) {
        builder.add(*dir, glob)?;
    }
    builder.build()
}

fn globs_matcher(
    alloc: Global,
    prefix_paths: bool,
    fields: &Fields,
) -> Result<GlobsMatcher, RowError> {
    let dirs = parse_dirs(alloc, fields)?;
    let globs = parse_globs(alloc, fields)?;
    let matcher = build_globs(alloc, prefix_paths, dirs.as_slice(), globs.as_slice())?;
    Ok(matcher)
}

// Runs the request of this name on the combination of two matchers.
fn run_combined<M: Matcher, N: Matcher>(
    alloc: Global,
    name: &str,
    first: M,
    second: N,
    request: &Request,
    values: &mut Values,
) -> Result<(), RowError> {
    let subjects = request.group(3);
    match request.group(0).string(0) {
        "union" => run(
            alloc,
            name,
            &UnionMatcher::new(first, second),
            subjects,
            values,
        ),
        "difference" => run(
            alloc,
            name,
            &DifferenceMatcher::new(first, second),
            subjects,
            values,
        ),
        _ => run(
            alloc,
            name,
            &IntersectionMatcher::new(first, second),
            subjects,
            values,
        ),
    }
}

// Runs the request on a combination of a matcher with that of the third group.
fn run_second<M: Matcher>(
    alloc: Global,
    name: &str,
    first: M,
    request: &Request,
    values: &mut Values,
) -> Result<(), RowError> {
    let fields = request.group(2);
    match fields.string(0) {
        "everything" => run_combined(alloc, name, first, EverythingMatcher, request, values),
        "nothing" => run_combined(alloc, name, first, NothingMatcher, request, values),
        "files" => {
            let second = files_matcher(alloc, fields)?;
            run_combined(alloc, name, first, second, request, values)
        }
        "prefix" => {
            let second = prefix_matcher(alloc, fields)?;
            run_combined(alloc, name, first, second, request, values)
        }
        kind => {
            let second = globs_matcher(alloc, kind == "prefix-globs", fields)?;
            run_combined(alloc, name, first, second, request, values)
        }
    }
}

// Runs the request on a combination of the matchers of the second and the third group.
fn run_first(
    alloc: Global,
    name: &str,
    request: &Request,
    values: &mut Values,
) -> Result<(), RowError> {
    let fields = request.group(1);
    match fields.string(0) {
        "everything" => run_second(alloc, name, EverythingMatcher, request, values),
        "nothing" => run_second(alloc, name, NothingMatcher, request, values),
        "files" => run_second(alloc, name, files_matcher(alloc, fields)?, request, values),
        "prefix" => run_second(alloc, name, prefix_matcher(alloc, fields)?, request, values),
        kind => {
            let first = globs_matcher(alloc, kind == "prefix-globs", fields)?;
            run_second(alloc, name, first, request, values)
        }
    }
}

// Runs the request of this name on a matcher of the kind in the first field.
fn run_kind(
    alloc: Global,
    name: &str,
    request: &Request,
    values: &mut Values,
) -> Result<(), RowError> {
    let fields = request.group(0);
    let subjects = request.group(1);
    match fields.string(0) {
        "everything" => run(alloc, name, &EverythingMatcher, subjects, values),
        "nothing" => run(alloc, name, &NothingMatcher, subjects, values),
        "files" => run(
            alloc,
            name,
            &files_matcher(alloc, fields)?,
            subjects,
            values,
        ),
        "prefix" => run(
            alloc,
            name,
            &prefix_matcher(alloc, fields)?,
            subjects,
            values,
        ),
        "globs" => run(
            alloc,
            name,
            &globs_matcher(alloc, false, fields)?,
            subjects,
            values,
        ),
        "prefix-globs" => run(
            alloc,
            name,
            &globs_matcher(alloc, true, fields)?,
            subjects,
            values,
        ),
        "union" | "difference" | "intersection" => run_first(alloc, name, request, values),
        _ => Err(RowError::Unreadable("kind of matcher")),
    }
}

// Builds a matcher of a clone of the builder after each pattern, a clone of the final matcher, and
// the final one without paths below a match.
fn build_each(
    alloc: Global,
    dirs: &[RepoPath<'_>],
    globs: &[PathGlobPattern],
) -> Result<Vec<GlobsMatcher>, AllocError> {
    let mut matchers = Vec::new(alloc);
    let mut builder = GlobsMatcher::builder(alloc).prefix_paths(true);
    for (dir, glob) in dirs.iter().zip(globs) {
        builder.add(*dir, glob)?;
        matchers.push(builder.clone()?.build()?)?;
    }
    matchers.push(builder.build()?.clone()?)?;
    matchers.push(builder.prefix_paths(false).build()?)?;
    Ok(matchers)
}

// Appends for each of these matchers and each file whether it accepts the file.
fn globs_builder(alloc: Global, request: &Request, values: &mut Values) -> Result<(), RowError> {
    let fields = request.group(0);
    let files = request.group(1);
    let dirs = parse_dirs(alloc, fields)?;
    let globs = parse_globs(alloc, fields)?;
    for matcher in &build_each(alloc, dirs.as_slice(), globs.as_slice())? {
        put_matches(alloc, matcher, files, values)?;
    }
    Ok(())
}

// Appends the regular expression and the debug form of a path's glob, or its error.
fn path_glob(alloc: Global, fields: &Fields, values: &mut Values) -> Result<(), RowError> {
    let text = fields.string(0);
    match parse_glob(alloc, text)? {
        Ok(glob) => {
            values.allocated(glob.as_regex(alloc));
            values.debug(&glob);
            let clone = glob.clone()?;
            agree(text.ends_with(clone.as_str()), "text of a clone")
        }
        Err(error) => {
            values.debug(&error);
            Ok(())
        }
    }
}

// Appends the debug forms of the matchers of no path and of every path.
fn debug_matchers(values: &mut Values) -> Result<(), RowError> {
    values.debug(&NothingMatcher);
    values.debug(&EverythingMatcher);
    let is_reflexive = NothingMatcher == NothingMatcher && EverythingMatcher == EverythingMatcher;
    agree(is_reflexive, "equality of matchers")
}

pub(crate) fn call(alloc: Global, name: &str, request: &Request, values: &mut Values) -> bool {
    let called = match name {
        "accepts" | "visit" | "walk" => run_kind(alloc, name, request, values),
        "globs-builder" => globs_builder(alloc, request, values),
        "path-glob" => path_glob(alloc, request.group(0), values),
        "debug-matchers" => debug_matchers(values),
        _ => return false,
    };
    values.record(called);
    true
}
