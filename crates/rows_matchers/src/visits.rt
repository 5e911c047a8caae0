//! Requests on visits. A visit is one field: `**` (everything below), `-` (nothing below), or the
//! children to visit as directories, a blank, and those to visit as files. `*` is every child, `-`
//! none, else their names are joined by `/`.
use crate::paths::{join_names, parse_names, parse_sorted_names};
use jj_matchers::matchers::{
    SortedNames, SortedVisit, Visit, VisitDirs, VisitFiles, difference_visit, intersection_visit,
    union_visit,
};
use rows::request::{Fields, Request};
use rows::row_error::{RowError, agree};
use rows::values::Values;
use std::alloc::{AllocError, Global};

fn parse_children(alloc: Global, names: &str) -> Result<SortedNames<'_>, RowError> {
    if names == "*" {
        return Ok(SortedNames::All);
    }
    Ok(SortedNames::Set(parse_sorted_names(alloc, names)?))
}

fn parse_specific<'a>(
    alloc: Global,
    dirs: &'a str,
    files: &'a str,
) -> Result<SortedVisit<'a>, RowError> {
    let dirs = parse_children(alloc, dirs)?;
    Ok(SortedVisit::Specific {
        dirs,
        files: parse_children(alloc, files)?,
    })
}

fn parse_visit(alloc: Global, field: &str) -> Result<SortedVisit<'_>, RowError> {
    match field.split_once(' ') {
        Some((dirs, files)) => parse_specific(alloc, dirs, files),
        None => match field {
            "**" => Ok(SortedVisit::AllRecursively),
            "-" => Ok(SortedVisit::Nothing),
            _ => Err(RowError::Unreadable("visit")),
        },
    }
}

fn format_dirs(alloc: Global, dirs: &VisitDirs) -> Result<String, AllocError> {
    match dirs {
        VisitDirs::All => String::from_str(alloc, "*"),
        VisitDirs::Set(names) => join_names(alloc, names),
    }
}

fn format_files(alloc: Global, files: &VisitFiles) -> Result<String, AllocError> {
    match files {
        VisitFiles::All => String::from_str(alloc, "*"),
        VisitFiles::Set(names) => join_names(alloc, names),
    }
}

fn format_visit(alloc: Global, visit: &Visit) -> Result<String, AllocError> {
    match visit {
        Visit::AllRecursively => String::from_str(alloc, "**"),
        Visit::Nothing => String::from_str(alloc, "-"),
        Visit::Specific { dirs, files } => {
            let mut visit = format_dirs(alloc, dirs)?;
            visit.push(' ')?;
            visit.push_str(format_files(alloc, files)?.as_str())?;
            Ok(visit)
        }
    }
}

// Appends a visit as one field.
pub(crate) fn put_visit(alloc: Global, visit: &Visit, values: &mut Values) {
    values.allocated(format_visit(alloc, visit));
}

// Appends the union, difference and intersection of two visits.
fn visit_combined(alloc: Global, fields: &Fields, values: &mut Values) -> Result<(), RowError> {
    let first = fields.string(0);
    let second = fields.string(1);
    let visit = union_visit(parse_visit(alloc, first)?, parse_visit(alloc, second)?)?;
    put_visit(alloc, &visit.to_visit(alloc)?, values);
    let visit = difference_visit(parse_visit(alloc, first)?, parse_visit(alloc, second)?);
    put_visit(alloc, &visit.to_visit(alloc)?, values);
    let visit = intersection_visit(
        alloc,
        parse_visit(alloc, first)?,
        parse_visit(alloc, second)?,
    )?;
    put_visit(alloc, &visit.to_visit(alloc)?, values);
    Ok(())
}

// Whether the visit of two sorted sets of names is equal to a visit.
fn is_visit_of_sorted(alloc: Global, fields: &Fields, visit: &Visit) -> Result<bool, RowError> {
    let dirs = parse_sorted_names(alloc, fields.string(0))?;
    let sorted = SortedVisit::sets(dirs, parse_sorted_names(alloc, fields.string(1))?);
    Ok(sorted.is_nothing() == visit.is_nothing() && sorted.to_visit(alloc)? == *visit)
}

// Appends the visit of two sets of names, and whether it is `Nothing`.
fn visit_sets(alloc: Global, fields: &Fields, values: &mut Values) -> Result<(), RowError> {
    let dirs = parse_names(alloc, fields.string(0))?;
    let visit = Visit::sets(dirs, parse_names(alloc, fields.string(1))?);
    put_visit(alloc, &visit, values);
    values.flag(visit.is_nothing());
    agree(
        (visit == Visit::Nothing) == visit.is_nothing(),
        "equality with nothing",
    )?;
    agree(is_visit_of_sorted(alloc, fields, &visit)?, "sorted sets")
}

// Appends for each name of a set whether it is to be visited as a directory and as a file.
fn visit_contains(alloc: Global, fields: &Fields, values: &mut Values) -> Result<(), RowError> {
    let visit = parse_specific(alloc, fields.string(0), fields.string(1))?;
    let Visit::Specific { dirs, files } = visit.to_visit(alloc)? else {
        return Err(RowError::Unreadable("visit"));
    };
    for name in parse_names(alloc, fields.string(2))?.iter() {
        values.flag(dirs.contains(name));
        values.flag(files.contains(name));
    }
    Ok(())
}

pub(crate) fn call(alloc: Global, name: &str, request: &Request, values: &mut Values) -> bool {
    if !name.starts_with("visit-") {
        return false;
    }
    let fields = request.group(0);
    let called = match name {
        "visit-combined" => visit_combined(alloc, fields, values),
        "visit-sets" => visit_sets(alloc, fields, values),
        "visit-contains" => visit_contains(alloc, fields, values),
        _ => return false,
    };
    values.record(called);
    true
}
