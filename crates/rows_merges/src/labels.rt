//! Requests on conflict labels.
use jj_merges::conflict_labels::ConflictLabels;
use jj_merges::merge::Merge;
use rows::request::{Fields, Request};
use rows::row_error::{RowError, agree, needs};
use rows::values::Values;
use smallvec::SmallVec;
use std::alloc::{AllocError, Global};

// Parses labels. No fields mean no labels.
fn labels_of(fields: &Fields) -> Result<ConflictLabels, RowError> {
    let strings = fields.strings(0)?;
    needs(
        strings.is_empty() || strings.len() % 2 == 1,
        "an odd number of labels",
    )?;
    Ok(ConflictLabels::from_vec(SmallVec::from_vec(strings)))
}

fn write_labels(alloc: Global, labels: &ConflictLabels, values: &mut Values) {
    values.flag(labels.has_labels());
    match labels.num_sides() {
        None => values.word("none"),
        Some(sides) => values.index(sides),
    }
    values.flag(labels.as_merge().is_resolved());
    values.flag(labels == &ConflictLabels::unlabeled(alloc));
    values.strings(labels.as_slice());
    values.word("|");
    values.debug(labels);
}

fn is_cloned(alloc: Global, labels: &ConflictLabels) -> Result<bool, AllocError> {
    let clone = labels.clone()?;
    let again = ConflictLabels::from_merge(labels.as_merge().clone(alloc)?);
    Ok(clone == *labels && again == *labels)
}

// The labels of the merge that labels are converted to are the same.
fn convert(alloc: Global, labels: ConflictLabels) -> Result<(), RowError> {
    let is_cloned = is_cloned(alloc, &labels)?;
    let whole = labels.as_merge().clone(alloc)?;
    agree(
        is_cloned && labels.into_merge() == whole,
        "labels of a merge",
    )
}

// `labels LABELS`: whether there are any, numbers of sides, strings and `Debug`.
fn labels(alloc: Global, request: &Request, values: &mut Values) -> Result<(), RowError> {
    let labels = labels_of(request.group(0))?;
    write_labels(alloc, &labels, values);
    convert(alloc, labels)
}

// `labels-get INDEX | LABELS`: the labels of the add and of the remove at an index.
fn labels_get(request: &Request, values: &mut Values) -> Result<(), RowError> {
    let index = request.group(0).index(0);
    let labels = labels_of(request.group(1))?;
    values.option_string(labels.get_add(index));
    values.option_string(labels.get_remove(index));
    Ok(())
}

// `labels-equal LABELS | LABELS`: whether both are equal.
fn labels_equal(request: &Request, values: &mut Values) -> Result<(), RowError> {
    let labels = labels_of(request.group(0))?;
    values.flag(labels == labels_of(request.group(1))?);
    Ok(())
}

fn numbers_of(alloc: Global, fields: &Fields) -> Result<Merge<u64>, RowError> {
    let mut numbers = Vec::new(alloc);
    for index in 0..fields.len() {
        numbers.push(fields.number(index))?;
    }
    needs(numbers.len() % 2 == 1, "an odd number of terms")?;
    Ok(Merge::from_vec(SmallVec::from_vec(numbers)))
}

// `labels-simplify LABELS | NUMBERS`: the remaining labels and terms.
fn simplify_with(alloc: Global, request: &Request, values: &mut Values) -> Result<(), RowError> {
    let labels = labels_of(request.group(0))?;
    let whole = numbers_of(alloc, request.group(1))?;
    let count = labels.as_slice().len();
    needs(
        count == 0 || count == whole.as_slice().len(),
        "no labels, or one for each term",
    )?;
    let (labels, whole) = labels.simplify_with(alloc, &whole)?;
    values.debug(&labels);
    values.debug(&whole);
    Ok(())
}

/// Runs the request of this name. Returns `false` if there is none.
pub fn call(alloc: Global, name: &str, request: &Request, values: &mut Values) -> bool {
    let called = match name {
        "labels" => labels(alloc, request, values),
        "labels-get" => labels_get(request, values),
        "labels-equal" => labels_equal(request, values),
        "labels-simplify" => simplify_with(alloc, request, values),
        _ => return false,
    };
    values.record(called);
    true
}
