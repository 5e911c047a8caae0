//! Requests on merges of strings. A group lists the terms; adds and removes alternate.
use jj_content::content_hash::blake2b_hash;
use jj_json::to_json::{ToJson, ToJsonError};
use jj_merges::merge::{Diff, Merge, MergeBuilder, SameChange, three_way, trivial_merge};
use rows::request::{Fields, Request};
use rows::row_error::{RowError, agree, needs};
use rows::values::Values;
use smallvec::SmallVec;
use std::alloc::{AllocError, Global};

fn merge_of(fields: &Fields) -> Result<Merge<String>, RowError> {
    let terms = fields.strings(0)?;
    needs(terms.len() % 2 == 1, "an odd number of terms")?;
    Ok(Merge::from_vec(SmallVec::from_vec(terms)))
}

fn merge_of_options(fields: &Fields) -> Result<Merge<Option<String>>, RowError> {
    let terms = fields.options()?;
    needs(terms.len() % 2 == 1, "an odd number of terms")?;
    Ok(Merge::from_vec(SmallVec::from_vec(terms)))
}

fn first_byte(string: &String) -> Option<u8> {
    string.as_bytes().first().copied()
}

fn put_outcomes(
    whole: &Merge<String>,
    simplified: &Merge<String>,
    values: &mut Values,
) -> Result<(), RowError> {
    let keep = trivial_merge(whole.as_slice(), SameChange::Keep);
    let accept = trivial_merge(whole.as_slice(), SameChange::Accept);
    values.option_string(keep.map(|string: &String| string.as_str()));
    values.option_string(accept.map(|string: &String| string.as_str()));
    let is_same = whole.resolve_trivial(SameChange::Keep) == keep
        && simplified.resolve_trivial(SameChange::Keep) == keep
        && simplified.resolve_trivial(SameChange::Accept) == accept;
    agree(is_same, "resolve_trivial")
}

// `trivial TERMS`: the outcomes with `Keep` and with `Accept`, the same before and after
// `simplify`.
fn trivial(alloc: Global, request: &Request, values: &mut Values) -> Result<(), RowError> {
    let whole = merge_of(request.group(0))?;
    let simplified = whole.simplify(alloc)?;
    put_outcomes(&whole, &simplified, values)
}

// `three-way BASE LEFT RIGHT`: the outcome, the same as that of `trivial LEFT BASE RIGHT`.
fn three_way_outcome(
    alloc: Global,
    request: &Request,
    values: &mut Values,
) -> Result<(), RowError> {
    let terms = request.group(0).strings(0)?;
    let [base, left, right] = terms.as_slice() else {
        return Err(RowError::Precondition("three strings"));
    };
    let outcome = three_way(base, left, right);
    values.option_string(outcome.map(|string: &String| string.as_str()));
    let terms = [left.as_str(), base.as_str(), right.as_str()];
    let trivial = trivial_merge(&terms, SameChange::Accept);
    agree(
        trivial.copied() == outcome.map(|string: &String| string.as_str()),
        "trivial_merge",
    )
}

// `merge-simplify TERMS`: the remaining terms.
fn simplify(alloc: Global, request: &Request, values: &mut Values) -> Result<(), RowError> {
    let whole = merge_of(request.group(0))?;
    let simplified = whole.simplify(alloc)?;
    values.strings(simplified.as_slice());
    agree(simplified.simplify(alloc)? == simplified, "simplify twice")
}

// `merge-simplify-by TERMS`: the remaining terms, if those with the same first byte cancel.
fn simplify_by(alloc: Global, request: &Request, values: &mut Values) -> Result<(), RowError> {
    let whole = merge_of(request.group(0))?;
    values.strings(whole.simplify_by(alloc, first_byte)?.as_slice());
    Ok(())
}

fn updated(
    alloc: Global,
    whole: Merge<String>,
    edited: Merge<String>,
) -> Result<Merge<String>, RowError> {
    let simplified = whole.simplify(alloc)?;
    if edited.as_slice().len() != simplified.as_slice().len() {
        return Err(RowError::Precondition("as many terms as remain"));
    }
    Ok(whole.update_from_simplified(alloc, edited)?)
}

// `merge-update TERMS | SIMPLIFIED`: the terms with edited ones written back.
fn update(alloc: Global, request: &Request, values: &mut Values) -> Result<(), RowError> {
    let whole = merge_of(request.group(0))?;
    let edited = merge_of(request.group(1))?;
    values.strings(updated(alloc, whole, edited)?.as_slice());
    Ok(())
}

fn put_shape(whole: &Merge<String>, values: &mut Values) {
    values.index(whole.num_sides());
    values.flag(whole.is_resolved());
    values.option_string(whole.as_resolved().map(|string: &String| string.as_str()));
    values.string(whole.first().as_str());
}

// `merge-parts TERMS`: number of sides, whether it is resolved, first term, removes and adds.
fn parts(alloc: Global, request: &Request, values: &mut Values) -> Result<(), RowError> {
    let whole = merge_of(request.group(0))?;
    put_shape(&whole, values);
    let counts = (
        whole.removes().len(),
        whole.adds().len(),
        whole.iter().count(),
    );
    let (removes, adds) = whole.into_removes_adds(alloc)?;
    let counts_after = (
        removes.len(),
        adds.len(),
        removes.len().wrapping_add(adds.len()),
    );
    for string in removes {
        values.string(string.as_str());
    }
    values.word("|");
    for string in adds {
        values.string(string.as_str());
    }
    agree(counts == counts_after, "numbers of terms")
}

// `merge-get INDEX | TERMS`: the add and the remove at an index.
fn get(request: &Request, values: &mut Values) -> Result<(), RowError> {
    let index = request.group(0).index(0);
    let whole = merge_of(request.group(1))?;
    values.option_string(whole.get_add(index).map(|string: &String| string.as_str()));
    values.option_string(
        whole
            .get_remove(index)
            .map(|string: &String| string.as_str()),
    );
    Ok(())
}

// `merge-swap-remove REMOVE ADD | TERMS`: the remove, the add and the remaining terms.
fn swap_remove(request: &Request, values: &mut Values) -> Result<(), RowError> {
    let (remove, add) = (request.group(0).index(0), request.group(0).index(1));
    let mut whole = merge_of(request.group(1))?;
    needs(
        remove < whole.removes().len() && add < whole.adds().len(),
        "indices of a remove and an add",
    )?;
    let (removed, added) = whole.swap_remove(remove, add);
    values.string(removed.as_str());
    values.string(added.as_str());
    values.word("|");
    values.strings(whole.as_slice());
    Ok(())
}

// `merge-pad SIDES VALUE | TERMS`: the terms, padded to a number of sides.
fn pad(alloc: Global, request: &Request, values: &mut Values) -> Result<(), RowError> {
    let fields = request.group(0);
    let num_sides = fields.index(0);
    needs(num_sides < 1000, "less than 1000 sides")?;
    let value = String::from_str(alloc, fields.string(1))?;
    let mut whole = merge_of(request.group(1))?;
    whole.pad_to(alloc, num_sides, &value)?;
    values.strings(whole.as_slice());
    Ok(())
}

// `merge-repeated SIDES VALUE`: the merge of a value on all sides, simplified, and its terms.
fn repeated(alloc: Global, request: &Request, values: &mut Values) -> Result<(), RowError> {
    let fields = request.group(0);
    let num_sides = fields.index(0);
    needs(0 < num_sides && num_sides < 2000, "1 to 1999 sides")?;
    let value = String::from_str(alloc, fields.string(1))?;
    let whole = Merge::repeated(alloc, value, num_sides)?;
    values.strings(whole.simplify(alloc)?.as_slice());
    values.index(whole.as_slice().len());
    Ok(())
}

// `merge-zip TERMS | TERMS`: both merges, zipped and unzipped again.
fn zip(alloc: Global, request: &Request, values: &mut Values) -> Result<(), RowError> {
    let firsts = merge_of(request.group(0))?;
    let seconds = merge_of(request.group(1))?;
    needs(
        firsts.as_slice().len() == seconds.as_slice().len(),
        "as many terms in both",
    )?;
    let zipped = firsts.zip(alloc, seconds)?;
    values.debug(&zipped);
    let (firsts, seconds) = zipped.unzip(alloc)?;
    values.strings(firsts.as_slice());
    values.word("|");
    values.strings(seconds.as_slice());
    Ok(())
}

fn built_of_merges(
    alloc: Global,
    merges: Vec<Merge<String>>,
) -> Result<Merge<Merge<String>>, RowError> {
    if merges.len() % 2 != 1 {
        return Err(RowError::Precondition("an odd number of merges"));
    }
    let mut builder = MergeBuilder::default(alloc);
    builder.extend(alloc, merges)?;
    Ok(builder.build())
}

// `merge-flatten TERMS | TERMS | ..`: the terms of a merge of merges.
fn flatten(alloc: Global, request: &Request, values: &mut Values) -> Result<(), RowError> {
    let mut merges = Vec::new(alloc);
    for group in request.groups() {
        merges.push(merge_of(group)?)?;
    }
    values.strings(built_of_merges(alloc, merges)?.flatten(alloc)?.as_slice());
    Ok(())
}

fn built(alloc: Global, terms: Vec<String>) -> Result<Merge<String>, RowError> {
    if terms.len() % 2 != 1 {
        return Err(RowError::Precondition("an odd number of terms"));
    }
    let mut builder = MergeBuilder::default(alloc);
    builder.extend(alloc, terms)?;
    Ok(builder.build())
}

// `merge-build TERMS`: the merge that a builder makes of the terms, as `Debug` writes it.
fn build(alloc: Global, request: &Request, values: &mut Values) -> Result<(), RowError> {
    let whole = built(alloc, request.group(0).strings(0)?)?;
    values.debug(&whole);
    agree(
        whole == merge_of(request.group(0))? && whole.clone(alloc)? == whole,
        "builder",
    )
}

fn put_builder(
    alloc: Global,
    builder: &MergeBuilder<String>,
    values: &mut Values,
) -> Result<(), RowError> {
    values.debug(builder);
    let clone = builder.clone(alloc)?;
    values.flag(*builder == clone);
    values.flag(*builder == MergeBuilder::default(alloc));
    Ok(())
}

// `merge-builder TERMS`: a builder as `Debug` writes it, whether it equals an empty one and its
// clone.
fn builder(alloc: Global, request: &Request, values: &mut Values) -> Result<(), RowError> {
    let mut builder = MergeBuilder::default(alloc);
    builder.extend(alloc, request.group(0).strings(0)?)?;
    put_builder(alloc, &builder, values)
}

fn of_sides(
    alloc: Global,
    removes: Vec<Option<String>>,
    adds: Vec<Option<String>>,
) -> Result<Merge<Option<String>>, RowError> {
    if adds.len() != removes.len() + 1 {
        return Err(RowError::Precondition("one add more than removes"));
    }
    Ok(Merge::from_removes_adds(alloc, removes, adds)?)
}

// `merge-from-removes-adds REMOVES | ADDS`: the terms, each optional.
fn from_removes_adds(
    alloc: Global,
    request: &Request,
    values: &mut Values,
) -> Result<(), RowError> {
    let removes = request.group(0).options()?;
    let adds = request.group(1).options()?;
    values.options(of_sides(alloc, removes, adds)?.as_slice());
    Ok(())
}

// `merge-from-legacy REMOVES | ADDS`: the terms of the legacy form, each optional.
fn from_legacy(alloc: Global, request: &Request, values: &mut Values) -> Result<(), RowError> {
    let removes = request.group(0).strings(0)?;
    let adds = request.group(1).strings(0)?;
    let whole = Merge::from_legacy_form(alloc, removes, adds)?;
    values.options(whole.as_slice());
    Ok(())
}

// `merge-into-legacy TERMS`: the present removes and the present adds.
fn into_legacy(alloc: Global, request: &Request, values: &mut Values) -> Result<(), RowError> {
    let whole = merge_of_options(request.group(0))?;
    let (removes, adds) = whole.into_legacy_form(alloc)?;
    values.strings(removes.as_slice());
    values.word("|");
    values.strings(adds.as_slice());
    Ok(())
}

// `merge-present TERMS`: the present removes and the present adds.
fn present(request: &Request, values: &mut Values) -> Result<(), RowError> {
    let whole = merge_of_options(request.group(0))?;
    for string in whole.present_removes() {
        values.string(string.as_str());
    }
    values.word("|");
    for string in whole.present_adds() {
        values.string(string.as_str());
    }
    Ok(())
}

// `merge-options TERMS`: whether the merge is absent, and whether it is present.
fn options(request: &Request, values: &mut Values) -> Result<(), RowError> {
    let whole = merge_of_options(request.group(0))?;
    values.flag(whole.is_absent());
    values.flag(whole.is_present());
    let normal = whole.as_normal();
    values.option_string(normal.map(|string: &String| string.as_str()));
    Ok(())
}

fn diff_of(fields: &Fields) -> Result<Diff<String>, AllocError> {
    let before = fields.owned(0)?;
    Ok(Diff::new(before, fields.owned(1)?))
}

fn diffs_of(alloc: Global, groups: &[Fields]) -> Result<Vec<Diff<String>>, AllocError> {
    let mut diffs = Vec::new(alloc);
    for fields in groups.iter().skip(1) {
        diffs.push(diff_of(fields)?)?;
    }
    Ok(diffs)
}

// `merge-from-diffs FIRST | BEFORE AFTER | ..`: the terms.
fn from_diffs(alloc: Global, request: &Request, values: &mut Values) -> Result<(), RowError> {
    let first = request.group(0).owned(0)?;
    let diffs = diffs_of(alloc, request.groups())?;
    values.strings(Merge::from_diffs(alloc, first, diffs)?.as_slice());
    Ok(())
}

fn put_lengths(alloc: Global, whole: &Merge<String>, values: &mut Values) -> Result<(), RowError> {
    values.debug(&whole.map(alloc, |string: &String| string.len())?);
    let longer = whole.try_map(alloc, |string: &String| {
        Ok::<usize, RowError>(string.len().wrapping_add(1))
    })?;
    values.debug(&longer);
    Ok(())
}

fn is_cloned(alloc: Global, whole: &Merge<String>) -> Result<bool, AllocError> {
    let copy = whole.as_ref(alloc)?.cloned(alloc)?;
    Ok(copy == *whole)
}

// `merge-map TERMS`: the lengths by `map`, the lengths plus one by `try_map`, the first bytes by
// `into_map`, and a clone of all references.
fn map(alloc: Global, request: &Request, values: &mut Values) -> Result<(), RowError> {
    let whole = merge_of(request.group(0))?;
    put_lengths(alloc, &whole, values)?;
    let is_cloned = is_cloned(alloc, &whole)?;
    values.debug(&whole.into_map(alloc, |string: String| first_byte(&string))?);
    agree(is_cloned, "cloned")
}

// `diff BEFORE AFTER`: whether it is changed, the lengths, the inverse and the array.
fn diff(alloc: Global, request: &Request, values: &mut Values) -> Result<(), RowError> {
    let fields = request.group(0);
    let diff = Diff::new(fields.string(0), fields.string(1));
    values.flag(diff.is_changed());
    values.debug(&diff.map(|string: &str| string.len()));
    let (zipped, array) = (diff.zip(diff.invert()), diff.invert().into_array());
    values.allocated(format!(in alloc; "{zipped:?}"));
    values.allocated(format!(in alloc; "{array:?}"));
    agree(
        diff.as_ref() == Diff::new(&diff.before, &diff.after),
        "as_ref",
    )?;
    agree(diff_of(fields)?.as_deref() == diff, "as_deref")
}

fn put_json(alloc: Global, whole: &Merge<String>, values: &mut Values) -> Result<(), RowError> {
    match whole.to_json(alloc) {
        Ok(json) => values.allocated(json.to_string(alloc)),
        Err(ToJsonError::Memory) => return Err(RowError::Memory),
        Err(ToJsonError::TimestampOutOfRange) => values.word("time out of range"),
    }
    Ok(())
}

// `merge-content TERMS`: the JSON string. The digest is that of the list of terms.
fn content(alloc: Global, request: &Request, values: &mut Values) -> Result<(), RowError> {
    let whole = merge_of(request.group(0))?;
    put_json(alloc, &whole, values)?;
    let digest = blake2b_hash(alloc, &whole)?;
    agree(digest == blake2b_hash(alloc, &whole.as_slice())?, "digest")
}

// `same-change NAME`: `Keep`, `Accept` or none.
fn same_change(request: &Request, values: &mut Values) -> Result<(), RowError> {
    match SameChange::from_name(request.group(0).string(0)) {
        None => values.word("none"),
        Some(same_change) => values.debug(&same_change),
    }
    Ok(())
}

fn call_constructor(alloc: Global, name: &str, request: &Request, values: &mut Values) -> bool {
    let called = match name {
        "merge-repeated" => repeated(alloc, request, values),
        "merge-zip" => zip(alloc, request, values),
        "merge-flatten" => flatten(alloc, request, values),
        "merge-build" => build(alloc, request, values),
        "merge-builder" => builder(alloc, request, values),
        "merge-from-removes-adds" => from_removes_adds(alloc, request, values),
        "merge-from-legacy" => from_legacy(alloc, request, values),
        "merge-into-legacy" => into_legacy(alloc, request, values),
        "merge-options" => options(request, values),
        "merge-present" => present(request, values),
        "merge-from-diffs" => from_diffs(alloc, request, values),
        "merge-map" => map(alloc, request, values),
        "merge-content" => content(alloc, request, values),
        "diff" => diff(alloc, request, values),
        "same-change" => same_change(request, values),
        _ => return false,
    };
    values.record(called);
    true
}

/// Runs the request of this name. Returns `false` if there is none.
pub fn call(alloc: Global, name: &str, request: &Request, values: &mut Values) -> bool {
    let called = match name {
        "trivial" => trivial(alloc, request, values),
        "three-way" => three_way_outcome(alloc, request, values),
        "merge-simplify" => simplify(alloc, request, values),
        "merge-simplify-by" => simplify_by(alloc, request, values),
        "merge-update" => update(alloc, request, values),
        "merge-parts" => parts(alloc, request, values),
        "merge-get" => get(request, values),
        "merge-swap-remove" => swap_remove(request, values),
        "merge-pad" => pad(alloc, request, values),
        _ => return call_constructor(alloc, name, request, values),
    };
    values.record(called);
    true
}
