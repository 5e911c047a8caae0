//! Requests on ids, hex prefixes and the resolution of prefixes.
use crate::content::{put_content, put_json};
use jj_ids::object_id::{
    ChangeId, ChangeKind, CommitId, CommitKind, CopyId, CopyKind, FileKind, HexPrefix, Id, IdKind,
    ObjectId, OperationKind, PrefixResolution, SymlinkKind, TreeKind, ViewKind,
};
use rows::request::Request;
use rows::row_error::{RowError, agree};
use rows::values::Values;
use std::alloc::Global;
use std::cmp::Ordering;
use std::fmt;

// Appends the display forms, the debug form, the type and the hex encoding of an id.
fn put_id<T: ObjectId + fmt::Display + fmt::Debug>(alloc: Global, values: &mut Values, id: &T) {
    values.display(id);
    values.allocated(format!(in alloc; "{id:.3}"));
    values.debug(id);
    values.allocated(id.object_type(alloc));
    values.allocated(id.hex(alloc));
}

fn copies_agree<K: IdKind>(alloc: Global, id: &Id<K>) -> Result<(), RowError> {
    let copy = id.clone()?;
    let again = Id::<K>::from_bytes(alloc, id.as_bytes())?;
    let own = Id::<K>::new(id.to_bytes(alloc)?);
    agree(
        copy == *id && again == *id && own == *id && copy.cmp(id) == Ordering::Equal,
        "copies of an id",
    )
}

fn prefix_agrees<K: IdKind>(alloc: Global, id: &Id<K>) -> Result<(), RowError> {
    let prefix = HexPrefix::from_id(alloc, id)?;
    let whole = HexPrefix::from_bytes(alloc, id.as_bytes())?;
    agree(prefix.matches(id) && prefix == whole, "the prefix of an id")
}

// Decodes an id of kind `K` and appends its forms, or `none`.
fn read_id<K: IdKind>(alloc: Global, hex: &[u8], values: &mut Values) -> Result<(), RowError> {
    let Some(id) = Id::<K>::try_from_hex(alloc, hex)? else {
        values.word("none");
        return Ok(());
    };
    put_id(alloc, values, &id);
    copies_agree(alloc, &id)?;
    prefix_agrees(alloc, &id)
}

fn read_of_kind(
    alloc: Global,
    kind: &str,
    hex: &[u8],
    values: &mut Values,
) -> Result<(), RowError> {
    match kind {
        "commit" => read_id::<CommitKind>(alloc, hex, values),
        "change" => read_id::<ChangeKind>(alloc, hex, values),
        "tree" => read_id::<TreeKind>(alloc, hex, values),
        "file" => read_id::<FileKind>(alloc, hex, values),
        "symlink" => read_id::<SymlinkKind>(alloc, hex, values),
        "copy" => read_id::<CopyKind>(alloc, hex, values),
        "view" => read_id::<ViewKind>(alloc, hex, values),
        "operation" => read_id::<OperationKind>(alloc, hex, values),
        _ => Err(RowError::Unreadable("kind of id")),
    }
}

fn id(alloc: Global, request: &Request, values: &mut Values) -> Result<(), RowError> {
    let fields = request.group(0);
    read_of_kind(alloc, fields.string(0), fields.bytes(1), values)
}

// Decodes a change id from reverse hex and appends both encodings, or `none`.
fn change(alloc: Global, request: &Request, values: &mut Values) -> Result<(), RowError> {
    let text = request.group(0).bytes(0);
    let Some(id) = ChangeId::try_from_reverse_hex(alloc, text)? else {
        values.word("none");
        return Ok(());
    };
    values.word("some");
    values.allocated(id.reverse_hex());
    values.allocated(id.hex(alloc));
    Ok(())
}

fn compare(alloc: Global, request: &Request, values: &mut Values) -> Result<(), RowError> {
    let fields = request.group(0);
    let first = CommitId::from_bytes(alloc, fields.bytes(0))?;
    let second = CommitId::from_bytes(alloc, fields.bytes(1))?;
    values.debug(&first.cmp(&second));
    agree(
        (first == second) == (first.cmp(&second) == Ordering::Equal)
            && (first < second) == (first.cmp(&second) == Ordering::Less),
        "equality and order of ids",
    )
}

// Appends the JSON and the content of a commit id and a change id with the same bytes.
fn data(alloc: Global, request: &Request, values: &mut Values) -> Result<(), RowError> {
    let bytes = request.group(0).bytes(0);
    let commit = CommitId::from_bytes(alloc, bytes)?;
    put_json(alloc, values, &commit)?;
    put_content(alloc, values, &commit)?;
    let change = ChangeId::from_bytes(alloc, bytes)?;
    put_json(alloc, values, &change)?;
    put_content(alloc, values, &change)
}

fn put_prefix(alloc: Global, values: &mut Values, prefix: &HexPrefix) -> Result<(), RowError> {
    values.word("some");
    values.allocated(prefix.hex());
    values.allocated(prefix.reverse_hex());
    values.bytes(prefix.min_prefix_bytes());
    values.option_bytes(prefix.as_full_bytes());
    let (hex, shown) = (prefix.hex()?, format!(in alloc; "{prefix:?}")?);
    let expected = format!(in alloc; "HexPrefix({hex:?})")?;
    agree(shown == expected, "the debug form of a prefix")
}

// Appends a prefix, and whether the id matches it.
fn match_prefix(
    alloc: Global,
    values: &mut Values,
    prefix: Option<HexPrefix>,
    id: &[u8],
) -> Result<(), RowError> {
    let Some(prefix) = prefix else {
        values.word("none");
        return Ok(());
    };
    put_prefix(alloc, values, &prefix)?;
    let id = CommitId::from_bytes(alloc, id)?;
    values.flag(prefix.matches(&id));
    agree(prefix.clone()? == prefix, "copy of a prefix")
}

fn prefix(alloc: Global, request: &Request, values: &mut Values) -> Result<(), RowError> {
    let fields = request.group(0);
    let (text, id) = (fields.bytes(0), fields.bytes(1));
    match_prefix(alloc, values, HexPrefix::try_from_hex(alloc, text)?, id)
}

fn prefix_reverse(alloc: Global, request: &Request, values: &mut Values) -> Result<(), RowError> {
    let fields = request.group(0);
    let (text, id) = (fields.bytes(0), fields.bytes(1));
    let prefix = HexPrefix::try_from_reverse_hex(alloc, text)?;
    match_prefix(alloc, values, prefix, id)
}

fn resolution(alloc: Global, field: &str) -> Result<PrefixResolution<String>, RowError> {
    match field {
        "no" => Ok(PrefixResolution::NoMatch),
        "ambiguous" => Ok(PrefixResolution::AmbiguousMatch),
        field => match field.strip_prefix('=') {
            Some(string) => Ok(PrefixResolution::SingleMatch(String::from_str(alloc, string)?)),
            None => Err(RowError::Unreadable("resolution")),
        },
    }
}

fn plus(alloc: Global, request: &Request, values: &mut Values) -> Result<(), RowError> {
    let fields = request.group(0);
    let left = resolution(alloc, fields.string(0))?;
    let right = resolution(alloc, fields.string(1))?;
    match left.plus(&right)? {
        PrefixResolution::NoMatch => values.word("no"),
        PrefixResolution::AmbiguousMatch => values.word("ambiguous"),
        PrefixResolution::SingleMatch(string) => values.option(Some(string.as_str())),
    }
    Ok(())
}

// Appends a resolution, mapped to the length of the string, and then filtered to nonempty strings.
fn map(alloc: Global, request: &Request, values: &mut Values) -> Result<(), RowError> {
    let field = request.group(0).string(0);
    let mapped = resolution(alloc, field)?.map(|string: String| string.len());
    let filtered = resolution(alloc, field)?.filter_map(|string: String| {
        if string.is_empty() {
            None
        } else {
            Some(string.len())
        }
    });
    values.debug(&mapped);
    values.debug(&filtered);
    Ok(())
}

fn placeholder(alloc: Global, values: &mut Values) -> Result<(), RowError> {
    values.bytes(CopyId::placeholder(alloc).as_bytes());
    Ok(())
}

pub(crate) fn call(alloc: Global, name: &str, request: &Request, values: &mut Values) -> bool {
    let called = match name {
        "id" => id(alloc, request, values),
        "change-id" => change(alloc, request, values),
        "id-cmp" => compare(alloc, request, values),
        "id-data" => data(alloc, request, values),
        "copy-id-placeholder" => placeholder(alloc, values),
        "prefix" => prefix(alloc, request, values),
        "prefix-rev" => prefix_reverse(alloc, request, values),
        "resolution-plus" => plus(alloc, request, values),
        "resolution-map" => map(alloc, request, values),
        _ => return false,
    };
    values.record(called);
    true
}
