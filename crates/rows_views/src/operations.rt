//! Requests on operations: their content bytes and JSON.
use jj_backend::backend::CommitId;
use jj_ids::ref_name::WorkspaceNameBuf;
use jj_stores::op_store::{Operation, OperationMetadata, TimestampRange};
use rows::request::{Fields, Request};
use rows::row_error::{RowError, agree};
use rows::values::Values;
use rows_records::arguments::{id, ids, parse_id, time};
use rows_records::recorded::put_record;
use std::alloc::{AllocError, Global};
use std::collections::BTreeMap;

fn range_of(fields: &Fields) -> TimestampRange {
    TimestampRange {
        start: time(fields, 0),
        end: time(fields, 2),
    }
}

// `time-range MILLIS OFFSET MILLIS OFFSET`: content, JSON
fn range(alloc: Global, request: &Request, values: &mut Values) -> Result<(), RowError> {
    put_record(alloc, values, &range_of(request.group(0)));
    Ok(())
}

// DESCRIPTION HOST USER IS_SNAPSHOT
fn set_strings(fields: &Fields, metadata: &mut OperationMetadata) -> Result<(), AllocError> {
    metadata.description = fields.owned(0)?;
    metadata.hostname = fields.owned(1)?;
    metadata.username = fields.owned(2)?;
    metadata.is_snapshot = fields.flag(3);
    Ok(())
}

// WORKSPACE, or nothing
fn set_workspace(
    alloc: Global,
    fields: &Fields,
    metadata: &mut OperationMetadata,
) -> Result<(), RowError> {
    if !fields.is_empty() {
        metadata.workspace_name = Some(WorkspaceNameBuf::from_text(alloc, fields.string(0))?);
    }
    Ok(())
}

fn add_attribute(
    alloc: Global,
    field: &str,
    attributes: &mut BTreeMap<String, String>,
) -> Result<(), AllocError> {
    let (name, value) = field.split_once('=').unwrap_or(("", ""));
    let name = String::from_str(alloc, name)?;
    attributes.insert(name, String::from_str(alloc, value)?)?;
    Ok(())
}

// NAME=VALUE ..
fn add_attributes(
    alloc: Global,
    fields: &Fields,
    attributes: &mut BTreeMap<String, String>,
) -> Result<(), AllocError> {
    for index in 0..fields.len() {
        add_attribute(alloc, fields.string(index), attributes)?;
    }
    Ok(())
}

// COMMIT .., with a space between them
fn commits_of(alloc: Global, list: &str) -> Result<Vec<CommitId>, RowError> {
    let mut commits = Vec::new(alloc);
    if !list.is_empty() {
        for part in list.split(' ') {
            commits.push(parse_id(alloc, part)?)?;
        }
    }
    Ok(commits)
}

// COMMIT PREDECESSOR .., with a space between them
fn predecessors_of(alloc: Global, field: &str) -> Result<(CommitId, Vec<CommitId>), RowError> {
    let (commit, rest) = field.split_once(' ').unwrap_or((field, ""));
    let commit = parse_id(alloc, commit)?;
    Ok((commit, commits_of(alloc, rest)?))
}

type Predecessors = BTreeMap<CommitId, Vec<CommitId>>;

// `unknown`, or `known` and predecessors of commits
fn all_predecessors_of(alloc: Global, fields: &Fields) -> Result<Option<Predecessors>, RowError> {
    if fields.string(0) == "unknown" {
        return Ok(None);
    }
    let mut all = BTreeMap::new(alloc);
    for index in 1..fields.len() {
        let (commit, predecessors) = predecessors_of(alloc, fields.string(index))?;
        all.insert(commit, predecessors)?;
    }
    Ok(Some(all))
}

fn set_metadata(
    alloc: Global,
    request: &Request,
    metadata: &mut OperationMetadata,
) -> Result<(), RowError> {
    metadata.time = range_of(request.group(2));
    set_strings(request.group(3), metadata)?;
    set_workspace(alloc, request.group(4), metadata)?;
    add_attributes(alloc, request.group(5), &mut metadata.attributes)?;
    Ok(())
}

fn root_of(alloc: Global, request: &Request) -> Result<Operation, RowError> {
    Ok(Operation::make_root(alloc, id(alloc, request.group(0), 0)?))
}

// VIEW | PARENT .. | RANGE | DESCRIPTION HOST USER IS_SNAPSHOT | WORKSPACE | NAME=VALUE .. |
// PREDECESSORS
fn operation_of(alloc: Global, request: &Request) -> Result<Operation, RowError> {
    let mut operation = root_of(alloc, request)?;
    operation.parents = ids(alloc, request.group(1))?;
    set_metadata(alloc, request, &mut operation.metadata)?;
    operation.commit_predecessors = all_predecessors_of(alloc, request.group(6))?;
    Ok(operation)
}

// `root-operation VIEW`: content, JSON
fn root(alloc: Global, request: &Request, values: &mut Values) -> Result<(), RowError> {
    put_record(alloc, values, &root_of(alloc, request)?);
    Ok(())
}

fn agree_with_clone(operation: &Operation) -> Result<(), RowError> {
    let clone = operation.clone()?;
    agree(clone == *operation, "clone of an operation")
}

// `operation OPERATION`: content, JSON
fn operation(alloc: Global, request: &Request, values: &mut Values) -> Result<(), RowError> {
    let operation = operation_of(alloc, request)?;
    put_record(alloc, values, &operation);
    agree_with_clone(&operation)
}

// `operation-metadata OPERATION`: content and JSON of its metadata
fn metadata(alloc: Global, request: &Request, values: &mut Values) -> Result<(), RowError> {
    let operation = operation_of(alloc, request)?;
    put_record(alloc, values, &operation.metadata);
    Ok(())
}

// `operation-is-root OPERATION`: whether it is the root operation of its view
fn is_root(alloc: Global, request: &Request, values: &mut Values) -> Result<(), RowError> {
    let operation = operation_of(alloc, request)?;
    values.flag(operation == root_of(alloc, request)?);
    Ok(())
}

/// Runs the request of this name. Returns `false` if this module has no such request.
pub fn call(alloc: Global, name: &str, request: &Request, values: &mut Values) -> bool {
    let called = match name {
        "time-range" => range(alloc, request, values),
        "root-operation" => root(alloc, request, values),
        "operation" => operation(alloc, request, values),
        "operation-metadata" => metadata(alloc, request, values),
        "operation-is-root" => is_root(alloc, request, values),
        _ => return false,
    };
    values.record(called);
    true
}
