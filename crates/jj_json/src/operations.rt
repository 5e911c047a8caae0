//! JSON values of operations and their metadata.
ghost use Rattle.std.specs.Prelude.{◌≡◌, OnOk, IfOk, string_bytes};
ghost use Rattle.serde_json.specs.View.{view, members_view};
ghost use Rattle.jj_json.specs.Records.{ids_json};
ghost use Rattle.jj_json.specs.Conversions.{IsJsonResult};
ghost use Rattle.jj_json.specs.Operations.{HasDates, IsMetadataJson, IsOperationJson, IsRangeJson, attributes_json, metadata_members, range_json, with_strings, workspace_json};

use crate::to_json::{ToJson, ToJsonError};
use jj_ids::object_id::ObjectId;
use jj_ids::ref_name::WorkspaceNameBuf;
use jj_stores::op_store::{Operation, OperationId, OperationMetadata, TimestampRange};
use serde_json::{Map, Value, json, put};
use std::alloc::{AllocError, Global};
use std::collections::BTreeMap;

fn range_object(alloc: Global, start: Value, end: Value) -> Result<Value, AllocError>
    ensures { IfOk result (λ object. view object ≡ range_json (view start) (view end)) }
{
    json!(in alloc; {"start": start, "end": end})
}

/// Returns an object with the members `start` and `end`.
impl ToJson for TimestampRange {
    ghost is_in_range = { HasDates };

    ghost is_json = { λ _ value. IsRangeJson value };

    fn to_json(&self, alloc: Global) -> Result<Value, ToJsonError> {
        let start = self.start.to_json(alloc)?;
        let end = self.end.to_json(alloc)?;
        Ok(range_object(alloc, start, end)?)
    }
}

fn attributes_json(
    alloc: Global,
    attributes: &BTreeMap<String, String>,
) -> Result<Value, AllocError>
    ensures { IfOk result (λ value. view value ≡ attributes_json attributes.now.entries) }
{
    let mut members = Map::new(alloc);
    for (name, value) in attributes {
        put(
            &mut members,
            alloc,
            name.as_str(),
            Value::String(value.clone()?),
        )?;
    }
    Ok(Value::Object(members))
}

fn workspace_json(alloc: Global, name: &Option<WorkspaceNameBuf>) -> Result<Value, AllocError>
    ensures { IfOk result (λ value. view value ≡ workspace_json name.now) }
{
    match name {
        Some(name) => Ok(Value::String(String::from_str(alloc, name.as_name().as_str())?)),
        None => Ok(Value::Null),
    }
}

// Adds the description, the hostname and the username.
fn put_strings(
    alloc: Global,
    members: &mut Map<String, Value>,
    metadata: &OperationMetadata,
) -> Result<(), AllocError>
    ensures { OnOk result (members_view members.new.entries
        ≡ with_strings metadata.now (members_view members.old.entries)) }
{
    let description = Value::String(metadata.description.clone()?);
    put(members, alloc, "description", description)?;
    let hostname = Value::String(metadata.hostname.clone()?);
    put(members, alloc, "hostname", hostname)?;
    let username = Value::String(metadata.username.clone()?);
    put(members, alloc, "username", username)
}

// `time` is the JSON value of the operation's time range.
fn metadata_members(
    alloc: Global,
    metadata: &OperationMetadata,
    time: Value,
) -> Result<Map<String, Value>, AllocError>
    ensures { IfOk result (λ members. members_view members.entries
        ≡ metadata_members metadata.now (view time)) }
{
    let mut members = Map::new(alloc);
    put(&mut members, alloc, "time", time)?;
    put_strings(alloc, &mut members, metadata)?;
    let is_snapshot = Value::Bool(metadata.is_snapshot);
    put(&mut members, alloc, "is_snapshot", is_snapshot)?;
    let workspace_name = workspace_json(alloc, &metadata.workspace_name)?;
    put(&mut members, alloc, "workspace_name", workspace_name)?;
    let attributes = attributes_json(alloc, &metadata.attributes)?;
    put(&mut members, alloc, "attributes", attributes)?;
    Ok(members)
}

/// Returns an object with a member for each field; an absent workspace name is null.
impl ToJson for OperationMetadata {
    ghost is_in_range = { λ m. HasDates m.time };

    ghost is_json = { IsMetadataJson };

    fn to_json(&self, alloc: Global) -> Result<Value, ToJsonError> {
        let time = self.time.to_json(alloc)?;
        Ok(Value::Object(metadata_members(alloc, self, time)?))
    }
}

fn parents_json(alloc: Global, parents: &[OperationId]) -> Result<Value, AllocError>
    ensures { IfOk result (λ value. view value ≡ ids_json parents.now) }
{
    let mut strings = Vec::with_capacity(alloc, parents.len())?;
    for parent in parents {
        strings.push(Value::String(parent.hex(alloc)?))?;
    }
    Ok(Value::Array(strings))
}

/// Returns the object of the operation's metadata with the member `parents` added.
impl ToJson for Operation {
    ghost is_in_range = { λ o. HasDates o.metadata.time };

    ghost is_json = { IsOperationJson };

    fn to_json(&self, alloc: Global) -> Result<Value, ToJsonError> {
        let time = self.metadata.time.to_json(alloc)?;
        let mut members = metadata_members(alloc, &self.metadata, time)?;
        let parents = parents_json(alloc, self.parents.as_slice())?;
        put(&mut members, alloc, "parents", parents)?;
        Ok(Value::Object(members))
    }
}
