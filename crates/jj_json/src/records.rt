//! JSON values of timestamps, signatures and commits.
ghost use Rattle.std.specs.Prelude.{◌≡◌, IfOk};
ghost use Rattle.serde_json.specs.View.{view};
ghost use Rattle.jj_json.specs.Conversions.{IsJsonResult};
ghost use Rattle.jj_json.specs.Records.{IsCommitJson, IsJsonString, IsSignatureJson, commit_json, ids_json, signature_json};
ghost use Rattle.jj_dates.specs.Times.{IsDate};

use crate::to_json::{ToJson, ToJsonError};
use jiff::Zoned;
use jj_backend::backend::{Commit, Signature, Timestamp};
use jj_dates::timestamp::TimestampExt;
use jj_ids::object_id::{Id, IdKind, ObjectId};
use serde_json::{Value, json};
use std::alloc::{AllocError, Global};

// The year has at least four digits.
fn date_string(alloc: Global, date: &Zoned<'_>) -> Result<String, AllocError> {
    let year = date.year();
    let sign = if year < 0 { "-" } else { "" };
    let years = year.unsigned_abs();
    let month = date.month();
    let day = date.day();
    format!(in alloc; "{sign}{years:04}-{month:02}-{day:02}")
}

fn push_time(text: &mut String, date: &Zoned<'_>) -> Result<(), AllocError> {
    let hour = date.hour();
    let minute = date.minute();
    let second = date.second();
    let millis = date.millisecond();
    write!(text, "T{hour:02}:{minute:02}:{second:02}.{millis:03}")
}

fn push_offset(text: &mut String, date: &Zoned<'_>) -> Result<(), AllocError> {
    let seconds = date.offset().seconds();
    let sign = if seconds < 0 { "-" } else { "+" };
    let minutes = seconds.unsigned_abs() / 60;
    let hours = minutes / 60;
    let rest = minutes % 60;
    write!(text, "{sign}{hours:02}:{rest:02}")
}

/// Returns the date and time in the offset as a string: `1970-01-01T01:30:00.001+01:30`.
impl ToJson for Timestamp {
    ghost is_in_range = { IsDate };

    ghost is_json = { λ _ d. IsJsonString d };

    fn to_json(&self, alloc: Global) -> Result<Value, ToJsonError> {
        match self.to_datetime() {
            Ok(date) => {
                let mut text = date_string(alloc, &date)?;
                push_time(&mut text, &date)?;
                push_offset(&mut text, &date)?;
                Ok(Value::String(text))
            }
            Err(_) => Err(ToJsonError::TimestampOutOfRange),
        }
    }
}

fn ids_json<K: IdKind>(alloc: Global, ids: &[Id<K>]) -> Result<Value, AllocError>
    ensures { IfOk result (λ ids_value. view ids_value ≡ ids_json ids.now) }
{
    let mut strings = Vec::with_capacity(alloc, ids.len())?;
    for id in ids {
        strings.push(Value::String(id.hex(alloc)?))?;
    }
    Ok(Value::Array(strings))
}

// `timestamp` is the JSON value of the signature's timestamp.
fn signature_object(
    alloc: Global,
    signature: &Signature,
    timestamp: Value,
) -> Result<Value, AllocError>
    ensures { IfOk result (λ object. view object
        ≡ signature_json signature.now (view timestamp)) }
{
    json!(in alloc; {
        "name": &signature.name,
        "email": &signature.email,
        "timestamp": timestamp,
    })
}

/// Returns an object with the members `name`, `email` and `timestamp`.
impl ToJson for Signature {
    ghost is_in_range = { λ s. IsDate s.timestamp };

    ghost is_json = { IsSignatureJson };

    fn to_json(&self, alloc: Global) -> Result<Value, ToJsonError> {
        let timestamp = self.timestamp.to_json(alloc)?;
        Ok(signature_object(alloc, self, timestamp)?)
    }
}

// `author` and `committer` are the JSON values of the commit's signatures.
fn commit_object(
    alloc: Global,
    commit: &Commit,
    author: Value,
    committer: Value,
) -> Result<Value, AllocError>
    ensures { IfOk result (λ object. view object
        ≡ commit_json commit.now (view author) (view committer)) }
{
    let parents = ids_json(alloc, commit.parents.as_slice())?;
    let change_id = commit.change_id.reverse_hex()?;
    json!(in alloc; {
        "parents": parents,
        "change_id": change_id,
        "description": &commit.description,
        "author": author,
        "committer": committer,
    })
}

/// Returns an object with the members `parents`, `change_id`, `description`, `author` and
/// `committer`. Ids are hexadecimal, the change id with reverse digits (`z` to `k`).
impl ToJson for Commit {
    ghost is_in_range = { λ c. IsDate c.author.timestamp × IsDate c.committer.timestamp };

    ghost is_json = { IsCommitJson };

    fn to_json(&self, alloc: Global) -> Result<Value, ToJsonError> {
        let author = self.author.to_json(alloc)?;
        let committer = self.committer.to_json(alloc)?;
        Ok(commit_object(alloc, self, author, committer)?)
    }
}
