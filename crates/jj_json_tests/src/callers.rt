//! Callers that convert IDs to JSON and timestamps to dates.
ghost use Rattle.std.specs.Prelude.{◌≡◌, ◌↔◌, false, ⊤};
ghost use Rattle.serde_json.specs.Data.{string};
ghost use Rattle.jiff.specs.Words.{IsTimestampNanos};
ghost use Rattle.jj_content.specs.Hex.{hex, reverse_hex};
ghost use Rattle.jj_dates.specs.Times.{nanoseconds};
ghost use Rattle.jj_json.specs.Conversions.{IsJsonResult};

use jj_backend::backend::{MillisSinceEpoch, Timestamp};
use jj_dates::timestamp::TimestampExt;
use jj_ids::object_id::{ChangeId, CommitId};
use jj_json::to_json::{ToJson, ToJsonError};
use serde_json::Value;
use std::alloc::Global;

/// Returns a commit's ID as a JSON string of hexadecimal digits.
pub fn commit_json(alloc: Global, id: &CommitId) -> Result<Value, ToJsonError>
    ensures { IsJsonResult ⊤ (λ d. d ≡ string (hex id.now)) result }
{
    id.to_json(alloc)
}

/// Returns a change's ID as a JSON string of reverse digits, `z` to `k`.
pub fn change_json(alloc: Global, id: &ChangeId) -> Result<Value, ToJsonError>
    ensures { IsJsonResult ⊤ (λ d. d ≡ string (reverse_hex id.now)) result }
{
    id.to_json(alloc)
}

/// Returns whether a timestamp in UTC is outside of the range of dates.
pub fn is_out_of_range(millis: i64) -> bool
    ensures { (result ≡ false) ↔ IsTimestampNanos (nanoseconds millis) }
{
    let time = Timestamp {
        timestamp: MillisSinceEpoch(millis),
        tz_offset: 0,
    };
    time.to_datetime().is_err()
}
