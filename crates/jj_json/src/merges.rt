//! JSON arrays of the terms of merges.
ghost use Rattle.std.specs.Prelude.{All};
ghost use Rattle.jj_json.specs.Conversions.{IsJsonList};

use crate::to_json::{ToJson, ToJsonError};
use jj_merges::merge::Merge;
use serde_json::Value;
use std::alloc::Global;

/// A merge converts to the JSON array of its terms.
impl<T: ToJson> ToJson for Merge<T> {
    ghost is_in_range = { All T.is_in_range };

    ghost is_json = { IsJsonList T.is_json };

    fn to_json(&self, alloc: Global) -> Result<Value, ToJsonError> {
        ToJson::to_json(&self.as_slice(), alloc)
    }
}
