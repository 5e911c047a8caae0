//! Conversion to JSON values: strings, options and slices.
ghost use Rattle.std.specs.Prelude.{◌≡◌, ⊤, All, MatchOption, string_bytes};
ghost use Rattle.serde_json.specs.Data.{null, string};
ghost use Rattle.jj_json.specs.Conversions.{IsJsonResult, IsJsonList};
ghost use Rattle.jj_json.specs.declared.to_json.ToJsonError.{ToJsonError};

use serde_json::Value;
use std::alloc::{AllocError, AllocFailed, Global};
use std::error::Error;
use std::fmt;

/// The error of a conversion to JSON.
#[derive(Clone, Copy, Debug, PartialEq, Eq)]
pub enum ToJsonError {
    /// Out of memory.
    Memory,
    /// A timestamp in the value is outside the range of dates.
    TimestampOutOfRange,
}

impl fmt::Display for ToJsonError {
    fn fmt<W: fmt::Write>(&self, f: &mut fmt::Formatter<W>) -> fmt::Result {
        f.write_str(match self {
            ToJsonError::Memory => "out of memory",
            ToJsonError::TimestampOutOfRange => "timestamp out of range",
        })
    }
}

impl Error for ToJsonError {}

impl From<AllocError> for ToJsonError {
    ghost from_gives = { λ _ error. error ≡ ToJsonError.Memory };

    fn from(_error: AllocError) -> Self {
        ToJsonError::Memory
    }
}

impl<T: Drop> From<AllocFailed<T>> for ToJsonError {
    ghost from_gives = { λ _ error. error ≡ ToJsonError.Memory };

    fn from(_error: AllocFailed<T>) -> Self {
        ToJsonError::Memory
    }
}

/// A type whose values can be converted to JSON.
pub trait ToJson {
    ghost use Rattle.serde_json.specs.Data.{Data};

    /// Every timestamp in the value has a date.
    ghost is_in_range: { Self → Type 0 };

    /// The JSON value is the conversion of the value.
    ghost is_json: { Self → Data → Type 0 };

    /// Converts the value to JSON. Returns `TimestampOutOfRange` if a timestamp in the value has no
    /// date, and `Memory` if memory runs out.
    fn to_json(&self, alloc: Global) -> Result<Value, ToJsonError>
        // The result is JSON that represents the value, or the error of a timestamp out of range or
        // of memory.
        ensures { IsJsonResult (is_in_range self.now) (is_json self.now) result };
}

/// A string converts to a JSON string.
impl ToJson for String {
    ghost is_in_range = { λ _. ⊤ };

    ghost is_json = { λ s d. d ≡ string (string_bytes s) };

    fn to_json(&self, _alloc: Global) -> Result<Value, ToJsonError> {
        Ok(Value::String(self.clone()?))
    }
}

/// `None` converts to `null`, and `Some(x)` as `x` does.
impl<T: ToJson> ToJson for Option<T> {
    ghost is_in_range = { λ o. MatchOption o ⊤ T.is_in_range };

    ghost is_json = { λ o d. MatchOption o (d ≡ null) (λ x. T.is_json x d) };

    fn to_json(&self, alloc: Global) -> Result<Value, ToJsonError> {
        match self {
            Some(value) => value.to_json(alloc),
            None => Ok(Value::Null),
        }
    }
}

/// A slice converts to a JSON array.
impl<T: ToJson> ToJson for &[T] {
    ghost is_in_range = { λ items. All T.is_in_range items.now };

    ghost is_json = { λ items. IsJsonList T.is_json items.now };

    fn to_json(&self, alloc: Global) -> Result<Value, ToJsonError> {
        let mut values = Vec::with_capacity(alloc, self.len())?;
        for item in *self {
            values.push(item.to_json(alloc)?)?;
        }
        Ok(Value::Array(values))
    }
}
