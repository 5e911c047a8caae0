//! Timestamps in milliseconds with an offset from UTC.
use thiserror::Error;

/// Milliseconds since the Unix epoch, 1970-01-01T00:00Z.
#[derive(Clone, Copy, Debug, PartialEq, Eq, PartialOrd, Ord, Hash)]
pub struct MillisSinceEpoch(pub i64);

/// A point in time, with an offset from UTC in minutes.
#[derive(Clone, Copy, Debug, PartialEq, Eq, PartialOrd, Ord, Hash)]
pub struct Timestamp {
    pub timestamp: MillisSinceEpoch,
    pub tz_offset: i32,
}

/// The error for a timestamp outside of the range of dates.
#[derive(Clone, Copy, Debug, PartialEq, Eq, Error)]
#[error("Out-of-range date")]
pub struct TimestampOutOfRange;
