//! Conversion of timestamps from and to dates.
ghost use Rattle.std.specs.Prelude.{◌≡◌, ◌↔◌, ◌++◌, ◌*ℤ◌, ◌≤ℤ◌, ℤ, pos, negsuc, IsOk, IfOk, FitsSigned, int_div};
ghost use Rattle.std.specs.Int.{w64, w32, int_div_euclid};
ghost use Rattle.jiff.specs.Words.{IsTimestampNanos, plain_zoned, fixed_zone};
ghost use Rattle.jj_dates.specs.Times.{offset_seconds, HasOffset, IsWithinDay, nanoseconds, nanoseconds_in_millisecond, seconds_in_minute};

use jiff::Zoned;
use jiff::tz::{Offset, TimeZone};
use jj_backend::backend::{MillisSinceEpoch, Timestamp, TimestampOutOfRange};

// An offset of a day or more counts as UTC.
fn clamped_offset_seconds(minutes: i32) -> i32
    ensures value { result ≡ offset_seconds minutes }
    ensures within { IsWithinDay result }
{
    if -1439 <= minutes && minutes <= 1439 {
        minutes * 60
    } else {
        0
    }
}

/// Conversions of timestamps from and to dates.
pub trait TimestampExt: Sized {
    /// Returns the timestamp of a point in time, rounded down to milliseconds, with the offset
    /// rounded towards zero to minutes.
    fn now(instant: jiff::Timestamp, offset: Offset) -> Self;

    /// Returns the timestamp of a date and time with an offset, rounded as by `now`.
    fn from_datetime(datetime: &Zoned<'_>) -> Self;

    /// Returns the date and time in the timestamp's offset; an offset of a day or more counts as
    /// UTC. Fails if the timestamp is outside of the range of dates.
    fn to_datetime(&self) -> Result<Zoned<'static>, TimestampOutOfRange>;
}

impl TimestampExt for Timestamp {
    fn now(instant: jiff::Timestamp, offset: Offset) -> Timestamp
        ensures millis { result.timestamp.0 ≡ int_div_euclid instant.nanosecond
            nanoseconds_in_millisecond }
        ensures offset { result.tz_offset ≡ int_div offset.seconds seconds_in_minute }
    {
        Timestamp {
            timestamp: MillisSinceEpoch(instant.as_nanosecond().div_euclid(1_000_000) as i64),
            tz_offset: offset.seconds() / 60,
        }
    }

    fn from_datetime(datetime: &Zoned<'_>) -> Timestamp
        ensures millis { result.timestamp.0
            ≡ int_div_euclid (plain_zoned datetime.now).timestamp.nanosecond
            nanoseconds_in_millisecond }
        ensures offset { result.tz_offset
            ≡ int_div (plain_zoned datetime.now).offset.seconds seconds_in_minute }
    {
        Timestamp::now(datetime.timestamp(), datetime.offset())
    }

    fn to_datetime(&self) -> Result<Zoned<'static>, TimestampOutOfRange>
        // The conversion succeeds exactly if `jiff` can represent the instant.
        ensures succeeds { IsOk result ↔ IsTimestampNanos (nanoseconds self.now.timestamp.0) }
        // The result is the same instant, in milliseconds since 1970.
        ensures instant { IfOk result (λ z. (plain_zoned z).timestamp.nanosecond
            ≡ nanoseconds self.now.timestamp.0) }
        // Its time zone has the fixed offset of the timestamp, or is UTC for an offset of a day or
        // more.
        ensures offset { IfOk result (λ z. HasOffset z (offset_seconds self.now.tz_offset)) }
    {
        let minutes = self.tz_offset;
        let offset = match Offset::from_seconds(clamped_offset_seconds(minutes)) {
            Ok(offset) => offset,
            Err(_) => unreachable!(),
        };
        match jiff::Timestamp::from_millisecond(self.timestamp.0) {
            Ok(instant) => Ok(instant.to_zoned(TimeZone::fixed(offset))),
            Err(_) => Err(TimestampOutOfRange),
        }
    }
}
