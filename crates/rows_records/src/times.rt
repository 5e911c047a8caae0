//! Requests on times: milliseconds since 1970 and minutes of an offset.
use crate::arguments::time;
use crate::recorded::put_record;
use jiff::tz::{Offset, TimeZone};
use jj_backend::backend::Timestamp;
use jj_dates::timestamp::TimestampExt;
use rows::request::Request;
use rows::row_error::{RowError, agree};
use rows::values::Values;
use std::alloc::Global;

fn put_time(values: &mut Values, time: Timestamp) {
    values.signed(time.timestamp.0);
    values.signed(time.tz_offset as i64);
}

// MILLIS OFFSET => the milliseconds of its date and the seconds of that date's offset
fn date(request: &Request, values: &mut Values) -> Result<(), RowError> {
    match time(request.group(0), 0).to_datetime() {
        Ok(date) => {
            values.signed(date.timestamp().as_millisecond());
            values.signed(date.offset().seconds() as i64);
        }
        Err(error) => values.display(&error),
    }
    Ok(())
}

// The time of a moment in nanoseconds and an offset in seconds, and the time of their date.
fn times_of(nanos: i128, seconds: i32) -> Option<(Timestamp, Timestamp)> {
    let moment = jiff::Timestamp::from_nanosecond(nanos).ok()?;
    let offset = Offset::from_seconds(seconds).ok()?;
    let date = moment.to_zoned(TimeZone::fixed(offset));
    Some((
        Timestamp::now(moment, offset),
        Timestamp::from_datetime(&date),
    ))
}

// NANOSECONDS SECONDS => the time of that moment in that offset
fn now(request: &Request, values: &mut Values) -> Result<(), RowError> {
    let fields = request.group(0);
    let nanos = fields.signed(0);
    let Some((time, of_date)) = times_of(nanos as i128, fields.signed32(1)) else {
        return Err(RowError::Unreadable("moment"));
    };
    put_time(values, time);
    agree(of_date == time, "time of a date")
}

// MILLIS OFFSET => content, JSON
fn record(alloc: Global, request: &Request, values: &mut Values) -> Result<(), RowError> {
    let time = time(request.group(0), 0);
    put_record(alloc, values, &time);
    Ok(())
}

/// Runs the request of this name. Returns `false` if this module has no such request.
pub fn call(alloc: Global, name: &str, request: &Request, values: &mut Values) -> bool {
    let called = match name {
        "time-date" => date(request, values),
        "time-now" => now(request, values),
        "time" => record(alloc, request, values),
        _ => return false,
    };
    values.record(called);
    true
}
