//! Requests on verifications of signatures.
use jj_stores::signing::{SigStatus, Verification};
use rows::request::{Fields, Request};
use rows::row_error::{RowError, agree};
use rows::values::Values;
use std::alloc::Global;

fn status(name: &str) -> Result<SigStatus, RowError> {
    match name {
        "Good" => Ok(SigStatus::Good),
        "Unknown" => Ok(SigStatus::Unknown),
        "Bad" => Ok(SigStatus::Bad),
        _ => Err(RowError::Unreadable("status")),
    }
}

// STATUS => its name
fn status_name(request: &Request, values: &mut Values) -> Result<(), RowError> {
    values.display(&status(request.group(0).string(0))?);
    Ok(())
}

// STATUS or STATUS KEY NAME
fn verification(alloc: Global, fields: &Fields) -> Result<Verification, RowError> {
    let status = status(fields.string(0))?;
    if fields.len() == 1 {
        return Ok(Verification::new(status, None, None));
    }
    let key = String::from_str(alloc, fields.string(1))?;
    let display = String::from_str(alloc, fields.string(2))?;
    Ok(Verification::new(status, Some(key), Some(display)))
}

// VERIFICATION | VERIFICATION => whether they are equal, and the first for debugging
fn equality(alloc: Global, request: &Request, values: &mut Values) -> Result<(), RowError> {
    let first = verification(alloc, request.group(0))?;
    let second = verification(alloc, request.group(1))?;
    values.flag(first == second);
    values.debug(&first);
    let copy = first.clone()?;
    agree(
        copy == first && copy.status() == first.status,
        "clone of a verification",
    )
}

/// Runs the request of this name. Returns `false` if this module has no such request.
pub fn call(alloc: Global, name: &str, request: &Request, values: &mut Values) -> bool {
    let called = match name {
        "sig-status" => status_name(request, values),
        "verification" => equality(alloc, request, values),
        _ => return false,
    };
    values.record(called);
    true
}
