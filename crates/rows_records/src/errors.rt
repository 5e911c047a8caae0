//! Strings of errors: `error-string KIND FIELDS`.
use crate::arguments::id;
use jj_backend::backend::{BackendError, BackendInitError, BackendLoadError, TimestampOutOfRange};
use jj_backend::signing::SignError;
use jj_files::file_util::{SourceError, SourceKind};
use jj_paths::repo_path::RepoPathBuf;
use jj_stores::op_store::OpStoreError;
use jj_stores::workspace_store::WorkspaceStoreError;
use rows::request::{Fields, Request};
use rows::row_error::RowError;
use rows::values::Values;
use std::alloc::{AllocError, Global};

fn cause(fields: &Fields, index: usize) -> Result<SourceError, AllocError> {
    Ok(SourceError {
        kind: SourceKind::Other,
        message: fields.owned(index)?,
    })
}

// The type and the hash of an object.
fn object(fields: &Fields) -> Result<(String, String), AllocError> {
    let object_type = fields.owned(1)?;
    Ok((object_type, fields.owned(2)?))
}

fn invalid_length(fields: &Fields) -> Result<BackendError, AllocError> {
    let expected = fields.index(3);
    let actual = fields.index(4);
    let (object_type, hash) = object(fields)?;
    Ok(BackendError::InvalidHashLength {
        expected,
        actual,
        object_type,
        hash,
    })
}

fn not_found(fields: &Fields) -> Result<BackendError, AllocError> {
    let (object_type, hash) = object(fields)?;
    Ok(BackendError::ObjectNotFound {
        object_type,
        hash,
        source: None,
    })
}

fn unreadable(fields: &Fields, is_denied: bool) -> Result<BackendError, AllocError> {
    let source = cause(fields, 3)?;
    let (object_type, hash) = object(fields)?;
    if is_denied {
        return Ok(BackendError::ReadAccessDenied {
            object_type,
            hash,
            source,
        });
    }
    Ok(BackendError::ReadObject {
        object_type,
        hash,
        source,
    })
}

fn unreadable_file(alloc: Global, fields: &Fields) -> Result<BackendError, RowError> {
    let path = fields.owned(1)?;
    let Ok(path) = RepoPathBuf::from_internal_string(path) else {
        return Err(RowError::Unreadable("path"));
    };
    let id = id(alloc, fields, 2)?;
    Ok(BackendError::ReadFile {
        path,
        id,
        source: cause(fields, 3)?,
    })
}

fn unwritable(fields: &Fields) -> Result<BackendError, AllocError> {
    Ok(BackendError::WriteObject {
        object_type: "commit",
        source: cause(fields, 1)?,
    })
}

fn backend_error(alloc: Global, fields: &Fields) -> Result<BackendError, RowError> {
    match fields.string(0) {
        "invalid-length" => Ok(invalid_length(fields)?),
        "not-found" => Ok(not_found(fields)?),
        "unreadable" => Ok(unreadable(fields, false)?),
        "denied" => Ok(unreadable(fields, true)?),
        "unreadable-file" => unreadable_file(alloc, fields),
        "unwritable-commit" => Ok(unwritable(fields)?),
        "other" => Ok(BackendError::Other(cause(fields, 1)?)),
        "unsupported" => Ok(BackendError::Unsupported(fields.owned(1)?)),
        "memory" => Ok(BackendError::Memory),
        _ => Err(RowError::Unreadable("kind of error")),
    }
}

fn backend_string(alloc: Global, request: &Request, values: &mut Values) -> Result<(), RowError> {
    values.display(&backend_error(alloc, request.group(0))?);
    Ok(())
}

// The cause as the error of a backend that could not be made, and of one that could not be opened.
fn start_string(request: &Request, values: &mut Values) -> Result<(), RowError> {
    let fields = request.group(0);
    values.display(&BackendInitError(cause(fields, 0)?));
    values.display(&BackendLoadError(cause(fields, 0)?));
    Ok(())
}

fn sign_error(fields: &Fields) -> Result<SignError, RowError> {
    match fields.string(0) {
        "invalid" => Ok(SignError::InvalidSignatureFormat),
        "backend" => Ok(SignError::Backend(cause(fields, 1)?)),
        "memory" => Ok(SignError::Memory),
        _ => Err(RowError::Unreadable("kind of error")),
    }
}

fn sign_string(request: &Request, values: &mut Values) -> Result<(), RowError> {
    values.display(&sign_error(request.group(0))?);
    Ok(())
}

fn store_not_found(fields: &Fields) -> Result<OpStoreError, AllocError> {
    let (object_type, hash) = object(fields)?;
    Ok(OpStoreError::ObjectNotFound {
        object_type,
        hash,
        source: None,
    })
}

fn store_unreadable(fields: &Fields) -> Result<OpStoreError, AllocError> {
    let source = cause(fields, 3)?;
    let (object_type, hash) = object(fields)?;
    Ok(OpStoreError::ReadObject {
        object_type,
        hash,
        source,
    })
}

fn store_unwritable(fields: &Fields) -> Result<OpStoreError, AllocError> {
    Ok(OpStoreError::WriteObject {
        object_type: "view",
        source: cause(fields, 1)?,
    })
}

fn store_error(fields: &Fields) -> Result<OpStoreError, RowError> {
    match fields.string(0) {
        "not-found" => Ok(store_not_found(fields)?),
        "unreadable" => Ok(store_unreadable(fields)?),
        "unwritable-view" => Ok(store_unwritable(fields)?),
        "other" => Ok(OpStoreError::Other(cause(fields, 1)?)),
        "memory" => Ok(OpStoreError::Memory),
        _ => Err(RowError::Unreadable("kind of error")),
    }
}

fn store_string(request: &Request, values: &mut Values) -> Result<(), RowError> {
    values.display(&store_error(request.group(0))?);
    Ok(())
}

fn workspace_error(fields: &Fields) -> Result<WorkspaceStoreError, RowError> {
    match fields.string(0) {
        "other" => Ok(WorkspaceStoreError::Other(cause(fields, 1)?)),
        "memory" => Ok(WorkspaceStoreError::Memory),
        _ => Err(RowError::Unreadable("kind of error")),
    }
}

fn workspace_string(request: &Request, values: &mut Values) -> Result<(), RowError> {
    values.display(&workspace_error(request.group(0))?);
    Ok(())
}

fn time_string(values: &mut Values) -> Result<(), RowError> {
    values.display(&TimestampOutOfRange);
    Ok(())
}

/// Runs the request of this name. Returns `false` if this module has no such request.
pub fn call(alloc: Global, name: &str, request: &Request, values: &mut Values) -> bool {
    let called = match name {
        "backend-error" => backend_string(alloc, request, values),
        "backend-start-errors" => start_string(request, values),
        "sign-error" => sign_string(request, values),
        "op-store-error" => store_string(request, values),
        "workspace-store-error" => workspace_string(request, values),
        "time-error" => time_string(values),
        _ => return false,
    };
    values.record(called);
    true
}
