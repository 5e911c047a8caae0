//! Sample records of the tests.
use jj_backend::backend::{CopyHistory, CopyId, SecureSig};
use jj_paths::repo_path::RepoPathBuf;
use std::alloc::{AllocError, Global};

/// Creates the copy history of a file with one parent.
pub fn history(alloc: Global) -> Result<CopyHistory, AllocError> {
    Ok(CopyHistory {
        current_path: RepoPathBuf::root(alloc),
        parents: vec![in alloc; CopyId::from_bytes(alloc, &[9])?]?,
        salt: [7].to_vec(alloc)?,
    })
}

/// Creates a cryptographic signature.
pub fn sig(alloc: Global) -> Result<SecureSig, AllocError> {
    Ok(SecureSig {
        signed_data: [1, 2].to_vec(alloc)?,
        sig: [3].to_vec(alloc)?,
    })
}
