//! Decoding of timestamps and signatures.
ghost use Rattle.std.specs.Prelude.{◌≡◌, ℕ, ◌<◌, ◌≤◌, List, length, ◌++◌, IfOk, IfErr};
ghost use Rattle.jj_decode.specs.Contents.{AreContents};
ghost use Rattle.jj_decode.specs.Decoding.{IsContentAt, IsMalformedAt};
ghost use Rattle.jj_decode.specs.RecordContents.{MillisContents, millis_contents, TimestampContents, timestamp_contents, SignatureContents, signature_contents, SecureSigContents, secure_sig_contents};

use crate::error::DecodeError;
use crate::read_content::{ReadContent, read_both};
use jj_backend::backend::{MillisSinceEpoch, SecureSig, Signature, Timestamp};
use std::alloc::Global;

impl ReadContent for MillisSinceEpoch {
    ghost is_content = { MillisContents };

    ghost errors = { ⟦<i64 as ReadContent>⟧.errors };

    ghost contents = { millis_contents };

    fn read(alloc: Global, bytes: &[u8], start: usize) -> Result<(Self, usize), DecodeError> {
        let (millis, end) = i64::read(alloc, bytes, start)?;
        Ok((MillisSinceEpoch(millis), end))
    }
}

impl ReadContent for Timestamp {
    ghost is_content = { TimestampContents };

    ghost errors = { ⟦<(MillisSinceEpoch, i32) as ReadContent>⟧.errors };

    ghost contents = { timestamp_contents };

    fn read(alloc: Global, bytes: &[u8], start: usize) -> Result<(Self, usize), DecodeError> {
        let ((timestamp, tz_offset), end) = read_both(alloc, bytes, start)?;
        let time = Timestamp {
            timestamp,
            tz_offset,
        };
        Ok((time, end))
    }
}

impl ReadContent for Signature {
    ghost is_content = { SignatureContents };

    ghost errors = { ⟦<(String, (String, Timestamp)) as ReadContent>⟧.errors };

    ghost contents = { signature_contents };

    fn read(alloc: Global, bytes: &[u8], start: usize) -> Result<(Self, usize), DecodeError> {
        let ((name, (email, timestamp)), end) = read_both(alloc, bytes, start)?;
        let signature = Signature {
            name,
            email,
            timestamp,
        };
        Ok((signature, end))
    }
}

impl ReadContent for SecureSig {
    ghost is_content = { SecureSigContents };

    ghost errors = { ⟦<(Vec<u8>, Vec<u8>) as ReadContent>⟧.errors };

    ghost contents = { secure_sig_contents };

    fn read(alloc: Global, bytes: &[u8], start: usize) -> Result<(Self, usize), DecodeError> {
        let ((signed_data, sig), end) = read_both(alloc, bytes, start)?;
        Ok((SecureSig { signed_data, sig }, end))
    }
}
