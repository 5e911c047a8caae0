//! Author and committer signatures, and cryptographic signatures.
ghost use Rattle.std.specs.Prelude.{string_bytes};
ghost use Rattle.jj_backend.specs.Records.{SignatureValue, SecureSigValue};

use super::Timestamp;
use std::marker::Model;

/// The name and email of an author or a committer, and the time of the change.
#[derive(Debug, Drop)]
pub struct Signature {
    pub name: String,
    pub email: String,
    pub timestamp: Timestamp,
}

impl Model for Signature {
    ghost Value = { SignatureValue };

    ghost view = { λ s. record {
      name = string_bytes s.name;
      email = string_bytes s.email;
      timestamp = s.timestamp;
    } };
}

/// A cryptographic signature, with the data that it signs.
#[derive(Debug, Drop)]
pub struct SecureSig {
    pub signed_data: Vec<u8>,
    pub sig: Vec<u8>,
}

impl Model for SecureSig {
    ghost Value = { SecureSigValue };

    ghost view = { λ s. record { signed_data = s.signed_data.items; sig = s.sig.items } };
}
