//! JSON strings of IDs and names.
ghost use Rattle.std.specs.Prelude.{◌≡◌, ⊤};
ghost use Rattle.serde_json.specs.Data.{string};
ghost use Rattle.jj_ids.specs.IdDisplay.{display_bytes};
ghost use Rattle.jj_ids.specs.Names.{name_bytes};

use crate::to_json::{ToJson, ToJsonError};
use jj_content::hex_util::{encode_hex, encode_reverse_hex};
use jj_ids::object_id::{Id, IdKind, ObjectId};
use jj_ids::ref_name::{Name, NameBuf};
use serde_json::Value;
use std::alloc::Global;

/// An ID converts to its hexadecimal string, a change ID with reverse digits.
impl<K: IdKind> ToJson for Id<K> {
    ghost is_in_range = { λ _. ⊤ };

    ghost is_json = { λ id d. d ≡ string (display_bytes K.IS_REVERSED id) };

    fn to_json(&self, alloc: Global) -> Result<Value, ToJsonError> {
        if K::IS_REVERSED {
            Ok(Value::String(encode_reverse_hex(alloc, self.as_bytes())?))
        } else {
            Ok(Value::String(encode_hex(alloc, self.as_bytes())?))
        }
    }
}

impl<'a, K> ToJson for Name<'a, K> {
    ghost is_in_range = { λ _. ⊤ };

    ghost is_json = { λ name d. d ≡ string (name_bytes name) };

    fn to_json(&self, alloc: Global) -> Result<Value, ToJsonError> {
        Ok(Value::String(String::from_str(alloc, self.as_str())?))
    }
}

impl<K> ToJson for NameBuf<K> {
    ghost is_in_range = { λ _. ⊤ };

    ghost is_json = { λ name d. d ≡ string name };

    fn to_json(&self, alloc: Global) -> Result<Value, ToJsonError> {
        self.as_name().to_json(alloc)
    }
}
