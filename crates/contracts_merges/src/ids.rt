//! Callers of `jj_ids`.
ghost use Rattle.std.specs.Prelude.{◌≡◌, IfOk, IfSome, nat_eq};
ghost use Rattle.std.specs.List.{starts_with};
ghost use Rattle.std.specs.Str.{str_to_ascii_lowercase};
ghost use Rattle.std.specs.String.{string_bytes};
ghost use Rattle.jj_content.specs.Hex.{hex};
ghost use Rattle.jj_ids.specs.HexPrefixes.{to_forward_hex};
ghost use Rattle.jj_ids.specs.Names.{name_bytes};
ghost use Rattle.jj_ids.specs.Resolution.{IsCloneOf, sum};
ghost use Rattle.jj_ids.specs.SymbolDisplay.{symbol_display};

use jj_ids::object_id::{HexPrefix, ObjectId, PrefixResolution};
use jj_ids::ref_name::RefName;
use std::alloc::{AllocError, Global};

/// `HexPrefix::matches`.
pub fn matches<Q: ObjectId>(prefix: &HexPrefix, id: &Q) -> bool
    ensures { result ≡ starts_with nat_eq (hex (Q.id_bytes id.now)) prefix.now }
{
    prefix.matches(id)
}

/// `HexPrefix::try_from_reverse_hex`.
pub fn try_from_reverse_hex(alloc: Global, digits: &str) -> Result<Option<HexPrefix>, AllocError>
    ensures { IfOk result (λ read. IfSome read
        (λ p. p ≡ to_forward_hex (str_to_ascii_lowercase digits.now))) }
{
    HexPrefix::try_from_reverse_hex(alloc, digits)
}

/// `PrefixResolution::plus`.
pub fn plus<T: Clone>(
    first: &PrefixResolution<T>,
    second: &PrefixResolution<T>,
) -> Result<PrefixResolution<T>, AllocError>
    ensures { IfOk result (IsCloneOf T.is_clone (sum first.now second.now)) }
{
    first.plus(second)
}

/// `Display` of `RefSymbol`.
pub fn symbol_text(alloc: Global, name: RefName<'_>) -> Result<String, AllocError>
    ensures { IfOk result (λ text. string_bytes text ≡ symbol_display (name_bytes name.entry)) }
{
    name.as_symbol().to_string(alloc)
}
