//! Lists: the number of items, then the items.
ghost use Rattle.std.specs.Prelude.{◌≡◌, ℕ, ◌<◌, ◌≤◌, ◌-◌, ◌^◌, ◌⊎◌, length, IfOk, IfErr};
ghost use Rattle.std.specs.List.{flat_map};
ghost use Rattle.jj_content.specs.Content.{u64_content, list_content, AreValues};
ghost use Rattle.jj_decode.specs.Contents.{ListContents};
ghost use Rattle.jj_decode.specs.Decoding.{IsContentAt, IsErrorAt, IsMalformedAt, AreItems, IsCounted, counted_content};
ghost use Rattle.jj_decode.specs.Errors.{CountErrors, ItemErrors, ListErrors};
ghost use Rattle.jj_decode.specs.declared.error.DecodeError.TheVariants.{Memory};

use crate::error::DecodeError;
use crate::integers::read_u64;
use crate::read_content::ReadContent;
use std::alloc::Global;

/// Reads a count of items that have at least one byte each. Returns it and the offset after it.
/// Returns `Malformation::Truncated` if it exceeds the number of remaining bytes.
pub fn read_count(bytes: &[u8], start: usize) -> Result<(usize, usize), DecodeError>
    requires { start ≤ length bytes.now }
    ensures decoded { IfOk result (λ decoded.
        IsContentAt (λ n. n < 2 ^ 64) u64_content bytes.now start decoded.0 decoded.1) }
    ensures bounded { IfOk result (λ decoded. decoded.0 ≤ length bytes.now - decoded.1) }
    ensures malformed { IfErr result (IsErrorAt IsCounted counted_content bytes.now start) }
    ensures error { IfErr result (CountErrors bytes.now start) }
{
    let (count, mid) = read_u64(bytes, start)?;
    let count = count as usize;
    if bytes.len() - mid < count {
        return Err(DecodeError::truncated(start));
    }
    Ok((count, mid))
}

/// Reads `count` values, one after the other. Returns them and the offset after the last. The list
/// grows as items are read; no memory is reserved for `count` items.
pub fn read_items<T: ReadContent>(
    alloc: Global,
    bytes: &[u8],
    start: usize,
    count: usize,
) -> Result<(Vec<T>, usize), DecodeError>
    requires { start ≤ length bytes.now }
    ensures decoded { IfOk result (λ decoded. IsContentAt (AreItems count T.is_value)
        (flat_map T.content) bytes.now start decoded.0.items decoded.1) }
    ensures malformed { IfErr result (IsErrorAt (AreItems count T.is_content) (flat_map (λ b. b))
        bytes.now start) }
    ensures error { IfErr result (λ e. (e ≡ Memory)
        ⊎ ItemErrors count T.is_value T.content T.errors bytes.now start e) }
{
    let mut items = Vec::new(alloc);
    let mut offset = start;
    for _ in 0..count {
        let (item, end) = T::read(alloc, bytes, offset)?;
        items.push(item)?;
        offset = end;
    }
    Ok((items, offset))
}

/// Reads a list. Returns it and the offset after it. Allocates only after the number of items was
/// checked against the number of remaining bytes.
pub fn read_list<T: ReadContent>(
    alloc: Global,
    bytes: &[u8],
    start: usize,
) -> Result<(Vec<T>, usize), DecodeError>
    requires { start ≤ length bytes.now }
    ensures decoded { IfOk result (λ decoded. IsContentAt (AreValues T.is_value)
        (list_content T.content) bytes.now start decoded.0.items decoded.1) }
    ensures malformed { IfErr result (IsMalformedAt (ListContents T.is_content) bytes.now start) }
    ensures error { IfErr result (ListErrors T.is_value T.content T.errors bytes.now start) }
{
    let (count, mid) = read_count(bytes, start)?;
    let (items, end) = read_items(alloc, bytes, mid, count)?;
    Ok((items, end))
}
