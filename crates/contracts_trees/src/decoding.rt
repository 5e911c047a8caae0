//! Callers of `jj_decode`.
ghost use Rattle.std.specs.Prelude.{◌≡◌, IfOk};
ghost use Rattle.jj_decode.specs.Decoding.{DecodesTo};

use jj_backend::backend::Tree;
use jj_content::content_hash::ContentHash;
use jj_decode::decode;
use jj_decode::error::{DecodeError, Malformation};
use jj_decode::read_content::ReadContent;
use jj_paths::repo_path::RepoPathBuf;
use jj_stores::op_store::View;
use std::alloc::Global;
use std::collections::BTreeMap;
use std::mem;

/// `decode_content`.
pub fn decode_content<T: ReadContent>(alloc: Global, bytes: &[u8]) -> Result<T, DecodeError>
    ensures canonical { IfOk result (λ x. T.is_value x × (bytes.now ≡ T.content x)) }
    ensures complete { (x : T) → T.is_value x → bytes.now ≡ T.content x
        → DecodesTo (T.eq x) result }
{
    let value = decode::decode_content(alloc, bytes);
    value
}

/// `decode_content` of a flag.
pub fn decode_flag(alloc: Global, bytes: &[u8]) -> Result<bool, DecodeError>
    ensures { IfOk result (λ flag. bytes.now ≡ ⟦<bool as ContentHash>⟧.content flag) }
{
    let flag = decode::decode_content(alloc, bytes)?;
    Ok(flag)
}

/// `decode_content` of a map.
pub fn decode_map(alloc: Global, bytes: &[u8]) -> Result<BTreeMap<u32, u32>, DecodeError>
    ensures { IfOk result (λ map. bytes.now ≡ ⟦<BTreeMap<u32, u32> as ContentHash>⟧.content map) }
{
    let map = decode::decode_content(alloc, bytes);
    map
}

/// `decode_content` of a path.
pub fn decode_path(alloc: Global, bytes: &[u8]) -> Result<RepoPathBuf, DecodeError>
    ensures { IfOk result (λ path. bytes.now ≡ ⟦<RepoPathBuf as ContentHash>⟧.content path) }
{
    let path = decode::decode_content(alloc, bytes);
    path
}

/// `decode_content` of a tree.
pub fn decode_tree(alloc: Global, bytes: &[u8]) -> Result<Tree, DecodeError>
    ensures { IfOk result (λ tree. bytes.now ≡ ⟦<Tree as ContentHash>⟧.content tree) }
{
    let tree = decode::decode_content(alloc, bytes);
    tree
}

/// `decode_content` of a view.
pub fn decode_view(alloc: Global, bytes: &[u8]) -> Result<View, DecodeError>
    ensures { IfOk result (λ view. bytes.now ≡ ⟦<View as ContentHash>⟧.content view) }
{
    let view = decode::decode_content(alloc, bytes)?;
    Ok(view)
}
