//! Equality, clones and content hashes of the merges in a commit: its labels and its trees.
ghost use Rattle.std.specs.Prelude.{◌≡◌, map, string_bytes, IfOk, OnOk, OnErr};
ghost use Rattle.std.specs.Cmp.Lexicographic.{pointwise};
ghost use Rattle.std.specs.Str.{bytes_eq};
ghost use Rattle.jj_content.specs.Content.{Absorbs, AbsorbsPrefix, list_content, string_content};
ghost use Rattle.jj_merges.specs.Contents.{IsMergeOf};
ghost use Rattle.jj_backend.specs.Contents.{IsText};

use jj_content::content_hash::{ContentHash, DigestUpdate};
use jj_ids::object_id::TreeId;
use jj_merges::merge::Merge;
use std::alloc::{AllocError, Global};

pub(super) fn equal_strings(a: &Merge<String>, b: &Merge<String>) -> bool
    ensures { result ≡ pointwise bytes_eq (map string_bytes a.now) (map string_bytes b.now) }
{
    a == b
}

pub(super) fn clone_strings(
    alloc: Global,
    texts: &Merge<String>,
) -> Result<Merge<String>, AllocError>
    ensures { IfOk result (λ copy. map string_bytes copy ≡ map string_bytes texts.now) }
{
    texts.clone(alloc)
}

pub(super) fn hash_strings<D: DigestUpdate>(
    alloc: Global,
    state: &mut D,
    texts: &Merge<String>,
) -> Result<(), AllocError>
    ensures ok { OnOk result (Absorbs D.absorbed state.old state.new
        (list_content string_content (map string_bytes texts.now))) }
    ensures value { OnOk result (IsMergeOf IsText (map string_bytes texts.now)) }
    ensures err { OnErr result (AbsorbsPrefix D.absorbed state.old state.new
        (list_content string_content (map string_bytes texts.now))) }
{
    ContentHash::hash(texts, alloc, state)
}

pub(super) fn clone_trees(alloc: Global, trees: &Merge<TreeId>) -> Result<Merge<TreeId>, AllocError>
    ensures { IfOk result (λ copy. copy ≡ trees.now) }
{
    trees.clone(alloc)
}
