//! Proved callers: content-addressed keys of records. Equal keys mean equal records or a collision
//! of BLAKE2b.
ghost use Rattle.std.specs.Prelude.{◌≡◌, ◌⊎◌, ◌↔◌, IfOk, IsTrue, OnOk};
ghost use Rattle.jj_content.specs.Blake2b.{blake2b};
ghost use Rattle.jj_content_tests.specs.Notes.{note_content, IsNote, AreSame, Collide};
ghost use Rattle.jj_content_tests.specs.Reviews.{review_content, AreSameReviews};

use crate::records::{Note, Review};
use jj_content::content_hash::{blake2b_hash, content_decides};
use std::alloc::{AllocError, Global};

/// Returns the key of a note: the digest of its content.
pub fn key(alloc: Global, note: &Note) -> Result<[u8; 64], AllocError>
    ensures digest { IfOk result (λ key. key ≡ blake2b (note_content note.now)) }
    ensures value { OnOk result (IsNote note.now) }
{
    blake2b_hash(alloc, note)
}

/// Returns whether two notes have the same key. They do if and only if they are equal or their
/// contents collide.
pub fn have_equal_keys(alloc: Global, first: &Note, second: &Note) -> Result<bool, AllocError>
    ensures { IfOk result (λ yes. IsTrue yes ↔ (AreSame first.now second.now
        ⊎ Collide (note_content first.now) (note_content second.now))) }
{
    content_decides::<Note>();
    let first_key = key(alloc, first)?;
    let second_key = key(alloc, second)?;
    Ok(first_key == second_key)
}

/// Returns whether two reviews have the same digest. They do if and only if they are equal or their
/// contents collide.
pub fn have_equal_digests(
    alloc: Global,
    first: &Review,
    second: &Review,
) -> Result<bool, AllocError>
    ensures { IfOk result (λ yes. IsTrue yes ↔ (AreSameReviews first.now second.now
        ⊎ Collide (review_content first.now) (review_content second.now))) }
{
    content_decides::<Review>();
    let first_digest = blake2b_hash(alloc, first)?;
    let second_digest = blake2b_hash(alloc, second)?;
    Ok(first_digest == second_digest)
}
