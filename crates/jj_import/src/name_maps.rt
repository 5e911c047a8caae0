//! Changes of maps from names to commits, and their reversal.
ghost use Rattle.std.specs.Prelude.{◌≡◌, ℕ, List, true, false, IfOk, OnOk, OnErr, string_bytes};
ghost use Rattle.std.specs.Option.{option_map};
ghost use Rattle.std.specs.BTreeMap.{get_by_text};
ghost use Rattle.jj_backend.specs.Objects.{put};
ghost use Rattle.jj_import.specs.ImportStates.{has_entry, with_git_id, with_old, without_new_id};

use jj_backend::backend::CommitId;
use std::alloc::AllocError;
use std::collections::BTreeMap;

// Names a commit by Git's id, unless the id has a commit. Returns whether it had none.
pub(crate) fn add_id(
    ids: &mut BTreeMap<String, CommitId>,
    git_id: Option<String>,
    id: CommitId,
) -> Result<bool, AllocError>
    ensures added { OnOk result ((other : List ℕ) → get_by_text ids.new other ≡ with_git_id
        (λ name. get_by_text ids.old name) (option_map string_bytes git_id) id other) }
    ensures absent { IfOk result (λ is_new. is_new ≡ true → has_entry
        (λ name. get_by_text ids.old name) (option_map string_bytes git_id) ≡ false) }
    ensures known { IfOk result (λ is_new. is_new ≡ false → (other : List ℕ)
        → get_by_text ids.new other ≡ get_by_text ids.old other) }
    ensures unchanged { OnErr result ((other : List ℕ)
        → get_by_text ids.new other ≡ get_by_text ids.old other) }
{
    let Some(git_id) = git_id else {
        return Ok(false);
    };
    if ids.contains_key(git_id.as_str()) {
        return Ok(false);
    }
    ids.insert(git_id, id)?;
    Ok(true)
}

// Removes an id of Git, if there is one that is new.
pub(crate) fn remove_id(ids: &mut BTreeMap<String, CommitId>, git_id: Option<String>, is_new: bool)
    ensures { (other : List ℕ) → get_by_text ids.new other ≡ without_new_id
        (λ name. get_by_text ids.old name) (option_map string_bytes git_id) is_new other }
{
    if let Some(git_id) = git_id
        && is_new
    {
        let _removed = ids.remove(git_id.as_str());
    }
}

// Sets a ref.
pub(crate) fn set_name<V: Drop>(
    refs: &mut BTreeMap<String, V>,
    name: String,
    value: V,
) -> Result<Option<V>, AllocError>
    ensures set { OnOk result ((other : List ℕ) → get_by_text refs.new other
        ≡ put (λ name. get_by_text refs.old name) (string_bytes name) value other) }
    ensures old { IfOk result (λ old. old ≡ get_by_text refs.old (string_bytes name)) }
    ensures unchanged { OnErr result ((other : List ℕ)
        → get_by_text refs.new other ≡ get_by_text refs.old other) }
{
    let old = refs.insert(name, value)?;
    Ok(old)
}

// Gives a ref the value that it had.
pub(crate) fn restore<V: Drop>(refs: &mut BTreeMap<String, V>, name: String, old: Option<V>)
    requires { has_entry (λ name. get_by_text refs.old name) (Some (string_bytes name)) ≡ true }
    ensures { (other : List ℕ) → get_by_text refs.new other
        ≡ with_old (λ name. get_by_text refs.old name) (string_bytes name) old other }
{
    match old {
        Some(old) => {
            let _replaced = refs.insert(name, old);
        }
        None => {
            let _removed = refs.remove(name.as_str());
        }
    }
}
