//! Merge join of local and remote refs by name, and the k-way merge of the refs of all remotes.
ghost use Rattle.std.specs.Prelude.{◌≡◌, IfOk};
ghost use Rattle.jj_merges.specs.Calls.{CallsReturn};
ghost use Rattle.jj_stores.specs.JoinRows.{SelectsRefs};

use super::remaining_refs::RemainingRefs;
use super::remaining_remotes::{RemainingRemotes, first_name, remaining_remotes};
use super::{RefTarget, RemoteRef, RemoteView};
use jj_ids::ref_name::{RefName, RefNameBuf, RemoteName, RemoteNameBuf, RemoteRefSymbol};
use std::alloc::{AllocError, Global};
use std::collections::BTreeMap;
use std::marker::Model;

/// The local ref and the remote refs of one name. `local_target` is `None` if there is no local
/// ref.
#[derive(Clone, Debug, PartialEq, Eq, Drop)]
pub struct LocalRemoteRefTarget<'a> {
    pub local_target: Option<&'a RefTarget>,
    pub remote_refs: Vec<(RemoteName<'a>, &'a RemoteRef)>,
}

/// Iterates over the join of local and remote refs in ascending order of names. Yields an error,
/// and nothing more, if a row cannot be allocated.
#[derive(Drop)]
pub struct MergeJoinRefViews<'a> {
    alloc: Global,
    locals: RemainingRefs<'a, RefTarget>,
    remotes: RemainingRemotes<'a>,
    is_ended: bool,
}

impl<'a> Model for MergeJoinRefViews<'a> {
    ghost use Rattle.jj_stores.specs.JoinRows.{RemainingJoin, remaining_unless};

    ghost Value = { RemainingJoin };

    ghost view = { λ join. remaining_unless join.is_ended join.locals join.remotes };
}

impl<'a> Iterator for MergeJoinRefViews<'a> {
    ghost use Rattle.std.specs.Iterator.{at_most};
    ghost use Rattle.jj_stores.specs.JoinRows.{remaining_count};
    ghost use Rattle.jj_stores.specs.JoinSteps.{YieldsRow};

    type Item = Result<(RefName<'a>, LocalRemoteRefTarget<'a>), AllocError>;

    ghost next_gives = { YieldsRow };

    ghost remaining = { λ join. at_most (remaining_count join) };

    fn next(&mut self) -> Option<Result<(RefName<'a>, LocalRemoteRefTarget<'a>), AllocError>> {
        if self.is_ended {
            return None;
        }
        let name = first_name(&self.locals, &self.remotes)?;
        let local_target = self.locals.take_if_named(name);
        match self.remotes.take_refs(self.alloc, name) {
            Ok(remote_refs) => {
                let target = LocalRemoteRefTarget {
                    local_target,
                    remote_refs,
                };
                Some(Ok((name.as_name(), target)))
            }
            Err(error) => {
                self.is_ended = true;
                Some(Err(error))
            }
        }
    }
}

/// Joins local and remote refs by name. `get_remote_refs` selects the refs of a remote; it is
/// called once for each remote, in order of their names. O(r log r) for r remotes, and O(log r)
/// for each remote ref of a row.
pub fn merge_join_ref_views<'a, F>(
    alloc: Global,
    local_refs: &'a BTreeMap<RefNameBuf, RefTarget>,
    remote_views: &'a BTreeMap<RemoteNameBuf, RemoteView>,
    get_remote_refs: F,
) -> Result<MergeJoinRefViews<'a>, AllocError>
where
    F: FnMut(&'a RemoteView) -> &'a BTreeMap<RefNameBuf, RemoteRef>,
    // The closure may be called in each of its states.
    requires { F.IsAlwaysCallable get_remote_refs }
    // The join has all local refs left.
    ensures locals { IfOk result (λ join. join.locals ≡ local_refs.now.entries) }
    // For each remote, in order, it has all refs left that `get_remote_refs` selects, which is
    // called once.
    ensures remotes { IfOk result (λ join. (last : F) × CallsReturn (SelectsRefs F.FnMut)
        get_remote_refs remote_views.now.entries join.remotes last) }
{
    let remotes = remaining_remotes(alloc, remote_views, get_remote_refs)?;
    Ok(MergeJoinRefViews {
        alloc,
        locals: RemainingRefs::new(local_refs),
        remotes,
        is_ended: false,
    })
}

/// Iterates over the refs of all remotes, ordered by ref name and then by remote name.
#[derive(Drop)]
pub struct FlattenRemoteRefs<'a> {
    remotes: RemainingRemotes<'a>,
}

impl<'a> Model for FlattenRemoteRefs<'a> {
    ghost use Rattle.jj_stores.specs.ViewJoins.{Named};
    ghost use Rattle.jj_stores.specs.declared.op_store.ref_target.RemoteRef.{RemoteRef as Ref};

    ghost Value = { Named (Named Ref) };

    ghost view = { λ refs. refs.remotes };
}

impl<'a> Iterator for FlattenRemoteRefs<'a> {
    ghost use Rattle.std.specs.Prelude.{length};
    ghost use Rattle.std.specs.Iterator.{at_most};
    ghost use Rattle.std.specs.List.{sum_by};
    ghost use Rattle.jj_stores.specs.FlatRefs.{YieldsRef};

    type Item = (RemoteRefSymbol<'a>, &'a RemoteRef);

    ghost next_gives = { YieldsRef };

    ghost remaining = { λ remotes. at_most (sum_by (λ r. length r.1) remotes) };

    fn next(&mut self) -> Option<(RemoteRefSymbol<'a>, &'a RemoteRef)> {
        let name = self.remotes.first_name()?;
        let (remote, target) = self.remotes.take_ref(name)?;
        Some((name.as_name().to_remote_symbol(remote), target))
    }
}

/// Merges the refs of all remotes, ordered by ref name and then by remote name. `get_remote_refs`
/// selects the refs of a remote; it is called once for each remote, in order of their names.
/// O(r log r) for r remotes, and O(log r) for each ref.
pub fn flatten_remote_refs<'a, F>(
    alloc: Global,
    remote_views: &'a BTreeMap<RemoteNameBuf, RemoteView>,
    get_remote_refs: F,
) -> Result<FlattenRemoteRefs<'a>, AllocError>
where
    F: FnMut(&'a RemoteView) -> &'a BTreeMap<RefNameBuf, RemoteRef>,
    requires { F.IsAlwaysCallable get_remote_refs }
    ensures { IfOk result (λ refs. (last : F) × CallsReturn (SelectsRefs F.FnMut) get_remote_refs
        remote_views.now.entries refs last) }
{
    let remotes = remaining_remotes(alloc, remote_views, get_remote_refs)?;
    Ok(FlattenRemoteRefs { remotes })
}
