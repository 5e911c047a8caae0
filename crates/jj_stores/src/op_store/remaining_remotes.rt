//! K-way merge of the refs of remotes, by a binary heap of their first names.
ghost use Rattle.std.specs.Prelude.{◌≡◌, map, option_map, [], IfOk, OnOk, MatchOption};
ghost use Rattle.std.specs.List.{slice_get, All, AllZip};
ghost use Rattle.std.specs.Option.{option_copied};
ghost use Rattle.std.specs.Map.{keys_of, lookup};
ghost use Rattle.std.specs.Str.{bytes_eq};
ghost use Rattle.jj_merges.specs.Calls.{CallsReturn};
ghost use Rattle.jj_stores.specs.ViewJoins.{IsAscending, IsLeast, RemovesAt, remotes_with, IsFirstName, IsFirstOfRemotes};
ghost use Rattle.jj_stores.specs.FlatRefs.{RemovesRef};
ghost use Rattle.jj_stores.specs.JoinRows.{ref_of, SelectsRefs};

use super::remaining_refs::{RemainingRefs, min_name};
use super::{RefTarget, RemoteRef, RemoteView};
use jj_ids::ref_name::{RefName, RefNameBuf, RemoteName, RemoteNameBuf};
use std::alloc::{AllocError, Global};
use std::cmp::Reverse;
use std::collections::{BTreeMap, BinaryHeap};
use std::marker::Model;

// The remaining refs of a remote.
#[derive(Drop)]
pub(super) struct RemainingRemote<'a> {
    remote: RemoteName<'a>,
    refs: RemainingRefs<'a, RemoteRef>,
}

impl<'a> Model for RemainingRemote<'a> {
    ghost use Rattle.std.specs.Prelude.{ℕ, List};
    ghost use Rattle.jj_ids.specs.Names.{name_bytes};
    ghost use Rattle.jj_stores.specs.ViewJoins.{Named};
    ghost use Rattle.jj_stores.specs.declared.op_store.ref_target.RemoteRef.{RemoteRef as Ref};

    ghost Value = { List ℕ × Named Ref };

    ghost view = { λ left. (name_bytes left.remote, left.refs) };
}

impl<'a> RemainingRemote<'a> {
    fn first_name(&self) -> Option<&'a RefNameBuf>
        ensures first { option_copied result ≡ slice_get (keys_of self.now.1) 0 }
        ensures ascending { IsAscending self.now.1 }
    {
        self.refs.first_name()
    }

    // Removes the first ref if it has this name.
    fn take_if_named(&mut self, name: &RefNameBuf) -> Option<(RemoteName<'a>, &'a RemoteRef)>
        requires { IsLeast name.now self.old.1 }
        ensures found { option_map ref_of result ≡ option_map (λ r. (self.old.0, r))
            (lookup (bytes_eq name.now) self.old.1) }
        ensures left { RemovesAt name.now self.old self.new }
    {
        let target = self.refs.take_if_named(name)?;
        Some((self.remote, target))
    }
}

// The remaining refs of remotes, and a min-heap of the first name of each remote that has refs
// left, with the index of the remote.
#[derive(Drop)]
pub(super) struct RemainingRemotes<'a> {
    remotes: Vec<RemainingRemote<'a>>,
    firsts: BinaryHeap<Reverse<(RefName<'a>, usize)>>,
}

impl<'a> Model for RemainingRemotes<'a> {
    ghost use Rattle.std.specs.Prelude.{map};
    ghost use Rattle.std.specs.BinaryHeap.{heap_items, IsHeap};
    ghost use Rattle.jj_stores.specs.FirstNameHeap.{AreFirstNames, earlier_cmp, name_and_index};
    ghost use Rattle.jj_stores.specs.ViewJoins.{Named};
    ghost use Rattle.jj_stores.specs.declared.op_store.ref_target.RemoteRef.{RemoteRef as Ref};

    ghost Value = { Named (Named Ref) };

    ghost view = { λ left. left.remotes.items };

    ghost invariant = { λ left.
        AreFirstNames left.remotes.items (map name_and_index (heap_items left.firsts))
        × IsHeap (λ a b. earlier_cmp (name_and_index a) (name_and_index b))
        (heap_items left.firsts) };
}

impl<'a> RemainingRemotes<'a> {
    fn new(alloc: Global, remotes: Vec<RemainingRemote<'a>>) -> Result<Self, AllocError>
        ensures { IfOk result (λ left. left ≡ remotes.entry.items) }
    {
        let mut firsts = BinaryHeap::with_capacity(alloc, remotes.len())?;
        for remote_index in 0..remotes.len() {
            if let Some(name) = remotes[remote_index].first_name() {
                firsts.push(Reverse((name.as_name(), remote_index)))?;
            }
        }
        Ok(RemainingRemotes { remotes, firsts })
    }

    // Returns the least remaining name.
    pub(super) fn first_name(&self) -> Option<&'a RefNameBuf>
        ensures { IsFirstOfRemotes self.now (option_copied result) }
    {
        let Reverse((_, remote_index)) = self.firsts.peek()?;
        self.remotes[*remote_index].first_name()
    }

    // Removes the ref of the least name from the first remote that has it.
    pub(super) fn take_ref(&mut self, name: &RefNameBuf) -> Option<(RemoteName<'a>, &'a RemoteRef)>
        requires { All (λ remote. IsLeast name.now remote.1) self.old }
        ensures { MatchOption result
            ((remotes_with self.old name.now ≡ []) × (self.new ≡ self.old)
            × All (λ remote. IsAscending remote.1) self.old)
            (λ found. RemovesRef name.now self.old (ref_of found) self.new) }
    {
        let Reverse((first, _)) = self.firsts.peek()?;
        if *first != name.as_name() {
            return None;
        }
        let Reverse((_, remote_index)) = self.firsts.pop()?;
        let Some(found) = self.remotes[remote_index].take_if_named(name) else {
            unreachable!();
        };
        if let Some(next) = self.remotes[remote_index].first_name() {
            match self.firsts.push(Reverse((next.as_name(), remote_index))) {
                Ok(()) => {}
                Err(_) => unreachable!(),
            }
        }
        Some(found)
    }

    // Removes the refs of the least name from all remotes, in order of the remotes.
    pub(super) fn take_refs(
        &mut self,
        alloc: Global,
        name: &RefNameBuf,
    ) -> Result<Vec<(RemoteName<'a>, &'a RemoteRef)>, AllocError>
        requires { All (λ remote. IsLeast name.now remote.1) self.old }
        ensures refs { IfOk result (λ refs.
            map ref_of refs.items ≡ remotes_with self.old name.now) }
        ensures left { OnOk result (AllZip (RemovesAt name.now) self.old self.new) }
    {
        let mut refs = Vec::new(alloc);
        while let Some(found) = self.take_ref(name) {
            refs.push(found)?;
        }
        Ok(refs)
    }
}

// Returns the least remaining name of local and remote refs.
pub(super) fn first_name<'a>(
    locals: &RemainingRefs<'a, RefTarget>,
    remotes: &RemainingRemotes<'a>,
) -> Option<&'a RefNameBuf>
    ensures { IsFirstName locals.now remotes.now (option_copied result) }
{
    let local = locals.first_name();
    let Some(remote) = remotes.first_name() else {
        return local;
    };
    match local {
        Some(local) => Some(min_name(local, remote)),
        None => Some(remote),
    }
}

fn select_refs<'a, F: FnMut(&'a RemoteView) -> &'a BTreeMap<RefNameBuf, RemoteRef>>(
    alloc: Global,
    remote_views: &'a BTreeMap<RemoteNameBuf, RemoteView>,
    get_remote_refs: F,
) -> Result<Vec<RemainingRemote<'a>>, AllocError>
    requires { F.IsAlwaysCallable get_remote_refs }
    ensures { IfOk result (λ remotes. (last : F) × CallsReturn (SelectsRefs F.FnMut) get_remote_refs
        remote_views.now.entries remotes.items last) }
{
    let mut get_remote_refs = get_remote_refs;
    let mut remotes = Vec::with_capacity(alloc, remote_views.len())?;
    for (remote, view) in remote_views {
        let refs = RemainingRefs::new(get_remote_refs(view));
        remotes.push(RemainingRemote {
            remote: remote.as_name(),
            refs,
        })?;
    }
    Ok(remotes)
}

pub(super) fn remaining_remotes<
    'a,
    F: FnMut(&'a RemoteView) -> &'a BTreeMap<RefNameBuf, RemoteRef>,
>(
    alloc: Global,
    remote_views: &'a BTreeMap<RemoteNameBuf, RemoteView>,
    get_remote_refs: F,
) -> Result<RemainingRemotes<'a>, AllocError>
    requires { F.IsAlwaysCallable get_remote_refs }
    ensures { IfOk result (λ remotes. (last : F) × CallsReturn (SelectsRefs F.FnMut) get_remote_refs
        remote_views.now.entries remotes last) }
{
    let remotes = select_refs(alloc, remote_views, get_remote_refs)?;
    RemainingRemotes::new(alloc, remotes)
}
