//! Targets of local and remote refs.
ghost use Rattle.std.specs.Prelude.{◌≡◌, ◌↔◌, IsTrue, None, IfOk};
ghost use Rattle.std.specs.Cmp;
ghost use Rattle.std.specs.Option.{option_copied};
ghost use Rattle.jj_stores.specs.RefTargets.{absent_target, absent_ref, tracked_target};

use super::copies::CloneIn;
use jj_backend::backend::CommitId;
use jj_merges::merge::Merge;
use std::alloc::{AllocError, Global};

/// The target of a ref: a commit, a conflict, or absent if there is no such ref.
pub type RefTarget = Merge<Option<CommitId>>;

fn clone_target(alloc: Global, target: &RefTarget) -> Result<RefTarget, AllocError>
    ensures { IfOk result (λ copy. copy ≡ target.now) }
{
    target.clone(alloc)
}

impl CloneIn for RefTarget {
    fn clone_in(&self, alloc: Global) -> Result<Self, AllocError> {
        clone_target(alloc, self)
    }
}

/// Whether a remote ref is tracked: merged into the local ref of its name.
#[derive(Clone, Copy, Debug, PartialEq, Eq, Hash)]
pub enum RemoteRefState {
    New,
    Tracked,
}

/// The target of a ref at a remote, and whether it is tracked.
#[derive(Debug, PartialEq, Eq, Hash, Drop)]
pub struct RemoteRef {
    pub target: RefTarget,
    pub state: RemoteRefState,
}

impl RemoteRef {
    /// Creates an absent ref, which is not tracked.
    pub fn absent(alloc: Global) -> Self
        ensures { result ≡ absent_ref }
    {
        RemoteRef {
            target: Merge::absent(alloc),
            state: RemoteRefState::New,
        }
    }

    /// Clones the ref.
    pub fn clone(&self, alloc: Global) -> Result<Self, AllocError>
        ensures { IfOk result (λ copy. copy ≡ self.now) }
    {
        Ok(RemoteRef {
            target: clone_target(alloc, &self.target)?,
            state: self.state,
        })
    }

    /// Returns whether the target is absent.
    pub fn is_absent(&self) -> bool
        ensures { IsTrue result ↔ (self.now.target ≡ absent_target) }
    {
        self.target.is_absent()
    }

    /// Returns whether the target is not absent.
    pub fn is_present(&self) -> bool
        ensures { IsTrue result ↔ (self.now.target ≡ absent_target → ⊥) }
    {
        self.target.is_present()
    }

    /// Returns whether the ref is tracked.
    pub fn is_tracked(&self) -> bool
        ensures { IsTrue result ↔ (self.now.state ≡ RemoteRefState.Tracked) }
    {
        matches!(self.state, RemoteRefState::Tracked)
    }

    /// Returns the target of a tracked ref, and `None`, which represents the absent target, for a
    /// ref that is not tracked.
    pub fn tracked_target(&self) -> Option<&RefTarget>
        ensures { option_copied result ≡ tracked_target self.now }
    {
        match self.state {
            RemoteRefState::Tracked => Some(&self.target),
            RemoteRefState::New => None,
        }
    }
}

impl CloneIn for RemoteRef {
    fn clone_in(&self, alloc: Global) -> Result<Self, AllocError> {
        RemoteRef::clone(self, alloc)
    }
}

/// Flattens an option of a target or remote ref. An owned `None` becomes the absent value; a
/// borrowed option is returned as it is, `None` representing the absent value.
pub trait RefTargetOptionExt {
    /// The flattened type.
    type Value;

    /// Relates the option to its flattened value.
    ghost flattens: { Self → Self.Value → Type 0 };

    /// Returns the value, or the absent value for `None`.
    fn flatten(self, alloc: Global) -> Self::Value
        ensures { flattens self result };
}

impl RefTargetOptionExt for Option<RefTarget> {
    ghost use Rattle.std.specs.Prelude.{◌≡◌, unwrap_or};
    ghost use Rattle.jj_stores.specs.RefTargets.{absent_target};

    type Value = RefTarget;

    ghost flattens = { λ target flat. flat ≡ unwrap_or target absent_target };

    fn flatten(self, alloc: Global) -> RefTarget {
        match self {
            Some(target) => target,
            None => Merge::absent(alloc),
        }
    }
}

impl<'a> RefTargetOptionExt for Option<&'a RefTarget> {
    ghost use Rattle.std.specs.Prelude.{◌≡◌};

    type Value = Option<&'a RefTarget>;

    ghost flattens = { λ target flat. flat ≡ target };

    fn flatten(self, _alloc: Global) -> Option<&'a RefTarget> {
        self
    }
}

impl RefTargetOptionExt for Option<RemoteRef> {
    ghost use Rattle.std.specs.Prelude.{◌≡◌, unwrap_or};
    ghost use Rattle.jj_stores.specs.RefTargets.{absent_ref};

    type Value = RemoteRef;

    ghost flattens = { λ remote flat. flat ≡ unwrap_or remote absent_ref };

    fn flatten(self, alloc: Global) -> RemoteRef {
        match self {
            Some(remote) => remote,
            None => RemoteRef::absent(alloc),
        }
    }
}

impl<'a> RefTargetOptionExt for Option<&'a RemoteRef> {
    ghost use Rattle.std.specs.Prelude.{◌≡◌};

    type Value = Option<&'a RemoteRef>;

    ghost flattens = { λ remote flat. flat ≡ remote };

    fn flatten(self, _alloc: Global) -> Option<&'a RemoteRef> {
        self
    }
}
