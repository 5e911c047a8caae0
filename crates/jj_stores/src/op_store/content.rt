//! Content hashes of views and operations.
ghost use Rattle.std.specs.Prelude.{OnOk, OnErr};
ghost use Rattle.jj_content.specs.Content.{Absorbs, AbsorbsPrefix, IsLawful};
ghost use Rattle.jj_stores.specs.RefTargets.{state_content, IsRemoteRef, remote_ref_content};
ghost use Rattle.jj_stores.specs.RefTargetLaws.{state_lawful, remote_ref_lawful};
ghost use Rattle.jj_stores.specs.Views.{IsRemoteView, remote_view_content, IsView, view_content};
ghost use Rattle.jj_stores.specs.ViewLaws.{remote_view_lawful, view_lawful};
ghost use Rattle.jj_stores.specs.Operations.{IsRange, range_content, IsMetadata, metadata_content, IsOperation, operation_content};
ghost use Rattle.jj_stores.specs.OperationLaws.{range_lawful, metadata_lawful, operation_lawful};

use super::{
    Operation, OperationMetadata, RemoteRef, RemoteRefState, RemoteView, TimestampRange, View,
};
use jj_content::content_hash::{ContentHash, DigestUpdate, hash_both, hash_three};
use std::alloc::{AllocError, Global};

impl ContentHash for RemoteRefState {
    ghost is_value = { λ _. Unit {0} };

    ghost content = { state_content };

    ghost lawful = { state_lawful };

    fn hash<D: DigestUpdate>(&self, alloc: Global, state: &mut D) -> Result<(), AllocError> {
        match self {
            RemoteRefState::New => ContentHash::hash(&0u32, alloc, state),
            RemoteRefState::Tracked => ContentHash::hash(&1u32, alloc, state),
        }
    }
}

impl ContentHash for RemoteRef {
    ghost is_value = { IsRemoteRef };

    ghost content = { remote_ref_content };

    ghost lawful = { remote_ref_lawful };

    fn hash<D: DigestUpdate>(&self, alloc: Global, state: &mut D) -> Result<(), AllocError> {
        hash_both(alloc, &self.target, &self.state, state)
    }
}

impl ContentHash for RemoteView {
    ghost is_value = { IsRemoteView };

    ghost content = { remote_view_content };

    ghost lawful = { remote_view_lawful };

    fn hash<D: DigestUpdate>(&self, alloc: Global, state: &mut D) -> Result<(), AllocError> {
        hash_both(alloc, &self.bookmarks, &self.tags, state)
    }
}

impl ContentHash for View {
    ghost is_value = { IsView };

    ghost content = { view_content };

    ghost lawful = { view_lawful };

    #[tactic(auto, using(jj_content::proofs::AbsorbedPrefixes::prefixes))]
    fn hash<D: DigestUpdate>(&self, alloc: Global, state: &mut D) -> Result<(), AllocError> {
        hash_three(
            alloc,
            &self.head_ids,
            &self.local_bookmarks,
            &self.local_tags,
            state,
        )?;
        hash_both(alloc, &self.remote_views, &self.git_refs, state)?;
        hash_both(alloc, &self.git_heads, &self.wc_commit_ids, state)
    }
}

impl ContentHash for TimestampRange {
    ghost is_value = { IsRange };

    ghost content = { range_content };

    ghost lawful = { range_lawful };

    fn hash<D: DigestUpdate>(&self, alloc: Global, state: &mut D) -> Result<(), AllocError> {
        hash_both(alloc, &self.start, &self.end, state)
    }
}

impl ContentHash for OperationMetadata {
    ghost is_value = { IsMetadata };

    ghost content = { metadata_content };

    ghost lawful = { metadata_lawful };

    #[tactic(auto, using(jj_content::proofs::AbsorbedPrefixes::prefixes))]
    fn hash<D: DigestUpdate>(&self, alloc: Global, state: &mut D) -> Result<(), AllocError> {
        hash_both(alloc, &self.time, &self.description, state)?;
        hash_both(alloc, &self.hostname, &self.username, state)?;
        hash_three(
            alloc,
            &self.is_snapshot,
            &self.workspace_name,
            &self.attributes,
            state,
        )
    }
}

impl ContentHash for Operation {
    ghost is_value = { IsOperation };

    ghost content = { operation_content };

    ghost lawful = { operation_lawful };

    #[tactic(auto, using(jj_content::proofs::AbsorbedPrefixes::prefixes))]
    fn hash<D: DigestUpdate>(&self, alloc: Global, state: &mut D) -> Result<(), AllocError> {
        hash_both(alloc, &self.view_id, &self.parents, state)?;
        hash_both(alloc, &self.metadata, &self.commit_predecessors, state)
    }
}
