//! Content hashes of the records that a backend stores.
ghost use Rattle.std.specs.Prelude.{OnOk, OnErr};
ghost use Rattle.jj_content.specs.Content.{Absorbs, AbsorbsPrefix, IsLawful};
ghost use Rattle.jj_content.specs.PrefixFreeProofs.{on_lawful, both_lawful, i32_lawful, i64_lawful};
ghost use Rattle.jj_backend.specs.Contents.{IsMillis, millis_content, IsTimestamp, timestamp_content, IsSignature, signature_content, IsSecureSig, secure_sig_content, IsMessage, message_content, IsCommit, commit_content, IsCopyHistory, copy_history_content};
ghost use Rattle.jj_backend.specs.RecordLaws.{signature_lawful, secure_sig_lawful, commit_lawful, copy_history_lawful};
ghost use Rattle.jj_backend.specs.TreeLaws.{IsTree, tree_content, tree_lawful};
ghost use Rattle.jj_backend.specs.TreeValueLaws.{tree_value_lawful};
ghost use Rattle.jj_backend.specs.TreeValues.{IsTreeValue, tree_value_content};

use super::merged_parts::hash_strings;
use super::{
    Commit, CopyHistory, MillisSinceEpoch, SecureSig, Signature, Timestamp, Tree, TreeValue,
};
use jj_content::content_hash::{ContentHash, DigestUpdate, hash_both, hash_three};
use std::alloc::{AllocError, Global};

impl ContentHash for MillisSinceEpoch {
    ghost is_value = { IsMillis };

    ghost content = { millis_content };

    ghost lawful = { on_lawful (λ millis. millis.0) i64_lawful };

    fn hash<D: DigestUpdate>(&self, alloc: Global, state: &mut D) -> Result<(), AllocError> {
        ContentHash::hash(&self.0, alloc, state)
    }
}

impl ContentHash for Timestamp {
    ghost is_value = { IsTimestamp };

    ghost content = { timestamp_content };

    ghost lawful = { both_lawful
        (on_lawful (λ time. time.timestamp.0) i64_lawful)
        (on_lawful (λ time. time.tz_offset) i32_lawful) };

    fn hash<D: DigestUpdate>(&self, alloc: Global, state: &mut D) -> Result<(), AllocError> {
        hash_both(alloc, &self.timestamp, &self.tz_offset, state)
    }
}

impl ContentHash for Signature {
    ghost is_value = { IsSignature };

    ghost content = { signature_content };

    ghost lawful = { signature_lawful };

    fn hash<D: DigestUpdate>(&self, alloc: Global, state: &mut D) -> Result<(), AllocError> {
        hash_three(alloc, &self.name, &self.email, &self.timestamp, state)
    }
}

impl ContentHash for SecureSig {
    ghost is_value = { IsSecureSig };

    ghost content = { secure_sig_content };

    ghost lawful = { secure_sig_lawful };

    fn hash<D: DigestUpdate>(&self, alloc: Global, state: &mut D) -> Result<(), AllocError> {
        hash_both(alloc, &self.signed_data, &self.sig, state)
    }
}

impl Commit {
    #[tactic(auto, using(jj_content::proofs::AbsorbedPrefixes::prefixes))]
    fn hash_message<D: DigestUpdate>(&self, alloc: Global, state: &mut D) -> Result<(), AllocError>
        ensures ok { OnOk result (Absorbs D.absorbed state.old state.new
            (message_content self.now)) }
        ensures value { OnOk result (IsMessage self.now) }
        ensures err { OnErr result (AbsorbsPrefix D.absorbed state.old state.new
            (message_content self.now)) }
    {
        hash_strings(alloc, state, &self.conflict_labels)?;
        hash_both(alloc, &self.change_id, &self.description, state)
    }
}

impl ContentHash for Commit {
    ghost is_value = { IsCommit };

    ghost content = { commit_content };

    ghost lawful = { commit_lawful };

    #[tactic(auto, using(jj_content::proofs::AbsorbedPrefixes::prefixes))]
    fn hash<D: DigestUpdate>(&self, alloc: Global, state: &mut D) -> Result<(), AllocError> {
        hash_three(
            alloc,
            &self.parents,
            &self.predecessors,
            &self.root_tree,
            state,
        )?;
        self.hash_message(alloc, state)?;
        hash_three(
            alloc,
            &self.author,
            &self.committer,
            &self.secure_sig,
            state,
        )
    }
}

impl ContentHash for CopyHistory {
    ghost is_value = { IsCopyHistory };

    ghost content = { copy_history_content };

    ghost lawful = { copy_history_lawful };

    fn hash<D: DigestUpdate>(&self, alloc: Global, state: &mut D) -> Result<(), AllocError> {
        hash_three(alloc, &self.current_path, &self.parents, &self.salt, state)
    }
}

impl ContentHash for TreeValue {
    ghost is_value = { IsTreeValue };

    ghost content = { tree_value_content };

    ghost lawful = { tree_value_lawful };

    #[tactic(auto, using(jj_content::proofs::AbsorbedPrefixes::prefixes))]
    fn hash<D: DigestUpdate>(&self, alloc: Global, state: &mut D) -> Result<(), AllocError> {
        match self {
            TreeValue::File {
                id,
                executable,
                copy_id,
            } => {
                ContentHash::hash(&0u32, alloc, state)?;
                hash_three(alloc, id, executable, copy_id, state)
            }
            TreeValue::Symlink(id) => hash_both(alloc, &1u32, id, state),
            TreeValue::Tree(id) => hash_both(alloc, &2u32, id, state),
            TreeValue::GitSubmodule(id) => hash_both(alloc, &3u32, id, state),
        }
    }
}

impl ContentHash for Tree {
    ghost is_value = { IsTree };

    ghost content = { tree_content };

    ghost lawful = { tree_lawful };

    fn hash<D: DigestUpdate>(&self, alloc: Global, state: &mut D) -> Result<(), AllocError> {
        ContentHash::hash(&self.entries, alloc, state)
    }
}
