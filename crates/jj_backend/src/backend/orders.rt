//! Clone, equality, ordering and hash instances of records that a backend stores.
ghost use Rattle.std.specs.Prelude.{◌≡◌, ◌++◌, Some, refl};
ghost use Rattle.std.specs.Cmp;
ghost use Rattle.std.specs.Cmp.Rules.{hashing};
ghost use Rattle.std.specs.Hash as fed;
ghost use Rattle.std.proofs.Common.{rules};
ghost use Rattle.jj_backend.specs.CopyHistoryOrder.{copy_history_cmp, copy_history_cmp_total, copy_history_ties, copy_history_po, copy_history_hash, copy_history_hash-respects_eq};
ghost use Rattle.jj_backend.specs.RecordLaws.{copy_history_equiv, signature_equiv, secure_sig_equiv};
ghost use Rattle.jj_backend.specs.Records.{copy_history_eq, signature_eq, secure_sig_eq};
ghost use Rattle.jj_backend.specs.TreeLaws.{tree_eq, tree_equiv};

use super::{CopyHistory, CopyRecord, SecureSig, Signature, Tree};
use std::alloc::AllocError;
use std::cmp::Ordering;
use std::hash::{Hash, Hasher};

impl Clone for CopyRecord {
    ghost is_clone = { λ copy c. c ≡ copy };

    fn clone(&self) -> Result<Self, AllocError> {
        Ok(CopyRecord {
            target: self.target.clone()?,
            target_commit: self.target_commit.clone()?,
            source: self.source.clone()?,
            source_file: self.source_file.clone()?,
            source_commit: self.source_commit.clone()?,
        })
    }
}

impl Clone for CopyHistory {
    ghost is_clone = { λ history c. c ≡ history };

    fn clone(&self) -> Result<Self, AllocError> {
        Ok(CopyHistory {
            current_path: self.current_path.clone()?,
            parents: self.parents.clone()?,
            salt: self.salt.clone()?,
        })
    }
}

impl PartialEq for CopyHistory {
    ghost eq = { copy_history_eq };

    ghost laws = { Cmp.partial_equiv_from_equiv copy_history_equiv };

    fn eq(&self, other: &CopyHistory) -> bool {
        self.current_path == other.current_path
            && (self.parents == other.parents && self.salt == other.salt)
    }
}

impl Eq for CopyHistory {
    ghost laws = { copy_history_equiv };
}

impl PartialOrd for CopyHistory {
    ghost partial_cmp = { λ a b. Some (copy_history_cmp a b) };

    ghost laws = { copy_history_po };

    fn partial_cmp(&self, other: &CopyHistory) -> Option<Ordering> {
        Some(self.cmp(other))
    }
}

/// Compares the paths, then the parents, then the salts.
impl Ord for CopyHistory {
    ghost cmp = { copy_history_cmp };

    ghost total = { copy_history_cmp_total };

    ghost matches_partial_cmp = { λ a b. refl };

    ghost matches_eq = { copy_history_ties };

    fn cmp(&self, other: &CopyHistory) -> Ordering {
        self.current_path
            .cmp(&other.current_path)
            .then_with(|| self.parents.cmp(&other.parents))
            .then_with(|| self.salt.cmp(&other.salt))
    }
}

impl Hash for CopyHistory {
    ghost hash_input = { copy_history_hash };

    ghost respects_eq = { copy_history_hash-respects_eq };

    fn hash<H: Hasher>(&self, state: &mut H) {
        Hash::hash(&self.current_path, state);
        Hash::hash(&self.parents, state);
        Hash::hash(&self.salt, state);
    }
}

impl Clone for Signature {
    ghost is_clone = { λ s c. c ≡ s };

    fn clone(&self) -> Result<Self, AllocError> {
        Ok(Signature {
            name: self.name.clone()?,
            email: self.email.clone()?,
            timestamp: self.timestamp,
        })
    }
}

impl PartialEq for Signature {
    ghost eq = { signature_eq };

    ghost laws = { Cmp.partial_equiv_from_equiv signature_equiv };

    fn eq(&self, other: &Signature) -> bool {
        self.name == other.name && (self.email == other.email && self.timestamp == other.timestamp)
    }
}

impl Eq for Signature {
    ghost laws = { signature_equiv };
}

impl Hash for Signature {
    ghost hash_input = { λ s. fed.str s.name ++ fed.str s.email
        ++ (fed.i64 s.timestamp.timestamp.0 ++ fed.i32 s.timestamp.tz_offset) };

    ghost respects_eq = { Prim.search (hashing, rules) };

    fn hash<H: Hasher>(&self, state: &mut H) {
        Hash::hash(&self.name, state);
        Hash::hash(&self.email, state);
        Hash::hash(&self.timestamp, state);
    }
}

impl Clone for SecureSig {
    ghost is_clone = { λ s c. c ≡ s };

    fn clone(&self) -> Result<Self, AllocError> {
        Ok(SecureSig {
            signed_data: self.signed_data.clone()?,
            sig: self.sig.clone()?,
        })
    }
}

impl PartialEq for SecureSig {
    ghost eq = { secure_sig_eq };

    ghost laws = { Cmp.partial_equiv_from_equiv secure_sig_equiv };

    fn eq(&self, other: &SecureSig) -> bool {
        self.signed_data == other.signed_data && self.sig == other.sig
    }
}

impl Eq for SecureSig {
    ghost laws = { secure_sig_equiv };
}

impl PartialEq for Tree {
    ghost eq = { tree_eq };

    ghost laws = { Cmp.partial_equiv_from_equiv tree_equiv };

    fn eq(&self, other: &Tree) -> bool {
        self.entries == other.entries
    }
}

impl Eq for Tree {
    ghost laws = { tree_equiv };
}
