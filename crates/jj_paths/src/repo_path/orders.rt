//! Equality, ordering, hash and clone of components (bytewise) and of paths (lexicographic by
//! component). Borrowed and owned values agree in ordering and hash.
ghost use Rattle.std.specs.Prelude.{◌≡◌, ◌≢◌, Some, refl};
ghost use Rattle.std.specs.Str.{bytes_eq};
ghost use Rattle.std.specs.Cmp;
ghost use Rattle.std.specs.Cmp.{on_total, on_equiv, po};
ghost use Rattle.std.specs.Cmp.Lexicographic.{slice_cmp, nat_list_eq_equiv, nat_list_cmp_total, texts_po, texts_ties};
ghost use Rattle.std.specs.Cmp.Rules.{hashing};
ghost use Rattle.std.specs.Hash as fed;
ghost use Rattle.std.proofs.Common.{rules};
ghost use Rattle.jj_paths.specs.Paths.{name_cmp, path_cmp};
ghost use Rattle.jj_paths.specs.Names.{name_of, path_of};
ghost use Rattle.jj_paths.specs.Orders.{slash_cmp, path_eq, path_eq_equiv, path_cmp_total, path_ties, path_po, path_hash, path_hash-respects_eq};

use super::{RepoPath, RepoPathBuf, RepoPathComponent, RepoPathComponentBuf};
use std::alloc::AllocError;
use std::cmp::Ordering;
use std::hash::{Hash, Hasher};

impl PartialEq for RepoPathComponentBuf {
    ghost eq = { bytes_eq };

    ghost laws = { Cmp.partial_equiv_from_equiv nat_list_eq_equiv };

    fn eq(&self, other: &RepoPathComponentBuf) -> bool {
        self.value == other.value
    }
}

impl Eq for RepoPathComponentBuf {
    ghost laws = { nat_list_eq_equiv };
}

impl PartialOrd for RepoPathComponentBuf {
    ghost partial_cmp = { λ a b. Some (name_cmp a b) };

    ghost laws = { texts_po };

    fn partial_cmp(&self, other: &RepoPathComponentBuf) -> Option<Ordering> {
        Some(self.cmp(other))
    }
}

impl Ord for RepoPathComponentBuf {
    ghost cmp = { name_cmp };

    ghost total = { nat_list_cmp_total };

    ghost matches_partial_cmp = { λ x y. refl };

    ghost matches_eq = { texts_ties };

    fn cmp(&self, other: &RepoPathComponentBuf) -> Ordering {
        self.value.cmp(&other.value)
    }
}

impl Hash for RepoPathComponentBuf {
    ghost hash_input = { λ name. fed.str name };

    ghost respects_eq = { Prim.search (hashing, rules) };

    fn hash<H: Hasher>(&self, state: &mut H) {
        self.value.hash(state);
    }
}

impl Clone for RepoPathComponentBuf {
    ghost is_clone = { λ n c. c ≡ n };

    fn clone(&self) -> Result<Self, AllocError> {
        Ok(RepoPathComponentBuf {
            value: self.value.clone()?,
        })
    }
}

impl<'a> PartialEq for RepoPathComponent<'a> {
    ghost eq = { λ a b. bytes_eq (name_of a) (name_of b) };

    ghost laws = { Cmp.partial_equiv_from_equiv (on_equiv name_of nat_list_eq_equiv) };

    fn eq(&self, other: &RepoPathComponent<'a>) -> bool {
        self.value == other.value
    }
}

impl<'a> Eq for RepoPathComponent<'a> {
    ghost laws = { on_equiv name_of nat_list_eq_equiv };
}

impl<'a> PartialOrd for RepoPathComponent<'a> {
    ghost partial_cmp = { λ a b. Some (name_cmp (name_of a) (name_of b)) };

    ghost laws = { po (on_total name_of nat_list_cmp_total)
        (λ a b. texts_ties (name_of a) (name_of b)) };

    fn partial_cmp(&self, other: &RepoPathComponent<'a>) -> Option<Ordering> {
        Some(self.cmp(other))
    }
}

impl<'a> Ord for RepoPathComponent<'a> {
    ghost cmp = { λ a b. name_cmp (name_of a) (name_of b) };

    ghost total = { on_total name_of nat_list_cmp_total };

    ghost matches_partial_cmp = { λ a b. refl };

    ghost matches_eq = { λ a b. texts_ties (name_of a) (name_of b) };

    fn cmp(&self, other: &RepoPathComponent<'a>) -> Ordering {
        self.value.cmp(&other.value)
    }
}

impl<'a> Hash for RepoPathComponent<'a> {
    ghost hash_input = { λ name. fed.str (name_of name) };

    ghost respects_eq = { Prim.search (hashing, rules) };

    fn hash<H: Hasher>(&self, state: &mut H) {
        self.value.hash(state);
    }
}

impl PartialEq for RepoPathBuf {
    ghost eq = { path_eq };

    ghost laws = { Cmp.partial_equiv_from_equiv path_eq_equiv };

    fn eq(&self, other: &RepoPathBuf) -> bool {
        self.value == other.value
    }
}

impl Eq for RepoPathBuf {
    ghost laws = { path_eq_equiv };
}

impl PartialOrd for RepoPathBuf {
    ghost partial_cmp = { λ a b. Some (path_cmp a b) };

    ghost laws = { path_po };

    fn partial_cmp(&self, other: &RepoPathBuf) -> Option<Ordering> {
        Some(self.cmp(other))
    }
}

impl Ord for RepoPathBuf {
    ghost cmp = { path_cmp };

    ghost total = { path_cmp_total };

    ghost matches_partial_cmp = { λ a b. refl };

    ghost matches_eq = { path_ties };

    fn cmp(&self, other: &RepoPathBuf) -> Ordering {
        self.as_path().cmp(&other.as_path())
    }
}

impl Hash for RepoPathBuf {
    ghost hash_input = { path_hash };

    ghost respects_eq = { path_hash-respects_eq };

    fn hash<H: Hasher>(&self, state: &mut H) {
        self.value.hash(state);
    }
}

impl Clone for RepoPathBuf {
    ghost is_clone = { λ p c. c ≡ p };

    fn clone(&self) -> Result<Self, AllocError> {
        Ok(RepoPathBuf {
            value: self.value.clone()?,
        })
    }
}

impl<'a> PartialEq for RepoPath<'a> {
    ghost eq = { λ a b. path_eq (path_of a) (path_of b) };

    ghost laws = { Cmp.partial_equiv_from_equiv (on_equiv path_of path_eq_equiv) };

    fn eq(&self, other: &RepoPath<'a>) -> bool {
        self.value == other.value
    }
}

impl<'a> Eq for RepoPath<'a> {
    ghost laws = { on_equiv path_of path_eq_equiv };
}

impl<'a> PartialOrd for RepoPath<'a> {
    ghost partial_cmp = { λ a b. Some (path_cmp (path_of a) (path_of b)) };

    ghost laws = { po (on_total path_of path_cmp_total)
        (λ a b. path_ties (path_of a) (path_of b)) };

    fn partial_cmp(&self, other: &RepoPath<'a>) -> Option<Ordering> {
        Some(self.cmp(other))
    }
}

impl<'a> Ord for RepoPath<'a> {
    ghost cmp = { λ a b. path_cmp (path_of a) (path_of b) };

    ghost total = { on_total path_of path_cmp_total };

    ghost matches_partial_cmp = { λ a b. refl };

    ghost matches_eq = { λ a b. path_ties (path_of a) (path_of b) };

    fn cmp(&self, other: &RepoPath<'a>) -> Ordering {
        cmp_slash_first(self.value.as_bytes(), other.value.as_bytes())
    }
}

impl<'a> Hash for RepoPath<'a> {
    ghost hash_input = { λ path. path_hash (path_of path) };

    ghost respects_eq = { λ a b same. path_hash-respects_eq (path_of a) (path_of b) same };

    fn hash<H: Hasher>(&self, state: &mut H) {
        self.value.hash(state);
    }
}

// Bytewise lexicographic comparison in which `/` is the least byte. It agrees with comparing
// component by component, without splitting: `a/b` precedes `a.b`, as `a` precedes `a.b`.
fn cmp_slash_first(mine: &[u8], theirs: &[u8]) -> Ordering
    ensures { result ≡ slice_cmp slash_cmp mine.now theirs.now }
{
    for i in 0..mine.len().min(theirs.len()) {
        if mine[i] != theirs[i] {
            return cmp_unequal_bytes(mine[i], theirs[i]);
        }
    }
    mine.len().cmp(&theirs.len())
}

fn cmp_unequal_bytes(mine: u8, theirs: u8) -> Ordering
    requires { mine ≢ theirs }
    ensures { result ≡ slash_cmp mine theirs }
{
    if mine == b'/' {
        Ordering::Less
    } else if theirs == b'/' {
        Ordering::Greater
    } else {
        mine.cmp(&theirs)
    }
}
