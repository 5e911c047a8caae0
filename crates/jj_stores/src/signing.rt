//! Commit signing, and signature verification with an LRU cache of the results.
ghost use Rattle.std.specs.Prelude.{◌≡◌, ◌↔◌, ◌≤◌, ◌⊎◌, ◌++◌, ℕ, Bool, List, [], ◌∷◌, map, length, Option, Some, None, Result, Ok, Err, IsTrue, IfOk, IfErr, OnOk, OnErr, IsSome, IsNone, is_some, option_map, MatchBool, MatchOption, MatchResult, bytes_eq, string_bytes};
ghost use Rattle.std.specs.Option.{ForSome};
ghost use Rattle.std.specs.Result.{result_map_both};
ghost use Rattle.std.specs.List.{list_any};
ghost use Rattle.std.specs.Map.{lookup};
ghost use Rattle.jj_stores.specs.Verdict.{Verdict, unknown_verdict, is_unknown};
ghost use Rattle.jj_stores.specs.FirstDecisive.{IsFirstDecisive, is_decisive as decisive, IsVerified, cache_after, backends};

pub use jj_backend::signing::{SignError, SignResult};
use jj_ids::object_id::CommitId;
use lru::LruCache;
use std::alloc::{AllocError, Global};
use std::fmt;
use std::marker::Model;
use std::num::NonZeroUsize;

/// The status of a signature.
#[derive(Clone, Copy, Debug, PartialEq, Eq)]
pub enum SigStatus {
    Good,
    Unknown,
    Bad,
}

impl SigStatus {
    ghost use Rattle.jj_stores.specs.Verdict.{status_name};

    fn name(self) -> &'static str
        ensures { result.now ≡ status_name self }
    {
        match self {
            SigStatus::Good => "good",
            SigStatus::Unknown => "unknown",
            SigStatus::Bad => "bad",
        }
    }
}

impl fmt::Display for SigStatus {
    ghost use Rattle.std.specs.Prelude.{Some};
    ghost use Rattle.jj_stores.specs.Verdict.{status_name};

    ghost output = { λ status. Some (status_name status) };

    fn fmt<W: fmt::Write>(&self, f: &mut fmt::Formatter<W>) -> fmt::Result {
        f.write_str(self.name())
    }
}

/// The result of verifying a signature, with the key and the signer's display name if known.
#[derive(Debug, Drop)]
pub struct Verification {
    pub status: SigStatus,
    pub key: Option<String>,
    pub display: Option<String>,
}

impl Model for Verification {
    ghost use Rattle.std.specs.Prelude.{string_bytes, option_map};
    ghost use Rattle.jj_stores.specs.Verdict.{Verdict};

    ghost Value = { Verdict };

    ghost view = { λ v. record {
      status = v.status;
      key = option_map string_bytes v.key;
      display = option_map string_bytes v.display;
    } };
}

impl Verification {
    /// Returns a verification with status `Unknown`, no key and no display name.
    pub fn unknown() -> Self
        ensures { result ≡ unknown_verdict }
    {
        Verification {
            status: SigStatus::Unknown,
            key: None,
            display: None,
        }
    }

    /// Creates a verification.
    pub fn new(status: SigStatus, key: Option<String>, display: Option<String>) -> Self
        ensures { result ≡ record {
          status = status;
          key = option_map string_bytes key;
          display = option_map string_bytes display;
        } }
    {
        Verification {
            status,
            key,
            display,
        }
    }

    /// Returns the status of the signature.
    pub fn status(&self) -> SigStatus
        ensures { result ≡ self.now.status }
    {
        self.status
    }
}

impl PartialEq for Verification {
    ghost use Rattle.std.specs.Cmp;
    ghost use Rattle.jj_stores.specs.VerdictLaws.{verdict_eq, verdict_equiv};

    ghost eq = { verdict_eq };

    ghost laws = { Cmp.partial_equiv_from_equiv verdict_equiv };

    fn eq(&self, other: &Verification) -> bool {
        self.status == other.status && (self.key == other.key && self.display == other.display)
    }
}

impl Eq for Verification {
    ghost use Rattle.jj_stores.specs.VerdictLaws.{verdict_equiv};

    ghost laws = { verdict_equiv };
}

impl Clone for Verification {
    ghost is_clone = { λ v c. c ≡ v };

    fn clone(&self) -> Result<Self, AllocError> {
        Ok(Verification {
            status: self.status,
            key: self.key.clone()?,
            display: self.display.clone()?,
        })
    }
}

/// Signs data and verifies signatures.
pub trait SigningBackend: Drop {
    ghost use Rattle.std.specs.Prelude.{ℕ, List, Bool, Option, Result};
    ghost use Rattle.jj_stores.specs.Verdict.{Verdict};
    ghost use Rattle.jj_backend.specs.declared.signing.SignError.{SignError};

    /// The name of the type of the backend.
    ghost kind_name: { Self → List ℕ };

    /// Whether `can_read` accepts a signature.
    ghost reads: { Self → List ℕ → Bool };

    /// Relates the backend, data and a signature to the results that `verify` may return. Equal
    /// calls may have different results, for example after a key is imported.
    ghost may_verify: { Self → List ℕ → List ℕ → Result Verdict SignError → Type 0 };

    /// Relates the backend, data and a key to the results that `sign` may return.
    ghost may_sign: { Self → List ℕ → Option (List ℕ) → Result (List ℕ) SignError → Type 0 };

    /// Returns the name of the type of the backend.
    fn name(&self) -> &str
        ensures { result.now ≡ kind_name self.now };

    /// Returns whether the backend supports the format of the signature.
    fn can_read(&self, signature: &[u8]) -> bool
        ensures { result ≡ reads self.now signature.now };

    /// Signs data with a key, or with the default key for `None`.
    fn sign(&self, alloc: Global, data: &[u8], key: Option<&str>) -> SignResult<Vec<u8>>
        ensures { may_sign self.now «data».now (option_map (λ k. k.now) key.entry)
            (result_map_both (λ v. v.items) (λ e. e) result) };

    /// Verifies a signature of the data.
    fn verify(&self, alloc: Global, data: &[u8], signature: &[u8]) -> SignResult<Verification>
        ensures { may_verify self.now «data».now signature.now result };
}

fn is_decisive(outcome: &SignResult<Verification>) -> bool
    ensures { result ≡ decisive outcome.now }
{
    match outcome {
        Ok(verification) => match verification.status {
            SigStatus::Unknown => false,
            _ => true,
        },
        Err(SignError::InvalidSignatureFormat) => false,
        Err(_) => true,
    }
}

impl SigningBackend for Box<dyn SigningBackend> {
    ghost kind_name = { λ b. (SigningBackend-box b).kind_name b.value };

    ghost reads = { λ b. (SigningBackend-box b).reads b.value };

    ghost may_verify = { λ b. (SigningBackend-box b).may_verify b.value };

    ghost may_sign = { λ b. (SigningBackend-box b).may_sign b.value };

    fn name(&self) -> &str {
        (**self).name()
    }

    fn can_read(&self, signature: &[u8]) -> bool {
        (**self).can_read(signature)
    }

    fn sign(&self, alloc: Global, data: &[u8], key: Option<&str>) -> SignResult<Vec<u8>> {
        (**self).sign(alloc, data, key)
    }

    fn verify(&self, alloc: Global, data: &[u8], signature: &[u8]) -> SignResult<Verification> {
        (**self).verify(alloc, data, signature)
    }
}

// Returns the result of the backend if it can read the signature and the result is decisive.
fn decisive_result<B: SigningBackend>(
    alloc: Global,
    backend: &B,
    data: &[u8],
    signature: &[u8],
) -> Option<SignResult<Verification>>
    ensures { IsFirstDecisive (λ b. B.reads b signature.now)
        (λ b. B.may_verify b «data».now signature.now) (backend.now ∷ []) result }
{
    if backend.can_read(signature) {
        let outcome = backend.verify(alloc, data, signature);
        if is_decisive(&outcome) {
            return Some(outcome);
        }
    }
    None
}

// Returns the first decisive result of the backends that can read the signature.
fn first_decisive<B: SigningBackend>(
    alloc: Global,
    backends: &[B],
    data: &[u8],
    signature: &[u8],
) -> Option<SignResult<Verification>>
    ensures { IsFirstDecisive (λ b. B.reads b signature.now)
        (λ b. B.may_verify b «data».now signature.now) backends.now result }
{
    for backend in backends {
        if let Some(outcome) = decisive_result(alloc, backend, data, signature) {
            return Some(outcome);
        }
    }
    None
}

// Queries the first backend, if there is one, before the others.
fn query_backends<B: SigningBackend>(
    alloc: Global,
    first: &Option<B>,
    others: &[B],
    data: &[u8],
    signature: &[u8],
) -> Option<SignResult<Verification>>
    ensures { IsFirstDecisive (λ b. B.reads b signature.now)
        (λ b. B.may_verify b «data».now signature.now) (backends first.now others.now) result }
{
    if let Some(backend) = first {
        if let Some(outcome) = decisive_result(alloc, backend, data, signature) {
            return Some(outcome);
        }
    }
    first_decisive(alloc, others, data, signature)
}

fn any_can_read<B: SigningBackend>(backends: &[B], signature: &[u8]) -> bool
    ensures { result ≡ list_any (λ b. B.reads b signature.now) backends.now }
{
    backends.iter().any(|backend| backend.can_read(signature))
}

fn can_any_read<B: SigningBackend>(first: &Option<B>, others: &[B], signature: &[u8]) -> bool
    ensures { result ≡ list_any (λ b. B.reads b signature.now) (backends first.now others.now) }
{
    match first {
        Some(backend) => backend.can_read(signature) || any_can_read(others, signature),
        None => any_can_read(others, signature),
    }
}

// The cache capacity of `Signer::new`.
const COMMIT_CACHE_CAPACITY: usize = 100;

/// Signs with a main backend, and verifies signatures with the first backend that is decisive.
/// Verifications are cached by commit id in an LRU cache.
#[derive(Drop)]
pub struct Signer {
    main: Option<Box<dyn SigningBackend>>,
    others: Vec<Box<dyn SigningBackend>>,
    cache: LruCache<CommitId, Verification>,
}

/// Formats the name of the main backend, the number of others and the number of cached
/// verifications.
impl fmt::Debug for Signer {
    fn fmt<W: fmt::Write>(&self, f: &mut fmt::Formatter<W>) -> fmt::Result {
        let main = match &self.main {
            Some(backend) => Some(backend.name()),
            None => None,
        };
        f.debug_struct("Signer")
            .field("main", &main)
            .field("others", &self.others.len())
            .field("cached", &self.cache.len())
            .finish_non_exhaustive()
    }
}

impl Signer {
    ghost use Rattle.std.specs.NonZero.{non_zero_usize_get};
    ghost use Rattle.jj_stores.specs.Signer.{cache_entries, capacity_of, default_capacity};

    /// Creates a signer that caches the verifications of up to `capacity` commits.
    pub fn with_capacity(
        alloc: Global,
        main: Option<Box<dyn SigningBackend>>,
        others: Vec<Box<dyn SigningBackend>>,
        capacity: NonZeroUsize,
    ) -> Result<Self, AllocError>
        ensures backends { IfOk result (λ s. (s.main ≡ main) × (s.others ≡ others)) }
        ensures empty_cache { IfOk result (λ s. cache_entries s ≡ []) }
        ensures capacity { IfOk result (λ s. capacity_of s ≡ non_zero_usize_get capacity) }
    {
        let cache = LruCache::sparse(alloc, capacity)?;
        Ok(Signer {
            main,
            others,
            cache,
        })
    }

    /// Creates a signer that caches the verifications of up to 100 commits.
    pub fn new(
        alloc: Global,
        main: Option<Box<dyn SigningBackend>>,
        others: Vec<Box<dyn SigningBackend>>,
    ) -> Result<Self, AllocError>
        ensures backends { IfOk result (λ s. (s.main ≡ main) × (s.others ≡ others)) }
        ensures empty_cache { IfOk result (λ s. cache_entries s ≡ []) }
        ensures capacity { IfOk result (λ s. capacity_of s ≡ default_capacity) }
    {
        match NonZeroUsize::new(COMMIT_CACHE_CAPACITY) {
            Some(capacity) => Signer::with_capacity(alloc, main, others, capacity),
            None => unreachable!(),
        }
    }

    /// Returns whether there is a main backend.
    pub fn can_sign(&self) -> bool
        ensures { result ≡ is_some self.now.main }
    {
        self.main.is_some()
    }

    /// Signs data with the main backend, which must exist.
    pub fn sign(&self, data: &[u8], key: Option<&str>) -> SignResult<Vec<u8>>
        requires { IsSome self.now.main }
        ensures { ForSome self.now.main (λ b. may_sign b «data».now
            (option_map (λ k. k.now) key.entry) (result_map_both (λ v. v.items) (λ e. e) result)) }
    {
        match &self.main {
            Some(main) => main.sign(*self.others.allocator(), data, key),
            None => unreachable!(),
        }
    }

    /// Returns the cached verification of the commit, or else the first decisive result of the
    /// backends that can read the signature, the main one first. `Unknown` and
    /// `InvalidSignatureFormat` are not decisive; without a decisive result, returns `Unknown`.
    ///
    /// Caches `Good`, `Bad`, and `Unknown` if no backend can read the signature. Any other error
    /// is returned and not cached. Fails with `Memory` if memory runs out, even if a backend had a
    /// result; the cache is then unchanged.
    pub fn verify(
        &mut self,
        commit_id: &CommitId,
        data: &[u8],
        signature: &[u8],
    ) -> SignResult<Verification>
        // The backends and the capacity of the cache stay.
        ensures unchanged { (self.new.main ≡ self.old.main) × (self.new.others ≡ self.old.others)
            × (capacity_of self.new ≡ capacity_of self.old) }
        // A cached verification is returned, and is then the newest of the cache; or memory runs
        // out.
        ensures cached { ForSome (lookup (bytes_eq commit_id.now) (cache_entries self.old))
            (λ v. MatchResult result
            (λ r. (r ≡ v) × (cache_entries self.new
            ≡ cache_after (capacity_of self.old) commit_id.now v (cache_entries self.old)))
            (λ e. e ≡ SignError.Memory)) }
        // Otherwise it is the first decisive result of the backends, the main one first, which is
        // cached unless it is an error; without one it is `Unknown`, which is cached only if no
        // backend can read the signature; or memory runs out.
        ensures uncached { IsNone (lookup (bytes_eq commit_id.now) (cache_entries self.old)) →
            MatchResult result
            (λ r. IsVerified (λ b. reads b signature.now)
            (λ b. may_verify b «data».now signature.now)
            (backends self.old.main self.old.others.items) commit_id.now
            (capacity_of self.old) r (cache_entries self.old) (cache_entries self.new))
            (λ e. (e ≡ SignError.Memory) ⊎ IsFirstDecisive (λ b. reads b signature.now)
            (λ b. may_verify b «data».now signature.now)
            (backends self.old.main self.old.others.items) (Some (Err e))) }
        // After an error the cache is unchanged.
        ensures error { OnErr result (cache_entries self.new ≡ cache_entries self.old) }
        // The cache has at most as many entries as its capacity.
        ensures within_capacity { length (cache_entries self.new) ≤ capacity_of self.new }
    {
        let _remembered = self.cache.len();
        if let Some(known) = self.cache.peek(commit_id) {
            let verification = known.clone()?;
            let _ = self.cache.promote(commit_id);
            return Ok(verification);
        }
        let alloc = *self.others.allocator();
        let decision = query_backends(alloc, &self.main, self.others.as_slice(), data, signature);
        match decision {
            Some(outcome) => {
                let verification = outcome?;
                self.cache_verification(commit_id, &verification)?;
                Ok(verification)
            }
            None => {
                let verification = Verification::unknown();
                if !can_any_read(&self.main, self.others.as_slice(), signature) {
                    self.cache_verification(commit_id, &verification)?;
                }
                Ok(verification)
            }
        }
    }

    fn cache_verification(
        &mut self,
        commit_id: &CommitId,
        verification: &Verification,
    ) -> Result<(), AllocError>
        requires { lookup (bytes_eq commit_id.now) (cache_entries self.old) ≡ None }
        ensures unchanged { (self.new.main ≡ self.old.main) × (self.new.others ≡ self.old.others)
            × (capacity_of self.new ≡ capacity_of self.old) }
        ensures ok { OnOk result (cache_entries self.new ≡ cache_after (capacity_of self.old)
            commit_id.now verification.now (cache_entries self.old)) }
        ensures err { OnErr result (cache_entries self.new ≡ cache_entries self.old) }
    {
        let id = commit_id.clone()?;
        let verification = verification.clone()?;
        let _remembered = self.cache.len();
        self.cache.put(id, verification)?;
        Ok(())
    }
}
