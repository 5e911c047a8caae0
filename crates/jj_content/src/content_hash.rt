//! Content hashing: a prefix-free serialization of values, streamed into a digest.
ghost use Rattle.std.specs.Prelude.{◌≡◌, ℕ, ◌<◌, ◌^◌, ◌++◌, List, [], ◌∷◌, length, OnOk, OnErr, IfOk, IsTrue, ⊤, FitsSigned, ◌↔◌, true};
ghost use Rattle.std.specs.Prelude.{map as map_of};
ghost use Rattle.std.specs.Map.Iter.{deref, deref_pair};
ghost use Rattle.std.specs.BTreeMap.{IsOrdered};
ghost use Rattle.std.specs.HashMap.{IsUnique};
ghost use Rattle.std.specs.HashSet.{IsUnique as HasUniqueKeys};
ghost use Rattle.std.specs.Ordering.{on};
ghost use Rattle.jj_content.specs.Blake2b.{blake2b};
ghost use Rattle.jj_content.specs.Blake2bState.{HasAbsorbed};
ghost use Rattle.std.specs.Int.{w32, w64};
ghost use Rattle.std.specs.Str.{IsUtf8};
ghost use Rattle.std.specs.String.{string_bytes};
ghost use Rattle.std.specs.Vec.Iter.{into_iter_items, into_iter_len};
ghost use Rattle.jj_content.specs.Content.{Absorbs, AbsorbsPrefix, IsLawful, AreValues, IsOptionOf, bool_content, u32_content, u64_content, i32_content, i64_content, list_content, string_content, option_content, entry_content, insertion_sort, map_content, set_content};
ghost use Rattle.jj_content.specs.PrefixFreeProofs.{unit_lawful, bool_lawful, u8_lawful, u32_lawful, u64_lawful, i32_lawful, i64_lawful, string_lawful, list_lawful, option_lawful, on_lawful, both_lawful, narrow_lawful};
ghost use Rattle.jj_content.specs.HashTableProofs.{hash_map_lawful, hash_set_lawful};

use crate::blake2b::Blake2b512;
use itertools::Itertools;
use std::alloc::{AllocError, Global};
use std::collections::{BTreeMap, HashMap, HashSet};
use std::vec::IntoIter;

/// A state that absorbs bytes, such as a digest.
pub trait DigestUpdate {
    /// The bytes that the state has absorbed.
    ghost absorbed: { Self → List ℕ → Type 0 };

    /// Appends `bytes` to the absorbed bytes.
    fn update(&mut self, bytes: &[u8])
        ensures { Absorbs absorbed self.old self.new bytes.now };
}

/// A value with a canonical, prefix-free serialization, its content.
pub trait ContentHash: Eq {
    /// Delimits the values of the type, for example `n < 2^32` for `u32`.
    ghost is_value: { Self → Type 0 };

    /// The content of a value.
    ghost content: { Self → List ℕ };

    /// Appends the content of the value to the state. Returns an error if memory runs out. The
    /// state has then absorbed a prefix of the content.
    fn hash<D: DigestUpdate>(&self, alloc: Global, state: &mut D) -> Result<(), AllocError>
        // On success the content of the value was appended to the state.
        ensures ok { OnOk result (Absorbs D.absorbed state.old state.new (content self.now)) }
        // The value is a valid one of its type.
        ensures value { OnOk result (is_value self.now) }
        // After an error a prefix of the content was appended.
        ensures err { OnErr result (AbsorbsPrefix D.absorbed state.old state.new
            (content self.now)) };

    /// Equal values have equal contents, and the contents of unequal values are not prefixes of
    /// each other.
    ghost lawful: { IsLawful is_value Self.eq content };
}

impl ContentHash for () {
    ghost is_value = { λ _. ⊤ };

    ghost content = { λ _. [] };

    ghost lawful = { unit_lawful };

    fn hash<D: DigestUpdate>(&self, _alloc: Global, _state: &mut D) -> Result<(), AllocError> {
        Ok(())
    }
}

impl ContentHash for bool {
    ghost is_value = { λ _. ⊤ };

    ghost content = { bool_content };

    ghost lawful = { bool_lawful };

    #[tactic(auto, unfolding(crate::specs::Content::bool_content))]
    fn hash<D: DigestUpdate>(&self, _alloc: Global, state: &mut D) -> Result<(), AllocError> {
        state.update(&[u8::from(*self)]);
        Ok(())
    }
}

impl ContentHash for u8 {
    ghost is_value = { λ n. n < 2 ^ 8 };

    ghost content = { λ n. n ∷ [] };

    ghost lawful = { u8_lawful };

    fn hash<D: DigestUpdate>(&self, _alloc: Global, state: &mut D) -> Result<(), AllocError> {
        state.update(&[*self]);
        Ok(())
    }
}

impl ContentHash for u32 {
    ghost is_value = { λ n. n < 2 ^ 32 };

    ghost content = { u32_content };

    ghost lawful = { u32_lawful };

    #[tactic(auto, unfolding(crate::specs::Content::u32_content))]
    fn hash<D: DigestUpdate>(&self, _alloc: Global, state: &mut D) -> Result<(), AllocError> {
        state.update(&self.to_le_bytes());
        Ok(())
    }
}

impl ContentHash for u64 {
    ghost is_value = { λ n. n < 2 ^ 64 };

    ghost content = { u64_content };

    ghost lawful = { u64_lawful };

    #[tactic(auto, unfolding(crate::specs::Content::u64_content))]
    fn hash<D: DigestUpdate>(&self, _alloc: Global, state: &mut D) -> Result<(), AllocError> {
        state.update(&self.to_le_bytes());
        Ok(())
    }
}

impl ContentHash for i32 {
    ghost is_value = { FitsSigned w32 };

    ghost content = { i32_content };

    ghost lawful = { i32_lawful };

    #[tactic(auto, unfolding(crate::specs::Content::i32_content, crate::specs::Content::u32_content))]
    fn hash<D: DigestUpdate>(&self, _alloc: Global, state: &mut D) -> Result<(), AllocError> {
        state.update(&self.to_le_bytes());
        Ok(())
    }
}

impl ContentHash for i64 {
    ghost is_value = { FitsSigned w64 };

    ghost content = { i64_content };

    ghost lawful = { i64_lawful };

    #[tactic(auto, unfolding(crate::specs::Content::i64_content, crate::specs::Content::u64_content))]
    fn hash<D: DigestUpdate>(&self, _alloc: Global, state: &mut D) -> Result<(), AllocError> {
        state.update(&self.to_le_bytes());
        Ok(())
    }
}

// Appends the length in bytes, then the bytes.
#[tactic(auto, unfolding(crate::specs::Content::string_content, crate::specs::Content::u64_content))]
fn hash_str<D: DigestUpdate>(text: &str, state: &mut D)
    ensures { Absorbs D.absorbed state.old state.new (string_content text.now) }
{
    state.update(&(text.len() as u64).to_le_bytes());
    state.update(text.as_bytes());
}

// Appends the length, then the items.
#[tactic(auto, unfolding(crate::specs::Content::list_content, crate::specs::Content::u64_content))]
fn hash_items<T: ContentHash, D: DigestUpdate>(
    alloc: Global,
    items: &[T],
    state: &mut D,
) -> Result<(), AllocError>
    ensures ok { OnOk result (Absorbs D.absorbed state.old state.new
        (list_content T.content items.now)) }
    ensures value { OnOk result (AreValues T.is_value items.now) }
    ensures err { OnErr result (AbsorbsPrefix D.absorbed state.old state.new
        (list_content T.content items.now)) }
{
    state.update(&(items.len() as u64).to_le_bytes());
    for item in items {
        item.hash(alloc, state)?;
    }
    Ok(())
}

impl ContentHash for &str {
    ghost is_value = { λ s. length s.now < 2 ^ 64 };

    ghost content = { λ s. string_content s.now };

    ghost lawful = { on_lawful (λ s. s.now) string_lawful };

    fn hash<D: DigestUpdate>(&self, _alloc: Global, state: &mut D) -> Result<(), AllocError> {
        hash_str(*self, state);
        Ok(())
    }
}

impl ContentHash for String {
    ghost is_value = { λ s. IsUtf8 (string_bytes s) × (length (string_bytes s) < 2 ^ 64) };

    ghost content = { λ s. string_content (string_bytes s) };

    ghost lawful = { narrow_lawful (λ _ value. value.1)
        (on_lawful (λ s. string_bytes s) string_lawful) };

    fn hash<D: DigestUpdate>(&self, _alloc: Global, state: &mut D) -> Result<(), AllocError> {
        hash_str(self.as_str(), state);
        Ok(())
    }
}

impl<T: ContentHash> ContentHash for &[T] {
    ghost is_value = { λ s. AreValues T.is_value s.now };

    ghost content = { λ s. list_content T.content s.now };

    ghost lawful = { on_lawful (λ s. s.now) (list_lawful T.lawful) };

    fn hash<D: DigestUpdate>(&self, alloc: Global, state: &mut D) -> Result<(), AllocError> {
        hash_items(alloc, *self, state)
    }
}

impl<T: ContentHash> ContentHash for Vec<T> {
    ghost is_value = { λ v. AreValues T.is_value v.items };

    ghost content = { λ v. list_content T.content v.items };

    ghost lawful = { on_lawful (λ v. v.items) (list_lawful T.lawful) };

    fn hash<D: DigestUpdate>(&self, alloc: Global, state: &mut D) -> Result<(), AllocError> {
        hash_items(alloc, self.as_slice(), state)
    }
}

impl<T: ContentHash> ContentHash for Option<T> {
    ghost is_value = { IsOptionOf T.is_value };

    ghost content = { option_content T.content };

    ghost lawful = { option_lawful T.lawful };

    #[tactic(auto, unfolding(crate::specs::Content::option_content, crate::specs::Content::u32_content))]
    fn hash<D: DigestUpdate>(&self, alloc: Global, state: &mut D) -> Result<(), AllocError> {
        match self {
            None => {
                state.update(&0u32.to_le_bytes());
                Ok(())
            }
            Some(x) => {
                state.update(&1u32.to_le_bytes());
                x.hash(alloc, state)
            }
        }
    }
}

/// Appends the contents of two values, in order.
#[tactic(auto, using(crate::proofs::AbsorbedPrefixes::prefixes))]
pub fn hash_both<A: ContentHash, B: ContentHash, D: DigestUpdate>(
    alloc: Global,
    first: &A,
    second: &B,
    state: &mut D,
) -> Result<(), AllocError>
    ensures ok { OnOk result (Absorbs D.absorbed state.old state.new
        (A.content first.now ++ B.content second.now)) }
    ensures value { OnOk result (A.is_value first.now × B.is_value second.now) }
    ensures err { OnErr result (AbsorbsPrefix D.absorbed state.old state.new
        (A.content first.now ++ B.content second.now)) }
{
    first.hash(alloc, state)?;
    second.hash(alloc, state)
}

/// Appends the contents of three values, in order.
#[tactic(auto, using(crate::proofs::AbsorbedPrefixes::prefixes))]
pub fn hash_three<A: ContentHash, B: ContentHash, C: ContentHash, D: DigestUpdate>(
    alloc: Global,
    first: &A,
    second: &B,
    third: &C,
    state: &mut D,
) -> Result<(), AllocError>
    ensures ok { OnOk result (Absorbs D.absorbed state.old state.new
        (A.content first.now ++ (B.content second.now ++ C.content third.now))) }
    ensures value { OnOk result (A.is_value first.now
        × (B.is_value second.now × C.is_value third.now)) }
    ensures err { OnErr result (AbsorbsPrefix D.absorbed state.old state.new
        (A.content first.now ++ (B.content second.now ++ C.content third.now))) }
{
    first.hash(alloc, state)?;
    hash_both(alloc, second, third, state)
}

impl<K: ContentHash + Ord, V: ContentHash> ContentHash for BTreeMap<K, V> {
    ghost is_value = { λ m. IsOrdered K.cmp m
        × AreValues (λ e. K.is_value e.0 × V.is_value e.1) m.entries };

    ghost content = { λ m. list_content (entry_content K.content V.content) m.entries };

    ghost lawful = { narrow_lawful (λ _ value. value.1) (on_lawful (λ m. m.entries)
        (list_lawful (both_lawful (on_lawful (λ e. e.0) K.lawful)
        (on_lawful (λ e. e.1) V.lawful)))) };

    #[tactic(auto, unfolding(crate::specs::Content::list_content, crate::specs::Content::u64_content))]
    fn hash<D: DigestUpdate>(&self, alloc: Global, state: &mut D) -> Result<(), AllocError> {
        state.update(&(self.len() as u64).to_le_bytes());
        for (key, value) in self.iter() {
            hash_both(alloc, key, value, state)?;
        }
        Ok(())
    }
}

fn sorted_pairs<K: Ord + std::hash::Hash, V>(
    alloc: Global,
    map: &HashMap<K, V>,
) -> Result<IntoIter<(&K, &V)>, AllocError>
    ensures pairs { IfOk result (λ pairs. map_of deref_pair (into_iter_items pairs)
        ≡ insertion_sort (on (λ e. e.0) K.cmp) map.now.entries) }
    ensures len { IfOk result (λ pairs. into_iter_len pairs ≡ length (into_iter_items pairs)) }
    ensures unique { IsUnique K.eq map.now }
{
    map.iter().sorted_unstable_by_key(alloc, |pair| pair.0)
}

// Appends the number of entries, then the key and the value of each.
#[tactic(auto, unfolding(crate::specs::Content::list_content, crate::specs::Content::u64_content))]
fn hash_pairs<K: ContentHash, V: ContentHash, D: DigestUpdate>(
    alloc: Global,
    pairs: IntoIter<(&K, &V)>,
    state: &mut D,
) -> Result<(), AllocError>
    requires { into_iter_len pairs ≡ length (into_iter_items pairs) }
    ensures ok { OnOk result (Absorbs D.absorbed state.old state.new
        (list_content (entry_content K.content V.content)
        (map_of deref_pair (into_iter_items pairs.entry)))) }
    ensures value { OnOk result (AreValues (λ e. K.is_value e.0 × V.is_value e.1)
        (map_of deref_pair (into_iter_items pairs.entry))) }
    ensures err { OnErr result (AbsorbsPrefix D.absorbed state.old state.new
        (list_content (entry_content K.content V.content)
        (map_of deref_pair (into_iter_items pairs.entry)))) }
{
    state.update(&(pairs.len() as u64).to_le_bytes());
    for (key, value) in pairs {
        hash_both(alloc, key, value, state)?;
    }
    Ok(())
}

/// Hashes the entries in key order, whatever the iteration order. O(n log n) comparisons; allocates
/// a list of references.
impl<K: ContentHash + Ord + std::hash::Hash, V: ContentHash> ContentHash for HashMap<K, V> {
    ghost is_value = { λ m. IsUnique K.eq m
        × AreValues (λ e. K.is_value e.0 × V.is_value e.1) m.entries };

    ghost content = { λ m. map_content K.cmp K.content V.content m.entries };

    ghost lawful = { hash_map_lawful K.total K.Eq.laws K.matches_eq K.lawful V.lawful };

    fn hash<D: DigestUpdate>(&self, alloc: Global, state: &mut D) -> Result<(), AllocError> {
        let pairs = sorted_pairs(alloc, self)?;
        hash_pairs(alloc, pairs, state)
    }
}

fn sorted_members<K: Ord + std::hash::Hash>(
    alloc: Global,
    set: &HashSet<K>,
) -> Result<IntoIter<&K>, AllocError>
    ensures members { IfOk result (λ members. map_of deref (into_iter_items members)
        ≡ insertion_sort K.cmp set.now.keys) }
    ensures len { IfOk result (λ members. into_iter_len members
        ≡ length (into_iter_items members)) }
    ensures unique { HasUniqueKeys K.eq set.now }
{
    set.iter().sorted_unstable(alloc)
}

// Appends the number of members, then the members.
#[tactic(auto, unfolding(crate::specs::Content::list_content, crate::specs::Content::u64_content))]
fn hash_members<K: ContentHash, D: DigestUpdate>(
    alloc: Global,
    members: IntoIter<&K>,
    state: &mut D,
) -> Result<(), AllocError>
    requires { into_iter_len members ≡ length (into_iter_items members) }
    ensures ok { OnOk result (Absorbs D.absorbed state.old state.new
        (list_content K.content (map_of deref (into_iter_items members.entry)))) }
    ensures value { OnOk result (AreValues K.is_value
        (map_of deref (into_iter_items members.entry))) }
    ensures err { OnErr result (AbsorbsPrefix D.absorbed state.old state.new
        (list_content K.content (map_of deref (into_iter_items members.entry)))) }
{
    state.update(&(members.len() as u64).to_le_bytes());
    for member in members {
        ContentHash::hash(member, alloc, state)?;
    }
    Ok(())
}

/// Hashes the members in ascending order, whatever the iteration order. O(n log n) comparisons;
/// allocates a list of references.
impl<K: ContentHash + Ord + std::hash::Hash> ContentHash for HashSet<K> {
    ghost is_value = { λ s. HasUniqueKeys K.eq s × AreValues K.is_value s.keys };

    ghost content = { λ s. set_content K.cmp K.content s.keys };

    ghost lawful = { hash_set_lawful K.total K.Eq.laws K.matches_eq K.lawful };

    fn hash<D: DigestUpdate>(&self, alloc: Global, state: &mut D) -> Result<(), AllocError> {
        let members = sorted_members(alloc, self)?;
        hash_members(alloc, members, state)
    }
}

impl<T: ContentHash> ContentHash for (T,) {
    ghost is_value = { λ p. T.is_value p.0 };

    ghost content = { λ p. T.content p.0 };

    ghost lawful = { on_lawful (λ p. p.0) T.lawful };

    fn hash<D: DigestUpdate>(&self, alloc: Global, state: &mut D) -> Result<(), AllocError> {
        self.0.hash(alloc, state)
    }
}

impl<T: ContentHash, U: ContentHash> ContentHash for (T, U) {
    ghost is_value = { λ p. T.is_value p.0 × U.is_value p.1 };

    ghost content = { λ p. T.content p.0 ++ U.content p.1 };

    ghost lawful = { both_lawful (on_lawful (λ p. p.0) T.lawful) (on_lawful (λ p. p.1) U.lawful) };

    fn hash<D: DigestUpdate>(&self, alloc: Global, state: &mut D) -> Result<(), AllocError> {
        hash_both(alloc, &self.0, &self.1, state)
    }
}

impl<A: ContentHash, B: ContentHash, C: ContentHash> ContentHash for (A, B, C) {
    ghost is_value = { λ p. (A.is_value p.0 × B.is_value p.1) × C.is_value p.2 };

    ghost content = { λ p. A.content p.0 ++ B.content p.1 ++ C.content p.2 };

    ghost lawful = { both_lawful (both_lawful (on_lawful (λ p. p.0) A.lawful)
        (on_lawful (λ p. p.1) B.lawful)) (on_lawful (λ p. p.2) C.lawful) };

    #[tactic(auto, using(crate::proofs::AbsorbedPrefixes::prefixes))]
    fn hash<D: DigestUpdate>(&self, alloc: Global, state: &mut D) -> Result<(), AllocError> {
        hash_both(alloc, &self.0, &self.1, state)?;
        self.2.hash(alloc, state)
    }
}

impl<A: ContentHash, B: ContentHash, C: ContentHash, D: ContentHash> ContentHash for (A, B, C, D) {
    ghost is_value = { λ p. ((A.is_value p.0 × B.is_value p.1) × C.is_value p.2) × D.is_value p.3 };

    ghost content = { λ p. A.content p.0 ++ B.content p.1 ++ C.content p.2 ++ D.content p.3 };

    ghost lawful = { both_lawful (both_lawful
        (both_lawful (on_lawful (λ p. p.0) A.lawful) (on_lawful (λ p. p.1) B.lawful))
        (on_lawful (λ p. p.2) C.lawful)) (on_lawful (λ p. p.3) D.lawful) };

    #[tactic(auto, using(crate::proofs::AbsorbedPrefixes::prefixes))]
    fn hash<S: DigestUpdate>(&self, alloc: Global, state: &mut S) -> Result<(), AllocError> {
        hash_both(alloc, &self.0, &self.1, state)?;
        self.2.hash(alloc, state)?;
        self.3.hash(alloc, state)
    }
}

impl DigestUpdate for Blake2b512 {
    ghost absorbed = { HasAbsorbed };

    fn update(&mut self, bytes: &[u8]) {
        Blake2b512::update(self, bytes);
    }
}

/// Returns the BLAKE2b-512 digest of the content of `x`. Returns an error if memory runs out.
pub fn blake2b_hash<T: ContentHash>(alloc: Global, x: &T) -> Result<[u8; 64], AllocError>
    ensures digest { IfOk result (λ digest. digest ≡ blake2b (T.content x.now)) }
    ensures value { OnOk result (T.is_value x.now) }
{
    let mut hasher = Blake2b512::new();
    x.hash(alloc, &mut hasher)?;
    Ok(hasher.finalize())
}

// Collects the hashed bytes. `is_complete` is false after an allocation failure.
#[derive(Drop)]
struct CollectedBytes {
    bytes: Vec<u8>,
    is_complete: bool,
}

impl DigestUpdate for CollectedBytes {
    ghost absorbed = { λ collected bytes. IsTrue collected.is_complete
        → collected.bytes.items ≡ bytes };

    fn update(&mut self, bytes: &[u8]) {
        if self.is_complete && self.bytes.extend_from_slice(bytes).is_err() {
            self.is_complete = false;
        }
    }
}

/// Returns the content of `value`, the bytes that its hash digests. Returns an error if memory runs
/// out.
pub fn content_of<T: ContentHash>(alloc: Global, value: &T) -> Result<Vec<u8>, AllocError>
    ensures bytes { IfOk result (λ bytes. bytes.items ≡ T.content value.now) }
    ensures value { OnOk result (T.is_value value.now) }
{
    let mut collected = CollectedBytes {
        bytes: Vec::new(alloc),
        is_complete: true,
    };
    value.hash(alloc, &mut collected)?;
    if collected.is_complete {
        Ok(collected.bytes)
    } else {
        Err(AllocError)
    }
}

/// Two values of one type have the same content if and only if they are equal.
pub fn content_decides<T: ContentHash>()
    // Valid values of the type have equal contents exactly if they are equal.
    ensures { (x y : T) → T.is_value x → T.is_value y → (T.content x ≡ T.content y)
        ↔ (T.eq x y ≡ true) }
{}
