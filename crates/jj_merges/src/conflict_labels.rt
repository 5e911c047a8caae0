//! Labels of conflict sides, such as branch names, stored as a merge of strings.
ghost use Rattle.std.specs.Prelude.{◌≡◌, ℕ, ◌+◌, ◌*◌, ◌<◌, ◌≤◌, ◌⊎◌, [], ◌∷◌, map, length, nat_lt, slice_get, string_bytes, IsTrue, ◌↔◌, ◌≢◌, IfOk, MatchOption};
ghost use Rattle.std.specs.Cmp;
ghost use Rattle.std.specs.Cmp.Lexicographic.{pointwise, lists_per, lists_equiv, nat_list_eq_equiv, bytes_decides};
ghost use Rattle.std.specs.Hash as fed;
ghost use Rattle.std.specs.Hash.{items_Alike, same_Alike};
ghost use Rattle.std.specs.List.{AllZip, list_all};
ghost use Rattle.std.specs.Str.{bytes_eq};
ghost use Rattle.std.specs.Option.{option_copied, option_map};
ghost use Rattle.jj_merges.specs.Merge.{HaveSameCounts, IsDisjoint, IsOdd, adds, removes};
ghost use Rattle.jj_merges.specs.Simplify.{simplified_indices, at_indices};
ghost use Rattle.jj_merges.specs.Labels.{is_unlabeled, normalized_labels, labels_as_merge, nonempty};

use crate::merge::{Merge, cancellation};
use smallvec::SmallVec;
use std::alloc::{AllocError, Global};
use std::fmt;
use std::hash::{Hash, Hasher};
use std::marker::Model;

/// One label for each term of a conflict, or no labels. Labels of a resolved merge, and labels that
/// are all empty, are dropped.
///
/// Contracts see the list of the labels' strings, which is empty for an unlabeled conflict.
#[derive(Drop)]
pub struct ConflictLabels {
    labels: Merge<String>,
}

impl Model for ConflictLabels {
    ghost use Rattle.std.specs.Prelude.{ℕ, List, map, string_bytes};
    ghost use Rattle.jj_merges.specs.Labels.{normalized_labels, IsNormalized};

    ghost Value = { List (List ℕ) };

    ghost view = { λ l. normalized_labels (map string_bytes l.labels) };

    ghost invariant = { λ l. IsNormalized (map string_bytes l.labels) };
}

fn is_unlabeled(labels: &[String]) -> bool
    ensures { result ≡ is_unlabeled (map string_bytes labels.now) }
{
    labels.len() < 2 || all_empty(labels)
}

fn all_empty(labels: &[String]) -> bool
    ensures { result ≡ list_all (λ label. nat_lt (length label) 1) (map string_bytes labels.now) }
{
    for label in labels {
        if !label.is_empty() {
            return false;
        }
    }
    true
}

impl ConflictLabels {
    /// Returns labels for an unlabeled conflict. Does not allocate.
    pub fn unlabeled(alloc: Global) -> Self
        ensures { result ≡ [] }
    {
        ConflictLabels {
            labels: Merge::resolved(alloc, String::new(alloc)),
        }
    }

    /// Creates labels from a merge of strings. The result is unlabeled if the merge is resolved or
    /// all its strings are empty.
    pub fn from_merge(labels: Merge<String>) -> Self
        ensures { result ≡ normalized_labels (map string_bytes labels) }
    {
        if is_unlabeled(labels.as_slice()) {
            let alloc = *labels.first().allocator();
            return ConflictLabels::unlabeled(alloc);
        }
        ConflictLabels { labels }
    }

    /// Creates labels from the strings of all terms in order. No strings mean no labels.
    pub fn from_vec(labels: SmallVec<String, 1>) -> Self
        requires { (length labels.items ≡ 0) ⊎ IsOdd (length labels.items) }
        ensures { result ≡ normalized_labels (map string_bytes labels.items) }
    {
        if labels.is_empty() {
            return ConflictLabels::unlabeled(*labels.allocator());
        }
        ConflictLabels::from_merge(Merge::from_vec(labels))
    }

    /// Returns whether the conflict is labeled.
    pub fn has_labels(&self) -> bool
        ensures { IsTrue result ↔ (0 < length self.now) }
    {
        !self.labels.is_resolved()
    }

    /// Returns the number of labeled adds, or `None` for an unlabeled conflict.
    pub fn num_sides(&self) -> Option<usize>
        ensures { MatchOption result (self.now ≡ []) (λ n. length self.now + 1 ≡ 2 * n) }
    {
        if self.has_labels() {
            Some(self.labels.num_sides())
        } else {
            None
        }
    }

    /// Returns the labels as a merge. Without labels it is resolved to the empty string.
    pub fn as_merge(&self) -> &Merge<String>
        ensures { map string_bytes result.now ≡ labels_as_merge self.now }
    {
        &self.labels
    }

    /// Converts the labels into a merge. Without labels it is resolved to the empty string.
    pub fn into_merge(self) -> Merge<String>
        ensures { map string_bytes result ≡ labels_as_merge self }
    {
        let ConflictLabels { labels } = self;
        labels
    }

    /// Returns the labels of all terms in order, or an empty slice for an unlabeled conflict.
    pub fn as_slice(&self) -> &[String]
        ensures { map string_bytes result.now ≡ self.now }
    {
        if self.has_labels() {
            self.labels.as_slice()
        } else {
            &self.labels.as_slice()[..0]
        }
    }

    /// Returns the label of the add at `add_index`, or `None` if it is missing or empty.
    pub fn get_add(&self, add_index: usize) -> Option<&str>
        ensures { option_copied result ≡ nonempty (slice_get (adds self.now) add_index) }
    {
        nonempty_label(self.labels.get_add(add_index))
    }

    /// Returns the label of the remove at `remove_index`, or `None` if it is missing or empty.
    pub fn get_remove(&self, remove_index: usize) -> Option<&str>
        ensures { option_copied result ≡ nonempty (slice_get (removes self.now) remove_index) }
    {
        nonempty_label(self.labels.get_remove(remove_index))
    }

    /// Simplifies `merge` (see `Merge::simplify`), and drops the labels of the terms that cancel.
    /// Each remaining term keeps its label: `labels` and `terms` select the same indices. O(n²)
    /// comparisons.
    pub fn simplify_with<T: PartialEq + Clone>(
        &self,
        alloc: Global,
        merge: &Merge<T>,
    ) -> Result<(Self, Merge<T>), AllocError>
        requires sides { (self.now ≡ []) ⊎ (length self.now ≡ length merge.now) }
        requires clones { (x y : T) → T.is_clone x y → IsTrue (T.eq x y) }
        ensures labels { IfOk result (λ p. p.0
            ≡ normalized_labels (at_indices self.now (simplified_indices T.eq merge.now))) }
        ensures terms { IfOk result (λ p. AllZip T.is_clone
            (at_indices merge.now (simplified_indices T.eq merge.now)) p.1) }
        ensures counts { IfOk result (λ p. HaveSameCounts T.eq p.1 merge.now) }
        ensures disjoint { IfOk result (λ p. IsDisjoint T.eq p.1) }
    {
        if !self.has_labels() {
            return Ok((ConflictLabels::unlabeled(alloc), merge.simplify(alloc)?));
        }
        let values = merge.as_slice();
        let indices = cancellation::simplified_indices(alloc, values)?;
        let labels = cancellation::clone_at_indices(alloc, self.labels.as_slice(), &indices)?;
        let terms = cancellation::clone_at_indices(alloc, values, &indices)?;
        Ok((ConflictLabels::from_merge(labels), terms))
    }
}

fn nonempty_label(label: Option<&String>) -> Option<&str>
    ensures { option_copied result ≡ nonempty
        (option_map string_bytes (option_copied label.entry)) }
{
    match label {
        Some(label) if !label.is_empty() => Some(label.as_str()),
        _ => None,
    }
}

/// The clone uses the allocator of the first label.
impl Clone for ConflictLabels {
    ghost is_clone = { λ labels c. c ≡ labels };

    fn clone(&self) -> Result<Self, AllocError> {
        let alloc = *self.labels.first().allocator();
        let labels = self.labels.clone(alloc)?;
        Ok(ConflictLabels { labels })
    }
}

impl PartialEq for ConflictLabels {
    ghost eq = { pointwise bytes_eq };

    ghost laws = { lists_per (Cmp.partial_equiv_from_equiv nat_list_eq_equiv) };

    fn eq(&self, other: &Self) -> bool {
        self.as_slice() == other.as_slice()
    }
}

impl Eq for ConflictLabels {
    ghost laws = { lists_equiv nat_list_eq_equiv };
}

impl Hash for ConflictLabels {
    ghost hash_input = { fed.slice fed.str };

    ghost respects_eq = { (items_Alike (same_Alike fed.str bytes_decides)).fed };

    fn hash<H: Hasher>(&self, state: &mut H) {
        self.as_slice().hash(state);
    }
}

impl fmt::Debug for ConflictLabels {
    fn fmt<W: fmt::Write>(&self, f: &mut fmt::Formatter<W>) -> fmt::Result {
        if self.has_labels() {
            f.debug_tuple("Labeled")
                .field(&self.labels.as_slice())
                .finish()
        } else {
            f.write_str("Unlabeled")
        }
    }
}
