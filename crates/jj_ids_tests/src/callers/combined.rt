//! Results of several lookups, and symbols that are compared as they print.
ghost use Rattle.std.specs.Prelude.{◌≡◌, ◌↔◌, ℕ, List, IfOk, IsTrue};
ghost use Rattle.std.specs.List.Sorted.{IsPermutation};
ghost use Rattle.jj_ids.specs.declared.object_id.prefix_resolution.PrefixResolution.{PrefixResolution as Resolution};
ghost use Rattle.jj_ids_tests.specs.Lookups.{sum_of};

use jj_ids::object_id::{CommitId, PrefixResolution, sum_laws};
use jj_ids::ref_name::{RemoteRefSymbolBuf, remote_symbol_display_is_injective};
use std::alloc::{AllocError, Global};

/// Adds up what a prefix matches in several disjoint sets of commits. The order of the sets does
/// not matter.
pub fn add_up(
    alloc: Global,
    found: &[PrefixResolution<CommitId>],
) -> Result<PrefixResolution<CommitId>, AllocError>
    ensures { IfOk result (λ all. (order : List (Resolution (List ℕ)))
        → IsPermutation found.now order → all ≡ sum_of order) }
{
    sum_laws::<CommitId>();
    let mut all = PrefixResolution::NoMatch;
    for one in found {
        all = all.plus(one)?;
    }
    Ok(all)
}

/// Returns whether two names at remotes print the same: they do if and only if they are equal.
pub fn print_alike(
    alloc: Global,
    symbol: &RemoteRefSymbolBuf,
    other: &RemoteRefSymbolBuf,
) -> Result<bool, AllocError>
    ensures { IfOk result (λ alike. IsTrue alike
        ↔ ((symbol.now.name ≡ other.now.name) × (symbol.now.remote ≡ other.now.remote))) }
{
    remote_symbol_display_is_injective();
    let printed = format!(in alloc; "{symbol}")?;
    let other_printed = format!(in alloc; "{other}")?;
    Ok(printed == other_printed)
}
