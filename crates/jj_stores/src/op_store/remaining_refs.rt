//! Peekable iterator over the refs of a map in ascending order of names.
ghost use Rattle.std.specs.Prelude.{◌≡◌, ◌⊎◌, false, IfSome};
ghost use Rattle.std.specs.Cmp.Lexicographic.{slice_cmp};
ghost use Rattle.std.specs.List.{slice_get};
ghost use Rattle.std.specs.Option.{option_copied};
ghost use Rattle.std.specs.Ordering.{nat_cmp, is_gt};
ghost use Rattle.std.specs.Map.{keys_of};
ghost use Rattle.jj_stores.specs.ViewJoins.{IsAscending, IsLeast, RemovesFirst};

use jj_ids::ref_name::RefNameBuf;
use std::collections::BTreeMap;
use std::collections::btree_map::Iter;
use std::marker::Model;

// The remaining refs of a map, the first one peeked.
#[derive(Drop)]
pub(super) struct RemainingRefs<'a, V> {
    first: Option<(&'a RefNameBuf, &'a V)>,
    rest: Iter<'a, RefNameBuf, V>,
}

impl<'a, V> Model for RemainingRefs<'a, V> {
    ghost use Rattle.std.specs.Prelude.{◌≡◌, ◌++◌, [], ℕ, List, option_map, IsNone};
    ghost use Rattle.std.specs.Option.{option_to_list};
    ghost use Rattle.std.specs.Map.Iter.{deref_pair};
    ghost use Rattle.jj_stores.specs.ViewJoins.{Named, IsAscending};

    ghost Value = { Named V };

    ghost view = { λ refs. option_to_list (option_map deref_pair refs.first) ++ refs.rest };

    ghost invariant = { λ refs.
        IsAscending (option_to_list (option_map deref_pair refs.first) ++ refs.rest)
        × (IsNone refs.first → refs.rest ≡ []) };
}

impl<'a, V> RemainingRefs<'a, V> {
    pub(super) fn new(refs: &'a BTreeMap<RefNameBuf, V>) -> Self
        ensures { result ≡ refs.now.entries }
    {
        let mut rest = refs.iter();
        let first = rest.next();
        RemainingRefs { first, rest }
    }

    pub(super) fn first_name(&self) -> Option<&'a RefNameBuf>
        ensures first { option_copied result ≡ slice_get (keys_of self.now) 0 }
        ensures least { IfSome (option_copied result) (λ name. IsLeast name self.now) }
        ensures ascending { IsAscending self.now }
    {
        let (name, _) = self.first?;
        Some(name)
    }

    // Removes the first ref if it has this name.
    pub(super) fn take_if_named(&mut self, name: &RefNameBuf) -> Option<&'a V>
        requires { IsLeast name.now self.old }
        ensures taken { RemovesFirst name.now self.old (option_copied result) self.new }
        ensures ascending { IsAscending self.old }
    {
        let (first, value) = self.first?;
        if first != name {
            return None;
        }
        self.first = self.rest.next();
        Some(value)
    }
}

pub(super) fn min_name<'a>(name: &'a RefNameBuf, other: &'a RefNameBuf) -> &'a RefNameBuf
    ensures one { (result.now ≡ name.now) ⊎ (result.now ≡ other.now) }
    ensures first { is_gt (slice_cmp nat_cmp result.now name.now) ≡ false }
    ensures second { is_gt (slice_cmp nat_cmp result.now other.now) ≡ false }
{
    if other < name { other } else { name }
}
