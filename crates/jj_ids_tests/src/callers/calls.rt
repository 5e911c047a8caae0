//! One caller for each call on ids, names and symbols.
ghost use Rattle.std.specs.Prelude.{◌≡◌, ℕ, List, IfOk, IfErr, IsTrue, codes, Some, refl};
ghost use Rattle.std.specs.String.{string_bytes};
ghost use Rattle.std.specs.Str.{bytes_eq};
ghost use Rattle.std.specs.Option.{option_copied};
ghost use Rattle.std.specs.BTreeMap.{get_by};
ghost use Rattle.std.specs.Ordering.{nat_cmp, ordering_then};
ghost use Rattle.std.specs.Cmp.Lexicographic.{slice_cmp};
ghost use Rattle.jj_content.specs.Hex.{hex, reverse_hex, hex_digits, reverse_hex_digits, DecodesTo, IsDecoding};
ghost use Rattle.jj_ids.specs.Names.{name_bytes};

use jj_ids::object_id::{ChangeId, CommitId, HexPrefix, ObjectId};
use jj_ids::ref_name::{
    AtRemote, GitRefNameBuf, RefName, RefNameBuf, RemoteRefSymbol, RemoteRefSymbolBuf,
    WorkspaceName,
};
use std::alloc::{AllocError, Global};
use std::cmp::Ordering;
use std::collections::BTreeMap;

/// A trait of this crate, implemented for types of jj_ids.
pub trait Labeled {
    ghost label_text: { List ℕ };

    fn label(&self) -> &'static str
        ensures { result.now ≡ label_text };
}

impl Labeled for CommitId {
    ghost label_text = { codes "a commit" };

    fn label(&self) -> &'static str {
        "a commit"
    }
}

impl Labeled for ChangeId {
    ghost label_text = { codes "a change" };

    fn label(&self) -> &'static str {
        "a change"
    }
}

impl Labeled for RefNameBuf {
    ghost label_text = { codes "a ref" };

    fn label(&self) -> &'static str {
        "a ref"
    }
}

impl Labeled for GitRefNameBuf {
    ghost label_text = { codes "a Git ref" };

    fn label(&self) -> &'static str {
        "a Git ref"
    }
}

pub fn commit_id(bytes: Vec<u8>) -> CommitId
    ensures { result ≡ bytes.items }
{
    CommitId::new(bytes)
}

pub fn commit_text(alloc: Global, id: &CommitId) -> Result<String, AllocError>
    ensures { IfOk result (λ text. string_bytes text ≡ hex id.now) }
{
    format!(in alloc; "{id}")
}

pub fn change_text(alloc: Global, id: &ChangeId) -> Result<String, AllocError>
    ensures { IfOk result (λ text. string_bytes text ≡ reverse_hex id.now) }
{
    format!(in alloc; "{id}")
}

pub fn commit_type(alloc: Global, id: &CommitId) -> Result<String, AllocError>
    ensures { IfOk result (λ text. string_bytes text ≡ codes "commit") }
{
    id.object_type(alloc)
}

pub fn change_type(alloc: Global, id: &ChangeId) -> Result<String, AllocError>
    ensures { IfOk result (λ text. string_bytes text ≡ codes "change") }
{
    id.object_type(alloc)
}

pub fn compare_ids(a: &CommitId, b: &CommitId) -> Ordering
    ensures { result ≡ slice_cmp nat_cmp a.now b.now }
{
    a.cmp(b)
}

pub fn clone_change_id(id: &ChangeId) -> Result<ChangeId, AllocError>
    ensures { IfOk result (λ copy. copy ≡ id.now) }
{
    id.clone()
}

pub fn root(alloc: Global) -> Result<CommitId, AllocError>
    ensures { IfOk result (DecodesTo hex_digits (codes "0000")) }
{
    CommitId::from_hex(alloc, "0000")
}

pub fn read_change(alloc: Global, text: &str) -> Result<Option<ChangeId>, AllocError>
    ensures { IfOk result (IsDecoding (λ id. id) reverse_hex_digits text.now) }
{
    ChangeId::try_from_reverse_hex(alloc, text)
}

pub fn prefix_of(alloc: Global, id: &CommitId) -> Result<HexPrefix, AllocError>
    ensures { IfOk result (λ prefix. prefix ≡ hex id.now) }
{
    HexPrefix::from_id(alloc, id)
}

pub fn borrow_name(name: &RefNameBuf) -> RefName<'_>
    ensures { name_bytes result ≡ name.now }
{
    name.as_name()
}

pub fn default_workspace() -> WorkspaceName<'static>
    ensures { name_bytes result ≡ codes "default" }
{
    WorkspaceName::default_name()
}

pub fn same_name(a: RefName<'_>, b: RefName<'_>) -> bool
    ensures { result ≡ bytes_eq (name_bytes a.entry) (name_bytes b.entry) }
{
    a == b
}

pub fn name_order(a: RefName<'_>, b: RefName<'_>) -> Ordering
    ensures { result ≡ slice_cmp nat_cmp (name_bytes a.entry) (name_bytes b.entry) }
{
    a.cmp(&b)
}

pub fn named_id<'a>(
    ids: &'a BTreeMap<RefName<'a>, CommitId>,
    name: RefName<'a>,
) -> Option<&'a CommitId>
    ensures { option_copied result
        ≡ get_by (λ other. slice_cmp nat_cmp (name_bytes name.entry) (name_bytes other)) ids.now }
{
    ids.get(&name)
}

/// A type that is ordered and compared by its string.
pub trait OrderedAsText: Ord {
    ghost text_of: { Self → List ℕ };

    fn text(&self) -> &str
        ensures { result.now ≡ text_of self.now };

    ghost ordered_as_text: { (a b : Self) → Self.cmp a b
        ≡ slice_cmp nat_cmp (text_of a) (text_of b) };

    ghost equal_as_text: { (a b : Self) → Self.PartialEq.eq a b
        ≡ bytes_eq (text_of a) (text_of b) };
}

impl<'a> OrderedAsText for RefName<'a> {
    ghost text_of = { λ name. name_bytes name };

    ghost ordered_as_text = { λ a b. refl };

    ghost equal_as_text = { λ a b. refl };

    fn text(&self) -> &str {
        self.as_str()
    }
}

pub fn symbol_order(a: RemoteRefSymbol<'_>, b: RemoteRefSymbol<'_>) -> Ordering
    ensures { result ≡ ordering_then
        (slice_cmp nat_cmp (name_bytes a.entry.name) (name_bytes b.entry.name))
        (slice_cmp nat_cmp (name_bytes a.entry.remote) (name_bytes b.entry.remote)) }
{
    a.cmp(&b)
}

pub fn owned_symbol_order(a: &RemoteRefSymbolBuf, b: &RemoteRefSymbolBuf) -> Ordering
    ensures { result ≡ ordering_then
        (slice_cmp nat_cmp a.now.name b.now.name)
        (slice_cmp nat_cmp a.now.remote b.now.remote) }
{
    a.cmp(b)
}

/// Compares symbols, borrow_name or owned, in generic code.
pub fn order_at_remote<S: AtRemote>(a: &S, b: &S) -> Ordering
    ensures { result ≡ S.cmp a.now b.now }
{
    a.cmp(b)
}
