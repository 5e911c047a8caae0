//! Requests on names of refs, remotes and workspaces, and their symbols.
use crate::content::{content_of, put_content, put_json};
use jj_ids::object_id::{ChangeId, CommitId};
use jj_ids::ref_name::{
    GitRefKind, GitRefName, Name, NameKind, RefKind, RefName, RemoteKind, RemoteName,
    RemoteRefSymbol, WorkspaceKind, WorkspaceName,
};
use rows::request::Request;
use rows::row_error::{RowError, agree};
use rows::values::Values;
use std::alloc::Global;
use std::cmp::Ordering;
use std::fmt;

// Fails unless names of the other kinds have the same symbol.
fn symbols_agree(alloc: Global, string: &str, symbol: &str) -> Result<(), RowError> {
    let remote = format!(in alloc; "{}", RemoteName::new(string).as_symbol())?;
    let git = format!(in alloc; "{}", GitRefName::new(string).as_symbol())?;
    let workspace = format!(in alloc; "{}", WorkspaceName::new(string).as_symbol())?;
    agree(
        remote.as_str() == symbol && git.as_str() == symbol && workspace.as_str() == symbol,
        "symbols of names",
    )
}

fn symbol(alloc: Global, request: &Request, values: &mut Values) -> Result<(), RowError> {
    let string = request.group(0).only_string();
    let symbol = format!(in alloc; "{}", RefName::new(string).as_symbol())?;
    values.string(symbol.as_str());
    symbols_agree(alloc, string, symbol.as_str())
}

fn remote_symbol(alloc: Global, request: &Request, values: &mut Values) -> Result<(), RowError> {
    let fields = request.group(0);
    let remote = RemoteName::new(fields.string(1));
    let symbol = RefName::new(fields.string(0)).to_remote_symbol(remote);
    values.display(&symbol);
    owned_symbol_agrees(alloc, symbol)
}

fn owned_symbol_agrees(alloc: Global, symbol: RemoteRefSymbol<'_>) -> Result<(), RowError> {
    let owned = symbol.to_owned(alloc)?;
    let (shown, expected) = (
        format!(in alloc; "{owned}")?,
        format!(in alloc; "{symbol}")?,
    );
    agree(
        owned.as_ref() == symbol && shown == expected,
        "owned symbol",
    )
}

// Appends the debug forms of a symbol, of a remote symbol, and of its owned form.
fn symbol_debug(alloc: Global, request: &Request, values: &mut Values) -> Result<(), RowError> {
    let fields = request.group(0);
    let (name, remote) = (
        RefName::new(fields.string(0)),
        RemoteName::new(fields.string(1)),
    );
    values.debug(&name.as_symbol());
    let symbol = name.to_remote_symbol(remote);
    values.debug(&symbol);
    values.debug(&symbol.to_owned(alloc)?);
    Ok(())
}

// Appends the debug form and content of a name, and the debug form, JSON and content of its owned
// form.
fn put_name<K: NameKind>(
    alloc: Global,
    name: Name<'_, K>,
    values: &mut Values,
) -> Result<(), RowError> {
    values.allocated(format!(in alloc; "{name:?}"));
    values.allocated(content_of(alloc, &name));
    let owned = name.to_owned(alloc)?;
    values.debug(&owned);
    put_json(alloc, values, &owned)?;
    put_content(alloc, values, &owned)?;
    let is_same = owned.as_name() == name && owned.clone()? == owned;
    let string = owned.into_string();
    agree(is_same && name.same_text(string.as_str()), "owned name")
}

fn name(alloc: Global, request: &Request, values: &mut Values) -> Result<(), RowError> {
    let fields = request.group(0);
    let string = fields.string(1);
    match fields.string(0) {
        "git" => put_name::<GitRefKind>(alloc, GitRefName::new(string), values),
        "ref" => put_name::<RefKind>(alloc, RefName::new(string), values),
        "remote" => put_name::<RemoteKind>(alloc, RemoteName::new(string), values),
        "workspace" => put_name::<WorkspaceKind>(alloc, WorkspaceName::new(string), values),
        _ => Err(RowError::Unreadable("kind of name")),
    }
}

fn owned_names_agree(alloc: Global, a: RefName<'_>, b: RefName<'_>) -> Result<(), RowError> {
    let (first, second) = (a.to_owned(alloc)?, b.to_owned(alloc)?);
    agree(
        first.cmp(&second) == a.cmp(&b)
            && (first == second) == (a.cmp(&b) == Ordering::Equal)
            && (a == b) == (first == second)
            && (a < b) == (a.cmp(&b) == Ordering::Less)
            && (first < second) == (a < b),
        "order of owned names",
    )
}

fn owned_symbols_agree(
    alloc: Global,
    a: RemoteRefSymbol<'_>,
    b: RemoteRefSymbol<'_>,
) -> Result<(), RowError> {
    let (first, second) = (a.to_owned(alloc)?, b.to_owned(alloc)?);
    agree(
        first.cmp(&second) == a.cmp(&b) && (a < b) == (a.cmp(&b) == Ordering::Less),
        "order of owned symbols",
    )
}

fn order_name(order: Ordering) -> &'static str {
    match order {
        Ordering::Less => "less",
        Ordering::Equal => "equal",
        Ordering::Greater => "greater",
    }
}

// Appends the order of two names, and of the two symbols at remotes.
fn compare(alloc: Global, request: &Request, values: &mut Values) -> Result<(), RowError> {
    let fields = request.group(0);
    let (a, b) = (
        RefName::new(fields.string(0)),
        RefName::new(fields.string(1)),
    );
    let (c, d) = (
        RemoteName::new(fields.string(2)),
        RemoteName::new(fields.string(3)),
    );
    values.word(order_name(a.cmp(&b)));
    owned_names_agree(alloc, a, b)?;
    let (first, second) = (a.to_remote_symbol(c), b.to_remote_symbol(d));
    values.word(order_name(first.cmp(&second)));
    owned_symbols_agree(alloc, first, second)
}

// Appends a value at a width and a precision, once per alignment.
fn put_padded<T: fmt::Display>(
    alloc: Global,
    values: &mut Values,
    value: &T,
    width: usize,
    precision: usize,
) {
    values.allocated(format!(in alloc; "{value:width$.precision$}"));
    values.allocated(format!(in alloc; "{value:>width$.precision$}"));
    values.allocated(format!(in alloc; "{value:^width$.precision$}"));
    values.allocated(format!(in alloc; "{value:é^width$}"));
    values.allocated(format!(in alloc; "{value:.precision$}"));
}

fn padded(alloc: Global, request: &Request, values: &mut Values) -> Result<(), RowError> {
    let fields = request.group(0);
    let (width, precision) = (fields.index(0), fields.index(1));
    let (name, remote) = (
        RefName::new(fields.string(2)),
        RemoteName::new(fields.string(3)),
    );
    put_padded(alloc, values, &name.as_symbol(), width, precision);
    let symbol = name.to_remote_symbol(remote);
    put_padded(alloc, values, &symbol, width, precision);
    put_padded(alloc, values, &symbol.to_owned(alloc)?, width, precision);
    Ok(())
}

fn padded_id(alloc: Global, request: &Request, values: &mut Values) -> Result<(), RowError> {
    let fields = request.group(0);
    let (width, precision) = (fields.index(0), fields.index(1));
    let commit = CommitId::from_bytes(alloc, fields.bytes(2))?;
    put_padded(alloc, values, &commit, width, precision);
    let change = ChangeId::from_bytes(alloc, fields.bytes(2))?;
    put_padded(alloc, values, &change, width, precision);
    Ok(())
}

fn default_workspace(values: &mut Values) -> Result<(), RowError> {
    values.string(WorkspaceName::default_name().as_str());
    Ok(())
}

pub(crate) fn call(
    alloc: Global,
    called_name: &str,
    request: &Request,
    values: &mut Values,
) -> bool {
    let called = match called_name {
        "symbol" => symbol(alloc, request, values),
        "remote-symbol" => remote_symbol(alloc, request, values),
        "symbol-debug" => symbol_debug(alloc, request, values),
        "name" => name(alloc, request, values),
        "names-cmp" => compare(alloc, request, values),
        "padded" => padded(alloc, request, values),
        "padded-id" => padded_id(alloc, request, values),
        "workspace-default" => default_workspace(values),
        _ => return false,
    };
    values.record(called);
    true
}
