//! Names of refs, remotes and workspaces, and their display as symbols.
mod kinds;
mod names;
mod symbols;

pub use kinds::{
    GitRefKind, GitRefName, GitRefNameBuf, RefKind, RefName, RefNameBuf, RemoteKind, RemoteName,
    RemoteNameBuf, WorkspaceKind, WorkspaceName, WorkspaceNameBuf,
};
pub use names::{Name, NameBuf, NameKind};
pub use symbols::{
    AtRemote, RefSymbol, RemoteRefSymbol, RemoteRefSymbolBuf, remote_symbol_display_is_injective,
};
