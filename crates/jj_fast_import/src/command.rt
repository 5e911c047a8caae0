//! Commands of a stream, as the manual of `git fast-import` names their parts.

/// A person and a time, as in a line `author`, `committer` or `tagger`.
#[derive(Debug, Drop)]
pub struct Person {
    /// `None` if only a space is before `<`.
    pub name: Option<Vec<u8>>,
    pub email: Vec<u8>,
    /// Seconds since 1970-01-01 00:00 UTC.
    pub seconds: u64,
    pub zone: Zone,
}

/// An offset from UTC, as `+hhmm` or `-hhmm` writes it. `-0000` and `+0000` differ.
#[derive(Clone, Copy, Debug, PartialEq, Eq)]
pub struct Zone {
    pub is_west: bool,
    /// Below 100.
    pub hours: u8,
    /// Below 100.
    pub minutes: u8,
}

/// A commit: by its mark, or by an object ID or an expression like `refs/heads/main^0`. Also a
/// blob by its mark or object ID.
#[derive(Debug, Drop)]
pub enum Reference {
    Mark(u64),
    Name(Vec<u8>),
}

/// The content of a file or of a note.
#[derive(Debug, Drop)]
pub enum Content {
    Stored(Reference),
    Inline(Vec<u8>),
}

/// The type of a tree's entry.
#[derive(Clone, Copy, Debug, PartialEq, Eq)]
pub enum Mode {
    Normal,
    Executable,
    Symlink,
    /// A submodule; the content is the object ID of a commit.
    Gitlink,
    Directory,
}

/// A change of a commit's tree, relative to that of its first parent. Paths are byte strings with
/// `/` between names, and are not checked.
#[derive(Debug, Drop)]
pub enum Change {
    Modify {
        mode: Mode,
        content: Content,
        path: Vec<u8>,
    },
    Delete {
        path: Vec<u8>,
    },
    Rename {
        from: Vec<u8>,
        to: Vec<u8>,
    },
    Copy {
        from: Vec<u8>,
        to: Vec<u8>,
    },
    DeleteAll,
    NoteModify {
        content: Content,
        commit: Reference,
    },
}

/// A file's content.
#[derive(Debug, Drop)]
pub struct Blob {
    pub mark: Option<u64>,
    pub original_oid: Option<Vec<u8>>,
    pub data: Vec<u8>,
}

/// A commit on a ref.
#[derive(Debug, Drop)]
pub struct Commit {
    pub ref_name: Vec<u8>,
    pub mark: Option<u64>,
    pub original_oid: Option<Vec<u8>>,
    pub author: Option<Person>,
    pub committer: Person,
    pub encoding: Option<Vec<u8>>,
    pub message: Vec<u8>,
    /// The first parent. Without it, the current commit of the ref.
    pub from: Option<Reference>,
    /// The other parents.
    pub merges: Vec<Reference>,
    pub changes: Vec<Change>,
}

/// An annotated tag.
#[derive(Debug, Drop)]
pub struct Tag {
    /// Without `refs/tags/`.
    pub name: Vec<u8>,
    pub mark: Option<u64>,
    pub from: Reference,
    pub original_oid: Option<Vec<u8>>,
    pub tagger: Option<Person>,
    pub message: Vec<u8>,
}

/// A command of a stream.
#[derive(Debug, Drop)]
pub enum Command {
    Blob(Blob),
    Commit(Commit),
    Tag(Tag),
    /// Creates a ref, or moves it to `from`.
    Reset {
        ref_name: Vec<u8>,
        from: Option<Reference>,
    },
    Feature(Vec<u8>),
    Option(Vec<u8>),
    Progress(Vec<u8>),
    Checkpoint,
    /// The end of the stream.
    Done,
}
