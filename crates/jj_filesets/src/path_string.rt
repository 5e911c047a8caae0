//! Strings of paths as people and tools write them.
ghost use Rattle.std.specs.Prelude.{◌≡◌};
ghost use Rattle.jj_filesets.specs.PathStrings.{is_absolute, is_dot_name, is_relative, plain_path, without_dot, without_slash};
ghost use Rattle.jj_paths.specs.Paths.{is_path_string};

// Returns the string without `./` at its start; `.` is the root, the empty string.
pub(crate) fn without_dot(path: &[u8]) -> &[u8]
    ensures { result.now ≡ without_dot path.now }
{
    match path {
        [b'.'] => &[],
        [b'.', b'/', ..] => &path[2..],
        _ => path,
    }
}

fn without_slash(path: &[u8]) -> &[u8]
    ensures { result.now ≡ without_slash path.now }
{
    let len = path.len();
    if len > 1 && path[len - 1] == b'/' {
        &path[..len - 1]
    } else {
        path
    }
}

// Returns the string without `./` at its start and `/` at its end.
pub(crate) fn plain_path(path: &[u8]) -> &[u8]
    ensures { result.now ≡ plain_path path.now }
{
    without_slash(without_dot(path))
}

pub(crate) fn is_absolute(path: &[u8]) -> bool
    ensures { result ≡ is_absolute path.now }
{
    matches!(path, [b'/', ..])
}

fn is_dot_name(name: &[u8]) -> bool
    ensures { result ≡ is_dot_name name.now }
{
    name == b".".as_slice() || name == b"..".as_slice()
}

// Returns whether the path is not absolute, and has none of the names `.` and `..`.
pub(crate) fn is_relative(path: &[u8]) -> bool
    ensures { result ≡ is_relative path.now }
{
    !is_absolute(path)
        && path
            .split(|byte| *byte == b'/')
            .all(|name| !is_dot_name(name))
}

// Returns whether the string is a path: empty, or names joined by slashes.
pub(crate) fn is_path(path: &[u8]) -> bool
    ensures { result ≡ is_path_string path.now }
{
    path.is_empty()
        || path
            .split(|byte| *byte == b'/')
            .all(|name| !name.is_empty())
}
