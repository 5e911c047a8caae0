//! Conversion of paths to strings.
ghost use Rattle.std.specs.Prelude.{◌≡◌, IfOk, string_bytes};
ghost use Rattle.std.specs.Path.{path_buf_bytes};
ghost use Rattle.jj_files.specs.PathJoining.{or_dot};

use std::alloc::AllocError;
use std::path::PathBuf;

/// Returns the path as a string, or `.` if it is empty.
pub fn text_or_dot(mut path: PathBuf) -> Result<String, AllocError>
    ensures { IfOk result (λ text. string_bytes text ≡ or_dot (path_buf_bytes path)) }
{
    if path.as_path().as_os_str().is_empty() {
        path.push(".")?;
    }
    Ok(path.into_string())
}
