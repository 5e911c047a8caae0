//! Lexical path operations: normalization and relative paths, by components.
ghost use Rattle.std.specs.Prelude.{◌≡◌, ℕ, List, [], ◌∷◌, ◌++◌, map, false, true, IfOk, OnOk, MatchOption, string_bytes};
ghost use Rattle.std.specs.Str.{bytes_eq};
ghost use Rattle.std.specs.Path.{component_bytes, parent_dir, path_bytes, path_buf_bytes, path_components};
ghost use Rattle.jj_files.specs.PathJoining.{join_all, fs_text, is_special_component};
ghost use Rattle.jj_files.specs.PathComponents.{ends_in_name, IsNormalized, IsRelativeTo, HasCommonPrefix};

use crate::fs_text::text_or_dot;
use std::alloc::{AllocError, Global};
use std::path::{Component, Path, PathBuf};

/// Removes each `.` and each name that a `..` cancels, without following symbolic links. A `..`
/// that no name precedes stays, also after `/`. An empty result becomes `.`. O(n) time.
pub fn normalize_path(alloc: Global, path: &str) -> Result<String, AllocError>
    ensures { IfOk result (λ text. IsNormalized path.now (string_bytes text)) }
{
    let mut stack: Vec<&str> = Vec::new(alloc);
    for component in Path::new(path).components() {
        match component {
            Component::CurDir => {}
            Component::ParentDir if ends_in_name(&stack) => {
                stack.pop();
            }
            _ => stack.push(component.as_os_str())?,
        }
    }
    join_components(alloc, &stack)
}

fn ends_in_name(components: &[&str]) -> bool
    ensures { result ≡ ends_in_name (map (λ text. text.now) components.now) }
{
    match components.split_last() {
        Some((last, _front)) => !is_special_component(last),
        None => false,
    }
}

fn is_special_component(component: &str) -> bool
    ensures { result ≡ is_special_component component.now }
{
    component == "/" || component == "." || component == ".."
}

fn join_components(alloc: Global, components: &[&str]) -> Result<String, AllocError>
    ensures { IfOk result (λ text. string_bytes text
        ≡ fs_text [] (map (λ component. component.now) components.now)) }
{
    let mut text = PathBuf::new(alloc);
    for index in 0..components.len() {
        text.push(components[index])?;
    }
    text_or_dot(text)
}

/// Returns a relative path that leads from the directory `from` to `to`, without following symbolic
/// links: a `..` for each component of `from` after the common prefix, then the remaining
/// components of `to`. Returns `to` if there is no common prefix, as between an absolute and a
/// relative path.
pub fn relative_path(alloc: Global, from: &str, to: &str) -> Result<String, AllocError>
    ensures { IfOk result (λ text. IsRelativeTo from.now to.now (string_bytes text)) }
{
    let Some((from_left, to_left)) = strip_common_prefix(from, to) else {
        return String::from_str(alloc, to);
    };
    let mut text = PathBuf::new(alloc);
    push_parents(&mut text, from_left)?;
    push_components(&mut text, to_left)?;
    text_or_dot(text)
}

fn push_parents(text: &mut PathBuf, path: Path<'_>) -> Result<(), AllocError>
    ensures { OnOk result (path_buf_bytes text.new
        ≡ join_all (path_buf_bytes text.old)
        (map (λ _. parent_dir) (path_components (path_bytes path.entry)))) }
{
    for _component in path.components() {
        text.push("..")?;
    }
    Ok(())
}

fn push_components(text: &mut PathBuf, path: Path<'_>) -> Result<(), AllocError>
    ensures { OnOk result (path_buf_bytes text.new
        ≡ join_all (path_buf_bytes text.old) (path_components (path_bytes path.entry))) }
{
    for component in path.components() {
        text.push(component.as_os_str())?;
    }
    Ok(())
}

// Strips the longest common prefix of components, or returns `None` if it is empty.
fn strip_common_prefix<'a, 'b>(from: &'a str, to: &'b str) -> Option<(Path<'a>, Path<'b>)>
    ensures { MatchOption result
        (HasCommonPrefix from.now to.now [] (path_components from.now) (path_components to.now))
        (λ left. (first : List ℕ) × (prefix : List (List ℕ))
        × HasCommonPrefix from.now to.now (first ∷ prefix) (path_components (path_bytes left.0))
        (path_components (path_bytes left.1))) }
{
    let mut from_left = Path::new(from).components();
    let mut to_left = Path::new(to).components();
    let mut left = None;
    loop {
        match (from_left.next(), to_left.next()) {
            (Some(ours), Some(theirs)) if is_same(ours, theirs) => {
                left = Some((from_left.as_path(), to_left.as_path()));
            }
            _ => return left,
        }
    }
}

fn is_same(ours: Component<'_>, theirs: Component<'_>) -> bool
    ensures { result ≡ bytes_eq (component_bytes ours.entry) (component_bytes theirs.entry) }
{
    ours.as_os_str() == theirs.as_os_str()
}
