//! `RepoPathBuf::extend`: appends components, with rollback after a failed allocation.
ghost use Rattle.std.specs.Prelude.{◌≡◌, ◌++◌, List, IfOk, IfErr, map, string_bytes};
ghost use Rattle.std.specs.Iterator.{IsFiniteIterable, Drains};
ghost use Rattle.jj_paths.specs.Names.{name_of};
ghost use Rattle.jj_paths.specs.AppendedNames.{append_name, append_names, ExtendsString};
ghost use Rattle.jj_paths.specs.declared.repo_path.RepoPathComponent.{RepoPathComponent};

use super::{RepoPathBuf, RepoPathComponent};
use std::alloc::AllocError;

impl RepoPathBuf {
    /// Appends components. After an allocation failure the path is unchanged.
    pub fn extend<'n, I: IntoIterator<Item = RepoPathComponent<'n>>>(
        &mut self,
        names: I,
    ) -> Result<(), AllocError>
        requires { IsFiniteIterable I.into_iter_gives I.IntoIter.can_next I.IntoIter.remaining
            names }
        ensures extended { IfOk result (λ done. (it : I.IntoIter) × (added : List RepoPathComponent)
            × I.into_iter_gives names it × Drains I.IntoIter.next_gives it added
            × (self.new ≡ self.old ++ map name_of added)) }
        ensures error { IfErr result (λ e. self.new ≡ self.old) }
    {
        let len = self.value.len();
        match push_names(&mut self.value, names) {
            Ok(()) => Ok(()),
            Err(e) => {
                self.value.truncate(len);
                Err(e)
            }
        }
    }
}

// On failure some components and a trailing slash may be appended.
fn push_names<'n, I: IntoIterator<Item = RepoPathComponent<'n>>>(
    text: &mut String,
    names: I,
) -> Result<(), AllocError>
    requires { IsFiniteIterable I.into_iter_gives I.IntoIter.can_next I.IntoIter.remaining names }
    ensures pushed { IfOk result (λ done. (it : I.IntoIter) × (added : List RepoPathComponent)
        × I.into_iter_gives names it × Drains I.IntoIter.next_gives it added
        × (string_bytes text.new ≡ append_names (string_bytes text.old) (map name_of added))) }
    ensures error { IfErr result
        (λ e. ExtendsString (string_bytes text.old) (string_bytes text.new)) }
{
    for name in names {
        push_name(text, name)?;
    }
    Ok(())
}

// On failure a trailing slash may be appended.
fn push_name(text: &mut String, name: RepoPathComponent<'_>) -> Result<(), AllocError>
    ensures pushed { IfOk result (λ done. string_bytes text.new
        ≡ append_name (string_bytes text.old) (name_of name.entry)) }
    ensures error { IfErr result
        (λ e. ExtendsString (string_bytes text.old) (string_bytes text.new)) }
{
    if !text.is_empty() {
        text.push('/')?;
    }
    text.push_str(name.value)
}
