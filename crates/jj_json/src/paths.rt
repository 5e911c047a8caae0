//! JSON strings of paths and their components.
ghost use Rattle.std.specs.Prelude.{◌≡◌, ⊤};
ghost use Rattle.serde_json.specs.Data.{string};
ghost use Rattle.jj_json.specs.Conversions.{IsJsonResult};
ghost use Rattle.jj_paths.specs.Names.{name_of, path_of};
ghost use Rattle.jj_paths.specs.Paths.{path_string};

use crate::to_json::{ToJson, ToJsonError};
use jj_paths::repo_path::{RepoPath, RepoPathBuf, RepoPathComponent, RepoPathComponentBuf};
use serde_json::Value;
use std::alloc::Global;

fn string_to_json(alloc: Global, text: &str) -> Result<Value, ToJsonError>
    ensures { IsJsonResult ⊤ (λ d. d ≡ string text.now) result }
{
    Ok(Value::String(String::from_str(alloc, text)?))
}

impl ToJson for RepoPathComponentBuf {
    ghost is_in_range = { λ _. ⊤ };

    ghost is_json = { λ name d. d ≡ string name };

    fn to_json(&self, alloc: Global) -> Result<Value, ToJsonError> {
        string_to_json(alloc, self.as_internal_str())
    }
}

impl<'a> ToJson for RepoPathComponent<'a> {
    ghost is_in_range = { λ _. ⊤ };

    ghost is_json = { λ name d. d ≡ string (name_of name) };

    fn to_json(&self, alloc: Global) -> Result<Value, ToJsonError> {
        string_to_json(alloc, self.as_internal_str())
    }
}

impl ToJson for RepoPathBuf {
    ghost is_in_range = { λ _. ⊤ };

    ghost is_json = { λ path d. d ≡ string (path_string path) };

    fn to_json(&self, alloc: Global) -> Result<Value, ToJsonError> {
        self.as_path().to_json(alloc)
    }
}

impl<'a> ToJson for RepoPath<'a> {
    ghost is_in_range = { λ _. ⊤ };

    ghost is_json = { λ path d. d ≡ string (path_string (path_of path)) };

    fn to_json(&self, alloc: Global) -> Result<Value, ToJsonError> {
        string_to_json(alloc, self.as_internal_file_string())
    }
}
