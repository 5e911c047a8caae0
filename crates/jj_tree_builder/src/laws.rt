//! Laws of changes. Each function does nothing, and its contract is the law.
ghost use Rattle.std.specs.Prelude.{◌≡◌, ◌≢◌, ◌++◌, [], Option, Some, None};
ghost use Rattle.jj_paths.specs.Paths.{IsBelow, Path};
ghost use Rattle.jj_backend.specs.Objects.{ById};
ghost use Rattle.jj_backend.specs.Trees.{Entries};
ghost use Rattle.jj_backend.specs.declared.backend.tree_value.TreeValue.{TreeValue};
ghost use Rattle.jj_tree_builder.specs.Changes.{Files, file_of, files_at, put};

/// The effects of a change on the files of a tree.
///
/// - `here`: at the path is the value, if it is no directory.
/// - `there`: at the path and below it are the files of the value, which is none after a removal.
/// - `above`: a file above the path is gone, if a value is put there.
/// - `elsewhere`: each path that is not at, above or below the path has what it had.
pub fn change_laws()
    ensures here { (trees : ById Entries) (path : Path) (value : Option TreeValue) (files : Files)
        → put trees path value files path ≡ file_of value }
    ensures there { (trees : ById Entries) (path rest : Path) (value : Option TreeValue)
        (files : Files) → put trees path value files (path ++ rest) ≡ files_at trees value rest }
    ensures removed { (trees : ById Entries) (path rest : Path) (files : Files)
        → put trees path None files (path ++ rest) ≡ None }
    ensures above { (trees : ById Entries) (place rest : Path) (value : TreeValue) (files : Files)
        → rest ≢ [] → put trees (place ++ rest) (Some value) files place ≡ None }
    ensures elsewhere { (trees : ById Entries) (path place : Path) (value : Option TreeValue)
        (files : Files) → (IsBelow place path → ⊥) → (IsBelow path place → ⊥)
        → put trees path value files place ≡ files place }
{}
