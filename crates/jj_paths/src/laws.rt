//! Laws of paths and of path trees, as contracts of functions with empty bodies.
ghost use Rattle.jj_paths.specs.Laws.{JoinUndoesSplit, SplitUndoesJoin, LastNameIsUnique, HasRoot, HasAncestors};
ghost use Rattle.jj_paths.specs.Nodes.{ListsNodes, ListsInOrder};

/// Proves that splitting a string at its slashes and joining components by slashes are inverse. So
/// the accepted strings are exactly those of lists of components, and two paths are equal if and
/// only if their strings are.
pub fn path_string_laws()
    ensures texts { JoinUndoesSplit }
    ensures paths { SplitUndoesJoin }
{}

/// Proves that a path has one parent and one last component, so `split` undoes `join`.
pub fn last_name_laws()
    ensures { LastNameIsUnique }
{}

/// Proves that a tree has a node at the root, and at each ancestor of a path with a node.
pub fn ancestor_laws<V>()
    ensures root { HasRoot V }
    ensures ancestors { HasAncestors V }
{}

/// Proves that the preorder listing of a tree contains exactly the nodes that `get` finds, each
/// once and in path order. Requires ascending names at every node, which a new tree has and
/// insertions preserve.
pub fn node_list_laws<V>()
    ensures nodes { ListsNodes V }
    ensures ordered { ListsInOrder V }
{}
