//! Laws of matchers and of walks, as contracts of functions with empty bodies.
ghost use Rattle.jj_matchers.specs.Laws.{FindsMarks, FindsInOrder, WalksAsMarks, AcceptsMembers, AcceptsBelow, AcceptsMatches, VisitsToMatches};

/// Proves that `walk_matching` finds exactly the marked paths below the root that the matcher
/// accepts, in path order and each once, and the same list as `walk_marks` over the list of marks.
pub fn walks_find_accepted_marks()
    ensures files { FindsMarks }
    ensures ordered { FindsInOrder }
    ensures marks { WalksAsMarks }
{}

/// Proves that a `FilesMatcher` accepts exactly its files, a `PrefixMatcher` exactly the paths at
/// or below one of its prefixes, and a `GlobsMatcher` exactly the paths strictly below the
/// directory of a pattern whose glob matches the rest of the path, to which its visits lead.
pub fn acceptance_laws()
    ensures files { AcceptsMembers }
    ensures prefixes { AcceptsBelow }
    ensures globs { AcceptsMatches }
    ensures glob_visits { VisitsToMatches }
{}
