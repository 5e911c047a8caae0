//! Laws of the grammar and of lists, as contracts of functions with empty bodies.
ghost use Rattle.jj_filesets.specs.Expressions.{ParseErrorIsUnique, SpellingIsUnique};
ghost use Rattle.jj_filesets.specs.Listing.{PrintedLinesAreUnique};

/// Proves that a string spells at most one syntax tree.
pub fn spelling_is_unique()
    ensures { SpellingIsUnique }
{}

/// Proves that a string has at most one syntax error, with one offset and one kind.
pub fn parse_error_is_unique()
    ensures { ParseErrorIsUnique }
{}

/// Proves that an expression and a list determine which lines are printed.
pub fn printed_lines_are_unique()
    ensures { PrintedLinesAreUnique }
{}
