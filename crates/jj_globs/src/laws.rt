//! Laws of the parser of globs, as contracts of functions with empty bodies.
ghost use Rattle.jj_globs.specs.GlobGrammar.{ParsedGlobsAreSpelled, SpelledGlobsAreParsed, SpellingIsUnique};

/// The tokens of a pattern have a syntax tree that the pattern spells by the grammar.
pub fn parsed_globs_are_spelled()
    ensures { ParsedGlobsAreSpelled }
{}

/// A pattern that spells a syntax tree by the grammar parses as tokens with that tree.
pub fn spelled_globs_are_parsed()
    ensures { SpelledGlobsAreParsed }
{}

/// A pattern spells at most one syntax tree.
pub fn spelling_is_unique()
    ensures { SpellingIsUnique }
{}
