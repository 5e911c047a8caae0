//! Sets of strings: patterns and expressions, their compilation to matchers, and iterators over
//! matching lines and map entries.
mod caseless_search;
mod compiled;
mod error;
mod expression;
mod expression_search;
mod expression_searcher;
mod filter_btree_map;
mod glob_pattern;
mod kind;
mod kmp;
mod match_lines;
mod matcher;
mod pattern;
mod predicate;
mod searcher;
mod text_key;
mod to_glob;
mod to_matcher;
mod to_regex;

pub use error::StringPatternParseError;
pub use expression::StringExpression;
pub use filter_btree_map::FilterBTreeMap;
pub use glob_pattern::GlobPattern;
pub use match_lines::MatchLines;
pub use matcher::StringMatcher;
pub use pattern::StringPattern;
pub use predicate::{BytePredicate, ByteTest};
pub use searcher::StringSearcher;
pub use text_key::TextKey;
