//! Lazy creation of the searches of an expression, at the first string.
ghost use Rattle.std.specs.Prelude.{◌≡◌, ◌↔◌, IsTrue, IsErr, IfOk};
ghost use Rattle.jj_strings.specs.CompiledViews.{source_expression};
ghost use Rattle.jj_strings.specs.StringSets.{InExpression, HasRegex};

use crate::str_util::compiled::CompiledExpression;
use crate::str_util::expression_search::ExpressionSearch;
use std::alloc::{AllocError, Global};
use std::marker::Model;

// An expression, with its searches once they are created.
#[derive(Drop)]
pub(crate) struct ExpressionSearcher<'m> {
    expression: &'m CompiledExpression,
    has_regex: bool,
    searches: Option<ExpressionSearch<'m>>,
}

impl<'m> Model for ExpressionSearcher<'m> {
    ghost use Rattle.std.specs.Prelude.{IsTrue};
    ghost use Rattle.jj_strings.specs.declared.str_util.compiled.CompiledExpression.{CompiledExpression};
    ghost use Rattle.jj_strings.specs.CompiledViews.{source_expression};
    ghost use Rattle.jj_strings.specs.StringSets.{HasRegex};
    ghost use Rattle.jj_strings.specs.Searches.{AreSearchesOf};
    ghost use Rattle.jj_strings.specs.contracts.str_util.compiled.CompiledExpression as e;
    ghost use Rattle.std.specs.Coded.{codes};

    ghost Value = { CompiledExpression };

    ghost coded = { Prim.hlevel (codes, e.the_row.coded) };

    ghost view = { λ s. s.expression.now };

    ghost invariant = { λ s. (IsTrue s.has_regex → HasRegex (source_expression s.expression.now))
        × AreSearchesOf s.searches (source_expression s.expression.now) };
}

impl CompiledExpression {
    // Creates a searcher; does not allocate.
    pub(crate) fn searcher(&self) -> ExpressionSearcher<'_>
        ensures { result ≡ self.now }
    {
        ExpressionSearcher {
            expression: self,
            has_regex: self.has_regex(),
            searches: None,
        }
    }
}

impl<'m> ExpressionSearcher<'m> {
    // Whether the expression matches the bytes. Creates the searches at the first call.
    pub(crate) fn is_match(&mut self, alloc: Global, bytes: &[u8]) -> Result<bool, AllocError>
        ensures matches { IfOk result (λ yes. IsTrue yes
            ↔ InExpression (source_expression self.old) bytes.now) }
        ensures memory { IsErr result → HasRegex (source_expression self.old) }
        ensures unchanged { self.new ≡ self.old }
    {
        if let Some(searches) = &mut self.searches {
            return Ok(searches.is_match(bytes));
        }
        if !self.has_regex {
            return self.expression.is_match(alloc, bytes);
        }
        let mut searches = self.expression.search(alloc)?;
        let is_match = searches.is_match(bytes);
        self.searches = Some(searches);
        Ok(is_match)
    }
}
