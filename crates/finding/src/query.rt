//! The pattern or words of a search, and the database that is searched.
ghost use Rattle.std.specs.Prelude.{◌≡◌, option_map};
ghost use Rattle.finding.specs.DeclaredSymbols.{undeclared_in};

use crate::{LabelPattern, Pattern, SearchWords};
use frame::Frames;
use mm_lex::Span;
use mm_read::Stmt;

/// A pattern or words, and the part of an assertion in which they are searched for.
#[derive(Drop)]
pub enum SearchQuery<'a> {
    /// A pattern in the expression.
    Pattern(Pattern<'a>),
    /// A pattern in the expression, or in that of a mandatory `$e`.
    WithHypotheses(Pattern<'a>),
    /// Words that each occur in the description.
    Words(SearchWords<'a>),
    /// A pattern of the label.
    Labels(LabelPattern<'a>),
}

impl<'a> SearchQuery<'a> {
    /// Returns the first symbol of the pattern that no `$c` and no `$v` of the statements declares;
    /// `None` if each is declared, or the search has no pattern of symbols. Does not allocate.
    ///
    /// Cost: the declarations, once for each symbol of the pattern.
    pub fn undeclared_symbol(&self, statements: &[Stmt]) -> Option<&'a [u8]>
        ensures { option_map (λ x. x.now) result ≡ undeclared_in statements.now self.now }
    {
        match self {
            SearchQuery::Pattern(pattern) => pattern.undeclared_symbol(statements),
            SearchQuery::WithHypotheses(pattern) => pattern.undeclared_symbol(statements),
            SearchQuery::Words(_) => None,
            SearchQuery::Labels(_) => None,
        }
    }
}

/// A database that is searched.
#[derive(Drop)]
pub struct SearchedDatabase<'a> {
    /// The text from which the statements were read.
    pub text: &'a [u8],
    pub statements: &'a [Stmt],
    /// The frames of the statements.
    pub frames: &'a Frames,
    /// For each statement, in order, the span of its description in the text.
    pub descriptions: &'a [Option<Span>],
}
