//! The beginning of an expression.
ghost use Rattle.std.specs.Prelude.{◌≡◌, ℕ, ◌++◌, ◌-◌, List, [], take, IfOk, OnOk};
ghost use Rattle.frame.specs.Substitution.{code_apply};
ghost use Rattle.explain.specs.Excerpts.{IsExcerpt};

use std::alloc::{AllocError, Global};
use verify::Results;

/// The most symbols that an excerpt has.
pub const EXCERPT_LEN: usize = 400;

/// The beginning of an expression, at most `EXCERPT_LEN` symbols of it.
#[derive(Debug, Drop)]
pub struct Excerpt {
    /// The first symbols of the expression, by their numbers.
    pub symbols: Vec<u32>,
    /// The number of symbols of the expression.
    pub len: usize,
}

impl Excerpt {
    /// Returns the excerpt of an expression.
    ///
    /// Errors: an allocation fails. Cost: the symbols of the excerpt.
    pub(crate) fn new(alloc: Global, expr: &[u32]) -> Result<Excerpt, AllocError>
        ensures { IfOk result (IsExcerpt expr.now) }
    {
        let symbols = Vec::from_slice(alloc, first_symbols(expr, EXCERPT_LEN))?;
        Ok(Excerpt {
            symbols,
            len: expr.len(),
        })
    }

    /// Returns the excerpt of an expression with the images of the results substituted, which is
    /// not written.
    ///
    /// Errors: an allocation fails, or the expression would have 2^64 symbols. Cost: a look-up for
    /// each symbol of the given expression, and the symbols of the excerpt.
    pub(crate) fn of_applied(
        alloc: Global,
        results: &Results,
        expr: &[u32],
    ) -> Result<Excerpt, AllocError>
        ensures { IfOk result (IsExcerpt (code_apply results.now.images expr.now)) }
    {
        let mut excerpt = Excerpt {
            symbols: Vec::new(alloc),
            len: 0,
        };
        for symbol in expr {
            match results.image(*symbol) {
                Some(image) => excerpt.extend(image)?,
                None => excerpt.extend(&[*symbol])?,
            }
        }
        Ok(excerpt)
    }

    /// Appends symbols to the expression.
    ///
    /// Errors: an allocation fails, or the expression would have 2^64 symbols.
    fn extend(&mut self, more: &[u32]) -> Result<(), AllocError>
        ensures { (e : List ℕ) → IsExcerpt e self.old → OnOk result (IsExcerpt (e ++ more.now) self.new) }
    {
        let Some(len) = self.len.checked_add(more.len()) else {
            return Err(AllocError);
        };
        let room = EXCERPT_LEN.saturating_sub(self.symbols.len());
        self.symbols.extend_from_slice(first_symbols(more, room))?;
        self.len = len;
        Ok(())
    }
}

/// Returns the first symbols of an expression, at most this many.
fn first_symbols(expr: &[u32], count: usize) -> &[u32]
    ensures { result.now ≡ take count expr.now }
{
    if expr.len() <= count {
        return expr;
    }
    &expr[..count]
}
