//! The queries of a scope: how many statements it has, and which variables, `$f`, `$e` and `$d` are
//! active.
ghost use Rattle.std.specs.Prelude.{◌≡◌, length};
ghost use Rattle.scope.specs.Active.{is_variable};
ghost use Rattle.scope.specs.FrameStatement.{frame_statements_of};

use crate::frame_statements::FrameStatement;
use crate::legal::Sort;
use crate::scope::Scope;

impl Scope {
    /// Returns how many statements were accepted.
    pub fn len(&self) -> usize
        ensures { result ≡ length self.now.statements }
    {
        self.count
    }

    /// Returns whether an active `$v` declares the symbol.
    pub fn is_variable(&self, name: &[u8]) -> bool
        ensures { result ≡ is_variable self.now.statements name.now }
    {
        matches!(self.rule_checker().sort(name), Sort::Typed | Sort::Untyped)
    }

    /// Returns the active `$f`, `$e` and `$d` in order, with their positions.
    pub fn frame_statements(&self) -> &[FrameStatement]
        ensures { result.now ≡ frame_statements_of self.now.statements }
    {
        self.frame_statements.as_slice()
    }
}
