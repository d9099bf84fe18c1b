//! The statements accepted so far, which only contracts see.
ghost use Rattle.std.specs.Prelude.{◌≡◌, List, [], ◌∷◌, ◌++◌};
ghost use Rattle.std.specs.Borrow.{ftrue};
ghost use Rattle.mm_read.specs.declared.stmt.Stmt.{Stmt as Statement};
ghost use Rattle.scope.specs.Active.{bare};

use mm_read::Stmt;
use std::marker::Model;

/// The statements accepted so far, without their proofs. Only contracts see them: at run time a
/// value stores nothing.
#[derive(Drop)]
pub struct History {
    pub ghost statements: { List Statement },
}

impl Model for History {
    ghost also_owns = { λ _. ftrue };
}

// It owns nothing.
unsafe impl Send for History {}

impl History {
    /// Returns an empty history.
    pub fn new() -> History
        ensures { result.statements ≡ [] }
    {
        History {}
    }

    /// Returns a history with one more statement.
    pub fn after(_before: &History, _stmt: &Stmt) -> History
        ensures { result.statements ≡ _before.now.statements ++ bare _stmt.now ∷ [] }
    {
        History {}
    }

    /// Returns an equal history.
    pub fn same(_of: &History) -> History
        ensures { result.statements ≡ _of.now.statements }
    {
        History {}
    }
}
