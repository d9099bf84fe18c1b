//! Properties of the shape of a statement.
ghost use Rattle.std.specs.Prelude.{◌≡◌};
ghost use Rattle.scope.specs.Active.{bare, is_assertion};
ghost use Rattle.frame.specs.Stored.Counts.{kind_of};
ghost use Rattle.frame.specs.Stored.Labels.{is_labelled_kind};

use entries::Kind;
use mm_read::Stmt;

/// Returns the kind of a statement.
pub fn kind(stmt: &Stmt) -> Kind
    ensures { result ≡ kind_of (bare stmt.now) }
{
    match stmt {
        Stmt::Open => Kind::Open,
        Stmt::Close => Kind::Close,
        Stmt::Const(_) => Kind::Const,
        Stmt::Var(_) => Kind::Var,
        Stmt::Disj(_) => Kind::Disj,
        Stmt::Float { .. } => Kind::Float,
        Stmt::Ess { .. } => Kind::Ess,
        Stmt::Axiom { .. } => Kind::Axiom,
        Stmt::Prove { .. } => Kind::Prove,
    }
}

/// Returns whether a statement is an assertion.
pub fn is_assertion(stmt: &Stmt) -> bool
    ensures { result ≡ is_assertion stmt.now }
{
    matches!(stmt, Stmt::Axiom { .. } | Stmt::Prove { .. })
}

/// Returns whether statements of a kind have a label, and so an expression.
pub fn has_label(kind: Kind) -> bool
    ensures { result ≡ is_labelled_kind kind }
{
    matches!(kind, Kind::Float | Kind::Ess | Kind::Axiom | Kind::Prove)
}
