//! Searches for an earlier statement that has a name in some role.
ghost use Rattle.std.specs.Prelude.{◌≡◌, ◌+◌, ◌<◌, ◌^◌, ◌==◌, ◌&&◌, ◌||◌, false, MatchOption};
ghost use Rattle.std.specs.List.{list_any};
ghost use Rattle.mm_lex.specs.Alphabet.{has_name, name_eq};
ghost use Rattle.scope.specs.Active.{active, label_of, has_label, constants, variables};
ghost use Rattle.scope.specs.Active.{is_float_of};
ghost use Rattle.rule_violation.specs.Search.{has_name_in, closed_blocks_from, PassesAt};
ghost use Rattle.rule_violation.specs.Search.{IsActiveAt};

use mm_lex::{Word, Words};
use mm_read::Stmt;

/// The role in which a statement has a name.
#[derive(Clone, Copy, Drop)]
pub(crate) enum NameRole {
    /// The label of the statement, or a symbol that it declares.
    LabelOrSymbol,
    /// Its label, or a constant that it declares.
    LabelOrConstant,
    /// A constant that it declares.
    DeclaredConstant,
    /// A variable that it declares.
    DeclaredVariable,
    /// The variable of a `$f`.
    FloatVariable,
}

/// Returns the position, from 1, of the first statement that has the name in that role, or `None`.
pub(crate) fn find_earlier(earlier: &[Stmt], role: NameRole, name: &[u8]) -> Option<usize>
    ensures { MatchOption result (list_any (has_name_in role name.now) earlier.now ≡ false)
        (λ i. PassesAt earlier.now i (has_name_in role name.now)) }
{
    for i in 0..earlier.len() {
        let stmt = &earlier[i];
        if has_name_in(stmt, role, name) {
            return Some(i + 1);
        }
    }
    None
}

/// Returns the position, from 1, of the last active statement that has the name in that role, or
/// `None`.
pub(crate) fn find_active(earlier: &[Stmt], role: NameRole, name: &[u8]) -> Option<usize>
    ensures { MatchOption result (list_any (λ p. has_name_in role name.now p.1) (active earlier.now) ≡ false)
        (λ i. IsActiveAt earlier.now i (has_name_in role name.now)) }
{
    let mut closed_later = 0usize;
    for i in (0..earlier.len()).rev() {
        let stmt = &earlier[i];
        if is_active_match(closed_later, stmt, role, name) {
            return Some(i + 1);
        }
        closed_later = closed_blocks_from(stmt, closed_later);
    }
    None
}

/// Returns whether the statement has the name in that role and is active. Later statements close
/// `closed_later` of the blocks that are open just after it; it is active if they close none.
fn is_active_match(closed_later: usize, stmt: &Stmt, role: NameRole, name: &[u8]) -> bool
    ensures { result ≡ (closed_later == 0 && has_name_in role name.now stmt.now) }
{
    closed_later == 0 && has_name_in(stmt, role, name)
}

/// Returns how many of the blocks that are open just before the statement are closed by it or
/// later. Later statements close `closed_later` of the blocks that are open just after it.
pub(crate) fn closed_blocks_from(stmt: &Stmt, closed_later: usize) -> usize
    requires { closed_later + 1 < 2 ^ 64 }
    ensures { result ≡ closed_blocks_from stmt.now closed_later }
{
    match stmt {
        Stmt::Open => closed_later.saturating_sub(1),
        Stmt::Close => closed_later + 1,
        _ => closed_later,
    }
}

/// Returns whether the statement has the name in that role.
fn has_name_in(stmt: &Stmt, role: NameRole, name: &[u8]) -> bool
    ensures { result ≡ has_name_in role name.now stmt.now }
{
    match role {
        NameRole::LabelOrSymbol => {
            has_label(stmt, name) || has_constant(stmt, name) || has_variable(stmt, name)
        }
        NameRole::LabelOrConstant => has_label(stmt, name) || has_constant(stmt, name),
        NameRole::DeclaredConstant => has_constant(stmt, name),
        NameRole::DeclaredVariable => has_variable(stmt, name),
        NameRole::FloatVariable => is_float_of(stmt, name),
    }
}

fn has_label(stmt: &Stmt, name: &[u8]) -> bool
    ensures { result ≡ has_label name.now (label_of stmt.now) }
{
    match stmt {
        Stmt::Float { label, .. } => word_equals(label, name),
        Stmt::Ess { label, .. } => word_equals(label, name),
        Stmt::Axiom { label, .. } => word_equals(label, name),
        Stmt::Prove { label, .. } => word_equals(label, name),
        _ => false,
    }
}

fn has_constant(stmt: &Stmt, name: &[u8]) -> bool
    ensures { result ≡ has_name name.now (constants stmt.now) }
{
    match stmt {
        Stmt::Const(names) => contains_name(names, name),
        _ => false,
    }
}

fn has_variable(stmt: &Stmt, name: &[u8]) -> bool
    ensures { result ≡ has_name name.now (variables stmt.now) }
{
    match stmt {
        Stmt::Var(names) => contains_name(names, name),
        _ => false,
    }
}

fn is_float_of(stmt: &Stmt, name: &[u8]) -> bool
    ensures { result ≡ is_float_of name.now stmt.now }
{
    match stmt {
        Stmt::Float { variable, .. } => word_equals(variable, name),
        _ => false,
    }
}

fn word_equals(word: &Word, name: &[u8]) -> bool
    ensures { result ≡ name_eq name.now word.now }
{
    name == word.as_bytes()
}

/// Returns whether the name is one of these.
fn contains_name(names: &Words, name: &[u8]) -> bool
    ensures { result ≡ has_name name.now names.now }
{
    names.iter().any(|other| name == other)
}
