//! Marks, in one pass over the statements, the names of a table that have a property. Each name has
//! one mark, a truth value.
ghost use Rattle.std.specs.Prelude.{◌≡◌, ℕ, ◌+◌, ◌==◌, ◌&&◌, Some, None, [], IfOk, MatchOption};
ghost use Rattle.std.specs.Prelude.{length, map, false, true, Bool};
ghost use Rattle.std.specs.List.{list_any};
ghost use Rattle.mm_lex.specs.Alphabet.{Name, has_name, name_eq};
ghost use Rattle.names.specs.Codes.{HaveCodes};
ghost use Rattle.scope.specs.Active.{active, label_of, has_label, constants, variables};
ghost use Rattle.scope.specs.Active.{is_float_of};
ghost use Rattle.rule_violation.specs.Marks.{marked};
ghost use Rattle.rule_violation.specs.Search.{has_name_in};

use crate::search::{NameRole, closed_blocks_from};
use mm_lex::Words;
use mm_read::Stmt;
use names::NameTable;
use std::alloc::{AllocError, Global};

/// Returns a table of the distinct words.
pub(crate) fn name_table(alloc: Global, words: &Words) -> Result<NameTable, AllocError>
    ensures { IfOk result (λ names. HaveCodes names words.now) }
{
    let mut names = NameTable::new(alloc);
    for word in words.iter() {
        names.find_or_add(alloc, word)?;
    }
    Ok(names)
}

/// Sets the mark to `mark` for each name of the table that an earlier statement has in that role.
pub(crate) fn mark_earlier(
    names: &NameTable,
    earlier: &[Stmt],
    role: NameRole,
    mark: bool,
    marks: &mut [bool],
)
    requires { length marks.old ≡ length names.now }
    ensures { marks.new ≡ marked (λ x. list_any (has_name_in role x) earlier.now) mark names.now marks.old }
{
    for i in 0..earlier.len() {
        let stmt = &earlier[i];
        mark_stmt(names, stmt, role, mark, marks);
    }
}

/// Sets the mark to `mark` for each name of the table that an active statement has in that role.
pub(crate) fn mark_active(
    names: &NameTable,
    earlier: &[Stmt],
    role: NameRole,
    mark: bool,
    marks: &mut [bool],
)
    requires { length marks.old ≡ length names.now }
    ensures { marks.new ≡ marked
        (λ x. list_any (λ p. has_name_in role x p.1) (active earlier.now)) mark names.now marks.old }
{
    let mut closed_later = 0usize;
    for i in (0..earlier.len()).rev() {
        let stmt = &earlier[i];
        mark_where_active(closed_later, names, stmt, role, mark, marks);
        closed_later = closed_blocks_from(stmt, closed_later);
    }
}

/// Sets the mark to `mark` for each name of the table that the statement has in that role, if the
/// statement is active. Later statements close `closed_later` of the blocks that are open just
/// after it; it is active if they close none.
fn mark_where_active(
    closed_later: usize,
    names: &NameTable,
    stmt: &Stmt,
    role: NameRole,
    mark: bool,
    marks: &mut [bool],
)
    requires { length marks.old ≡ length names.now }
    ensures { marks.new ≡ marked (λ x. closed_later == 0 && has_name_in role x stmt.now) mark names.now marks.old }
{
    if closed_later == 0 {
        mark_stmt(names, stmt, role, mark, marks);
    }
}

/// Sets the mark to `mark` for each name of the table that the statement has in that role.
fn mark_stmt(names: &NameTable, stmt: &Stmt, role: NameRole, mark: bool, marks: &mut [bool])
    requires { length marks.old ≡ length names.now }
    ensures { marks.new ≡ marked (λ x. has_name_in role x stmt.now) mark names.now marks.old }
{
    match role {
        NameRole::LabelOrSymbol => {
            mark_label(names, stmt, mark, marks);
            mark_constants(names, stmt, mark, marks);
            mark_variables(names, stmt, mark, marks);
        }
        NameRole::LabelOrConstant => {
            mark_label(names, stmt, mark, marks);
            mark_constants(names, stmt, mark, marks);
        }
        NameRole::DeclaredConstant => mark_constants(names, stmt, mark, marks),
        NameRole::DeclaredVariable => mark_variables(names, stmt, mark, marks),
        NameRole::FloatVariable => mark_float(names, stmt, mark, marks),
    }
}

fn mark_label(names: &NameTable, stmt: &Stmt, mark: bool, marks: &mut [bool])
    requires { length marks.old ≡ length names.now }
    ensures { marks.new ≡ marked (λ x. has_label x (label_of stmt.now)) mark names.now marks.old }
{
    match stmt {
        Stmt::Float { label, .. } => mark_word(names, label.as_bytes(), mark, marks),
        Stmt::Ess { label, .. } => mark_word(names, label.as_bytes(), mark, marks),
        Stmt::Axiom { label, .. } => mark_word(names, label.as_bytes(), mark, marks),
        Stmt::Prove { label, .. } => mark_word(names, label.as_bytes(), mark, marks),
        _ => {}
    }
}

fn mark_constants(names: &NameTable, stmt: &Stmt, mark: bool, marks: &mut [bool])
    requires { length marks.old ≡ length names.now }
    ensures { marks.new ≡ marked (λ x. has_name x (constants stmt.now)) mark names.now marks.old }
{
    match stmt {
        Stmt::Const(words) => mark_words(names, words, mark, marks),
        _ => {}
    }
}

fn mark_variables(names: &NameTable, stmt: &Stmt, mark: bool, marks: &mut [bool])
    requires { length marks.old ≡ length names.now }
    ensures { marks.new ≡ marked (λ x. has_name x (variables stmt.now)) mark names.now marks.old }
{
    match stmt {
        Stmt::Var(words) => mark_words(names, words, mark, marks),
        _ => {}
    }
}

fn mark_float(names: &NameTable, stmt: &Stmt, mark: bool, marks: &mut [bool])
    requires { length marks.old ≡ length names.now }
    ensures { marks.new ≡ marked (λ x. is_float_of x stmt.now) mark names.now marks.old }
{
    match stmt {
        Stmt::Float { variable, .. } => mark_word(names, variable.as_bytes(), mark, marks),
        _ => {}
    }
}

/// Sets the mark to `mark` for each name of the table that is one of the words.
fn mark_words(names: &NameTable, words: &Words, mark: bool, marks: &mut [bool])
    requires { length marks.old ≡ length names.now }
    ensures { marks.new ≡ marked (λ x. has_name x words.now) mark names.now marks.old }
{
    for word in words.iter() {
        mark_word(names, word, mark, marks);
    }
}

fn mark_word(names: &NameTable, word: &[u8], mark: bool, marks: &mut [bool])
    requires { length marks.old ≡ length names.now }
    ensures { marks.new ≡ marked (λ x. name_eq x word.now) mark names.now marks.old }
{
    match names.find(word) {
        Some(code) => marks[code] = mark,
        None => {}
    }
}

/// Returns the mark of a name.
pub(crate) fn mark_of(names: &NameTable, marks: &[bool], name: &[u8]) -> bool
    requires count { length marks.now ≡ length names.now }
    requires named { has_name name.now names.now ≡ true }
    ensures { (test : Name → Bool) → marks.now ≡ map test names.now → result ≡ test name.now }
{
    match names.find(name) {
        Some(code) => marks[code],
        None => false,
    }
}
