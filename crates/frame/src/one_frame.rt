//! Collects the frame of one assertion from the active statements.
ghost use Rattle.std.specs.Prelude.{◌≡◌, ◌||◌, IsTrue, OnOk, IfOk};
ghost use Rattle.mm_lex.specs.Alphabet.{Name, name_eq, has_name};
ghost use Rattle.scope.specs.Active.{is_assertion, expr_of};
ghost use Rattle.frame.specs.FrameOf.{frame_of};
ghost use Rattle.frame.specs.Stored.OneFrame.{AreRecorded, AreMandatory, among};
ghost use Rattle.frame.specs.Stored.OneFrame.{mandatory_positions, is_needed, groups_among};

use crate::assertion::Frame;
use mm_lex::Words;
use mm_read::Stmt;
use names::NameTable;
use scope::{FrameStatement, Scope};
use smallvec::SmallVec;
use std::alloc::{AllocError, Global};

/// Returns the frame of an assertion after the statements of the scope.
///
/// Errors: an allocation fails. Cost: the size of the assertion and of the active `$f`, `$e` and
/// `$d`.
/// Source: Metamath, 4.2.7.
pub fn frame(alloc: Global, scope: &Scope, stmt: &Stmt) -> Result<Frame, AllocError>
    requires assertion { IsTrue (is_assertion stmt.now) }
    ensures { IfOk result (λ f. f ≡ frame_of scope.now.statements stmt.now) }
{
    let used = mandatory_variables(alloc, scope, stmt)?;
    let hypotheses = mandatory_hypotheses(alloc, scope.frame_statements(), &used)?;
    let groups = mandatory_groups(alloc, scope.frame_statements(), &used)?;
    let conclusion = expression(stmt).copy(alloc)?;
    Ok(Frame {
        hypotheses,
        groups,
        conclusion,
    })
}

/// Returns the expression of an assertion.
fn expression(stmt: &Stmt) -> &Words
    requires { IsTrue (is_assertion stmt.now) }
    ensures { result.now ≡ expr_of stmt.now }
{
    match stmt {
        Stmt::Axiom { expr, .. } | Stmt::Prove { expr, .. } => expr,
        _ => unreachable!(),
    }
}

/// Returns the mandatory variables of an assertion: those in its expression and in the active `$e`.
fn mandatory_variables(alloc: Global, scope: &Scope, stmt: &Stmt) -> Result<NameTable, AllocError>
    requires { IsTrue (is_assertion stmt.now) }
    ensures { IfOk result (λ used. AreMandatory scope.now.statements stmt.now used) }
{
    let mut used = NameTable::new(alloc);
    record_variables(alloc, scope, &mut used, expression(stmt))?;
    for entry in scope.frame_statements().iter() {
        if let Stmt::Ess { expr, .. } = &entry.stmt {
            record_variables(alloc, scope, &mut used, expr)?;
        }
    }
    Ok(used)
}

/// Records each variable of an expression.
fn record_variables(
    alloc: Global,
    scope: &Scope,
    used: &mut NameTable,
    expr: &Words,
) -> Result<(), AllocError>
    ensures { OnOk result (AreRecorded scope.now.statements used.old used.new expr.now) }
{
    for symbol in expr.iter() {
        if scope.is_variable(symbol) {
            record_name(alloc, used, symbol)?;
        }
    }
    Ok(())
}

/// Records a name, once.
fn record_name(alloc: Global, used: &mut NameTable, name: &[u8]) -> Result<(), AllocError>
    ensures { OnOk result ((x : Name) → has_name x used.new ≡ (has_name x used.old || name_eq x name.now)) }
{
    used.find_or_add(alloc, name)?;
    Ok(())
}

/// Returns the positions of the active `$e`, and of the active `$f` of the used variables.
fn mandatory_hypotheses(
    alloc: Global,
    frame_statements: &[FrameStatement],
    used: &NameTable,
) -> Result<SmallVec<usize, 8>, AllocError>
    ensures { IfOk result (λ list. list.items ≡ mandatory_positions used.now frame_statements.now) }
{
    let mut list = SmallVec::new(alloc);
    for entry in frame_statements.iter() {
        if is_needed(used, &entry.stmt) {
            list.push(entry.at)?;
        }
    }
    Ok(list)
}

/// Returns whether a statement is an `$e`, or the `$f` of one of the used variables.
fn is_needed(used: &NameTable, stmt: &Stmt) -> bool
    ensures { result ≡ is_needed used.now stmt.now }
{
    match stmt {
        Stmt::Ess { .. } => true,
        Stmt::Float { variable, .. } => has(used, variable.as_bytes()),
        _ => false,
    }
}

/// Returns whether a name is one of the used variables.
fn has(used: &NameTable, name: &[u8]) -> bool
    ensures { result ≡ has_name name.now used.now }
{
    used.find(name).is_some()
}

/// Returns for each active `$d` those of its variables that are used, if they are two or more.
fn mandatory_groups(
    alloc: Global,
    frame_statements: &[FrameStatement],
    used: &NameTable,
) -> Result<Vec<Words>, AllocError>
    ensures { IfOk result (λ groups. groups.items ≡ groups_among used.now frame_statements.now) }
{
    let mut groups = Vec::new(alloc);
    for entry in frame_statements.iter() {
        if let Stmt::Disj(names) = &entry.stmt {
            let group = mandatory_group(alloc, used, names)?;
            if group.len() > 1 {
                groups.push(group)?;
            }
        }
    }
    Ok(groups)
}

/// Returns those of the names that are among the used variables.
fn mandatory_group(alloc: Global, used: &NameTable, names: &Words) -> Result<Words, AllocError>
    ensures { IfOk result (λ group. group ≡ among used.now names.now) }
{
    let mut group = Words::new(alloc);
    for name in names.iter() {
        if has(used, name) {
            group.push(name)?;
        }
    }
    Ok(group)
}
