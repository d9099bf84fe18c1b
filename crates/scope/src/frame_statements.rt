//! The frame statements, `$f`, `$e` and `$d`, that are active.
ghost use Rattle.std.specs.Prelude.{◌≡◌, ◌++◌, IfOk, OnOk, OnErr};
ghost use Rattle.std.specs.List.{flat_map};
ghost use Rattle.scope.specs.FrameStatement.{as_frame_statement};

use mm_read::Stmt;
use std::alloc::{AllocError, Global};

/// A statement that a frame may have, a `$f`, `$e` or `$d`, with its position, counted from 1 in
/// the whole list of statements.
#[derive(Drop)]
pub struct FrameStatement {
    pub at: usize,
    pub stmt: Stmt,
}

/// Appends a copy of a `$f`, `$e` or `$d`; ignores other statements.
pub(crate) fn push_frame_statement(
    frame_statements: &mut Vec<FrameStatement>,
    alloc: Global,
    at: usize,
    stmt: &Stmt,
) -> Result<(), AllocError>
    ensures ok { OnOk result
        (frame_statements.new.items ≡ frame_statements.old.items ++ as_frame_statement at stmt.now) }
    ensures err { OnErr result (frame_statements.new.items ≡ frame_statements.old.items) }
{
    match stmt {
        Stmt::Float {
            label,
            constant,
            variable,
        } => {
            let stmt = Stmt::Float {
                label: label.copy(alloc)?,
                constant: constant.copy(alloc)?,
                variable: variable.copy(alloc)?,
            };
            frame_statements.push(FrameStatement { at, stmt })?;
        }
        Stmt::Ess { label, expr } => {
            let stmt = Stmt::Ess {
                label: label.copy(alloc)?,
                expr: expr.copy(alloc)?,
            };
            frame_statements.push(FrameStatement { at, stmt })?;
        }
        Stmt::Disj(names) => {
            let stmt = Stmt::Disj(names.copy(alloc)?);
            frame_statements.push(FrameStatement { at, stmt })?;
        }
        Stmt::Open => {}
        Stmt::Close => {}
        Stmt::Const(_) => {}
        Stmt::Var(_) => {}
        Stmt::Axiom { .. } => {}
        Stmt::Prove { .. } => {}
    }
    Ok(())
}

/// Returns a copy of the list, in which each statement is a `$f`, `$e` or `$d`.
pub(crate) fn copy_frame_statements(
    alloc: Global,
    frame_statements: &[FrameStatement],
) -> Result<Vec<FrameStatement>, AllocError>
    ensures { IfOk result
        (λ copied. copied.items ≡ flat_map (λ e. as_frame_statement e.at e.stmt) frame_statements.now) }
{
    let mut copied = Vec::new(alloc);
    for entry in frame_statements.iter() {
        push_frame_statement(&mut copied, alloc, entry.at, &entry.stmt)?;
    }
    Ok(copied)
}
