//! The frame of an assertion as lines.
ghost use Rattle.std.specs.Prelude.{◌≡◌, ◌++◌, flat_map, IsTrue, OnOk};
ghost use Rattle.scope.specs.Active.{bares, before, is_assertion};
ghost use Rattle.frame.specs.FrameOf.{mandatory_groups};
ghost use Rattle.proof_pages.specs.Lines.{line_at, group_line, symbol_text, group_line_of_numbers};
ghost use Rattle.proof_pages.specs.Lines.{frame_lines};
ghost use Rattle.proof_pages.specs.BlockInputs.{IsBlockInput};

use crate::block_input::BlockInput;
use crate::statement_line::push_statement;
use entries::Groups;
use frame::Frames;
use mm_read::Stmt;
use std::alloc::{AllocError, Global};

/// Appends the mandatory hypotheses of an assertion and its mandatory variables in each active
/// `$d`.
///
/// Cost: the size of its frame, and of the active `$d` if there are many.
pub(crate) fn push_frame(
    alloc: Global,
    text: &mut Vec<u8>,
    input: &BlockInput<'_>,
) -> Result<(), AllocError>
    requires input { IsBlockInput input.now }
    requires assertion { IsTrue (is_assertion input.now.statement.now) }
    ensures { OnOk result (text.new.items ≡ text.old.items
        ++ frame_lines input.now.statements.now input.now.position input.now.statement.now) }
{
    let mut positions = Vec::new(alloc);
    input.frames.mandatory(input.position, &mut positions)?;
    push_hypotheses(text, input.statements, positions.as_slice())?;
    push_disjoint(text, input)
}

/// Appends the statements at these positions.
fn push_hypotheses(
    text: &mut Vec<u8>,
    statements: &[Stmt],
    positions: &[u32],
) -> Result<(), AllocError>
    ensures { OnOk result (text.new.items
        ≡ text.old.items ++ flat_map (line_at statements.now) positions.now) }
{
    for position in positions {
        push_statement_at(text, statements, *position as usize)?;
    }
    Ok(())
}

/// Appends the statement at a position, if there is one.
fn push_statement_at(
    text: &mut Vec<u8>,
    statements: &[Stmt],
    position: usize,
) -> Result<(), AllocError>
    ensures { OnOk result (text.new.items ≡ text.old.items ++ line_at statements.now position) }
{
    if position == 0 || position > statements.len() {
        return Ok(());
    }
    push_statement(text, &statements[position - 1])
}

/// Appends a line for each active `$d` at an assertion that has two or more of its mandatory
/// variables.
fn push_disjoint(text: &mut Vec<u8>, input: &BlockInput<'_>) -> Result<(), AllocError>
    requires input { IsBlockInput input.now }
    requires assertion { IsTrue (is_assertion input.now.statement.now) }
    ensures { OnOk result (text.new.items ≡ text.old.items ++ flat_map group_line
        (mandatory_groups (before (bares input.now.statements.now) input.now.position)
        input.now.statement.now)) }
{
    let groups = input.frames.groups(input.position)?;
    push_groups(text, input.frames, &groups.as_groups())
}

/// Appends a line for each group of variables.
fn push_groups(text: &mut Vec<u8>, frames: &Frames, groups: &Groups<'_>) -> Result<(), AllocError>
    ensures { OnOk result (text.new.items
        ≡ text.old.items ++ flat_map (group_line_of_numbers frames.now.names) groups.now) }
{
    for index in 0..groups.len() {
        push_group(text, frames, groups.get(index))?;
    }
    Ok(())
}

/// Appends the line of a group of variables.
fn push_group(text: &mut Vec<u8>, frames: &Frames, group: &[u32]) -> Result<(), AllocError>
    ensures { OnOk result (text.new.items
        ≡ text.old.items ++ group_line_of_numbers frames.now.names group.now) }
{
    text.extend_from_slice(b"$d")?;
    push_variables(text, frames, group)?;
    text.extend_from_slice(b"\n")
}

/// Appends variables, each after a space.
fn push_variables(text: &mut Vec<u8>, frames: &Frames, group: &[u32]) -> Result<(), AllocError>
    ensures { OnOk result (text.new.items
        ≡ text.old.items ++ flat_map (symbol_text frames.now.names) group.now) }
{
    for number in group {
        push_variable(text, frames, *number)?;
    }
    Ok(())
}

/// Appends a space and a variable.
fn push_variable(text: &mut Vec<u8>, frames: &Frames, number: u32) -> Result<(), AllocError>
    ensures { OnOk result (text.new.items ≡ text.old.items ++ symbol_text frames.now.names number) }
{
    text.extend_from_slice(b" ")?;
    text.extend_from_slice(frames.symbol(number))
}
