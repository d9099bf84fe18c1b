//! The block of a statement.
ghost use Rattle.std.specs.Prelude.{◌≡◌, ◌++◌, option_map, OnOk};
ghost use Rattle.proof_pages.specs.Lines.{frame_if};
ghost use Rattle.proof_pages.specs.Blocks.{line_and_column_text, heading, description_lines};
ghost use Rattle.proof_pages.specs.Blocks.{block_text};
ghost use Rattle.proof_pages.specs.BlockInputs.{IsBlockInput};

use crate::block_input::BlockInput;
use crate::frame_lines::push_frame;
use crate::statement_line::push_statement;
use crate::wrapping::push_wrapped;
use frame::is_assertion;
use places::LineAndColumn;
use std::alloc::{AllocError, Global};
use text::push_number;

/// Appends the block of a statement: its line, column and number, its description, its mandatory
/// hypotheses and disjoint variables if it is an assertion, and the statement without its proof.
///
/// Errors: an allocation fails. Cost: the size of the block and of the description, and of the
/// active `$d` if there are many.
pub fn push_block(
    alloc: Global,
    text: &mut Vec<u8>,
    input: &BlockInput<'_>,
) -> Result<(), AllocError>
    requires { IsBlockInput input.now }
    ensures { OnOk result (text.new.items ≡ text.old.items ++ block_text input.now.statements.now
        input.now.position input.now.statement.now input.now.line_and_column
        (option_map (λ d. d.now) input.now.description)) }
{
    push_heading(text, input.line_and_column, input.position)?;
    push_description(text, input.description)?;
    push_frame_if(alloc, text, input)?;
    push_statement(text, input.statement)
}

/// Appends the line, the column and the number of a statement.
fn push_heading(
    text: &mut Vec<u8>,
    line_and_column: LineAndColumn,
    at: usize,
) -> Result<(), AllocError>
    ensures { OnOk result (text.new.items ≡ text.old.items ++ heading line_and_column at) }
{
    push_line_and_column(text, line_and_column)?;
    text.extend_from_slice(b": ")?;
    push_number(text, at as u64)?;
    text.extend_from_slice(b"\n")
}

/// Appends a line and a column.
fn push_line_and_column(
    text: &mut Vec<u8>,
    line_and_column: LineAndColumn,
) -> Result<(), AllocError>
    ensures { OnOk result (text.new.items ≡ text.old.items ++ line_and_column_text line_and_column) }
{
    push_number(text, line_and_column.line as u64)?;
    text.extend_from_slice(b":")?;
    push_number(text, line_and_column.column as u64)
}

/// Appends the words of a description, if there is one.
fn push_description(text: &mut Vec<u8>, description: Option<&[u8]>) -> Result<(), AllocError>
    ensures { OnOk result (text.new.items
        ≡ text.old.items ++ description_lines (option_map (λ d. d.now) description.entry)) }
{
    match description {
        Some(description) => push_wrapped(text, description),
        None => Ok(()),
    }
}

/// Appends the frame of a statement, if it is an assertion.
fn push_frame_if(
    alloc: Global,
    text: &mut Vec<u8>,
    input: &BlockInput<'_>,
) -> Result<(), AllocError>
    requires { IsBlockInput input.now }
    ensures { OnOk result (text.new.items ≡ text.old.items
        ++ frame_if input.now.statements.now input.now.position input.now.statement.now) }
{
    if is_assertion(input.statement) {
        push_frame(alloc, text, input)
    } else {
        Ok(())
    }
}
