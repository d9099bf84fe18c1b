//! A step as a line.
ghost use Rattle.std.specs.Prelude.{◌≡◌, ◌<◌, ◌++◌, codes, length, get_or, flat_map, OnOk};
ghost use Rattle.scope.specs.Active.{stmt_at};
ghost use Rattle.verify.specs.Proves.{label_or_empty};
ghost use Rattle.steps.specs.Rows.{no_row};
ghost use Rattle.proof_pages.specs.StepLines.{number_text, comma_and_number, taken_text};
ghost use Rattle.proof_pages.specs.StepLines.{symbol_text, expr_text, step_line};

use frame::Frames;
use std::alloc::AllocError;
use steps::ProofTable;
use text::push_number;

/// Returns the label of the statement at a position, empty if it has none.
pub fn label_at(frames: &Frames, position: usize) -> &[u8]
    ensures { result.now ≡ label_or_empty (stmt_at frames.now.statements position) }
{
    if position == 0 || position > frames.len() {
        return &[];
    }
    match frames.label(position) {
        Some(label) => label,
        None => &[],
    }
}

/// Appends the number of the step at an index: the index plus one.
pub fn push_step_number(text: &mut Vec<u8>, index: usize) -> Result<(), AllocError>
    ensures { OnOk result (text.new.items ≡ text.old.items ++ number_text index) }
{
    let number = (index as u64).checked_add(1).ok_or(AllocError)?;
    push_number(text, number)
}

fn push_comma_and_number(text: &mut Vec<u8>, index: usize) -> Result<(), AllocError>
    ensures { OnOk result (text.new.items ≡ text.old.items ++ comma_and_number index) }
{
    text.extend_from_slice(b",")?;
    push_step_number(text, index)
}

fn push_other_numbers(text: &mut Vec<u8>, indexes: &[usize]) -> Result<(), AllocError>
    ensures { OnOk result (text.new.items ≡ text.old.items ++ flat_map comma_and_number indexes.now) }
{
    for index in indexes {
        push_comma_and_number(text, *index)?;
    }
    Ok(())
}

/// Appends the numbers of the steps that are taken, or `-` if there are none.
fn push_taken(text: &mut Vec<u8>, indexes: &[usize]) -> Result<(), AllocError>
    ensures { OnOk result (text.new.items ≡ text.old.items ++ taken_text indexes.now) }
{
    match indexes.split_first() {
        None => text.extend_from_slice(b"-"),
        Some((first, others)) => {
            push_step_number(text, *first)?;
            push_other_numbers(text, others)
        }
    }
}

fn push_symbol(text: &mut Vec<u8>, frames: &Frames, symbol: u32) -> Result<(), AllocError>
    ensures { OnOk result (text.new.items ≡ text.old.items ++ symbol_text frames.now.names symbol) }
{
    text.extend_from_slice(b" ")?;
    text.extend_from_slice(frames.symbol(symbol))
}

/// Appends the symbols of an expression, each after a space.
fn push_expr(text: &mut Vec<u8>, frames: &Frames, expr: &[u32]) -> Result<(), AllocError>
    ensures { OnOk result (text.new.items ≡ text.old.items ++ expr_text frames.now.names expr.now) }
{
    for symbol in expr {
        push_symbol(text, frames, *symbol)?;
    }
    Ok(())
}

/// Appends the step at an index as a line: its number, the numbers of the steps that it takes, the
/// label of the statement that it cites, its expression.
///
/// Errors: an allocation fails. Cost: the size of the line.
pub(crate) fn push_step(
    text: &mut Vec<u8>,
    frames: &Frames,
    table: &ProofTable,
    index: usize,
) -> Result<(), AllocError>
    requires { index < length table.now }
    ensures { OnOk result
        (text.new.items ≡ text.old.items
        ++ step_line frames.now.statements frames.now.names index (get_or table.now index no_row)) }
{
    push_step_number(text, index)?;
    text.extend_from_slice(b" ")?;
    push_taken(text, table.taken(index))?;
    text.extend_from_slice(b" ")?;
    text.extend_from_slice(label_at(frames, table.position(index)))?;
    push_expr(text, frames, table.expr(index))?;
    text.extend_from_slice(b"\n")
}
