//! A step as a node of a graph in the DOT language of Graphviz.
ghost use Rattle.std.specs.Prelude.{◌≡◌, ◌<◌, ◌++◌, length, get_or, flat_map, OnOk};
ghost use Rattle.steps.specs.Rows.{no_row};
ghost use Rattle.proof_pages.specs.Graphs.{quoted_symbol, quoted_expr, arrow_line, node_line};
ghost use Rattle.proof_pages.specs.Graphs.{node_text, graph_header};

use crate::step_lines::{label_at, push_step_number};
use frame::Frames;
use std::alloc::AllocError;
use steps::ProofTable;
use text::push_quoted;

/// Appends the first line of the graph of a theorem.
pub fn push_graph_header(text: &mut Vec<u8>, label: &[u8]) -> Result<(), AllocError>
    ensures { OnOk result (text.new.items ≡ text.old.items ++ graph_header label.now) }
{
    text.extend_from_slice(b"digraph \"")?;
    push_quoted(text, label)?;
    text.extend_from_slice(b"\" {\n")
}

fn push_quoted_symbol(text: &mut Vec<u8>, frames: &Frames, symbol: u32) -> Result<(), AllocError>
    ensures { OnOk result (text.new.items ≡ text.old.items ++ quoted_symbol frames.now.names symbol) }
{
    text.extend_from_slice(b" ")?;
    push_quoted(text, frames.symbol(symbol))
}

fn push_quoted_others(
    text: &mut Vec<u8>,
    frames: &Frames,
    symbols: &[u32],
) -> Result<(), AllocError>
    ensures { OnOk result (text.new.items ≡ text.old.items ++ flat_map (quoted_symbol frames.now.names) symbols.now) }
{
    for symbol in symbols {
        push_quoted_symbol(text, frames, *symbol)?;
    }
    Ok(())
}

/// Appends the symbols of an expression, escaped for quotes and separated by spaces.
fn push_quoted_expr(text: &mut Vec<u8>, frames: &Frames, expr: &[u32]) -> Result<(), AllocError>
    ensures { OnOk result (text.new.items ≡ text.old.items ++ quoted_expr frames.now.names expr.now) }
{
    match expr.split_first() {
        None => Ok(()),
        Some((first, others)) => {
            push_quoted(text, frames.symbol(*first))?;
            push_quoted_others(text, frames, others)
        }
    }
}

fn push_arrow(text: &mut Vec<u8>, index: usize, taken: usize) -> Result<(), AllocError>
    ensures { OnOk result (text.new.items ≡ text.old.items ++ arrow_line index taken) }
{
    push_step_number(text, taken)?;
    text.extend_from_slice(b" -> ")?;
    push_step_number(text, index)?;
    text.extend_from_slice(b";\n")
}

fn push_arrows(text: &mut Vec<u8>, index: usize, indexes: &[usize]) -> Result<(), AllocError>
    ensures { OnOk result (text.new.items ≡ text.old.items ++ flat_map (arrow_line index) indexes.now) }
{
    for taken in indexes {
        push_arrow(text, index, *taken)?;
    }
    Ok(())
}

fn push_node_line(
    text: &mut Vec<u8>,
    frames: &Frames,
    table: &ProofTable,
    index: usize,
) -> Result<(), AllocError>
    requires { index < length table.now }
    ensures { OnOk result
        (text.new.items ≡ text.old.items
        ++ node_line frames.now.statements frames.now.names index (get_or table.now index no_row)) }
{
    push_step_number(text, index)?;
    text.extend_from_slice(b" [label=\"")?;
    push_quoted(text, label_at(frames, table.position(index)))?;
    text.extend_from_slice(b"\\n")?;
    push_quoted_expr(text, frames, table.expr(index))?;
    text.extend_from_slice(b"\"];\n")
}

/// Appends the step at an index as a node, with an arrow from each step that it takes.
///
/// Errors: an allocation fails. Cost: the size of the lines.
pub(crate) fn push_node(
    text: &mut Vec<u8>,
    frames: &Frames,
    table: &ProofTable,
    index: usize,
) -> Result<(), AllocError>
    requires { index < length table.now }
    ensures { OnOk result
        (text.new.items ≡ text.old.items
        ++ node_text frames.now.statements frames.now.names index (get_or table.now index no_row)) }
{
    push_node_line(text, frames, table, index)?;
    push_arrows(text, index, table.taken(index))
}
