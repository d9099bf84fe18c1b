//! Writes a proof step by step, so that a long proof needs little more memory than its table.
ghost use Rattle.std.specs.Prelude.{◌≡◌, [], codes, OnOk};
ghost use Rattle.std.specs.Io.KnownBytes.{Appends};
ghost use Rattle.proof_pages.specs.StepLines.{step_line, concat_texts};
ghost use Rattle.proof_pages.specs.Graphs.{graph_text};
ghost use Rattle.proof_pages.specs.Writing.{IsWrittenThenBuffered};

use crate::graph::{push_graph_header, push_node};
use crate::step_lines::push_step;
use frame::Frames;
use std::alloc::{AllocError, Global};
use std::io::Write;
use steps::ProofTable;

/// The error of a writing function.
#[derive(Debug, Drop, PartialEq, Eq)]
pub enum WriteFault {
    /// An allocation failed.
    Memory,
    /// A write failed.
    Output,
}

impl From<AllocError> for WriteFault {
    fn from(_error: AllocError) -> WriteFault {
        WriteFault::Memory
    }
}

/// A buffer of at least this many bytes is written and cleared.
const WRITE_THRESHOLD: usize = 65_536;

/// Writes the buffered text and clears the buffer, if it has at least 64 KiB; else does nothing.
pub(crate) fn write_if_full<W: Write>(out: &mut W, text: &mut Vec<u8>) -> Result<(), WriteFault>
    ensures { OnOk result
        (IsWrittenThenBuffered (W.contents out.old) (W.contents out.new) text.new.items text.old.items) }
{
    if text.len() < WRITE_THRESHOLD {
        return Ok(());
    }
    write_buffered(out, text)?;
    text.clear();
    Ok(())
}

/// Writes the buffered text.
pub(crate) fn write_buffered<W: Write>(out: &mut W, text: &[u8]) -> Result<(), WriteFault>
    ensures { OnOk result (Appends (W.contents out.old) (W.contents out.new) text.now) }
{
    match out.write_all(text) {
        Ok(()) => Ok(()),
        Err(_) => Err(WriteFault::Output),
    }
}

/// Writes a line for each step: its number, the numbers of the steps that it takes, the label of
/// the statement that it cites, its expression.
///
/// Errors: `Memory`, `Output`; some lines may be written then. Cost: the size of the lines; buffers
/// at most 64 KiB and one line.
pub fn write_step_lines<W: Write>(
    alloc: Global,
    out: &mut W,
    frames: &Frames,
    table: &ProofTable,
) -> Result<(), WriteFault>
    ensures { OnOk result (Appends (W.contents out.old) (W.contents out.new)
        (concat_texts (step_line frames.now.statements frames.now.names) 0 table.now)) }
{
    let mut text = Vec::new(alloc);
    for index in 0..table.len() {
        push_step(&mut text, frames, table, index)?;
        write_if_full(out, &mut text)?;
    }
    write_buffered(out, &text)
}

/// Writes the steps as a graph in the DOT language of Graphviz.
///
/// Errors and cost: those of `write_step_lines`.
pub fn write_dot<W: Write>(
    alloc: Global,
    out: &mut W,
    frames: &Frames,
    label: &[u8],
    table: &ProofTable,
) -> Result<(), WriteFault>
    ensures { OnOk result (Appends (W.contents out.old) (W.contents out.new)
        (graph_text frames.now.statements frames.now.names label.now table.now)) }
{
    let mut text = Vec::new(alloc);
    push_graph_header(&mut text, label)?;
    for index in 0..table.len() {
        push_node(&mut text, frames, table, index)?;
        write_if_full(out, &mut text)?;
    }
    text.extend_from_slice(b"}\n")?;
    write_buffered(out, &text)
}
