//! Scripts and sessions (`serve --live`): their lines, answered one by one.
use commands::{LINE_FEED, Line, ScriptFault, parse_script};
use questions::{Fault, print, read_at_most};
use std::alloc::{AllocError, Global};
use std::io::{Read, Write};
use std::vec::IntoIter;

/// The capacity in bytes that is reserved for an answer. An answer to an event, or with a verdict,
/// needs no more.
const ANSWER_CAPACITY: usize = 128;

/// Nodes that answer the lines of a script or a session.
pub trait AnswerLines<L> {
    /// Carries out a line, and appends its answer to a text.
    ///
    /// Errors: the line is refused, or an allocation fails; the text is then discarded.
    fn answer(&mut self, line: L, text: &mut Vec<u8>) -> Result<(), Fault>;
}

/// A source of the lines of a script or a session.
pub trait LineSource<L> {
    /// Returns the next line, or `None` at the end.
    ///
    /// Errors: no further line can be read.
    fn next_line(&mut self) -> Result<Option<L>, Fault>;

    /// Returns whether someone may wait for an answer before giving the next line.
    fn is_live(&self) -> bool;
}

impl<L: Drop> LineSource<L> for IntoIter<L> {
    fn next_line(&mut self) -> Result<Option<L>, Fault> {
        Ok(self.next())
    }

    fn is_live(&self) -> bool {
        false
    }
}

/// Reads the whole input as the lines of a command.
pub fn read_script<L: Line, I: Read>(alloc: Global, input: &mut I) -> Result<Vec<L>, Fault> {
    let script = read_at_most(alloc, input, usize::MAX)?;
    match parse_script(alloc, script.as_slice()) {
        Ok(lines) => Ok(lines),
        Err(ScriptFault::Memory) => Err(Fault::Memory(AllocError)),
        Err(ScriptFault::BadLine { number }) => {
            let (line, following) = line_at(script.as_slice(), number);
            Err(Fault::BadLine {
                number,
                expected: L::expected(line, following),
            })
        }
    }
}

/// Returns the line with a number, counted from 1, and the bytes after it.
fn line_at(script: &[u8], number: usize) -> (&[u8], &[u8]) {
    let mut lines = split_line(script);
    for _line in 1..number {
        lines = split_line(lines.1);
    }
    lines
}

/// Returns the bytes before the first line feed, and those after it.
pub fn split_line(text: &[u8]) -> (&[u8], &[u8]) {
    match text.iter().position(|byte| *byte == LINE_FEED) {
        Some(end) => (&text[..end], &text[end + 1..]),
        None => (text, b""),
    }
}

/// Prints the answer to each line, and returns the exit status. If the source is live, each answer
/// is flushed.
///
/// Errors: no further line can be read; an allocation fails before anything is printed; a write
/// fails.
pub fn answer_lines<L: Drop, N: AnswerLines<L>, S: LineSource<L>, O: Write>(
    alloc: Global,
    nodes: &mut N,
    lines: &mut S,
    output: &mut O,
) -> Result<u8, Fault> {
    let mut text = Vec::with_capacity(alloc, ANSWER_CAPACITY)?;
    let mut status = 0;
    for _ in 0..u64::MAX {
        let Some(line) = lines.next_line()? else {
            break;
        };
        status = status.max(print_answer(nodes, line, &mut text, output)?);
        if lines.is_live() {
            print(output, b"")?;
        }
    }
    print(output, b"")?;
    Ok(status)
}

/// Prints the answer to a line, and returns its exit status. `text` is a buffer that is reused.
fn print_answer<L: Drop, N: AnswerLines<L>, O: Write>(
    nodes: &mut N,
    line: L,
    text: &mut Vec<u8>,
    output: &mut O,
) -> Result<u8, Fault> {
    text.clear();
    match nodes.answer(line, text) {
        Ok(()) => {
            output.write_all(text.as_slice())?;
            Ok(if text.starts_with(b"refused") { 1 } else { 0 })
        }
        Err(fault) => {
            fault.write(output)?;
            Ok(fault.status())
        }
    }
}
