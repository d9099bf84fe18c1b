//! Wraps words into lines.
ghost use Rattle.std.specs.Prelude.{◌≡◌, ◌++◌, [], map, OnOk};
ghost use Rattle.mm_lex.specs.Alphabet.{runs, word};
ghost use Rattle.proof_pages.specs.Wrapped.{fits, separator, column_after, wrapped, wrapped_from};

use std::alloc::AllocError;
use text::next_run;

/// The maximum number of bytes in a line.
pub(crate) const WIDTH: usize = 78;

/// Appends the words of a text, wrapped into lines of at most 78 bytes; a longer word has its own
/// line.
///
/// Cost: the size of the text.
pub(crate) fn push_wrapped(lines: &mut Vec<u8>, text: &[u8]) -> Result<(), AllocError>
    ensures { OnOk result (lines.new.items
        ≡ lines.old.items ++ wrapped (map (word text.now) (runs text.now))) }
{
    let mut column = 0;
    let mut at = 0;
    while let Some(span) = next_run(text, at) {
        let word = &text[span.start..span.end];
        push_separator(lines, column, word)?;
        lines.extend_from_slice(word)?;
        column = column_after(column, word);
        at = span.end;
    }
    push_line_feed(lines, column)
}

/// Appends a line feed after a line of `column` bytes, unless the line is empty.
fn push_line_feed(lines: &mut Vec<u8>, column: usize) -> Result<(), AllocError>
    ensures { OnOk result (lines.new.items ≡ lines.old.items ++ wrapped_from column []) }
{
    if column == 0 {
        Ok(())
    } else {
        lines.extend_from_slice(b"\n")
    }
}

/// Appends the space or the line feed that precedes a word, in a line of `column` bytes.
fn push_separator(lines: &mut Vec<u8>, column: usize, word: &[u8]) -> Result<(), AllocError>
    ensures { OnOk result (lines.new.items ≡ lines.old.items ++ separator column word.now) }
{
    if column == 0 {
        Ok(())
    } else if fits(column, word) {
        lines.extend_from_slice(b" ")
    } else {
        lines.extend_from_slice(b"\n")
    }
}

/// Returns the number of bytes in the line after the word is appended.
fn column_after(column: usize, word: &[u8]) -> usize
    ensures { result ≡ column_after column word.now }
{
    if column != 0 && fits(column, word) {
        column + 1 + word.len()
    } else {
        word.len()
    }
}

/// Returns whether a space and a word still fit into a line of `column` bytes.
fn fits(column: usize, word: &[u8]) -> bool
    ensures { result ≡ fits column word.now }
{
    column < WIDTH && word.len() < WIDTH - column
}
