//! Finds the line and the column of an offset.
ghost use Rattle.std.specs.Prelude.{◌≡◌, ◌≤◌, length};
ghost use Rattle.places.specs.Lines.{BeginsLine, IsColumn, line_of};

use memchr::memchr_iter;

/// A line and a column of a text, both counted from 1; columns count bytes.
#[derive(Clone, Copy, Debug, Drop, PartialEq, Eq)]
pub struct LineAndColumn {
    pub line: usize,
    pub column: usize,
}

/// Returns the line and the column of an offset.
///
/// Cost: the size of the text before it.
pub fn line_and_column(text: &[u8], offset: usize) -> LineAndColumn
    requires { offset ≤ length text.now }
    ensures line { result.line ≡ line_of text.now offset }
    ensures column { IsColumn text.now offset result.column }
{
    let start = line_start(text, offset);
    LineAndColumn {
        line: line_at(text, offset),
        column: offset - start + 1,
    }
}

/// Returns the line of an offset.
fn line_at(text: &[u8], offset: usize) -> usize
    requires { offset ≤ length text.now }
    ensures { result ≡ line_of text.now offset }
{
    memchr_iter(b'\n', &text[..offset]).count() + 1
}

/// Returns the offset at which the line that contains `offset` begins.
fn line_start(text: &[u8], offset: usize) -> usize
    requires { offset ≤ length text.now }
    ensures { BeginsLine text.now offset result }
{
    for i in (0..offset).rev() {
        if text[i] == b'\n' {
            return i + 1;
        }
    }
    0
}
