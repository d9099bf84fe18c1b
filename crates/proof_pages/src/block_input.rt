//! The input of a block.
use frame::Frames;
use mm_read::Stmt;
use places::LineAndColumn;

/// A statement to show, with everything that its block is made of.
#[derive(Drop)]
pub struct BlockInput<'a> {
    /// All statements of the database.
    pub statements: &'a [Stmt],
    /// Their frames.
    pub frames: &'a Frames,
    /// The statement.
    pub statement: &'a Stmt,
    /// Its position among all statements, from 1.
    pub position: usize,
    /// Its line and column in the text.
    pub line_and_column: LineAndColumn,
    /// Its description: the contents of a comment.
    pub description: Option<&'a [u8]>,
}
