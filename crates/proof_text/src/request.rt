//! Which proof is wanted as text.

use crate::form::TextForm;
use frame::Frames;
use mm_read::Stmt;

/// A `$p`, the form in which its proof is wanted, and the limit of its text.
#[derive(Clone, Copy)]
pub struct TextRequest<'a> {
    /// The statements of the database.
    pub statements: &'a [Stmt],
    /// Their frames.
    pub frames: &'a Frames,
    /// The position of the `$p`.
    pub at: usize,
    /// The form of the proof.
    pub form: TextForm,
    /// The greatest number of bytes that the text may have.
    pub max_bytes: usize,
}
