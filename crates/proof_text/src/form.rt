//! The forms of a proof, and why there is no text.

use std::alloc::AllocError;

/// The form in which a proof is written. Source: Metamath, 4.3 and appendix B.
#[derive(Clone, Copy, Debug, Drop, PartialEq, Eq)]
pub enum TextForm {
    /// The labels of the citations in the order of a stack.
    Normal,
    /// A list of labels, and letters for the citations, marks and recalls.
    Compressed,
}

/// Why there is no text of a proof.
#[derive(Clone, Copy, Debug, Drop, PartialEq, Eq)]
pub enum TextFault {
    /// The text would have more bytes than are allowed, or its proof a weight above the limit.
    TooLarge,
    /// An allocation failed.
    Memory,
}

impl From<AllocError> for TextFault {
    fn from(_error: AllocError) -> TextFault {
        TextFault::Memory
    }
}
