//! A range of bytes in a text.

/// A range of bytes in a text, such as a token or the `$(` of a comment: the offsets of its first
/// byte and of the byte after its last one.
#[derive(Clone, Copy, Debug, Drop, PartialEq, Eq)]
pub struct Span {
    pub start: usize,
    pub end: usize,
}
