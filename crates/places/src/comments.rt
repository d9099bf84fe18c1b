//! Tells the kinds of comment faults apart.
ghost use Rattle.mm_lex.specs.TextFaults.{IsCommentFault};
ghost use Rattle.places.specs.CommentFaults.{IsCommentFaultKind};

use mm_lex::{LexFault, count_tokens};

/// Why the comments of a text are malformed.
#[derive(Clone, Copy, Debug, Drop, PartialEq, Eq)]
pub enum CommentFaultKind {
    /// A `$)` outside a comment.
    StrayCloser,
    /// A `$(` inside the comment that begins at the offset `outer`.
    Nested { outer: usize },
    /// A comment that is never closed.
    Unclosed,
}

/// Returns the kind of the comment fault at an offset.
///
/// Does not allocate. Cost: the size of the text before the offset.
pub fn comment_fault_kind(text: &[u8], offset: usize) -> CommentFaultKind
    requires { IsCommentFault text.now offset }
    ensures { IsCommentFaultKind text.now offset result }
{
    // The text has `$(` or `$)` at the offset; the second byte tells which.
    if text[offset + 1] == b')' {
        return CommentFaultKind::StrayCloser;
    }
    match count_tokens(&text[..offset], 0) {
        Ok(_) => CommentFaultKind::Unclosed,
        Err(LexFault::Comment { offset: outer }) => CommentFaultKind::Nested { outer },
        Err(_) => unreachable!(),
    }
}
