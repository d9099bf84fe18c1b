//! The tokens of a text, by where they begin and end.
use mm_lex::{Span, tokens};
use std::alloc::Global;

/// Two tokens and a comment between them. The comment has the word `$(x`, which begins with `$(`
/// and opens no comment.
const TEXT: &[u8] = b"$. $( hi $(x $) p";

/// Where the two tokens begin and end.
const SPANS: [Span; 2] = [Span { start: 0, end: 2 }, Span { start: 16, end: 17 }];

#[test]
fn tokens_have_their_spans(rt: HostRuntime) {
    assert!(rt; has_tokens(rt.alloc(), TEXT, &SPANS));
    assert!(rt; has_tokens(rt.alloc(), b"", &[]));
}

/// Returns whether the tokens of the text are at these spans.
fn has_tokens(alloc: Global, text: &[u8], expected: &[Span]) -> bool {
    match tokens(alloc, text) {
        Ok(spans) => spans.as_slice() == expected,
        Err(_) => false,
    }
}
