//! Explains faults of bytes and comments.
ghost use Rattle.mm_lex.specs.TextFaults.{IsCommentFault};

use crate::written_lines::Lines;
use mm_lex::{LexFault, tokens};
use places::{CommentFaultKind, comment_fault_kind};
use std::alloc::Global;

/// Writes the fault of the bytes or the comments of the text.
pub(crate) fn explain_text(alloc: Global, lines: &mut Lines<'_>, text: &[u8]) {
    match tokens(alloc, text) {
        Ok(_) => {}
        Err(LexFault::Text { offset }) => explain_byte(lines, text, offset),
        Err(LexFault::Comment { offset }) => explain_comment(lines, text, offset),
        Err(LexFault::Memory) => lines.fail(),
    }
}

/// Writes which byte is not allowed, and where.
pub(crate) fn explain_byte(lines: &mut Lines<'_>, text: &[u8], offset: usize) {
    let Some(byte) = text.get(offset) else {
        return;
    };
    lines.push_place(text, offset);
    lines.push(b": the byte 0x");
    lines.push(&[hexadecimal(*byte / 16), hexadecimal(*byte % 16)]);
    lines.push(b" may not stand in a database\n");
    lines.push(b"  visible ASCII characters, spaces, tabs, form feeds and ends of lines may\n");
}

/// Returns the hexadecimal digit of a number below 16.
fn hexadecimal(number: u8) -> u8 {
    match b"0123456789abcdef".get(number as usize) {
        Some(digit) => *digit,
        None => b'?',
    }
}

/// Writes what is wrong with the comment at an offset.
fn explain_comment(lines: &mut Lines<'_>, text: &[u8], offset: usize)
    requires { IsCommentFault text.now offset }
{
    lines.push_place(text, offset);
    match comment_fault_kind(text, offset) {
        CommentFaultKind::StrayCloser => lines.push(b": this $) closes no comment\n"),
        CommentFaultKind::Nested { outer } => {
            lines.push(b": a comment begins inside a comment\n  which begins at ");
            lines.push_place(text, outer);
            lines.push(b"\n");
        }
        CommentFaultKind::Unclosed => {
            lines.push(b": this comment is never closed\n");
            explain_comment_end_within_token(lines, text, offset);
        }
    }
}

/// Writes the first run of bytes without white space, from an offset on, that contains `$)`, and
/// where the run begins, if there is one. After a comment that is never closed, such a run is
/// longer than `$)`.
fn explain_comment_end_within_token(lines: &mut Lines<'_>, text: &[u8], offset: usize) {
    let Some(rest) = text.get(offset..) else {
        return;
    };
    let mut start = offset;
    for token in rest.split(|byte| is_space(*byte)) {
        if has_comment_end(token) {
            lines.push(b"  $) must stand between spaces: ");
            lines.push_place(text, start);
            lines.push(b" has ");
            lines.push(token);
            lines.push(b"\n");
            return;
        }
        start = start.saturating_add(token.len()).saturating_add(1);
    }
}

/// Returns whether a byte is white space.
fn is_space(byte: u8) -> bool {
    byte == b' ' || byte == b'\t' || byte == b'\n' || byte == 12 || byte == b'\r'
}

/// Returns whether a token contains `$)`.
fn has_comment_end(token: &[u8]) -> bool {
    let mut last = 0;
    for byte in token {
        if last == b'$' && *byte == b')' {
            return true;
        }
        last = *byte;
    }
    false
}
