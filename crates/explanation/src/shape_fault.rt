//! Explains why tokens do not parse as statements.
ghost use Rattle.std.specs.Prelude.{◌≤◌, length};
ghost use Rattle.std.specs.List.{All};
ghost use Rattle.mm_lex.specs.Tokens.{IsWordAt};

use crate::written_lines::{Lines, token_in};
use mm_lex::{LexFault, Span, tokens};
use mm_read::{ReadFault, read};
use places::statement_start_index;
use std::alloc::Global;

/// Writes the misplaced token, the tokens allowed in its place, and where its statement begins.
pub(crate) fn explain_shape(alloc: Global, lines: &mut Lines<'_>, text: &[u8]) {
    match read(alloc, text) {
        Err(ReadFault::Shape { token }) => explain_misplaced_token(alloc, lines, text, token),
        Err(ReadFault::Memory) => lines.fail(),
        _ => {}
    }
}

/// Writes the explanation for the misplaced token, given its number from 1.
fn explain_misplaced_token(alloc: Global, lines: &mut Lines<'_>, text: &[u8], token: usize) {
    match tokens(alloc, text) {
        Ok(spans) => explain_token_at(lines, text, spans.as_slice(), token.saturating_sub(1)),
        Err(LexFault::Memory) => lines.fail(),
        Err(_) => {}
    }
}

/// Writes the explanation for the token at an index, if the index is at most the number of tokens.
pub(crate) fn explain_token_at(lines: &mut Lines<'_>, text: &[u8], spans: &[Span], index: usize)
    requires { All (IsWordAt text.now) spans.now }
{
    if index > spans.len() {
        return;
    }
    explain_token(lines, text, spans, index);
}

/// Writes the explanation for the token at an index, or for the end of the text if the index is the
/// number of tokens.
fn explain_token(lines: &mut Lines<'_>, text: &[u8], spans: &[Span], index: usize)
    requires words { All (IsWordAt text.now) spans.now }
    requires within { index ≤ length spans.now }
{
    let start = statement_start_index(text, spans, index);
    let expected = allowed_tokens(text, &spans[start..index]);
    match spans.get(index) {
        Some(span) => {
            lines.push_place(text, span.start);
            push_misplaced(lines, expected, token_in(text, *span), start == index);
        }
        None => {
            lines.push_place(text, text.len());
            lines.push(b": the database ends here, where ");
            lines.push(expected);
            lines.push(b" may stand");
        }
    }
    lines.push(b"\n");
    if start == index {
        return;
    }
    let Some(first) = spans.get(start) else {
        return;
    };
    lines.push(b"  in the statement that begins at ");
    lines.push_place(text, first.start);
    lines.push(b"\n");
}

/// Writes that a token is not allowed where it is, and which tokens are; for `$[`, that files are
/// not included; and for a word in place of a label, which characters a label has.
fn push_misplaced(lines: &mut Lines<'_>, expected: &[u8], token: &[u8], begins_statement: bool) {
    if token == b"$[".as_slice() {
        lines.push(
            b": file inclusion is not supported; join the files first: cat a.mm b.mm | mmlib check",
        );
    } else if begins_statement && !token.starts_with(b"$") {
        lines.push(b": ");
        lines.push(token);
        lines.push(b" is no label: letters, digits, . - and _ may stand in one");
    } else {
        lines.push(b": ");
        lines.push(expected);
        lines.push(b" may stand here, not ");
        lines.push(token);
    }
}

/// Returns the part of the message that names the tokens allowed after these tokens of a statement.
fn allowed_tokens(text: &[u8], before: &[Span]) -> &'static [u8] {
    let Some(first) = before.get(0) else {
        return b"a label, $c, $v, $d, ${ or $}";
    };
    match token_in(text, *first) {
        b"$c" => symbols_or_end(before.len(), 2),
        b"$v" => symbols_or_end(before.len(), 2),
        b"$d" => symbols_or_end(before.len(), 3),
        _ => allowed_after_label(text, before),
    }
}

/// Returns the part of the message that names a symbol, and also `$.` if `len` tokens are enough
/// for a statement.
fn symbols_or_end(len: usize, min_len: usize) -> &'static [u8] {
    if len < min_len {
        b"a symbol"
    } else {
        b"a symbol or $."
    }
}

/// Returns the part of the message that names the tokens allowed after these, the first of which is
/// a label.
fn allowed_after_label(text: &[u8], before: &[Span]) -> &'static [u8] {
    let Some(keyword) = before.get(1) else {
        return b"$f, $e, $a or $p";
    };
    match token_in(text, *keyword) {
        b"$f" => match before.len() {
            2 => b"a constant",
            3 => b"a variable",
            _ => b"$.",
        },
        b"$p" => allowed_in_provable(text, before),
        _ => symbols_or_end(before.len(), 3),
    }
}

/// Returns the part of the message that names the tokens allowed after these tokens of a `$p`.
fn allowed_in_provable(text: &[u8], before: &[Span]) -> &'static [u8] {
    for span in before {
        if token_in(text, *span) == b"$=".as_slice() {
            return b"a token of the proof or $.";
        }
    }
    if before.len() < 3 {
        b"a symbol"
    } else {
        b"a symbol or $="
    }
}
