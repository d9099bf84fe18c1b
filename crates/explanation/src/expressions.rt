//! Writes expressions, given as symbol numbers, in symbols.

use crate::written_lines::Lines;
use explain::{EXCERPT_LEN, Excerpt};
use frame::Frames;

/// The largest number of bytes that are written of an expression, with a space before each symbol.
const MAX_EXPRESSION_BYTES: usize = 4_096;

/// Writes the symbols of an expression, with a space before each. Truncates a long one after
/// `EXCERPT_LEN` symbols, or before the first symbol that would exceed `MAX_EXPRESSION_BYTES`, and
/// writes how many symbols it has.
///
/// Cost: the bytes that are written.
pub(crate) fn push_expression(lines: &mut Lines<'_>, frames: &Frames, expr: &[u32]) {
    let first = expr.get(..EXCERPT_LEN).unwrap_or(expr);
    push_symbols(lines, frames, first, expr.len());
}

/// Writes an expression by its excerpt, as `push_expression` does.
pub(crate) fn push_excerpt(lines: &mut Lines<'_>, frames: &Frames, excerpt: &Excerpt) {
    push_symbols(lines, frames, excerpt.symbols.as_slice(), excerpt.len);
}

/// Writes the first symbols of an expression, which has this number of symbols.
fn push_symbols(lines: &mut Lines<'_>, frames: &Frames, first: &[u32], len: usize) {
    let mut remaining = MAX_EXPRESSION_BYTES;
    for number in first {
        let symbol = frames.symbol(*number);
        if symbol.len() >= remaining {
            push_cut(lines, len);
            return;
        }
        lines.push(b" ");
        lines.push(symbol);
        remaining -= symbol.len() + 1;
    }
    if first.len() < len {
        push_cut(lines, len);
    }
}

/// Writes that an expression with this number of symbols is truncated.
fn push_cut(lines: &mut Lines<'_>, len: usize) {
    lines.push(b" .. (");
    lines.push_number(len);
    lines.push(b" symbols)");
}

/// Returns the expression of the statement at a position, or an empty one if there is none.
pub(crate) fn expr_at(frames: &Frames, at: usize) -> &[u32] {
    if at == 0 || at > frames.len() {
        return &[];
    }
    frames.expr(at)
}
