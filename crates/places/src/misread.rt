//! Reads the statements of a text around the parts that are no statements.
ghost use Rattle.std.specs.Prelude.{◌≡◌, ◌<◌, ◌≤◌, codes, length, IfErr, IfOk};
ghost use Rattle.std.specs.List.{All};
ghost use Rattle.mm_lex.specs.Alphabet.{name_eq};
ghost use Rattle.mm_lex.specs.Tokens.{AreTokens, IsWordAt, words};
ghost use Rattle.mm_read.specs.Statements.{AreShaped, tokens_of};
ghost use Rattle.places.specs.Misread.{IsPieceFault, IsReadUpTo, IsTokenAt, count_to_stop};
ghost use Rattle.places.specs.Misread.{laid_out, piece, piece_end};

use crate::statement_tokens::first_token_index;
use mm_lex::Span;
use mm_read::{ReadFault, Stmt, read};
use std::alloc::{AllocError, Global};

/// A part of a text that is no statement, by the indexes of its tokens.
#[derive(Clone, Copy, Debug, Drop, PartialEq, Eq)]
pub struct Misread {
    /// Its first token.
    pub first: usize,
    /// The token that may not stand where it is, or the number of all tokens if the text ends within
    /// a statement.
    pub fault: usize,
    /// The index after its last token: after the first `$.` from the fault on, or the number of all
    /// tokens.
    pub end: usize,
}

/// What is read of a text.
#[derive(Drop)]
pub struct PartialReading {
    pub statements: Vec<Stmt>,
    /// The spans of the tokens of the statements.
    pub spans: Vec<Span>,
    /// The parts that are no statements, in order.
    pub misread: Vec<Misread>,
}

/// Reads the statements of a text, given the spans of its tokens. What is no statement is left out
/// up to the next `$.`.
///
/// Errors: an allocation fails. Cost: the size of the text.
/// Source: Metamath, 4.1; that reading goes on after a fault is this project's choice.
pub fn read_around_faults(
    alloc: Global,
    text: &[u8],
    spans: &[Span],
) -> Result<PartialReading, AllocError>
    requires tokens { AreTokens text.now spans.now }
    requires words { All (IsWordAt text.now) spans.now }
    ensures read { IfOk result (λ reading. IsReadUpTo text.now spans.now (length spans.now)
        reading.statements.items reading.spans.items reading.misread.items) }
    ensures shaped { IfOk result (λ reading. AreShaped reading.statements.items) }
    ensures written { IfOk result (λ reading. words text.now reading.spans.items
        ≡ tokens_of reading.statements.items) }
    ensures words { IfOk result (λ reading. All (IsWordAt text.now) reading.spans.items) }
{
    read_pieces(alloc, text, spans)
}

/// Reads the pieces of a text, each up to a token that ends a statement.
#[tactic(auto, using(crate::proofs::MisreadLemmas::nothing_read))]
fn read_pieces(alloc: Global, text: &[u8], spans: &[Span]) -> Result<PartialReading, AllocError>
    requires { All (IsTokenAt text.now) spans.now }
    ensures { IfOk result (λ reading. IsReadUpTo text.now spans.now (length spans.now)
        reading.statements.items reading.spans.items reading.misread.items) }
{
    let mut reading = PartialReading {
        statements: Vec::new(alloc),
        spans: Vec::new(alloc),
        misread: Vec::new(alloc),
    };
    let mut at = 0usize;
    while at < spans.len() {
        at = read_next(alloc, text, spans, at, &mut reading)?;
    }
    Ok(reading)
}

/// Reads the piece that begins at an index, and returns the index after what is read or left out.
fn read_next(
    alloc: Global,
    text: &[u8],
    spans: &[Span],
    at: usize,
    reading: &mut PartialReading,
) -> Result<usize, AllocError>
    requires tokens { All (IsTokenAt text.now) spans.now }
    requires inside { at < length spans.now }
    requires before { IsReadUpTo text.now spans.now at
        reading.old.statements.items reading.old.spans.items reading.old.misread.items }
    ensures later { IfOk result (λ next. at < next) }
    ensures within { IfOk result (λ next. next ≤ length spans.now) }
    ensures read { IfOk result (λ next. IsReadUpTo text.now spans.now next
        reading.new.statements.items reading.new.spans.items reading.new.misread.items) }
{
    let end = piece_end(text, spans, at);
    let piece = &spans[at..end];
    match read_piece(alloc, text, piece) {
        Ok(mut statements) => {
            reading.statements.append(&mut statements)?;
            reading.spans.extend_from_slice(piece)?;
            Ok(end)
        }
        Err(fault) => leave_out(text, spans, at, fault, reading),
    }
}

/// Leaves out the part that begins with the piece at an index, which does not read as statements for
/// this fault, and returns the index after it.
fn leave_out(
    text: &[u8],
    spans: &[Span],
    at: usize,
    fault: ReadFault,
    reading: &mut PartialReading,
) -> Result<usize, AllocError>
    requires tokens { All (IsTokenAt text.now) spans.now }
    requires inside { at < length spans.now }
    requires fault { IsPieceFault (words text.now (piece text.now spans.now at)) fault }
    requires before { IsReadUpTo text.now spans.now at
        reading.old.statements.items reading.old.spans.items reading.old.misread.items }
    ensures later { IfOk result (λ next. at < next) }
    ensures within { IfOk result (λ next. next ≤ length spans.now) }
    ensures read { IfOk result (λ next. IsReadUpTo text.now spans.now next
        reading.new.statements.items reading.new.spans.items reading.new.misread.items) }
{
    match fault {
        ReadFault::Shape { token } => {
            let fault = at + (token - 1);
            let end = fault + count_to_stop(text, &spans[fault..]);
            reading.misread.push(Misread {
                first: at,
                fault,
                end,
            })?;
            Ok(end)
        }
        ReadFault::Memory => Err(AllocError),
        ReadFault::Text(_) => unreachable!(),
    }
}

/// Returns the index after the piece that begins at an index.
fn piece_end(text: &[u8], spans: &[Span], at: usize) -> usize
    requires tokens { All (IsTokenAt text.now) spans.now }
    requires inside { at < length spans.now }
    ensures end { result ≡ piece_end text.now spans.now at }
    ensures later { at < result }
    ensures within { result ≤ length spans.now }
{
    at + first_token_index(text, &spans[at..], 2)
}

/// Returns how many tokens there are up to the first `$.`, or all if there is none.
fn count_to_stop(text: &[u8], spans: &[Span]) -> usize
    requires tokens { All (IsTokenAt text.now) spans.now }
    ensures count { result ≡ count_to_stop (words text.now spans.now) }
    ensures within { result ≤ length spans.now }
{
    for (i, span) in spans.iter().enumerate() {
        if is_stop(&text[span.start..span.end]) {
            return i + 1;
        }
    }
    spans.len()
}

/// Returns whether a token is `$.`.
fn is_stop(token: &[u8]) -> bool
    ensures { result ≡ name_eq token.now (codes "$.") }
{
    token == b"$.".as_slice()
}

/// Returns the statements that a piece reads as.
///
/// Errors: `Shape`, as `read`, with the number of the token in the piece; `Memory`.
fn read_piece(alloc: Global, text: &[u8], piece: &[Span]) -> Result<Vec<Stmt>, ReadFault>
    requires { All (IsTokenAt text.now) piece.now }
    ensures shaped { IfOk result (λ statements. AreShaped statements.items) }
    ensures written { IfOk result (λ statements. tokens_of statements.items ≡ words text.now piece.now) }
    ensures fault { IfErr result (IsPieceFault (words text.now piece.now)) }
{
    let bytes = lay_out(alloc, text, piece)?;
    read(alloc, bytes.as_slice())
}

/// Returns the tokens of a piece as a text, a space after each.
fn lay_out(alloc: Global, text: &[u8], piece: &[Span]) -> Result<Vec<u8>, AllocError>
    requires { All (IsTokenAt text.now) piece.now }
    ensures { IfOk result (λ bytes. bytes.items ≡ laid_out (words text.now piece.now)) }
{
    let mut bytes = Vec::new(alloc);
    for span in piece {
        bytes.extend_from_slice(&text[span.start..span.end])?;
        bytes.push(b' ')?;
    }
    Ok(bytes)
}
