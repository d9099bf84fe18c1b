//! The lines of the assertions that a search finds.
ghost use Rattle.std.specs.Prelude.{◌≡◌, ◌+◌, ◌++◌, ◌↔◌, ℕ, IfOk, IsTrue, OnOk, Some};
ghost use Rattle.mm_read.specs.Statements.{Database};
ghost use Rattle.scope.specs.Active.{bares, is_assertion, stmt_at};
ghost use Rattle.mm_lex.specs.Alphabet.{word};
ghost use Rattle.finding.specs.Essentials.{AreRecorded};
ghost use Rattle.finding.specs.Matching.{IsMatch, AssertionMatches, assertion_label};
ghost use Rattle.finding.specs.Matching.{description_at};
ghost use Rattle.finding.specs.Lines.{AreFoundLines, expr_end, found_line, label_start};
ghost use Rattle.finding.specs.Lines.{line_if, line_of, shows_essentials};

use crate::essential_lines::push_line_with_essentials;
use crate::expressions::{assertion_expr, has_pattern};
use crate::hypotheses::{record_essential, trim_to_active};
use crate::query::{SearchQuery, SearchedDatabase};
use frame::is_assertion;
use mm_lex::Span;
use mm_read::Stmt;
use std::alloc::{AllocError, Global};

/// Returns a line for each assertion that matches, in order: its label and its expression; if
/// hypotheses are searched, its mandatory `$e` before its expression.
///
/// Errors: an allocation fails. Cost: at most the size of the statements, or of the descriptions,
/// times the size of the pattern or of the words; each `$e` is searched once, however many
/// assertions it is a hypothesis of.
#[tactic(auto, using(crate::proofs::HypothesesLemmas::recorded_none))]
pub fn found_lines(
    alloc: Global,
    searched: &SearchedDatabase<'_>,
    query: &SearchQuery<'_>,
) -> Result<Vec<u8>, AllocError>
    requires { searched.now.frames.now.statements ≡ bares searched.now.statements.now }
    ensures { IfOk result (λ lines. AreFoundLines
        (IsMatch searched.now.text.now searched.now.statements.now searched.now.descriptions.now
        query.now) (line_of searched.now.statements.now query.now) 0 searched.now.statements.now
        lines.items) }
{
    let mut lines = Vec::new(alloc);
    let mut essentials = Vec::new(alloc);
    for (index, statement) in searched.statements.iter().enumerate() {
        let is_found = is_match(alloc, searched, query, &mut essentials, index, statement)?;
        push_line_if(
            alloc, &mut lines, is_found, searched, query, index, statement,
        )?;
        record_statement(alloc, query, &mut essentials, index + 1, statement)?;
    }
    Ok(lines)
}

/// Appends the position of a statement to those of the matching `$e`, if hypotheses are searched
/// and the statement is an `$e` that has the pattern.
fn record_statement(
    alloc: Global,
    query: &SearchQuery<'_>,
    essentials: &mut Vec<usize>,
    at: usize,
    statement: &Stmt,
) -> Result<(), AllocError>
    ensures { (S : Database) (n : ℕ) → n + 1 ≡ at → stmt_at S at ≡ Some statement.now
        → AreRecorded query.now S n essentials.old.items
        → OnOk result (AreRecorded query.now S at essentials.new.items) }
{
    match query {
        SearchQuery::WithHypotheses(pattern) => {
            record_essential(alloc, pattern, essentials, at, statement)
        }
        SearchQuery::Pattern(_) => Ok(()),
        SearchQuery::Words(_) => Ok(()),
        SearchQuery::Labels(_) => Ok(()),
    }
}

/// Returns whether the statement at an index is an assertion that matches.
fn is_match(
    alloc: Global,
    searched: &SearchedDatabase<'_>,
    query: &SearchQuery<'_>,
    essentials: &mut Vec<usize>,
    index: usize,
    statement: &Stmt,
) -> Result<bool, AllocError>
    requires same { searched.now.frames.now.statements ≡ bares searched.now.statements.now }
    requires stands { stmt_at searched.now.statements.now (index + 1) ≡ Some statement.now }
    requires recorded { AreRecorded query.now searched.now.statements.now index essentials.old.items }
    ensures matches { IfOk result (λ is. IsTrue is ↔ IsMatch searched.now.text.now
        searched.now.statements.now searched.now.descriptions.now query.now index
        statement.now) }
    ensures recorded { AreRecorded query.now searched.now.statements.now index essentials.new.items }
{
    if !is_assertion(statement) {
        return Ok(false);
    }
    assertion_matches(alloc, searched, query, essentials, index, statement)
}

/// Returns whether the assertion at an index matches.
fn assertion_matches(
    alloc: Global,
    searched: &SearchedDatabase<'_>,
    query: &SearchQuery<'_>,
    essentials: &mut Vec<usize>,
    index: usize,
    statement: &Stmt,
) -> Result<bool, AllocError>
    requires same { searched.now.frames.now.statements ≡ bares searched.now.statements.now }
    requires stands { stmt_at searched.now.statements.now (index + 1) ≡ Some statement.now }
    requires assertion { IsTrue (is_assertion statement.now) }
    requires recorded { AreRecorded query.now searched.now.statements.now index essentials.old.items }
    ensures matches { IfOk result (λ is. IsTrue is ↔ AssertionMatches searched.now.text.now
        searched.now.statements.now searched.now.descriptions.now query.now index
        statement.now) }
    ensures recorded { AreRecorded query.now searched.now.statements.now index essentials.new.items }
{
    match query {
        SearchQuery::Pattern(pattern) => has_pattern(alloc, pattern, assertion_expr(statement)),
        SearchQuery::WithHypotheses(pattern) => {
            let expr_matches = has_pattern(alloc, pattern, assertion_expr(statement))?;
            if expr_matches {
                return Ok(true);
            }
            Ok(trim_to_active(searched.frames, index + 1, essentials))
        }
        SearchQuery::Words(words) => Ok(words.are_in(description_at(
            searched.text,
            searched.descriptions,
            index,
        ))),
        SearchQuery::Labels(pattern) => pattern.matches(alloc, assertion_label(statement)),
    }
}

/// Returns the label of an assertion, or an empty slice for another statement.
fn assertion_label(statement: &Stmt) -> &[u8]
    ensures { result.now ≡ assertion_label statement.now }
{
    match statement {
        Stmt::Axiom { label, .. } | Stmt::Prove { label, .. } => label.as_bytes(),
        _ => &[],
    }
}

/// Returns the description of the statement at an index, or an empty slice if it has none.
fn description_at<'a>(text: &'a [u8], descriptions: &[Option<Span>], index: usize) -> &'a [u8]
    ensures { result.now ≡ description_at text.now descriptions.now index }
{
    if index >= descriptions.len() {
        return &[];
    }
    match descriptions[index] {
        Some(span) => span_bytes(text, span),
        None => &[],
    }
}

/// Returns the bytes of a span, as far as it lies in the text.
fn span_bytes(text: &[u8], span: Span) -> &[u8]
    ensures { result.now ≡ word text.now span }
{
    if span.start >= span.end || span.start >= text.len() {
        return &[];
    }
    let (_, rest) = text.split_at(span.start);
    let len = span.end - span.start;
    if len >= rest.len() {
        return rest;
    }
    rest.split_at(len).0
}

/// Appends the line of the assertion at an index if `is_found` is true.
fn push_line_if(
    alloc: Global,
    lines: &mut Vec<u8>,
    is_found: bool,
    searched: &SearchedDatabase<'_>,
    query: &SearchQuery<'_>,
    index: usize,
    statement: &Stmt,
) -> Result<(), AllocError>
    requires same { searched.now.frames.now.statements ≡ bares searched.now.statements.now }
    requires stands { stmt_at searched.now.statements.now (index + 1) ≡ Some statement.now }
    requires assertion { IsTrue is_found → IsTrue (is_assertion statement.now) }
    ensures { OnOk result (lines.new.items ≡ lines.old.items
        ++ line_if is_found (line_of searched.now.statements.now query.now index statement.now)) }
{
    if is_found {
        push_line(alloc, lines, searched, query, index, statement)
    } else {
        Ok(())
    }
}

/// Appends the line of the assertion at an index.
fn push_line(
    alloc: Global,
    lines: &mut Vec<u8>,
    searched: &SearchedDatabase<'_>,
    query: &SearchQuery<'_>,
    index: usize,
    statement: &Stmt,
) -> Result<(), AllocError>
    requires same { searched.now.frames.now.statements ≡ bares searched.now.statements.now }
    requires stands { stmt_at searched.now.statements.now (index + 1) ≡ Some statement.now }
    requires assertion { IsTrue (is_assertion statement.now) }
    ensures { OnOk result (lines.new.items ≡ lines.old.items
        ++ line_of searched.now.statements.now query.now index statement.now) }
{
    if shows_essentials(query) {
        push_line_with_essentials(alloc, lines, searched, index, statement)
    } else {
        push_found_line(lines, statement)
    }
}

/// Returns whether the lines of a search have the `$e` of their assertions.
fn shows_essentials(query: &SearchQuery<'_>) -> bool
    ensures { result ≡ shows_essentials query.now }
{
    match query {
        SearchQuery::Pattern(_) => false,
        SearchQuery::WithHypotheses(_) => true,
        SearchQuery::Words(_) => false,
        SearchQuery::Labels(_) => false,
    }
}

/// Appends the label and the expression of an assertion, or nothing for another statement.
fn push_found_line(lines: &mut Vec<u8>, statement: &Stmt) -> Result<(), AllocError>
    ensures { OnOk result (lines.new.items ≡ lines.old.items ++ found_line statement.now) }
{
    push_label_start(lines, statement)?;
    push_expr_end(lines, statement)
}

/// Appends the label of an assertion and a space.
pub(crate) fn push_label_start(lines: &mut Vec<u8>, statement: &Stmt) -> Result<(), AllocError>
    ensures { OnOk result (lines.new.items ≡ lines.old.items ++ label_start statement.now) }
{
    match statement {
        Stmt::Axiom { label, .. } | Stmt::Prove { label, .. } => {
            lines.extend_from_slice(label.as_bytes())?;
            lines.extend_from_slice(b" ")
        }
        _ => Ok(()),
    }
}

/// Appends the expression of an assertion, and ends the line.
pub(crate) fn push_expr_end(lines: &mut Vec<u8>, statement: &Stmt) -> Result<(), AllocError>
    ensures { OnOk result (lines.new.items ≡ lines.old.items ++ expr_end statement.now) }
{
    match statement {
        Stmt::Axiom { expr, .. } | Stmt::Prove { expr, .. } => {
            lines.extend_from_slice(expr.as_text())?;
            lines.extend_from_slice(b"\n")
        }
        _ => Ok(()),
    }
}
