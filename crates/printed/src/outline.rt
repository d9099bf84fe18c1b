//! The outline of a database.
ghost use Rattle.std.specs.Prelude.{◌≡◌, ◌++◌, length, IfOk, OnOk};
ghost use Rattle.mm_read.specs.Statements.{IsShaped, AreShaped};
ghost use Rattle.printed.specs.Outline.{proof_of, outline_line, outline_lines, rules_line};
ghost use Rattle.printed.specs.Outline.{outline_of, numbered_line, IsOutline};

use crate::broken_rules::first_broken_rule;
use crate::verdict_text::push_verdict;
use itoa::Buffer;
use library::{Cause, Verdict};
use mm_lex::LexFault;
use mm_read::{ReadFault, Stmt, push_line_with_proof, read};
use scope::Rule;
use std::alloc::{AllocError, Global};
use text::push_number;

/// Returns the outline of a text: a line for each statement (its number, a space, and its export
/// form with the number of proof tokens in place of the proof), then `good`, or `refused C4 N Gk`
/// for the first statement that breaks a rule and the least rule that it breaks. For a text that
/// cannot be parsed, returns only `refused C2 byte N` (bytes count from 0) or `refused C3 token N`
/// (tokens count from 1).
///
/// Errors: an allocation fails. Cost: the size of the text.
pub fn outline_text(alloc: Global, text: &[u8]) -> Result<Vec<u8>, AllocError>
    ensures { IfOk result (λ bytes. IsOutline text.now bytes.items) }
{
    match read(alloc, text) {
        Ok(statements) => outline(alloc, statements.as_slice()),
        Err(ReadFault::Text(LexFault::Text { offset })) => refusal_line(
            alloc,
            b"refused C2 byte ",
            offset,
        ),
        Err(ReadFault::Text(LexFault::Comment { offset })) => refusal_line(
            alloc,
            b"refused C2 byte ",
            offset,
        ),
        Err(ReadFault::Shape { token }) => refusal_line(alloc, b"refused C3 token ", token),
        Err(ReadFault::Memory | ReadFault::Text(LexFault::Memory)) => Err(AllocError),
    }
}

/// Returns the outline of a text with these statements.
fn outline(alloc: Global, statements: &[Stmt]) -> Result<Vec<u8>, AllocError>
    requires { AreShaped statements.now }
    ensures { IfOk result (λ bytes. bytes.items ≡ outline_of statements.now) }
{
    let mut bytes = statement_lines(alloc, statements)?;
    push_rules_line(&mut bytes, first_broken_rule(alloc, statements)?)?;
    Ok(bytes)
}

/// Returns a line for each statement.
fn statement_lines(alloc: Global, statements: &[Stmt]) -> Result<Vec<u8>, AllocError>
    requires { AreShaped statements.now }
    ensures { IfOk result (λ bytes. bytes.items ≡ outline_lines 1 statements.now) }
{
    let mut bytes = Vec::new(alloc);
    for (index, statement) in statements.iter().enumerate() {
        push_statement(&mut bytes, index + 1, statement)?;
    }
    Ok(bytes)
}

/// Appends the line of a statement, with its number.
fn push_statement(bytes: &mut Vec<u8>, number: usize, statement: &Stmt) -> Result<(), AllocError>
    requires { IsShaped statement.now }
    ensures { OnOk result (bytes.new.items ≡ bytes.old.items ++ outline_line number statement.now) }
{
    push_number(bytes, number as u64)?;
    bytes.push(b' ')?;
    let mut digits = Buffer::new();
    let count = digits.format(proof_len(statement));
    push_line_with_proof(bytes, statement, count.as_bytes())
}

/// Returns how many tokens the proof of a statement has, or 0 if it has no proof.
fn proof_len(statement: &Stmt) -> usize
    ensures { result ≡ length (proof_of statement.now) }
{
    match statement {
        Stmt::Prove { proof, .. } => proof.len(),
        _ => 0,
    }
}

/// Appends the last line: `good`, or the first statement that breaks a rule.
fn push_rules_line(bytes: &mut Vec<u8>, broken: Option<(usize, Rule)>) -> Result<(), AllocError>
    ensures { OnOk result (bytes.new.items ≡ bytes.old.items ++ rules_line broken) }
{
    match broken {
        None => bytes.extend_from_slice(b"good\n"),
        Some((statement, rule)) => {
            push_verdict(bytes, Verdict::Refused(Cause::Rule { statement, rule }))?;
            bytes.extend_from_slice(b"\n")
        }
    }
}

/// Returns the line for a text that cannot be parsed: some words and a number.
fn refusal_line(alloc: Global, words: &[u8], number: usize) -> Result<Vec<u8>, AllocError>
    ensures { IfOk result (λ bytes. bytes.items ≡ numbered_line words.now number) }
{
    let mut bytes = Vec::from_slice(alloc, words)?;
    push_number(&mut bytes, number as u64)?;
    bytes.push(b'\n')?;
    Ok(bytes)
}
