//! The line of a statement.
ghost use Rattle.std.specs.Prelude.{◌≡◌, ◌++◌, OnOk};
ghost use Rattle.proof_pages.specs.Lines.{three_joined, proof_note, statement_line};

use mm_lex::Words;
use mm_read::Stmt;
use std::alloc::AllocError;
use text::push_number;

/// Appends a statement without its proof as a line: its label, its keyword and its symbols,
/// separated by single spaces, and for a `$p` the number of its proof's tokens. Appends nothing for
/// a statement without a label.
pub(crate) fn push_statement(text: &mut Vec<u8>, statement: &Stmt) -> Result<(), AllocError>
    ensures { OnOk result (text.new.items ≡ text.old.items ++ statement_line statement.now) }
{
    match statement {
        Stmt::Float {
            label,
            constant,
            variable,
        } => {
            push_three(text, label.as_bytes(), b" $f ", constant.as_bytes())?;
            push_three(text, b" ", variable.as_bytes(), b"\n")
        }
        Stmt::Ess { label, expr } => {
            push_three(text, label.as_bytes(), b" $e ", expr.as_text())?;
            text.extend_from_slice(b"\n")
        }
        Stmt::Axiom { label, expr } => {
            push_three(text, label.as_bytes(), b" $a ", expr.as_text())?;
            text.extend_from_slice(b"\n")
        }
        Stmt::Prove { label, expr, proof } => {
            push_three(text, label.as_bytes(), b" $p ", expr.as_text())?;
            push_proof_note(text, proof)
        }
        _ => Ok(()),
    }
}

/// Appends three texts.
fn push_three(
    text: &mut Vec<u8>,
    first: &[u8],
    second: &[u8],
    third: &[u8],
) -> Result<(), AllocError>
    ensures { OnOk result (text.new.items
        ≡ text.old.items ++ three_joined first.now second.now third.now) }
{
    text.extend_from_slice(first)?;
    text.extend_from_slice(second)?;
    text.extend_from_slice(third)
}

/// Appends the number of a proof's tokens, and ends the line.
fn push_proof_note(text: &mut Vec<u8>, proof: &Words) -> Result<(), AllocError>
    ensures { OnOk result (text.new.items ≡ text.old.items ++ proof_note proof.now) }
{
    text.extend_from_slice(b" (proof of ")?;
    push_number(text, proof.len() as u64)?;
    text.extend_from_slice(b" tokens)\n")
}
