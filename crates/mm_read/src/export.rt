//! The export form: statements as a text, one line for each.
ghost use Rattle.std.specs.Prelude.{◌≡◌, [], ◌∷◌, ◌++◌, if◌then◌else◌, flat_map, codes, IsTrue};
ghost use Rattle.std.specs.Prelude.{IfOk, OnOk, OnErr};
ghost use Rattle.mm_lex.specs.Alphabet.{is_empty};
ghost use Rattle.mm_lex.specs.Words.{spaced, words_of, is_word};
ghost use Rattle.mm_read.specs.Statements.{IsShaped, AreShaped, are_symbols};
ghost use Rattle.mm_read.specs.Reads.{Reads};
ghost use Rattle.mm_read.specs.Export.{line_of, export_of, with_proof};

use crate::stmt::Stmt;
use mm_lex::{Word, Words};
use std::alloc::{AllocError, Global};

/// Returns the statements as a text in the export form: the tokens of each, separated by single
/// spaces, and a line feed.
///
/// Errors: an allocation fails. Cost: the size of the text returned.
/// Source: Metamath, 4.1; single spaces and line feeds are this project's choice.
pub fn spell(alloc: Global, statements: &[Stmt]) -> Result<Vec<u8>, AllocError>
    requires { AreShaped statements.now }
    ensures text { IfOk result (λ text. text.items ≡ export_of statements.now) }
    ensures reads { IfOk result (λ text. Reads text.items statements.now) }
{
    let mut text = Vec::new(alloc);
    for statement in statements {
        push_line(&mut text, statement)?;
    }
    Ok(text)
}

/// Appends the statement's line in the export form.
///
/// Errors: an allocation fails; the text is then unchanged. Cost: the size of the line, and of the
/// whole text if its buffer grows.
pub fn push_line(text: &mut Vec<u8>, statement: &Stmt) -> Result<(), AllocError>
    requires { IsShaped statement.now }
    ensures line { OnOk result (text.new.items ≡ text.old.items ++ line_of statement.now) }
    ensures same { OnErr result (text.new.items ≡ text.old.items) }
{
    match statement {
        Stmt::Open => text.extend_from_slice(b"${\n"),
        Stmt::Close => text.extend_from_slice(b"$}\n"),
        Stmt::Const(symbols) => push_list(text, b"$c", symbols),
        Stmt::Var(symbols) => push_list(text, b"$v", symbols),
        Stmt::Disj(symbols) => push_list(text, b"$d", symbols),
        Stmt::Float {
            label,
            constant,
            variable,
        } => push_floating(text, label, constant, variable),
        Stmt::Ess { label, expr } => push_labelled(text, label, b"$e", expr),
        Stmt::Axiom { label, expr } => push_labelled(text, label, b"$a", expr),
        Stmt::Prove { label, expr, proof } => push_provable(text, label, expr, proof.as_text()),
    }
}

/// Appends the statement's line in the export form. If the statement has a proof, the line has the
/// word that `proof` is in its place.
///
/// Errors: an allocation fails; the text is then unchanged. Cost: the size of the line, and of the
/// whole text if its buffer grows.
pub fn push_line_with_proof(
    text: &mut Vec<u8>,
    statement: &Stmt,
    proof: &[u8],
) -> Result<(), AllocError>
    requires shaped { IsShaped statement.now }
    requires word { IsTrue (is_word proof.now) }
    ensures line { OnOk result (text.new.items
        ≡ text.old.items ++ line_of (with_proof statement.now (proof.now ∷ []))) }
    ensures same { OnErr result (text.new.items ≡ text.old.items) }
{
    match statement {
        Stmt::Prove { label, expr, .. } => push_provable(text, label, expr, proof),
        _ => push_line(text, statement),
    }
}

/// Appends the line of a `$c`, `$v` or `$d`: its tokens separated by single spaces, and a line feed
/// (byte 10).
fn push_list(text: &mut Vec<u8>, keyword: &[u8], symbols: &Words) -> Result<(), AllocError>
    requires { IsTrue (are_symbols symbols.now) }
    ensures line { OnOk result (text.new.items
        ≡ text.old.items ++ (spaced (keyword.now ∷ (symbols.now ++ codes "$." ∷ [])) ++ 10 ∷ [])) }
    ensures same { OnErr result (text.new.items ≡ text.old.items) }
{
    push_parts(text, &[keyword, b" ", symbols.as_text(), b" $.\n"])
}

/// Appends the line of a `$e` or `$a`.
fn push_labelled(
    text: &mut Vec<u8>,
    label: &Word,
    keyword: &[u8],
    expr: &Words,
) -> Result<(), AllocError>
    requires { IsTrue (are_symbols expr.now) }
    ensures line { OnOk result (text.new.items
        ≡ text.old.items ++ (spaced (label.now ∷ keyword.now ∷ (expr.now ++ codes "$." ∷ [])) ++ 10 ∷ [])) }
    ensures same { OnErr result (text.new.items ≡ text.old.items) }
{
    push_parts(
        text,
        &[
            label.as_bytes(),
            b" ",
            keyword,
            b" ",
            expr.as_text(),
            b" $.\n",
        ],
    )
}

/// Appends the line of a `$f`.
fn push_floating(
    text: &mut Vec<u8>,
    label: &Word,
    constant: &Word,
    variable: &Word,
) -> Result<(), AllocError>
    ensures line { OnOk result (text.new.items
        ≡ text.old.items
        ++ (spaced (label.now ∷ codes "$f" ∷ constant.now ∷ variable.now ∷ codes "$." ∷ []) ++ 10 ∷ [])) }
    ensures same { OnErr result (text.new.items ≡ text.old.items) }
{
    push_parts(
        text,
        &[
            label.as_bytes(),
            b" $f ",
            constant.as_bytes(),
            b" ",
            variable.as_bytes(),
            b" $.\n",
        ],
    )
}

/// Appends the line of a `$p`. The proof is a text of tokens separated by single spaces, possibly
/// empty.
fn push_provable(
    text: &mut Vec<u8>,
    label: &Word,
    expr: &Words,
    proof: &[u8],
) -> Result<(), AllocError>
    requires { IsTrue (are_symbols expr.now) }
    ensures line { OnOk result (text.new.items
        ≡ text.old.items
        ++ (spaced (label.now ∷ codes "$p" ∷ (expr.now ++ codes "$=" ∷ (words_of proof.now ++ codes "$." ∷ [])))
        ++ 10 ∷ [])) }
    ensures same { OnErr result (text.new.items ≡ text.old.items) }
{
    push_parts(
        text,
        &[
            label.as_bytes(),
            b" $p ",
            expr.as_text(),
            b" $=",
            gap_before(proof),
            proof,
            b" $.\n",
        ],
    )
}

/// Returns the space to write before the text of a proof: none if that is empty.
fn gap_before(text: &[u8]) -> &[u8]
    ensures { result.now ≡ (if is_empty text.now then [] else codes " ") }
{
    if text.is_empty() { b"" } else { b" " }
}

/// Appends all parts, or none if an allocation fails.
fn push_parts(text: &mut Vec<u8>, parts: &[&[u8]]) -> Result<(), AllocError>
    ensures ok { OnOk result (text.new.items ≡ text.old.items ++ flat_map (λ part. part.now) parts.now) }
    ensures same { OnErr result (text.new.items ≡ text.old.items) }
{
    let len = text.len();
    for part in parts {
        if text.extend_from_slice(part).is_err() {
            text.truncate(len);
            return Err(AllocError);
        }
    }
    Ok(())
}
