//! The text of a proof, and what it proves.
ghost use Rattle.std.specs.Prelude.{◌≡◌, ◌≤◌, length, IfOk, IfSome, IsTrue, Some};
ghost use Rattle.mm_read.specs.Reads.{Reads};
ghost use Rattle.scope.specs.Active.{bare, stmt_at};
ghost use Rattle.steps.specs.Rows.{steps_of};
ghost use Rattle.steps.specs.Unfolded.{last_unfolded};
ghost use Rattle.verify.specs.Right.{IsRight};
ghost use Rattle.proof_text.specs.ProofTexts.{IsProofText, IsRewritten, IsTextOf};
ghost use Rattle.proof_text.specs.ProofTexts.{is_compressed_form};
ghost use Rattle.proof_text.specs.Requests.{IsRequest};
ghost use Rattle.proof_text.specs.Spelled.{AreDistinct};

use crate::form::{TextFault, TextForm};
use crate::request::TextRequest;
use crate::statement::statement_of;
use crate::verification::proves_by_steps;
use crate::writing::written_text;
use mm_lex::{Word, Words};
use mm_read::{ReadFault, Stmt, read};
use proof_code::{Items, is_compressed};
use std::alloc::{AllocError, Global};
use steps::{ProofTable, proof_table};

/// Returns the `$p` with a proof in the form of the request, in lines of at most 79 bytes (a longer
/// word has a line of its own). The proof spells the derivation that `items`, a right proof of the
/// `$p`, spell.
///
/// Errors: `TooLarge` if the text has more bytes than the request allows, or its proof a weight
/// above `SYMBOLS_LIMIT`, as a normal proof may; `Memory` if an allocation fails. Cost: that of
/// `steps::proof_table`, and of reading and verifying the text.
/// Source: Metamath, 4.3 and appendix B.
pub fn proof_text(
    alloc: Global,
    request: &TextRequest<'_>,
    items: &Items,
) -> Result<Vec<u8>, TextFault>
    requires request { IsRequest request.now }
    requires right { IsRight request.now.frames.now.statements request.now.at items.now }
    ensures text { IfOk result (λ text. IsProofText request.now.statements.now request.now.at
        items.now request.now.form text.items) }
    ensures size { IfOk result (λ text. length text.items ≤ request.now.max_bytes) }
{
    let table = proof_table(alloc, request.frames, request.at, items)?;
    let text = written_text(alloc, request, &table)?;
    if text.len() > request.max_bytes {
        return Err(TextFault::TooLarge);
    }
    let is_right = is_proof_text(alloc, request, &table, &text)?;
    if !is_right {
        return Err(TextFault::TooLarge);
    }
    Ok(text)
}

/// Returns whether a text is the `$p` of the request with a proof in its form by the steps of a
/// table.
///
/// Errors: those of `proves_by_steps`; an allocation fails.
fn is_proof_text(
    alloc: Global,
    request: &TextRequest<'_>,
    table: &ProofTable,
    text: &[u8],
) -> Result<bool, AllocError>
    requires request { IsRequest request.now }
    requires distinct { AreDistinct (steps_of table.now) }
    ensures { IfOk result (λ same. IsTrue same → IsTextOf request.now.statements.now request.now.at
        request.now.form text.now
        (last_unfolded request.now.frames.now.statements (steps_of table.now))) }
{
    let Some(statements) = statements_of(alloc, text)? else {
        return Ok(false);
    };
    if statements.len() != 1 {
        return Ok(false);
    }
    let new = &statements[0];
    is_rewritten(alloc, request, table, statement_of(request), new)
}

/// Returns the statements that a text reads as, or `None` if it reads as none.
///
/// Errors: an allocation fails.
fn statements_of(alloc: Global, text: &[u8]) -> Result<Option<Vec<Stmt>>, AllocError>
    ensures { IfOk result (λ found. IfSome found (λ statements. Reads text.now statements.items)) }
{
    match read(alloc, text) {
        Ok(statements) => Ok(Some(statements)),
        Err(ReadFault::Memory) => Err(AllocError),
        Err(_) => Ok(None),
    }
}

/// Returns whether a statement is the `$p` of the request, `old`, with a proof in its form by the
/// steps of a table.
///
/// Errors: those of `proves_by_steps`.
fn is_rewritten(
    alloc: Global,
    request: &TextRequest<'_>,
    table: &ProofTable,
    old: &Stmt,
    new: &Stmt,
) -> Result<bool, AllocError>
    requires request { IsRequest request.now }
    requires distinct { AreDistinct (steps_of table.now) }
    requires old { stmt_at request.now.frames.now.statements request.now.at ≡ Some (bare old.now) }
    ensures { IfOk result (λ same. IsTrue same → IsRewritten request.now.frames.now.statements
        request.now.at request.now.form old.now new.now
        (last_unfolded request.now.frames.now.statements (steps_of table.now))) }
{
    let Stmt::Prove { label, expr, .. } = old else {
        return Ok(false);
    };
    let Stmt::Prove {
        label: new_label,
        expr: new_expr,
        proof,
    } = new
    else {
        return Ok(false);
    };
    if !are_words_equal(label, new_label) {
        return Ok(false);
    }
    if !are_word_lists_equal(expr, new_expr) {
        return Ok(false);
    }
    if !is_in_form(is_compressed(proof), request.form) {
        return Ok(false);
    }
    proves_by_steps(alloc, request.frames, request.at, proof, table)
}

fn are_words_equal(left: &Word, right: &Word) -> bool
    ensures { IsTrue result → left.now ≡ right.now }
{
    left.as_bytes() == right.as_bytes()
}

fn are_word_lists_equal(left: &Words, right: &Words) -> bool
    ensures { IsTrue result → left.now ≡ right.now }
{
    left.as_text() == right.as_text()
}

/// Returns whether a proof that is compressed or not is in this form.
fn is_in_form(is_compressed: bool, form: TextForm) -> bool
    ensures { IsTrue result → is_compressed ≡ is_compressed_form form }
{
    match form {
        TextForm::Normal => !is_compressed,
        TextForm::Compressed => is_compressed,
    }
}
