//! Questions that are answered even if some `$p` of a text are not proved.
ghost use Rattle.std.specs.Prelude.{◌≡◌, ◌++◌, count_by, flat_map, length, min, IfOk};
ghost use Rattle.std.specs.List.{All};
ghost use Rattle.scope.specs.Active.{is_provable};
ghost use Rattle.questions.specs.AllFaults.{counted_line, unproved_line};
ghost use Rattle.unproved.specs.Unproved.{IsPositionOf};

use crate::answers::{count_of_proofs, push_proved};
use crate::assumed::answer_assuming;
use crate::fault::Fault;
use crate::named_text::NamedText;
use crate::refused_texts::push_refusal;
use crate::so_far::print_so_far;
use crate::streams::print;
use commands::{DatabaseQuestion, ProofForm, Question};
use explanation::{TextTokens, explain_unproved};
use library::MAX_BYTES;
use memchr::memchr2_iter;
use mm_read::ReadFault;
use read_pool::read_in_parts;
use std::alloc::{AllocError, Global};
use std::io::Write;
use std::mem::forget;
use std::thread::Threads;
use unproved::LegalDatabase;
use verify_pool::PoolSize;

/// The greatest count of lines that are explained.
const MAX_EXPLAINED: usize = 100;

/// Returns how many of so many lines are explained: the first 100.
pub fn explained_count(lines: usize) -> usize
    ensures { result ≡ min lines 100 }
{
    lines.min(MAX_EXPLAINED)
}

/// Returns whether a question is answered even if some `$p` are not proved.
pub fn allows_unproved(request: &DatabaseQuestion<'_>) -> bool {
    request.assumes_unproved
        || matches!(request.question, Question::CheckEach)
        || is_so_far(&request.question)
}

/// Returns whether a question is about a proof so far, on which no other proof bears.
pub fn is_so_far(question: &Question<'_>) -> bool {
    match question {
        Question::Proof(proof) => matches!(proof.form, ProofForm::SoFar),
        _ => false,
    }
}

/// Returns whether a text seems to have a byte `?` outside its comments, so that a proof may be
/// unfinished: a `$(` or `$)` inside a longer word counts too. No answer depends on this: it only
/// saves checking the whole text before its proofs are checked one by one.
///
/// Cost: the size of the text.
pub fn may_be_unfinished(text: &[u8]) -> bool {
    let mut is_in_comment = false;
    for at in memchr2_iter(b'$', b'?', text) {
        match (text.get(at), text.get(at.saturating_add(1))) {
            (Some(b'?'), _) if !is_in_comment => return true,
            (Some(b'$'), Some(b'(')) => is_in_comment = true,
            (Some(b'$'), Some(b')')) => is_in_comment = false,
            _ => {}
        }
    }
    false
}

/// Answers a question that is answered even if some `$p` are not proved; returns the exit status,
/// or `None` if the text is too long, cannot be parsed or breaks a rule.
pub fn answer_unproved<R: AllocGlobal + Threads + Sync, O: Write, F: Write>(
    rt: &R,
    request: &DatabaseQuestion<'_>,
    text: NamedText<'_>,
    output: &mut O,
    stderr: &mut F,
) -> Result<Option<u8>, Fault> {
    let Some(database) = read_legal_database(rt, text)? else {
        return Ok(None);
    };
    let status = match &request.question {
        Question::CheckEach => print_each(rt, text, database, output, stderr)?,
        Question::Proof(proof) if matches!(proof.form, ProofForm::SoFar) => {
            print_so_far(rt.alloc(), text, database, proof.label, output, stderr)?
        }
        _ => answer_assuming(rt, request, database, output, stderr)?,
    };
    Ok(Some(status))
}

/// Returns the statements of a text with their frames, or `None` if it is too long, cannot be
/// parsed or breaks a rule.
pub fn read_legal_database<R: AllocGlobal + Threads + Sync>(
    rt: &R,
    text: NamedText<'_>,
) -> Result<Option<LegalDatabase>, AllocError> {
    if text.bytes.len() > MAX_BYTES {
        return Ok(None);
    }
    match read_in_parts(
        rt,
        rt.alloc(),
        text.bytes,
        PoolSize::for_machine(rt).count(),
    ) {
        Ok(statements) => LegalDatabase::new(rt.alloc(), statements),
        Err(ReadFault::Memory) => Err(AllocError),
        Err(_) => Ok(None),
    }
}

/// Prints a line for each `$p` of a text that is not proved and the count of those that are, and
/// explains the first lines on `stderr`; returns the exit status.
///
/// The statements are leaked: the end of the process frees all of them at once.
fn print_each<R: AllocGlobal + Threads + Sync, O: Write, F: Write>(
    rt: &R,
    text: NamedText<'_>,
    database: LegalDatabase,
    output: &mut O,
    stderr: &mut F,
) -> Result<u8, Fault> {
    let printed = print_unproved(rt, text, &database, output, stderr);
    forget(database);
    printed
}

/// Prints what `print_each` prints, and leaks nothing.
fn print_unproved<R: AllocGlobal + Threads + Sync, O: Write, F: Write>(
    rt: &R,
    text: NamedText<'_>,
    database: &LegalDatabase,
    output: &mut O,
    stderr: &mut F,
) -> Result<u8, Fault> {
    let alloc = rt.alloc();
    let unproved = database.unproved(rt, PoolSize::for_machine(rt))?;
    let lines = unproved_lines(alloc, database, unproved.as_slice())?;
    print(output, lines.as_slice())?;
    if unproved.is_empty() {
        return Ok(0);
    }
    explain_each(alloc, text, database, unproved.as_slice(), stderr);
    Ok(1)
}

/// Returns a line for each `$p` at these positions, and the line that counts the proved ones.
fn unproved_lines(
    alloc: Global,
    database: &LegalDatabase,
    unproved: &[usize],
) -> Result<Vec<u8>, AllocError>
    requires { All (IsPositionOf (length database.now)) unproved.now }
    ensures { IfOk result (λ lines. lines.items ≡ flat_map (unproved_line database.now) unproved.now
        ++ counted_line (count_by is_provable database.now) (length unproved.now)) }
{
    let mut lines = Vec::new(alloc);
    for at in unproved {
        push_refusal(&mut lines, database.cause(*at))?;
    }
    push_proved(
        &mut lines,
        count_of_proofs(database.statements()),
        unproved.len(),
    )?;
    Ok(lines)
}

/// Explains the first lines, if allocation succeeds.
fn explain_each<F: Write>(
    alloc: Global,
    text: NamedText<'_>,
    database: &LegalDatabase,
    unproved: &[usize],
    stderr: &mut F,
) {
    let Ok(tokens) = TextTokens::new(alloc, text.bytes) else {
        return;
    };
    for at in &unproved[..explained_count(unproved.len())] {
        let Ok(lines) = explain_unproved(alloc, text.name, &tokens, database, &[], *at) else {
            return;
        };
        if print(stderr, lines.as_slice()).is_err() {
            return;
        }
    }
}
