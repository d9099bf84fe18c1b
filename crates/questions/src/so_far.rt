//! The command `proof --so-far`: the steps of a proof up to its first fault, the results on the
//! stack, and what the theorem asks for.
ghost use Rattle.std.specs.Prelude.{◌≡◌, ◌++◌, MatchResult, OnOk};
ghost use Rattle.frame.specs.Citations.{Carries};
ghost use Rattle.library.specs.Queries.{HasNoLabel};
ghost use Rattle.mm_read.specs.declared.stmt.Stmt.{Stmt as Statement};
ghost use Rattle.proof_pages.specs.StepLines.{expr_text, number_text, symbol_text};
ghost use Rattle.questions.specs.SoFar.{known_line, result_line, result_lines};
ghost use Rattle.verify.specs.Right.{IsProvable};

use crate::fault::Fault;
use crate::named_text::NamedText;
use crate::refused_questions::write_label_reason;
use crate::streams::print;
use crate::works::theorem_at;
use explanation::{TextTokens, explain_unproved, items_so_far};
use frame::Frames;
use library::AskFault;
use mm_lex::Words;
use proof_code::is_compressed;
use proof_pages::write_step_lines;
use std::alloc::{AllocError, Global};
use std::io::Write;
use std::mem::forget;
use steps::{NormalSoFar, ProofTable, StepsSoFar, normal_so_far, steps_so_far};
use text::push_number;
use unproved::LegalDatabase;

/// Prints the steps of the proof of a label up to its first fault, the results on the stack, and
/// what the theorem asks for, if they are not its proof; returns the exit status. Why the proof is
/// wrong or unfinished goes to `stderr`.
///
/// The statements are leaked: the end of the process frees all of them at once.
pub fn print_so_far<O: Write, F: Write>(
    alloc: Global,
    text: NamedText<'_>,
    database: LegalDatabase,
    label: &[u8],
    output: &mut O,
    stderr: &mut F,
) -> Result<u8, Fault> {
    let written = write_so_far(alloc, &database, label, output);
    let status = match written {
        Ok(at) => {
            explain_one(alloc, text, &database, at, stderr);
            Ok(0)
        }
        Err(fault) => {
            fault.write(output)?;
            let statements = database.statements();
            let _ = write_label_reason(database.frames(), statements, label, &fault, stderr);
            Ok(1)
        }
    };
    forget(database);
    status
}

/// Explains why the `$p` at a position is not proved, if it is not and allocation succeeds.
fn explain_one<F: Write>(
    alloc: Global,
    text: NamedText<'_>,
    database: &LegalDatabase,
    at: usize,
    stderr: &mut F,
) {
    if let Ok(tokens) = TextTokens::new(alloc, text.bytes)
        && let Ok(lines) = explain_unproved(alloc, text.name, &tokens, database, &[], at)
    {
        let _ = print(stderr, lines.as_slice());
    }
}

/// Writes what `print_so_far` prints on the output, and returns the position of the `$p`.
///
/// Errors: `NoLabel`, `NotProvable`; `Output`; `Memory`, perhaps after some steps.
fn write_so_far<O: Write>(
    alloc: Global,
    database: &LegalDatabase,
    label: &[u8],
    output: &mut O,
) -> Result<usize, Fault> {
    let frames = database.frames();
    let statements = database.statements();
    let at = position_of(frames, label)?;
    let Some(theorem) = theorem_at(statements, at) else {
        return Err(Fault::from(AskFault::NotProvable));
    };
    write_steps(alloc, frames, at, theorem.proof, output)?;
    Ok(at)
}

/// Returns the position of the statement with a label.
///
/// Errors: `NoLabel`, exactly if no statement has it.
fn position_of(frames: &Frames, label: &[u8]) -> Result<usize, AskFault>
    ensures { MatchResult result
        (λ at. (s : Statement) × Carries frames.now.statements at s label.now)
        (λ fault. (fault ≡ AskFault.NoLabel) × HasNoLabel frames.now.statements label.now) }
{
    match frames.position(label) {
        Some(at) => Ok(at),
        None => Err(AskFault::NoLabel),
    }
}

/// Writes the steps of a proof of the `$p` at a position so far, with the results on the stack and
/// what the `$p` asks for.
fn write_steps<O: Write>(
    alloc: Global,
    frames: &Frames,
    at: usize,
    proof: &Words,
    output: &mut O,
) -> Result<(), Fault>
    requires { (s : Statement) × IsProvable frames.now.statements at s }
{
    if !is_compressed(proof) {
        let shown = normal_so_far(alloc, frames, at, proof)?;
        return write_shown(alloc, frames, at, &shown, output);
    }
    match items_so_far(alloc, frames, at, proof)? {
        Some(items) => {
            let far = steps_so_far(alloc, frames, at, &items)?;
            let stack = all_known(alloc, far.stack.len())?;
            write_shown(alloc, frames, at, &NormalSoFar { far, stack }, output)
        }
        None => {
            let mut line = Vec::new(alloc);
            push_theorem(&mut line, frames, at)?;
            print(output, &line)
        }
    }
}

/// Returns the indexes of so many results, all known.
fn all_known(alloc: Global, count: usize) -> Result<Vec<Option<usize>>, AllocError> {
    let mut stack = Vec::new(alloc);
    for index in 0..count {
        stack.push(Some(index))?;
    }
    Ok(stack)
}

/// Writes steps, the results on the stack, and what the theorem asks for, if they are not its proof.
fn write_shown<O: Write>(
    alloc: Global,
    frames: &Frames,
    at: usize,
    shown: &NormalSoFar,
    output: &mut O,
) -> Result<(), Fault> {
    write_step_lines(alloc, output, frames, &shown.far.table)?;
    let mut lines = Vec::new(alloc);
    push_results(&mut lines, frames, &shown.far, &shown.stack)?;
    if !is_theorem_alone(frames, at, shown) {
        push_theorem(&mut lines, frames, at)?;
    }
    print(output, &lines)
}

/// Returns whether the stack has one result, which is known and the theorem's expression.
fn is_theorem_alone(frames: &Frames, at: usize, shown: &NormalSoFar) -> bool {
    let place = shown.far.stack.get(0).copied().unwrap_or(usize::MAX);
    if at == 0 || at > frames.len() || place >= shown.far.table.len() {
        return false;
    }
    matches!(shown.stack.as_slice(), [Some(_)]) && shown.far.table.expr(place) == frames.expr(at)
}

/// Appends a line for each result: the number of its step and its expression, or `?`.
///
/// Errors: an allocation fails; a result has no step.
fn push_results(
    lines: &mut Vec<u8>,
    frames: &Frames,
    far: &StepsSoFar,
    results: &[Option<usize>],
) -> Result<(), AllocError>
    ensures { OnOk result (lines.new.items ≡ lines.old.items
        ++ result_lines frames.now.names far.now.table far.now.stack.items results.now) }
{
    for known in results {
        push_result(lines, frames, far, *known)?;
    }
    Ok(())
}

/// Appends the line of a result.
fn push_result(
    lines: &mut Vec<u8>,
    frames: &Frames,
    far: &StepsSoFar,
    known: Option<usize>,
) -> Result<(), AllocError>
    ensures { OnOk result (lines.new.items ≡ lines.old.items
        ++ result_line frames.now.names far.now.table far.now.stack.items known) }
{
    match known {
        Some(index) if index < far.stack.len() => {
            push_known(lines, frames, &far.table, far.stack[index])
        }
        Some(_) => Err(AllocError),
        None => lines.extend_from_slice(b"stack ?\n"),
    }
}

/// Appends the line of the result of the step at a place of the table.
fn push_known(
    lines: &mut Vec<u8>,
    frames: &Frames,
    table: &ProofTable,
    place: usize,
) -> Result<(), AllocError>
    ensures { OnOk result (lines.new.items ≡ lines.old.items
        ++ known_line frames.now.names table.now place) }
{
    if place >= table.len() {
        return Err(AllocError);
    }
    lines.extend_from_slice(b"stack ")?;
    push_step_number(lines, place)?;
    push_expr(lines, frames, table.expr(place))?;
    lines.extend_from_slice(b"\n")
}

/// Appends the number of the step at a place: the place plus one.
fn push_step_number(lines: &mut Vec<u8>, place: usize) -> Result<(), AllocError>
    ensures { OnOk result (lines.new.items ≡ lines.old.items ++ number_text place) }
{
    let number = (place as u64).checked_add(1).ok_or(AllocError)?;
    push_number(lines, number)
}

/// Appends what the theorem at a position asks for.
fn push_theorem(lines: &mut Vec<u8>, frames: &Frames, at: usize) -> Result<(), AllocError> {
    lines.extend_from_slice(b"asks for")?;
    if at > 0 && at <= frames.len() {
        push_expr(lines, frames, frames.expr(at))?;
    }
    lines.extend_from_slice(b"\n")
}

/// Appends the symbols of an expression, each after a space.
fn push_expr(lines: &mut Vec<u8>, frames: &Frames, expr: &[u32]) -> Result<(), AllocError>
    ensures { OnOk result (lines.new.items ≡ lines.old.items ++ expr_text frames.now.names expr.now) }
{
    for symbol in expr {
        push_symbol(lines, frames, *symbol)?;
    }
    Ok(())
}

/// Appends a symbol after a space.
fn push_symbol(lines: &mut Vec<u8>, frames: &Frames, symbol: u32) -> Result<(), AllocError>
    ensures { OnOk result (lines.new.items ≡ lines.old.items ++ symbol_text frames.now.names symbol) }
{
    lines.extend_from_slice(b" ")?;
    lines.extend_from_slice(frames.symbol(symbol))
}
