//! `check --all` of a text with other faults than wrong proofs: what is left of it is judged.
//!
//! Each byte that is not allowed counts as a space. What is no statement is left out, up to the
//! next `$.`, and then each statement that breaks a rule after those that are kept.
ghost use Rattle.std.specs.Prelude.{◌≡◌, ◌++◌, count_by, flat_map, length, IfOk};
ghost use Rattle.std.specs.List.{All};
ghost use Rattle.mm_lex.specs.Tokens.{AreTokens};
ghost use Rattle.questions.specs.AllFaults.{cause_of, counted_line, fault_line};
ghost use Rattle.scope.specs.Active.{is_provable};
ghost use Rattle.unproved.specs.Unproved.{IsPositionOf};

use crate::answers::{count_of_proofs, is_provable, push_proved};
use crate::fault::Fault;
use crate::named_text::NamedText;
use crate::refused_texts::{print_refused_text, push_refusal};
use crate::streams::print;
use crate::unproved_proofs::explained_count;
use explanation::{
    TextTokens, explain_left_out, explain_misread, explain_open_end, explain_refused_byte,
    explain_unproved,
};
use library::Cause;
use mm_lex::LexFault;
use places::{Misread, PartialReading, read_around_faults, readable_text, refused_runs};
use scope::Rule;
use std::alloc::{AllocError, Global};
use std::io::Write;
use std::mem::forget;
use std::thread::Threads;
use unproved::{LeftOut, LegalPart, keep_legal};
use verify_pool::PoolSize;

/// A text, with what is read of it.
#[derive(Clone, Copy)]
struct ReadText<'a> {
    text: NamedText<'a>,
    /// All tokens of the readable text.
    whole: &'a TextTokens<'a>,
    /// The tokens of its statements.
    own: &'a TextTokens<'a>,
    /// The parts that are no statements.
    misread: &'a [Misread],
    /// Its statements, those that break a rule left out.
    part: &'a LegalPart,
}

/// A fault of a text, for which a line is printed.
#[derive(Clone, Copy, Drop)]
enum FaultLine {
    /// The first of a run of bytes that are not allowed.
    RefusedByte {
        offset: usize,
    },
    /// A part that is no statement, by the index of the token that may not stand there.
    Misread {
        token: usize,
    },
    /// A statement that breaks a rule, by its index among those that are left out.
    LeftOut {
        index: usize,
        position: usize,
        rule: Rule,
    },
    /// A `$p` that is not proved, by its positions among the kept statements and in the text.
    Unproved {
        kept_at: usize,
        position: usize,
        is_unfinished: bool,
    },
    /// A block is open at the end, and `position` is that after the last statement.
    OpenBlock {
        position: usize,
    },
}

/// Prints a line for each fault of a text that does not read or breaks a rule, and last how many of
/// its `$p` are proved, and explains the first lines on `stderr`; returns the exit status. A text
/// with a faulty comment is refused as by `check`.
pub fn print_all_faults<R: AllocGlobal + Threads + Sync, O: Write, F: Write>(
    rt: &R,
    text: NamedText<'_>,
    output: &mut O,
    stderr: &mut F,
) -> Result<u8, Fault> {
    let alloc = rt.alloc();
    let readable = readable_text(alloc, text.bytes)?;
    match TextTokens::new(alloc, readable.as_slice()) {
        Ok(whole) => print_with_tokens(rt, text, &whole, output, stderr),
        Err(LexFault::Memory) => Err(Fault::from(AllocError)),
        Err(_) => print_refused_text(alloc, text, Cause::Text, output, stderr),
    }
}

/// Prints what `print_all_faults` prints, given the tokens of the readable text.
///
/// The statements are leaked: the end of the process frees all of them at once.
fn print_with_tokens<R: AllocGlobal + Threads + Sync, O: Write, F: Write>(
    rt: &R,
    text: NamedText<'_>,
    whole: &TextTokens<'_>,
    output: &mut O,
    stderr: &mut F,
) -> Result<u8, Fault>
    requires { AreTokens whole.now.text whole.now.spans }
{
    let alloc = rt.alloc();
    let readable = whole.text();
    let reading = read_around_faults(alloc, readable, whole.spans())?;
    let PartialReading {
        statements,
        spans,
        misread,
    } = reading;
    let own = TextTokens::of_spans(readable, spans);
    let part = keep_legal(alloc, statements)?;
    let read = read_text(text, whole, &own, misread.as_slice(), &part);
    let printed = print_read(rt, &read, output, stderr);
    forget(part);
    printed
}

/// Returns a text with what is read of it.
fn read_text<'a>(
    text: NamedText<'a>,
    whole: &'a TextTokens<'a>,
    own: &'a TextTokens<'a>,
    misread: &'a [Misread],
    part: &'a LegalPart,
) -> ReadText<'a> {
    ReadText {
        text,
        whole,
        own,
        misread,
        part,
    }
}

/// Prints what `print_all_faults` prints, given what is read of the text.
fn print_read<R: AllocGlobal + Threads + Sync, O: Write, F: Write>(
    rt: &R,
    read: &ReadText<'_>,
    output: &mut O,
    stderr: &mut F,
) -> Result<u8, Fault> {
    let alloc = rt.alloc();
    let unproved = read.part.database.unproved(rt, PoolSize::for_machine(rt))?;
    let faults = faults_of(alloc, read, unproved.as_slice())?;
    let kept = count_of_proofs(read.part.database.statements());
    let left = count_left_proofs(read.part.left_out.as_slice());
    let lines = fault_lines(
        alloc,
        faults.as_slice(),
        kept.saturating_add(left),
        unproved.len().saturating_add(left),
    )?;
    print(output, lines.as_slice())?;
    explain_faults(alloc, read, faults.as_slice(), stderr);
    Ok(1)
}

/// Returns the faults of a text: its bytes, its parts that are no statements, and then its
/// statements and an open block, in order.
fn faults_of(
    alloc: Global,
    read: &ReadText<'_>,
    unproved: &[usize],
) -> Result<Vec<FaultLine>, AllocError>
    requires { All (IsPositionOf (length read.now.part.now.database)) unproved.now }
{
    let mut faults = Vec::new(alloc);
    let offsets = refused_runs(alloc, read.text.bytes)?;
    for offset in offsets.iter() {
        faults.push(FaultLine::RefusedByte { offset: *offset })?;
    }
    for one in read.misread {
        faults.push(FaultLine::Misread { token: one.fault })?;
    }
    push_judged(&mut faults, read.part, unproved)?;
    if read.part.open_blocks > 0 {
        faults.push(FaultLine::OpenBlock {
            position: count_of_statements(read.part).saturating_add(1),
        })?;
    }
    Ok(faults)
}

/// Returns how many statements a text has, kept and left out.
fn count_of_statements(part: &LegalPart) -> usize {
    let kept = part
        .database
        .statements()
        .len()
        .saturating_sub(part.open_blocks);
    kept.saturating_add(part.left_out.len())
}

/// Appends the statements that are left out and the `$p` that are not proved, in the order of the
/// text.
fn push_judged(
    faults: &mut Vec<FaultLine>,
    part: &LegalPart,
    unproved: &[usize],
) -> Result<(), AllocError>
    requires { All (IsPositionOf (length part.now.database)) unproved.now }
{
    let left_out = part.left_out.as_slice();
    let mut before = 0usize;
    for kept_at in unproved {
        before = push_left_out_before(faults, left_out, before, *kept_at)?;
        faults.push(FaultLine::Unproved {
            kept_at: *kept_at,
            position: kept_at.saturating_add(before),
            is_unfinished: matches!(part.database.cause(*kept_at), Cause::Unfinished { .. }),
        })?;
    }
    push_left_out_before(faults, left_out, before, usize::MAX)?;
    Ok(())
}

/// Appends the statements that are left out before the kept one at a position, without the first
/// `done` ones; returns how many stand before it.
fn push_left_out_before(
    faults: &mut Vec<FaultLine>,
    left_out: &[LeftOut],
    done: usize,
    kept_at: usize,
) -> Result<usize, AllocError> {
    for index in done..left_out.len() {
        let left = &left_out[index];
        if left.position > kept_at.saturating_add(index) {
            return Ok(index);
        }
        faults.push(FaultLine::LeftOut {
            index,
            position: left.position,
            rule: left.rule,
        })?;
    }
    Ok(left_out.len())
}

/// Returns a line for each fault, and the line that counts the `$p`: all of them, and those that
/// are not proved.
fn fault_lines(
    alloc: Global,
    faults: &[FaultLine],
    all: usize,
    unproved: usize,
) -> Result<Vec<u8>, AllocError>
    ensures { IfOk result (λ lines. lines.items
        ≡ flat_map fault_line faults.now ++ counted_line all unproved) }
{
    let mut lines = Vec::new(alloc);
    for fault in faults {
        push_refusal(&mut lines, cause_of(*fault))?;
    }
    push_proved(&mut lines, all, unproved)?;
    Ok(lines)
}

/// Returns how many of the statements that are left out are `$p`.
fn count_left_proofs(left_out: &[LeftOut]) -> usize
    ensures { result ≡ count_by (λ left. is_provable left.statement) left_out.now }
{
    let mut count = 0;
    for left in left_out {
        if is_provable(&left.statement) {
            count += 1;
        }
    }
    count
}

/// Returns the cause that is printed for a fault.
fn cause_of(fault: FaultLine) -> Cause
    ensures { result ≡ cause_of fault }
{
    match fault {
        FaultLine::RefusedByte { .. } => Cause::Text,
        FaultLine::Misread { .. } => Cause::Shape,
        FaultLine::LeftOut { position, rule, .. } => Cause::Rule {
            statement: position,
            rule,
        },
        FaultLine::Unproved {
            position,
            is_unfinished,
            ..
        } => {
            if is_unfinished {
                Cause::Unfinished {
                    statement: position,
                }
            } else {
                Cause::Proof {
                    statement: position,
                }
            }
        }
        FaultLine::OpenBlock { position } => Cause::Rule {
            statement: position,
            rule: Rule::G10,
        },
    }
}

/// Explains the first faults, if allocation succeeds.
fn explain_faults<F: Write>(
    alloc: Global,
    read: &ReadText<'_>,
    faults: &[FaultLine],
    stderr: &mut F,
) {
    for fault in &faults[..explained_count(faults.len())] {
        let Ok(lines) = explain_fault(alloc, read, *fault) else {
            return;
        };
        if print(stderr, lines.as_slice()).is_err() {
            return;
        }
    }
}

/// Returns the lines that explain a fault.
fn explain_fault(
    alloc: Global,
    read: &ReadText<'_>,
    fault: FaultLine,
) -> Result<Vec<u8>, AllocError> {
    let name = read.text.name;
    let part = read.part;
    match fault {
        FaultLine::RefusedByte { offset } => {
            explain_refused_byte(alloc, name, read.text.bytes, offset)
        }
        FaultLine::Misread { token } => explain_misread(alloc, name, read.whole, token),
        FaultLine::LeftOut { index, .. } => explain_left_out(alloc, name, read.own, part, index),
        FaultLine::Unproved { kept_at, .. } => {
            let left_out = part.left_out.as_slice();
            explain_unproved(alloc, name, read.own, &part.database, left_out, kept_at)
        }
        FaultLine::OpenBlock { .. } => explain_open_end(alloc, name, read.own, part),
    }
}
