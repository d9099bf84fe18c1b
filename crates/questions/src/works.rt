//! The command `work`: how much work it is to judge a database.
ghost use Rattle.std.specs.Prelude.{◌≡◌, IfSome, Some};
ghost use Rattle.scope.specs.Active.{stmt_at};

use crate::databases::apply_text;
use crate::fault::Fault;
use crate::named_text::NamedText;
use crate::refused_texts::print_refused_text;
use crate::streams::{print, read_text};
use bytes::Bytes;
use commands::WorkRequest;
use library::{Library, Submission};
use mm_lex::Words;
use mm_read::Stmt;
use std::alloc::{AllocError, Global};
use std::cmp::Reverse;
use std::io::{Read, Write};
use std::mem::forget;
use std::thread::Threads;
use text::push_number;
use verify::{Checker, Meter};

/// A `$p` of a library: its parts.
#[derive(Clone, Copy)]
pub struct Theorem<'a> {
    pub label: &'a [u8],
    pub expr: &'a Words,
    pub proof: &'a Words,
}

/// The work of the proof of a `$p`, and the position of the `$p`.
#[derive(Clone, Copy)]
struct ProofWork {
    work: u64,
    at: usize,
}

/// Reads a database, prints its work and the theorems whose proofs count the most, and returns the
/// exit status. A database that is refused is answered as `check` answers it.
///
/// The library is leaked: the end of the process frees all of it at once.
pub fn print_work<R: AllocGlobal + Threads + Sync, I: Read, O: Write, F: Write>(
    rt: &R,
    request: WorkRequest<'_>,
    input: &mut I,
    output: &mut O,
    stderr: &mut F,
) -> Result<u8, Fault> {
    let bytes = Bytes::from_vec(read_text(rt.alloc(), input)?)?;
    let mut library = Library::new(rt.alloc(), None);
    let printed = print_work_by(rt, request, &bytes, &mut library, output, stderr);
    forget(library);
    printed
}

/// Prints what `print_work` prints, by an empty library, to which the text may be added.
fn print_work_by<R: AllocGlobal + Threads + Sync, O: Write, F: Write>(
    rt: &R,
    request: WorkRequest<'_>,
    bytes: &Bytes,
    library: &mut Library,
    output: &mut O,
    stderr: &mut F,
) -> Result<u8, Fault> {
    let submission = Submission {
        author: 0,
        serial: 0,
        text: bytes.clone()?,
    };
    match library.work(&submission)? {
        Ok(work) => {
            let mut lines = Vec::new(rt.alloc());
            push_number(&mut lines, work)?;
            lines.extend_from_slice(b"\n")?;
            if request.most > 0 {
                let _added = apply_text(rt, library, bytes)?;
                push_heaviest(rt.alloc(), &mut lines, library, request.most)?;
            }
            print(output, lines.as_slice())?;
            Ok(0)
        }
        Err(cause) => {
            let text = NamedText {
                name: request.name,
                bytes: bytes.as_slice(),
            };
            print_refused_text(rt.alloc(), text, cause, output, stderr)
        }
    }
}

/// Appends a line for each of the `most` theorems whose proofs count the most, with the work of the
/// proof and the label: the heaviest first, equal ones as they stand.
fn push_heaviest(
    alloc: Global,
    lines: &mut Vec<u8>,
    library: &Library,
    most: u64,
) -> Result<(), AllocError> {
    let mut works = proof_works(alloc, library)?;
    works.sort_by_key(|proof| Reverse(proof.work))?;
    for proof in works
        .iter()
        .take(usize::try_from(most).unwrap_or(usize::MAX))
    {
        push_number(lines, proof.work)?;
        lines.extend_from_slice(b" ")?;
        if let Some(theorem) = theorem_at(library.statements(), proof.at) {
            lines.extend_from_slice(theorem.label)?;
        }
        lines.extend_from_slice(b"\n")?;
    }
    Ok(())
}

/// Returns the work of each proof, in order.
///
/// Errors: an allocation fails. Cost: that of the proofs.
fn proof_works(alloc: Global, library: &Library) -> Result<Vec<ProofWork>, AllocError> {
    let statements = library.statements();
    let mut checker = Checker::new(alloc);
    let mut works = Vec::new(alloc);
    for index in 0..statements.len() {
        let at = index + 1;
        if let Some(theorem) = theorem_at(statements, at) {
            let mut meter = Meter::new(None);
            let _answer = checker.prove(library.frames(), at, theorem.proof, &mut meter)?;
            let work = meter.count();
            works.push(ProofWork { work, at })?;
        }
    }
    Ok(works)
}

/// Returns the `$p` at a position, or `None` if there is no `$p`.
pub fn theorem_at(statements: &[Stmt], at: usize) -> Option<Theorem<'_>>
    ensures { IfSome result (λ theorem. stmt_at statements.now at
        ≡ Some (Stmt.Prove theorem.label.now theorem.expr.now theorem.proof.now)) }
{
    let index = at.checked_sub(1)?;
    let Some(Stmt::Prove { label, expr, proof }) = statements.get(index) else {
        return None;
    };
    Some(Theorem {
        label: label.as_bytes(),
        expr,
        proof,
    })
}
