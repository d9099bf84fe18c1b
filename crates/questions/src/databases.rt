//! Commands about a database: they read and check it, and answer the question.
use crate::all_faults::print_all_faults;
use crate::answers::write_answer;
use crate::fault::Fault;
use crate::named_text::NamedText;
use crate::refused_questions::print_refused_question;
use crate::refused_texts::{print_outline_reason, print_refused_text};
use crate::searches::{answer_without_proofs, needs_no_proofs};
use crate::streams::{print, read_text};
use crate::unproved_proofs::{allows_unproved, answer_unproved, is_so_far, may_be_unfinished};
use bytes::Bytes;
use commands::{DatabaseQuestion, Question};
use library::{Cause, Entry, Library, MAX_BYTES, Submission, Verdict};
use printed::outline_text;
use std::alloc::{AllocError, Global};
use std::io::{Read, Write};
use std::mem::forget;
use std::thread::Threads;
use verify_pool::{OpenGate, PoolSize};

/// Prints the outline of a database, and returns the exit status. The reason for a refusal goes to
/// `stderr`, with the name of the file before each line and column.
pub fn print_outline<I: Read, O: Write, F: Write>(
    alloc: Global,
    name: Option<&str>,
    input: &mut I,
    output: &mut O,
    stderr: &mut F,
) -> Result<u8, Fault> {
    let text = read_text(alloc, input)?;
    let text = NamedText {
        name,
        bytes: text.as_slice(),
    };
    if text.bytes.len() > MAX_BYTES {
        return print_refused_text(alloc, text, Cause::TooLong, output, stderr);
    }
    let lines = outline_text(alloc, text.bytes)?;
    print(output, lines.as_slice())?;
    if lines.ends_with(b"good\n") {
        return Ok(0);
    }
    print_outline_reason(alloc, text, stderr);
    Ok(1)
}

/// Prints the answer to a question about a database, and returns the exit status.
///
/// As many threads as `PoolSize::for_machine` says read the text and check its proofs; no answer
/// depends on their number. The library is leaked: the end of the process frees all of it at once.
pub fn answer_question<R: AllocGlobal + Threads + Sync, I: Read, O: Write, F: Write>(
    rt: &R,
    request: &DatabaseQuestion<'_>,
    input: &mut I,
    output: &mut O,
    stderr: &mut F,
) -> Result<u8, Fault> {
    let text = Bytes::from_vec(read_text(rt.alloc(), input)?)?;
    let mut library = Library::new(rt.alloc(), None);
    let answered = answer_with_library(rt, request, &text, &mut library, output, stderr);
    forget(library);
    answered
}

/// Adds a text to an empty library, and prints the answer about the library.
fn answer_with_library<R: AllocGlobal + Threads + Sync, O: Write, F: Write>(
    rt: &R,
    request: &DatabaseQuestion<'_>,
    bytes: &Bytes,
    library: &mut Library,
    output: &mut O,
    stderr: &mut F,
) -> Result<u8, Fault> {
    let text = NamedText {
        name: request.name,
        bytes: bytes.as_slice(),
    };
    if needs_no_proofs(&request.question) {
        if let Some(status) = answer_without_proofs(rt, request, text, output, stderr)? {
            return Ok(status);
        }
    } else if is_so_far(&request.question)
        || allows_unproved(request) && may_be_unfinished(text.bytes)
    {
        if let Some(status) = answer_unproved(rt, request, text, output, stderr)? {
            return Ok(status);
        }
    }
    match apply_text(rt, library, bytes)? {
        Verdict::Refused(cause) => answer_refused(rt, request, text, cause, output, stderr),
        _ => answer_accepted(rt.alloc(), library, &request.question, output, stderr),
    }
}

/// Adds a text to an empty library as the first entry of an author, and returns the verdict.
pub fn apply_text<R: Threads + Sync>(
    rt: &R,
    library: &mut Library,
    text: &Bytes,
) -> Result<Verdict, AllocError> {
    let entry = Entry::Text(Submission {
        author: 0,
        serial: 0,
        text: text.clone()?,
    });
    library.apply_with(rt, Some(&entry), PoolSize::for_machine(rt), &OpenGate)
}

/// Prints the answer about a library, and returns the exit status. The reason for a refusal goes to
/// `stderr`.
pub fn answer_accepted<O: Write, F: Write>(
    alloc: Global,
    library: &Library,
    question: &Question<'_>,
    output: &mut O,
    stderr: &mut F,
) -> Result<u8, Fault> {
    match write_answer(alloc, library, question, output) {
        Ok(()) => {
            note_if_empty(library, question, stderr);
            Ok(0)
        }
        Err(fault) => print_refused_question(library, question, fault, output, stderr),
    }
}

/// Prints on `stderr` that the database of a `check` has no statement, if it has none.
fn note_if_empty<F: Write>(library: &Library, question: &Question<'_>, stderr: &mut F) {
    if matches!(question, Question::Check | Question::CheckEach)
        && library.statements().is_empty()
    {
        let _ = print(stderr, b"the database has no statement\n");
    }
}

/// Prints the answer about a text that is refused: the refusal, unless a `$p` is not proved and the
/// question is answered even then, or all faults are asked for.
fn answer_refused<R: AllocGlobal + Threads + Sync, O: Write, F: Write>(
    rt: &R,
    request: &DatabaseQuestion<'_>,
    text: NamedText<'_>,
    cause: Cause,
    output: &mut O,
    stderr: &mut F,
) -> Result<u8, Fault> {
    let is_unproved = matches!(cause, Cause::Proof { .. } | Cause::Unfinished { .. });
    if is_unproved && allows_unproved(request) {
        if let Some(status) = answer_unproved(rt, request, text, output, stderr)? {
            return Ok(status);
        }
    }
    let is_faulty = matches!(cause, Cause::Text | Cause::Shape | Cause::Rule { .. });
    if is_faulty && matches!(request.question, Question::CheckEach) {
        return print_all_faults(rt, text, output, stderr);
    }
    print_refused_text(rt.alloc(), text, cause, output, stderr)
}
