//! The commands `find` and `show` of a database. They need no proofs: they answer on any database
//! that is legal. The same search is that of the line `find` of `play` and `serve`.
ghost use Rattle.std.specs.Prelude.{◌≡◌, IfOk, IsSome, Err};
ghost use Rattle.finding.specs.DeclaredSymbols.{undeclared_in};
ghost use Rattle.questions.specs.declared.fault.Fault.TheVariants.{NoSymbol};
ghost use Rattle.questions.specs.Searches.{AreLinesOf, AreSearched, ArePatternLines};
ghost use Rattle.scope.specs.Active.{bares};

use crate::assumed::print_assumed;
use crate::fault::Fault;
use crate::named_text::NamedText;
use crate::shown::blocks_of_labels;
use crate::streams::print;
use crate::unproved_proofs::read_legal_database;
use commands::{DatabaseQuestion, Question};
use finding::{Pattern, PatternFault, SearchQuery, SearchedDatabase, found_lines};
use frame::Frames;
use library::{AskFault, Library};
use mm_lex::Span;
use mm_read::Stmt;
use places::descriptions;
use std::alloc::{AllocError, Global};
use std::io::Write;
use std::mem::forget;
use std::str::from_utf8;
use std::thread::Threads;
use text::push_number;
use unproved::LegalDatabase;
use verify_pool::PoolSize;

/// Returns whether a question is answered by the statements of a text alone.
pub fn needs_no_proofs(question: &Question<'_>) -> bool {
    matches!(question, Question::Find(_) | Question::Show(_))
}

/// Answers `find` or `show` by the statements of a text; returns the exit status, or `None` if the
/// text is too long, cannot be parsed or breaks a rule. How many `$p` are not proved goes to
/// `stderr`.
///
/// The statements are leaked: the end of the process frees all of them at once.
pub fn answer_without_proofs<R: AllocGlobal + Threads + Sync, O: Write, F: Write>(
    rt: &R,
    request: &DatabaseQuestion<'_>,
    text: NamedText<'_>,
    output: &mut O,
    stderr: &mut F,
) -> Result<Option<u8>, Fault> {
    let Some(database) = read_legal_database(rt, text)? else {
        return Ok(None);
    };
    let answered = answer_and_note(rt, request, text, &database, output, stderr);
    forget(database);
    Ok(Some(answered?))
}

/// Prints the answer, and how many `$p` are not proved.
fn answer_and_note<R: AllocGlobal + Threads + Sync, O: Write, F: Write>(
    rt: &R,
    request: &DatabaseQuestion<'_>,
    text: NamedText<'_>,
    database: &LegalDatabase,
    output: &mut O,
    stderr: &mut F,
) -> Result<u8, Fault> {
    let status = match &request.question {
        Question::Find(query) => print_found(rt.alloc(), text, database, query, output, stderr)?,
        Question::Show(labels) => {
            print_blocks(
                rt.alloc(),
                text,
                database,
                labels.as_slice(),
                output,
                stderr,
            )?
        }
        _ => 0,
    };
    let unproved = database.unproved(rt, PoolSize::for_machine(rt))?;
    if request.assumes_unproved {
        print_assumed(rt.alloc(), database, unproved.as_slice(), stderr);
    } else {
        print_unproved_count(rt.alloc(), unproved.len(), stderr);
    }
    Ok(status)
}

/// Prints how many theorems have no right proof, if there are any and if allocation succeeds.
fn print_unproved_count<F: Write>(alloc: Global, count: usize, stderr: &mut F) {
    if count == 0 {
        return;
    }
    if let Ok(line) = unproved_count_line(alloc, count) {
        let _ = print(stderr, line.as_slice());
    }
}

/// Returns the line that says how many theorems have no right proof.
fn unproved_count_line(alloc: Global, count: usize) -> Result<Vec<u8>, AllocError> {
    let mut line = Vec::new(alloc);
    push_number(&mut line, count as u64)?;
    line.extend_from_slice(if count == 1 {
        b" theorem has no right proof\n".as_slice()
    } else {
        b" theorems have no right proof\n".as_slice()
    })?;
    Ok(line)
}

/// Prints the lines of the assertions that match a search, or that the database does not have a
/// symbol of its pattern; returns the exit status.
fn print_found<O: Write, F: Write>(
    alloc: Global,
    text: NamedText<'_>,
    database: &LegalDatabase,
    query: &SearchQuery<'_>,
    output: &mut O,
    stderr: &mut F,
) -> Result<u8, Fault> {
    let statements = database.statements();
    match matching_lines(alloc, statements, database.frames(), text.bytes, query) {
        Ok(lines) => {
            print(output, lines.as_slice())?;
            Ok(0)
        }
        Err(Fault::NoSymbol) => {
            Fault::NoSymbol.write(output)?;
            if let Some(symbol) = query.undeclared_symbol(statements) {
                let _ = print_no_symbol(symbol, stderr);
            }
            Ok(1)
        }
        Err(fault) => Err(fault),
    }
}

/// Prints that the database does not have a symbol.
fn print_no_symbol<F: Write>(symbol: &[u8], stderr: &mut F) -> Result<(), Fault> {
    stderr.write_all(b"the database has no symbol ")?;
    stderr.write_all(symbol)?;
    print(stderr, b"\n")
}

/// Prints the blocks of the statements with these labels, or that a label is that of no statement;
/// returns the exit status.
fn print_blocks<O: Write, F: Write>(
    alloc: Global,
    text: NamedText<'_>,
    database: &LegalDatabase,
    labels: &[&str],
    output: &mut O,
    stderr: &mut F,
) -> Result<u8, Fault> {
    match blocks_of_labels(
        alloc,
        database.statements(),
        database.frames(),
        text,
        labels,
    ) {
        Ok(blocks) => {
            print(output, blocks.as_slice())?;
            Ok(0)
        }
        Err(Fault::Ask(AskFault::NoLabel)) => {
            Fault::Ask(AskFault::NoLabel).write(output)?;
            let _ = print_no_label(database.frames(), labels, stderr);
            Ok(1)
        }
        Err(fault) => Err(fault),
    }
}

/// Prints the first of the labels that no statement has.
fn print_no_label<F: Write>(frames: &Frames, labels: &[&str], stderr: &mut F) -> Result<(), Fault> {
    for label in labels {
        if frames.position(label.as_bytes()).is_none() {
            stderr.write_all(b"no statement has the label ")?;
            stderr.write_all(label.as_bytes())?;
            return print(stderr, b"\n");
        }
    }
    Ok(())
}

/// Returns a line for each assertion of a library that has a pattern, as `find` prints it.
///
/// Errors: `NoSymbol` if the pattern has no symbol, or one that the library does not have; `Memory`.
/// Cost: the size of the statements, times that of the pattern.
pub fn pattern_lines(alloc: Global, library: &Library, pattern: &[u8]) -> Result<Vec<u8>, Fault>
    ensures { IfOk result (λ lines. ArePatternLines library.now.replica.statements pattern.now lines.items) }
{
    let Ok(text) = from_utf8(pattern) else {
        return Err(Fault::NoSymbol);
    };
    match Pattern::parse(alloc, text) {
        Ok(parsed) => matching_lines(
            alloc,
            library.statements(),
            library.frames(),
            b"",
            &SearchQuery::Pattern(parsed),
        ),
        Err(PatternFault::Memory) => Err(Fault::Memory(AllocError)),
        Err(_) => Err(Fault::NoSymbol),
    }
}

/// Returns a line for each assertion that matches a search.
///
/// Errors: `NoSymbol` if the statements do not declare a symbol of its pattern; `Memory`.
fn matching_lines(
    alloc: Global,
    statements: &[Stmt],
    frames: &Frames,
    text: &[u8],
    query: &SearchQuery<'_>,
) -> Result<Vec<u8>, Fault>
    requires { frames.now.statements ≡ bares statements.now }
    ensures found { IfOk result (λ lines. AreLinesOf text.now statements.now query.now lines.items) }
    ensures no_symbol { IsSome (undeclared_in statements.now query.now) → result ≡ Err NoSymbol }
{
    if query.undeclared_symbol(statements).is_some() {
        return Err(Fault::NoSymbol);
    }
    let descriptions = descriptions_for(alloc, text, query)?;
    let database = SearchedDatabase {
        text,
        statements,
        frames,
        descriptions: descriptions.as_slice(),
    };
    Ok(found_lines(alloc, &database, query)?)
}

/// Returns the spans of the descriptions of a text, or an empty list if the search does not read
/// descriptions.
fn descriptions_for(
    alloc: Global,
    text: &[u8],
    query: &SearchQuery<'_>,
) -> Result<Vec<Option<Span>>, AllocError>
    ensures { IfOk result (λ spans. AreSearched query.now text.now spans.items) }
{
    match query {
        SearchQuery::Words(_) => descriptions(alloc, text),
        _ => Ok(Vec::new(alloc)),
    }
}
