//! The command `show`: statements as blocks of lines (not the blocks of `${` and `$}`). The
//! description of a statement is the last comment between the statement before it and itself.
ghost use Rattle.std.specs.Prelude.{◌≡◌, option_map, IfOk};
ghost use Rattle.questions.specs.Shown.{IsShown};
ghost use Rattle.scope.specs.Active.{bares};

use crate::fault::Fault;
use crate::named_text::NamedText;
use frame::Frames;
use library::{AskFault, Library};
use memchr::memchr_iter;
use mm_lex::{Span, tokens};
use mm_read::Stmt;
use places::{LineAndColumn, descriptions, line_and_column};
use proof_pages::{BlockInput, push_block};
use std::alloc::{AllocError, Global};

/// A text, its statements, and where they end.
#[derive(Drop)]
struct DatabaseText<'a> {
    statements: &'a [Stmt],
    /// The frames of the statements.
    frames: &'a Frames,
    /// The name of the file, which is printed before each line and column.
    name: Option<&'a str>,
    text: &'a [u8],
    /// The offset after the last token of each statement, in order.
    statement_ends: &'a [usize],
}

/// Returns the block of the statement of each label, with an empty line between two.
///
/// Errors: `NoLabel` if no statement has one of the labels; `Memory` if an allocation fails.
pub fn blocks_of_labels(
    alloc: Global,
    statements: &[Stmt],
    frames: &Frames,
    text: NamedText<'_>,
    labels: &[&str],
) -> Result<Vec<u8>, Fault>
    requires { frames.now.statements ≡ bares statements.now }
{
    let positions = positions(alloc, frames, labels)?;
    let statement_ends = statement_ends(alloc, text.bytes)?;
    let database = DatabaseText {
        statements,
        frames,
        name: text.name,
        text: text.bytes,
        statement_ends: statement_ends.as_slice(),
    };
    let mut blocks = Vec::new(alloc);
    for at in positions.as_slice() {
        if !blocks.is_empty() {
            blocks.push(b'\n')?;
        }
        push_statement_block(alloc, &mut blocks, &database, *at)?;
    }
    Ok(blocks)
}

/// Returns the block of the statement of a library with a label, with this description. Its place
/// is that in the export, of which each statement is a line.
///
/// Errors: `NoLabel` if no statement has the label; `Memory` if an allocation fails.
pub fn library_block(
    alloc: Global,
    library: &Library,
    label: &[u8],
    description: Option<&[u8]>,
) -> Result<Vec<u8>, Fault>
    ensures { IfOk result (λ block. IsShown library.now.replica.statements label.now
        (option_map (λ d. d.now) description.entry) block.items) }
{
    let statements = library.statements();
    let Some(position) = library.frames().position(label) else {
        return Err(Fault::Ask(AskFault::NoLabel));
    };
    if position == 0 || position > statements.len() {
        return Err(Fault::Ask(AskFault::NoLabel));
    }
    let input = BlockInput {
        statements,
        frames: library.frames(),
        statement: &statements[position - 1],
        position,
        line_and_column: LineAndColumn {
            line: position,
            column: 1,
        },
        description,
    };
    let mut block = Vec::new(alloc);
    push_block(alloc, &mut block, &input)?;
    Ok(block)
}

/// Returns the position of the statement of each label.
fn positions(alloc: Global, frames: &Frames, labels: &[&str]) -> Result<Vec<usize>, Fault> {
    let mut positions = Vec::new(alloc);
    for label in labels {
        match frames.position(label.as_bytes()) {
            Some(at) => positions.push(at)?,
            None => return Err(Fault::Ask(AskFault::NoLabel)),
        }
    }
    Ok(positions)
}

/// Returns the offset after the last token of each statement of a text that was parsed.
///
/// Cost: the size of the text.
fn statement_ends(alloc: Global, text: &[u8]) -> Result<Vec<usize>, AllocError> {
    let mut statement_ends = Vec::new(alloc);
    let mut is_in_comment = false;
    for at in memchr_iter(b'$', text) {
        match byte_after_dollar(text, at) {
            Some(b')') => is_in_comment = false,
            Some(b'(') => is_in_comment = true,
            Some(b'.' | b'{' | b'}') if !is_in_comment => statement_ends.push(at.saturating_add(
                2,
            ))?,
            _ => {}
        }
    }
    Ok(statement_ends)
}

/// Returns the byte after the `$` at an offset, if the two have white space before and after them.
fn byte_after_dollar(text: &[u8], at: usize) -> Option<u8> {
    let is_token_start = match at.checked_sub(1) {
        Some(before) => is_white(text, before),
        None => true,
    };
    if is_token_start && is_white(text, at.saturating_add(2)) {
        text.get(at.saturating_add(1)).copied()
    } else {
        None
    }
}

/// Returns whether an offset has white space, or is at or after the end of the text.
fn is_white(text: &[u8], at: usize) -> bool {
    match text.get(at) {
        Some(byte) => byte.is_ascii_whitespace(),
        None => true,
    }
}

/// Appends the block of the statement at a position, if there is one.
fn push_statement_block(
    alloc: Global,
    blocks: &mut Vec<u8>,
    database: &DatabaseText<'_>,
    at: usize,
) -> Result<(), AllocError>
    requires { database.now.frames.now.statements ≡ bares database.now.statements.now }
{
    let statements = database.statements;
    if at == 0 || at > statements.len() {
        return Ok(());
    }
    let start = statement_start(database, at);
    let statement_text = statement_text(database, start, at);
    let descriptions = descriptions(alloc, statement_text)?;
    let input = BlockInput {
        statements,
        frames: database.frames,
        statement: &statements[at - 1],
        position: at,
        line_and_column: first_line_and_column(alloc, database, start, statement_text)?,
        description: first_description(statement_text, descriptions.as_slice()),
    };
    if let Some(name) = database.name {
        blocks.extend_from_slice(name.as_bytes())?;
        blocks.push(b':')?;
    }
    push_block(alloc, blocks, &input)
}

/// Returns the offset at which the statement before the one at a position ends; 0 for the first.
fn statement_start(database: &DatabaseText<'_>, at: usize) -> usize {
    match at.checked_sub(2) {
        Some(before) => database.statement_ends.get(before).copied().unwrap_or(0),
        None => 0,
    }
}

/// Returns the text of the statement at a position with all comments before it, from `start`, where
/// the previous statement ends. Parsed alone, this text has the same description.
fn statement_text<'a>(database: &DatabaseText<'a>, start: usize, at: usize) -> &'a [u8] {
    match database.statement_ends.get(at.saturating_sub(1)) {
        Some(end) => database.text.get(start..*end).unwrap_or(b""),
        None => b"",
    }
}

/// Returns the line and column of the first token of a part of the text that begins at `start`.
fn first_line_and_column(
    alloc: Global,
    database: &DatabaseText<'_>,
    start: usize,
    statement_text: &[u8],
) -> Result<LineAndColumn, AllocError> {
    let Ok(spans) = tokens(alloc, statement_text) else {
        return Err(AllocError);
    };
    let offset = match spans.first() {
        Some(span) => start.saturating_add(span.start),
        None => start,
    };
    Ok(line_and_column(database.text, offset.min(database.text.len())))
}

/// Returns the description of the first statement of a text, if it has one; `spans` are the spans
/// of the descriptions of its statements.
fn first_description<'a>(text: &'a [u8], spans: &[Option<Span>]) -> Option<&'a [u8]> {
    match spans.first() {
        Some(Some(span)) => text.get(span.start..span.end),
        _ => None,
    }
}
