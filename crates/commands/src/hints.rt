//! Hints for command lines that name a file: commands read standard input instead.
use crate::grammar::matches_of;
use std::alloc::{AllocError, Global};

/// The kind of text that a command reads from standard input.
#[derive(Clone, Copy, PartialEq, Eq)]
enum InputKind {
    Database,
    Script,
}

/// Appends a line that says how to give a file, if a word seems to be the name of a file. There are
/// three cases: it is the only word; the other words are a request; the last two words are names of
/// files, and the other words are a request about a database. Else appends nothing.
///
/// Errors: an allocation fails. Cost: that of parsing the words, for each word that may be a file.
pub(crate) fn push_hint(
    alloc: Global,
    words: &[&str],
    text: &mut String,
) -> Result<(), AllocError> {
    if let [file] = words {
        if is_file_name(file) {
            return push_file_hint(text, InputKind::Database, &["check"], file);
        }
        return Ok(());
    }
    for step in 0..words.len() {
        let index = words.len() - 1 - step;
        if is_file_name(words[index]) {
            let others = without(alloc, words, index)?;
            if let Some(kind) = input_kind_of(alloc, others.as_slice()) {
                return push_file_hint(text, kind, others.as_slice(), words[index]);
            }
        }
    }
    push_files_hint(alloc, words, text)
}

/// Returns whether a word is not an option and has a full stop or a slash, as names of files have.
fn is_file_name(word: &str) -> bool {
    !word.starts_with('-') && (word.contains('.') || word.contains('/'))
}

/// Returns the words without the one at an index.
fn without<'a>(alloc: Global, words: &[&'a str], index: usize) -> Result<Vec<&'a str>, AllocError> {
    let mut others = Vec::new(alloc);
    for (at, word) in words.iter().enumerate() {
        if at != index {
            others.push(*word)?;
        }
    }
    Ok(others)
}

/// Returns the kind of text that the request of these words reads, or `None` if they are no request
/// or it reads none.
fn input_kind_of(alloc: Global, words: &[&str]) -> Option<InputKind> {
    match matches_of(alloc, words) {
        Ok(matches) => match matches.subcommand() {
            Some(("play" | "serve", _)) => Some(InputKind::Script),
            Some(("store", _)) => None,
            Some(_) => Some(InputKind::Database),
            None => None,
        },
        Err(_) => None,
    }
}

/// Appends the line that says how to give one file to the command.
fn push_file_hint(
    text: &mut String,
    kind: InputKind,
    words: &[&str],
    file: &str,
) -> Result<(), AllocError> {
    text.push_str(match kind {
        InputKind::Database => "the database is read from standard input: mmlib ",
        InputKind::Script => "the script is read from standard input: mmlib ",
    })?;
    for word in words {
        text.push_str(word)?;
        text.push_str(" ")?;
    }
    text.push_str("< ")?;
    text.push_str(file)?;
    text.push_str("\n")
}

/// Appends the line that says how to give two files to a command about a database, if the last two
/// words are names of files and the others are such a command.
fn push_files_hint(alloc: Global, words: &[&str], text: &mut String) -> Result<(), AllocError> {
    let [front @ .., first, second] = words else {
        return Ok(());
    };
    if !is_file_name(first)
        || !is_file_name(second)
        || input_kind_of(alloc, front) != Some(InputKind::Database)
    {
        return Ok(());
    }
    text.push_str("the database is read from standard input; join the files first: cat ")?;
    text.push_str(first)?;
    text.push_str(" ")?;
    text.push_str(second)?;
    text.push_str(" | mmlib")?;
    for word in front {
        text.push_str(" ")?;
        text.push_str(word)?;
    }
    text.push_str("\n")
}
