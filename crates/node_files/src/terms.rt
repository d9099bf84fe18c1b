//! The file `library`: for which nodes a folder was made.
use crate::checksum::checksum;
use keep_folders::FolderTerms;
use std::alloc::{AllocError, Global};
use synod::Weights;

/// Returns the lines of the file `library` that are compared: its version, the nodes, their
/// weights, and the limit on work.
fn compared_lines(alloc: Global, terms: &FolderTerms) -> Result<String, AllocError> {
    let mut lines = format!(in alloc; "mmlib store 1\nnodes {}\nweights", terms.weights.count())?;
    for weight in terms.weights.as_slice() {
        lines.push_str(format!(in alloc; " {weight}")?.as_str())?;
    }
    match terms.work_limit {
        Some(limit) => lines.push_str(format!(in alloc; "\nwork {limit}\n")?.as_str())?,
        None => lines.push_str("\nwork unlimited\n")?,
    }
    Ok(lines)
}

/// Returns the text of the file `library`. `id` is a random number by which the files of a folder
/// are told from those of another one.
pub(crate) fn library_text(
    alloc: Global,
    terms: &FolderTerms,
    id: u64,
) -> Result<String, AllocError> {
    let lines = format!(in alloc; "{}id {id:016x}\n", compared_lines(alloc, terms)?)?;
    with_checksum(alloc, lines.as_str())
}

/// Returns the first line that a file `library` has in another way than these terms, and the line
/// of the terms; `None` if there is none.
pub(crate) fn difference(
    alloc: Global,
    terms: &FolderTerms,
    found: &str,
) -> Result<Option<(String, String)>, AllocError> {
    let wanted = compared_lines(alloc, terms)?;
    let mut others = found.lines();
    for line in wanted.lines() {
        let other = others.next().unwrap_or("");
        if other != line {
            return Ok(Some((
                String::from_str(alloc, other)?,
                String::from_str(alloc, line)?,
            )));
        }
    }
    Ok(None)
}

/// Returns the terms that a file `library` says.
pub(crate) fn terms_in(alloc: Global, lines: &str) -> Result<Option<FolderTerms>, AllocError> {
    let mut numbers = Vec::new(alloc);
    for line in lines.lines() {
        if let Some(words) = line.strip_prefix("weights ") {
            for word in words.split(' ') {
                numbers.push(u8::from_str_radix(word, 10).unwrap_or(0))?;
            }
        }
    }
    Ok(match Weights::new(numbers.as_slice()) {
        Some(weights) => Some(FolderTerms {
            weights,
            work_limit: number_behind(lines, "work "),
        }),
        None => None,
    })
}

/// Returns the lines, and behind them a line with their checksum.
pub(crate) fn with_checksum(alloc: Global, lines: &str) -> Result<String, AllocError> {
    format!(in alloc; "{lines}checksum {:016x}\n", checksum(lines.as_bytes()))
}

/// Returns the lines before the checksum, if the text ends in the checksum of these lines.
pub(crate) fn without_checksum(alloc: Global, text: &str) -> Result<Option<&str>, AllocError> {
    let Some((lines, _)) = text.rsplit_once("checksum ") else {
        return Ok(None);
    };
    if with_checksum(alloc, lines)?.as_str() == text {
        Ok(Some(lines))
    } else {
        Ok(None)
    }
}

/// Returns what stands behind a word at the head of one of the lines.
fn text_behind<'a>(lines: &'a str, word: &str) -> Option<&'a str> {
    for line in lines.lines() {
        if let Some(text) = line.strip_prefix(word) {
            return Some(text);
        }
    }
    None
}

/// Returns the decimal number behind a word at the head of one of the lines.
pub(crate) fn number_behind(lines: &str, word: &str) -> Option<u64> {
    u64::from_str_radix(text_behind(lines, word)?, 10).ok()
}

/// Returns the number of a folder that the lines of its file `library` say.
pub(crate) fn id_in(lines: &str) -> Option<u64> {
    u64::from_str_radix(text_behind(lines, "id ")?, 16).ok()
}
