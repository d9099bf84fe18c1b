//! Texts of a row: literal bytes, and escapes that begin with a backslash.
use std::alloc::{AllocError, Global};
use text::{parse_number, push_number};

/// Why a line is not parsed.
#[derive(Drop)]
pub enum RowLineFault {
    /// It is not a line of a row.
    NotALine,
    /// An allocation failed.
    Memory,
}

impl From<AllocError> for RowLineFault {
    fn from(_error: AllocError) -> RowLineFault {
        RowLineFault::Memory
    }
}

/// Appends a line `times` times, with the indexes 0, 1 and so on.
pub fn push_lines(bytes: &mut Vec<u8>, text: &str, times: u64) -> Result<(), RowLineFault> {
    for index in 0..times {
        push_line(bytes, text, index)?;
    }
    Ok(())
}

/// Appends the line of a text, with a line feed unless the text ends in a backslash. Escapes of
/// numbers (`\{K}` and `\{K+S}`) are replaced by the numbers for an index.
pub fn push_line(bytes: &mut Vec<u8>, text: &str, index: u64) -> Result<(), RowLineFault> {
    match text.strip_suffix("\\") {
        Some(text) => push_text(bytes, text, index),
        None => {
            push_text(bytes, text, index)?;
            bytes.extend_from_slice(b"\n")?;
            Ok(())
        }
    }
}

/// Returns a word of a command line.
pub fn word_of(alloc: Global, text: &str) -> Result<String, RowLineFault> {
    let mut bytes = Vec::new(alloc);
    push_text(&mut bytes, text.strip_suffix("\\").unwrap_or(text), 0)?;
    match String::from_utf8(bytes) {
        Ok(word) => Ok(word),
        Err(_) => Err(RowLineFault::NotALine),
    }
}

/// Appends the bytes of a text, with its escapes replaced.
fn push_text(bytes: &mut Vec<u8>, text: &str, index: u64) -> Result<(), RowLineFault> {
    let mut pieces = text.split('\\');
    if let Some(first) = pieces.next() {
        bytes.extend_from_slice(first.as_bytes())?;
    }
    for piece in pieces {
        push_escaped(bytes, piece, index)?;
    }
    Ok(())
}

/// Appends the byte or the number of an escape, and the text after it. `piece` begins after the
/// backslash.
fn push_escaped(bytes: &mut Vec<u8>, piece: &str, index: u64) -> Result<(), RowLineFault> {
    if let Some(digits) = piece.strip_prefix("x") {
        return push_byte(bytes, digits);
    }
    let Some(number_and_rest) = piece.strip_prefix("{") else {
        return Err(RowLineFault::NotALine);
    };
    let Some((number, rest)) = number_and_rest.split_once('}') else {
        return Err(RowLineFault::NotALine);
    };
    let number = number_for_index(number, index).ok_or(RowLineFault::NotALine)?;
    push_number(bytes, number)?;
    bytes.extend_from_slice(rest.as_bytes())?;
    Ok(())
}

/// Appends the byte of two hexadecimal digits, and the text after them.
fn push_byte(bytes: &mut Vec<u8>, digits: &str) -> Result<(), RowLineFault> {
    let Some((digits, rest)) = digits.split_at_checked(2) else {
        return Err(RowLineFault::NotALine);
    };
    let Ok(byte) = u8::from_str_radix(digits, 16) else {
        return Err(RowLineFault::NotALine);
    };
    bytes.extend_from_slice(&[byte])?;
    bytes.extend_from_slice(rest.as_bytes())?;
    Ok(())
}

/// Returns the number of `K` or `K+S` for an index: K plus the index, or K plus S times the index.
fn number_for_index(text: &str, index: u64) -> Option<u64> {
    let (first, step) = match text.split_once('+') {
        Some((first, step)) => (first, parse_number(step.as_bytes())?),
        None => (text, 1),
    };
    parse_number(first.as_bytes())?.checked_add(step.checked_mul(index)?)
}
