//! Compares what a run printed with the expected output.
use crate::row::ExpectedStderr;
use std::alloc::{AllocError, Global};

/// The standard error for a database without statements.
const NO_STATEMENT: &[u8] = b"the database has no statement\n";

/// What a run is to print, and its exit status.
#[derive(Clone, Copy)]
pub struct ExpectedOutput<'a> {
    pub output: &'a [u8],
    /// The number of lines of the output, if `output` is only its beginning.
    pub lines: Option<u64>,
    /// The expected standard error.
    pub stderr: &'a ExpectedStderr,
    pub status: u8,
}

/// What a run printed, and its exit status.
#[derive(Drop)]
pub struct PrintedOutput {
    pub output: Vec<u8>,
    /// The text on standard error.
    pub stderr: Vec<u8>,
    pub status: u8,
}

/// Returns the exit status that a row expects if it gives none: 1 if a line of the output begins
/// with `refused`, else 0.
pub fn default_status(output: &[u8]) -> u8 {
    for line in output.split(|byte| *byte == b'\n') {
        if line.starts_with(b"refused") {
            return 1;
        }
    }
    0
}

/// Returns how the output of a run differs from the expected one, if it does.
pub fn compare(
    alloc: Global,
    expected: &ExpectedOutput<'_>,
    printed: &PrintedOutput,
) -> Result<Option<String>, AllocError> {
    if let Some(lines) = expected.lines {
        if !matches_beginning(printed.output.as_slice(), expected.output, lines) {
            return Ok(Some(format!(in alloc; "output: not so many lines, or another beginning")?));
        }
    } else if printed.output.as_slice() != expected.output {
        return line_difference(alloc, expected.output, printed.output.as_slice());
    }
    if !stderr_matches(expected, printed.stderr.as_slice()) {
        let stderr = printed.stderr.escape_ascii();
        return Ok(Some(format!(in alloc; "standard error: `{stderr}`")?));
    }
    if printed.status != expected.status {
        let (status, got) = (expected.status, printed.status);
        return Ok(Some(format!(in alloc; "status: wanted {status}, got {got}")?));
    }
    Ok(None)
}

/// Returns whether the output has this beginning and this number of lines.
fn matches_beginning(output: &[u8], beginning: &[u8], lines: u64) -> bool {
    let line_feeds = output.iter().filter(|byte| **byte == b'\n').count();
    output.starts_with(beginning) && line_feeds as u64 == lines
}

/// Returns whether the text on standard error is as expected.
fn stderr_matches(expected: &ExpectedOutput<'_>, text: &[u8]) -> bool {
    match expected.stderr {
        ExpectedStderr::Unspecified => {
            text.is_empty()
                || ends_with_refusal(expected.output)
                || only_recovering(text)
                || (text == NO_STATEMENT && expected.output == b"proved 0\n".as_slice())
        }
        ExpectedStderr::Exactly(wanted) => text == wanted.as_slice(),
        ExpectedStderr::Beginning(beginning) => !text.is_empty()
            && text.starts_with(beginning.as_slice()),
    }
}

/// Returns whether each line says that a node recovers, which depends on the threads.
fn only_recovering(text: &[u8]) -> bool {
    text.split(|byte| *byte == b'\n').all(|line| {
        line.is_empty() || (line.starts_with(b"node ") && line.ends_with(b" entries"))
    })
}

/// Returns whether the last line of the output that is not empty begins with `refused C` or
/// `bad line`.
fn ends_with_refusal(output: &[u8]) -> bool {
    let mut refuses = false;
    for line in output.split(|byte| *byte == b'\n') {
        if !line.is_empty() {
            refuses = line.starts_with(b"refused C") || line.starts_with(b"bad line ");
        }
    }
    refuses
}

/// Returns the first line that differs.
fn line_difference(
    alloc: Global,
    expected: &[u8],
    got: &[u8],
) -> Result<Option<String>, AllocError> {
    let mut got_lines = got.split(|byte| *byte == b'\n');
    let mut number = 0usize;
    for expected_line in expected.split(|byte| *byte == b'\n') {
        number = number.saturating_add(1);
        let got_line = got_lines.next();
        if got_line != Some(expected_line) {
            let expected = expected_line.escape_ascii();
            let got = got_line.unwrap_or(b"").escape_ascii();
            return Ok(Some(format!(in alloc;
                "output, line {number}: wanted `{expected}`, got `{got}`"
            )?));
        }
    }
    Ok(Some(format!(in alloc; "output: more than the {number} lines wanted")?))
}
