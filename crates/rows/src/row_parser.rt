//! Parses the rows of a file.
use crate::row::{Ending, ExpectedStderr, Row, StreamMode, Truncation};
use crate::row_texts::{RowLineFault, push_line, push_lines, word_of};
use std::alloc::{AllocError, Global};
use text::parse_number;

/// Why the rows of a file are not parsed.
#[derive(Drop)]
pub enum ParseFault {
    /// A line is not a line of a row, or is not allowed where it is.
    Line(String),
    /// An allocation failed.
    Memory,
}

impl From<AllocError> for ParseFault {
    fn from(_error: AllocError) -> ParseFault {
        ParseFault::Memory
    }
}

/// Parses the rows of a text. Empty lines and lines that begin with `#` are skipped.
pub fn parse_rows(alloc: Global, text: &str) -> Result<Vec<Row>, ParseFault> {
    let mut rows = Vec::new(alloc);
    for line in text.split('\n') {
        if line.is_empty() || line.starts_with('#') {
            continue;
        }
        match parse_line(alloc, &mut rows, line) {
            Ok(()) => {}
            Err(RowLineFault::NotALine) => return Err(ParseFault::Line(String::from_str(
                alloc, line,
            )?)),
            Err(RowLineFault::Memory) => return Err(ParseFault::Memory),
        }
    }
    Ok(rows)
}

/// Parses a line, which begins a row or belongs to the last one.
fn parse_line(alloc: Global, rows: &mut Vec<Row>, line: &str) -> Result<(), RowLineFault> {
    match line.strip_prefix("row ") {
        Some(sentence) => {
            let row = new_row(alloc, sentence)?;
            rows.push(row).map_err(AllocError::from)?;
            Ok(())
        }
        None => match rows.last_mut() {
            Some(row) => parse_row_line(alloc, row, line),
            None => Err(RowLineFault::NotALine),
        },
    }
}

/// Returns a row that has only a sentence so far.
fn new_row(alloc: Global, sentence: &str) -> Result<Row, AllocError> {
    Ok(Row {
        sentence: String::from_str(alloc, sentence)?,
        commands: Vec::new(alloc),
        input: Vec::new(alloc),
        output: Vec::new(alloc),
        endings: Vec::new(alloc),
        lines: None,
        stderr: ExpectedStderr::Unspecified,
        status: None,
        mode: StreamMode::Whole,
        folder_calls: None,
        truncations: Vec::new(alloc),
    })
}

/// Parses a line of a row: its keyword, and the text after a space, or an empty text without one.
fn parse_row_line(alloc: Global, row: &mut Row, line: &str) -> Result<(), RowLineFault> {
    let (keyword, text) = line.split_once(' ').unwrap_or((line, ""));
    match keyword {
        "run" => add_command(alloc, row, text),
        "status" => set_status(row, text),
        "lines" => set_lines(row, text),
        "files" => set_folder_calls(row, text),
        "cut" => set_mode(row, StreamMode::Truncated, text, ""),
        "reads" if text == "none" => set_mode(row, StreamMode::NoReads, text, "none"),
        "reads" => set_mode(row, StreamMode::FailingReads, text, "fail"),
        "writes" => set_mode(row, StreamMode::FailingWrites, text, "fail"),
        "!~" => set_stderr_beginning(alloc, row, text),
        "</" => add_ending(alloc, row, text, "\\"),
        "</>" => add_ending_with_answer(alloc, row, text),
        _ => add_lines(alloc, row, keyword, text),
    }
}

/// Appends a command line: words separated by spaces.
fn add_command(alloc: Global, row: &mut Row, text: &str) -> Result<(), RowLineFault> {
    let mut words = Vec::new(alloc);
    for word in text.split(' ').filter(|word| !word.is_empty()) {
        let word = word_of(alloc, word)?;
        words.push(word).map_err(AllocError::from)?;
    }
    row.commands.push(words).map_err(AllocError::from)?;
    Ok(())
}

/// Sets the exit status.
fn set_status(row: &mut Row, text: &str) -> Result<(), RowLineFault> {
    let number = parse_number(text.as_bytes()).ok_or(RowLineFault::NotALine)?;
    if number > 255 {
        return Err(RowLineFault::NotALine);
    }
    row.status = Some(number as u8);
    Ok(())
}

/// Sets the number of lines of the output.
fn set_lines(row: &mut Row, text: &str) -> Result<(), RowLineFault> {
    row.lines = Some(parse_number(text.as_bytes()).ok_or(RowLineFault::NotALine)?);
    Ok(())
}

/// Sets how many calls the folder answers.
fn set_folder_calls(row: &mut Row, text: &str) -> Result<(), RowLineFault> {
    row.folder_calls = Some(parse_number(text.as_bytes()).ok_or(RowLineFault::NotALine)?);
    Ok(())
}

/// Sets the mode, at most once, and before the input and the output.
fn set_mode(
    row: &mut Row,
    mode: StreamMode,
    text: &str,
    expected: &str,
) -> Result<(), RowLineFault> {
    if text != expected
        || !row.input.is_empty()
        || !row.output.is_empty()
        || row.mode != StreamMode::Whole
    {
        return Err(RowLineFault::NotALine);
    }
    row.mode = mode;
    Ok(())
}

/// Appends lines to the expected standard error.
fn add_stderr_lines(
    alloc: Global,
    row: &mut Row,
    text: &str,
    times: u64,
) -> Result<(), RowLineFault> {
    match &mut row.stderr {
        ExpectedStderr::Exactly(lines) => push_lines(lines, text, times),
        ExpectedStderr::Beginning(_) => Err(RowLineFault::NotALine),
        ExpectedStderr::Unspecified => {
            let mut lines = Vec::new(alloc);
            push_lines(&mut lines, text, times)?;
            row.stderr = ExpectedStderr::Exactly(lines);
            Ok(())
        }
    }
}

/// Sets the beginning of the standard error, in place of what earlier lines say of it.
fn set_stderr_beginning(alloc: Global, row: &mut Row, text: &str) -> Result<(), RowLineFault> {
    row.stderr = ExpectedStderr::Beginning(word_of(alloc, text)?.into_bytes());
    Ok(())
}

/// Appends one of several endings of the input, and its ending of the output.
fn add_ending(alloc: Global, row: &mut Row, text: &str, answer: &str) -> Result<(), RowLineFault> {
    let mut ending = Ending {
        input: Vec::new(alloc),
        output: Vec::new(alloc),
    };
    push_line(&mut ending.input, text, 0)?;
    push_line(&mut ending.output, answer, 0)?;
    row.endings.push(ending).map_err(AllocError::from)?;
    Ok(())
}

/// Appends `ENDING => ANSWER`, one of several endings of the input and its ending of the output.
fn add_ending_with_answer(alloc: Global, row: &mut Row, text: &str) -> Result<(), RowLineFault> {
    let (text, answer) = text.rsplit_once(" => ").ok_or(RowLineFault::NotALine)?;
    add_ending(alloc, row, text, answer)
}

/// Appends lines to the input, the output or both, or to the standard error. The keyword may end in
/// `*` and a number, which says how many lines.
fn add_lines(alloc: Global, row: &mut Row, keyword: &str, text: &str) -> Result<(), RowLineFault> {
    let (keyword, times) = match keyword.split_once('*') {
        Some((keyword, times)) => (
            keyword,
            parse_number(times.as_bytes()).ok_or(RowLineFault::NotALine)?,
        ),
        None => (keyword, 1),
    };
    match keyword {
        "<" => push_lines(&mut row.input, text, times),
        ">" => push_lines(&mut row.output, text, times),
        "!" => add_stderr_lines(alloc, row, text, times),
        "<>" => {
            let (text, answer) = text.rsplit_once(" => ").ok_or(RowLineFault::NotALine)?;
            push_lines(&mut row.input, text, times)?;
            match row.mode {
                StreamMode::Truncated => add_truncation(alloc, row, text, answer),
                _ => push_lines(&mut row.output, answer, times),
            }
        }
        _ => Err(RowLineFault::NotALine),
    }
}

/// Appends the output for the input truncated after its last line so far.
fn add_truncation(
    alloc: Global,
    row: &mut Row,
    text: &str,
    answer: &str,
) -> Result<(), RowLineFault> {
    let after = row.input.len();
    let mut output = Vec::new(alloc);
    push_line(&mut output, answer, 0)?;
    let has_line_feed = !text.ends_with('\\');
    let truncation = Truncation {
        before_line_feed: if has_line_feed {
            after.saturating_sub(1)
        } else {
            after
        },
        after,
        output,
    };
    row.truncations.push(truncation).map_err(AllocError::from)?;
    Ok(())
}
