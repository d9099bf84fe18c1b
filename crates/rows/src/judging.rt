//! Runs the program for a row, and compares what it prints with what the row expects.
use crate::expected_output::{ExpectedOutput, PrintedOutput, compare, default_status};
use crate::failing_streams::{FailingReader, FailingWriter};
use crate::limited_folder::LimitedFolder;
use crate::row::{Ending, ExpectedStderr, Row, StreamMode, Truncation};
use program::{MemoryKeeps, run};
use sites::MemoryFolder;
use std::alloc::{AllocError, Global};
use std::fmt::Display;
use std::io::Read;
use std::sync::Wait;
use std::thread::Threads;
use std::time::Clock;

/// How an output differs from the expected one, if it does.
type Difference = Result<Option<String>, AllocError>;

/// Returns how the row differs from what the program prints, if it does.
pub fn judge<R: AllocGlobal + Threads + Wait + Clock + Copy + Send + Sync + Drop + 'static>(
    rt: &R,
    row: &Row,
) -> Difference {
    for command in &row.commands {
        match judge_command(rt, row, command.as_slice()) {
            Ok(None) => {}
            difference => return difference,
        }
    }
    Ok(None)
}

/// Judges a row under one of its command lines.
fn judge_command<R: AllocGlobal + Threads + Wait + Clock + Copy + Send + Sync + Drop + 'static>(
    rt: &R,
    row: &Row,
    command: &[String],
) -> Difference {
    let mut words = Vec::new(rt.alloc());
    for word in command {
        words.push(word.as_str())?;
    }
    let words = words.as_slice();
    let difference = Trial { rt, row, words }.judge()?;
    difference_at(rt.alloc(), format_args!("{words:?}"), &difference)
}

/// Returns a difference with its place before it.
fn difference_at<D: Display + Drop>(
    alloc: Global,
    place: D,
    difference: &Option<String>,
) -> Difference {
    match difference {
        Some(difference) => Ok(Some(format!(in alloc; "{place}: {difference}")?)),
        None => Ok(None),
    }
}

/// A row under one of its command lines.
#[derive(Drop)]
struct Trial<'a, 'w, R> {
    rt: &'a R,
    row: &'a Row,
    words: &'a [&'w str],
}

impl<'a, 'w, R: AllocGlobal + Threads + Wait + Clock + Copy + Send + Sync + Drop + 'static> Trial<
    'a,
    'w,
    R,
> {
    /// Judges the row with each of its inputs.
    fn judge(&self) -> Difference {
        let row = self.row;
        if row.endings.is_empty() {
            return self.judge_input(row.input.as_slice(), row.output.as_slice());
        }
        for ending in &row.endings {
            match self.judge_ending(ending) {
                Ok(None) => {}
                difference => return difference,
            }
        }
        Ok(None)
    }

    /// Judges the row with one of its inputs.
    fn judge_ending(&self, ending: &Ending) -> Difference {
        let alloc = self.rt.alloc();
        let input = joined(alloc, self.row.input.as_slice(), ending.input.as_slice())?;
        let output = joined(alloc, self.row.output.as_slice(), ending.output.as_slice())?;
        let difference = self.judge_input(input.as_slice(), output.as_slice())?;
        let escaped = ending.input.escape_ascii();
        difference_at(alloc, format_args!("`{escaped}`"), &difference)
    }

    /// Judges an input and its expected output, in the row's mode.
    fn judge_input(&self, input: &[u8], output: &[u8]) -> Difference {
        let expected = expected_of(self.row, output);
        match self.row.mode {
            StreamMode::Whole => self.judge_whole(input, &expected),
            StreamMode::Truncated => self.judge_truncations(input, output),
            StreamMode::NoReads => self.judge_no_reads(&expected),
            StreamMode::FailingReads => self.judge_failing_reads(input, &expected),
            StreamMode::FailingWrites => self.judge_failing_writes(input, &expected),
        }
    }

    /// Runs the program on the whole input, and compares.
    fn judge_whole(&self, mut input: &[u8], expected: &ExpectedOutput<'_>) -> Difference {
        let printed = self.run_on(&mut input);
        compare(self.rt.alloc(), expected, &printed)
    }

    /// Runs the program on a reader.
    fn run_on<I: Read>(&self, input: &mut I) -> PrintedOutput {
        let mut output = Vec::new(self.rt.alloc());
        let mut stderr = Vec::new(self.rt.alloc());
        let mut folder = LimitedFolder::new(self.rt.alloc(), self.row.folder_calls);
        let status = run(
            self.rt,
            self.words,
            input,
            &mut output,
            &mut stderr,
            &mut folder,
            &mut MemoryKeeps::new(self.rt.alloc()),
        );
        let _ = push_files(&mut output, &folder.folder);
        PrintedOutput {
            output,
            stderr,
            status,
        }
    }

    /// Truncates the input at each byte in turn. `elsewhere` is the expected output for a
    /// truncation that the row does not list.
    fn judge_truncations(&self, input: &[u8], elsewhere: &[u8]) -> Difference {
        for end in 0..input.len() + 1 {
            match self.judge_truncated(&input[..end], elsewhere) {
                Ok(None) => {}
                difference => return difference,
            }
        }
        Ok(None)
    }

    /// Runs the program on a prefix of the input.
    fn judge_truncated(&self, input: &[u8], elsewhere: &[u8]) -> Difference {
        let end = input.len();
        let output = output_at(self.row.truncations.as_slice(), end, elsewhere);
        let difference = self.judge_whole(input, &expected_of(self.row, output))?;
        difference_at(self.rt.alloc(), format_args!("cut at {end}"), &difference)
    }

    /// Runs the program on a reader that it must not call.
    fn judge_no_reads(&self, expected: &ExpectedOutput<'_>) -> Difference {
        let mut reader = FailingReader::new(b"", 0);
        let printed = self.run_on(&mut reader);
        if reader.failed {
            return Ok(Some(String::from_str(self.rt.alloc(), "the input was read")?));
        }
        compare(self.rt.alloc(), expected, &printed)
    }

    /// Runs the program on readers that fail at each of their calls, until one reads all.
    fn judge_failing_reads(&self, input: &[u8], expected: &ExpectedOutput<'_>) -> Difference {
        for calls in 0..input.len() + 2 {
            let mut reader = FailingReader::new(input, calls);
            match self.judge_failing_read(&mut reader, calls, expected) {
                Ok(None) => {}
                difference => return difference,
            }
            if !reader.failed {
                return Ok(None);
            }
        }
        Ok(Some(String::from_str(self.rt.alloc(), "no run read all")?))
    }

    /// Runs the program on a reader that fails after a number of calls.
    fn judge_failing_read(
        &self,
        reader: &mut FailingReader<'_>,
        calls: usize,
        expected: &ExpectedOutput<'_>,
    ) -> Difference {
        let alloc = self.rt.alloc();
        let printed = self.run_on(reader);
        let difference = if reader.failed {
            failed_read_difference(alloc, &printed)?
        } else {
            compare(alloc, expected, &printed)?
        };
        difference_at(alloc, format_args!("{calls} reads"), &difference)
    }

    /// Runs the program on writers that fail after each proper prefix of the output, and on one
    /// that writes all.
    fn judge_failing_writes(&self, input: &[u8], expected: &ExpectedOutput<'_>) -> Difference {
        let message = Vec::from_slice(self.rt.alloc(), b"standard output cannot be written\n")?;
        let stderr = ExpectedStderr::Exactly(message);
        for calls in 0..expected.output.len() {
            let prefix = ExpectedOutput {
                output: &expected.output[..calls],
                lines: None,
                stderr: &stderr,
                status: 1,
            };
            match self.judge_failing_write(input, &prefix) {
                Ok(None) => {}
                difference => return difference,
            }
        }
        self.judge_whole(input, expected)
    }

    /// Runs the program on a writer that fails after this output.
    fn judge_failing_write(&self, mut input: &[u8], prefix: &ExpectedOutput<'_>) -> Difference {
        let alloc = self.rt.alloc();
        let calls = prefix.output.len();
        let mut writer = FailingWriter::new(alloc, calls);
        let mut stderr = Vec::new(alloc);
        let mut folder = MemoryFolder::new(alloc);
        let status = run(
            self.rt,
            self.words,
            &mut input,
            &mut writer,
            &mut stderr,
            &mut folder,
            &mut MemoryKeeps::new(self.rt.alloc()),
        );
        let called_again = writer.called_again;
        let printed = PrintedOutput {
            output: writer.text,
            stderr,
            status,
        };
        let difference = failed_write_difference(alloc, called_again, prefix, &printed)?;
        difference_at(alloc, format_args!("{calls} writes"), &difference)
    }
}

/// Appends a line with the name of each file that was written, and then their bytes.
fn push_files(output: &mut Vec<u8>, folder: &MemoryFolder) -> Result<(), AllocError> {
    for file in folder.files.as_slice() {
        output.extend_from_slice(b"file ")?;
        output.extend_from_slice(file.name.as_bytes())?;
        output.extend_from_slice(b"\n")?;
    }
    for file in folder.files.as_slice() {
        output.extend_from_slice(file.bytes.as_slice())?;
    }
    Ok(())
}

/// Returns how what is printed after a failed read differs from the refusal of the input, if it
/// does.
fn failed_read_difference(alloc: Global, printed: &PrintedOutput) -> Difference {
    let message = Vec::from_slice(alloc, b"standard input cannot be read\n")?;
    let refused = ExpectedOutput {
        output: b"refused Input\n",
        lines: None,
        stderr: &ExpectedStderr::Exactly(message),
        status: 1,
    };
    compare(alloc, &refused, printed)
}

/// Returns two texts joined.
fn joined(alloc: Global, first: &[u8], second: &[u8]) -> Result<Vec<u8>, AllocError> {
    let mut all = Vec::from_slice(alloc, first)?;
    all.extend_from_slice(second)?;
    Ok(all)
}

/// Returns what the row expects, with this output.
fn expected_of<'a>(row: &'a Row, output: &'a [u8]) -> ExpectedOutput<'a> {
    ExpectedOutput {
        output,
        lines: row.lines,
        stderr: &row.stderr,
        status: row.status.unwrap_or(default_status(output)),
    }
}

/// Returns the expected output for the input truncated at `end`, or `elsewhere` if none is listed.
fn output_at<'a>(truncations: &'a [Truncation], end: usize, elsewhere: &'a [u8]) -> &'a [u8] {
    for truncation in truncations {
        if truncation.before_line_feed == end || truncation.after == end {
            return truncation.output.as_slice();
        }
    }
    elsewhere
}

/// Returns how an output differs from the expected one after a failed write, if it does.
fn failed_write_difference(
    alloc: Global,
    called_again: bool,
    prefix: &ExpectedOutput<'_>,
    printed: &PrintedOutput,
) -> Difference {
    if called_again {
        return Ok(Some(String::from_str(alloc, "more was written")?));
    }
    compare(alloc, prefix, printed)
}
