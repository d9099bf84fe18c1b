//! What may stand in place of a bad line, and what is wrong with the line.
use crate::line_words::Words;
use crate::script_help::{PLAY_LINES, SERVE_LINES, ScriptLines, first_word};
use library::{MAX_BYTES, MAX_NAMES};
use std::fmt;
use text::parse_number;

/// What may stand in place of a bad line. It is printed as the form of the line, and in parentheses
/// what is wrong, if the form alone does not say it.
#[derive(Clone, Copy, Debug)]
pub struct ExpectedLine {
    /// The form of the line that begins with its verb, or the verbs of all lines.
    form: &'static str,
    /// A word of the form, or the line.
    subject: &'static str,
    /// What is wrong with it, or nothing.
    problem: &'static str,
}

impl fmt::Display for ExpectedLine {
    fn fmt<W: fmt::Write>(&self, f: &mut fmt::Formatter<W>) -> fmt::Result {
        f.write_str(self.form)?;
        if self.problem.is_empty() {
            return Ok(());
        }
        write!(f, " ({} {})", self.subject, self.problem)
    }
}

impl ExpectedLine {
    /// Says that a line is empty.
    pub const EMPTY: ExpectedLine = ExpectedLine {
        form: "empty",
        subject: "",
        problem: "",
    };

    /// Returns what may stand in place of a bad line of `play`. `following` are the bytes after the
    /// line.
    pub(crate) fn of_play(line: &[u8], following: &[u8]) -> ExpectedLine {
        expected(&PLAY_LINES, line, following)
    }

    /// Returns what may stand in place of a bad line of `serve`, or of a session. `following` are
    /// the bytes after the line; those of a session are as many as were read.
    pub(crate) fn of_serve(line: &[u8], following: &[u8]) -> ExpectedLine {
        expected(&SERVE_LINES, line, following)
    }
}

/// A word of a form, or the line, and what is wrong with it.
struct Problem(&'static str, &'static str);

/// Returns what may stand in place of a bad line.
fn expected(lines: &ScriptLines, line: &[u8], following: &[u8]) -> ExpectedLine {
    let ended = line.strip_suffix(b"\r").unwrap_or(line);
    let Some(form) = lines.form(first_word(ended)) else {
        return ExpectedLine {
            form: lines.verbs,
            subject: "",
            problem: "",
        };
    };
    let Problem(subject, problem) = line_problem(form, line, following);
    ExpectedLine {
        form,
        subject,
        problem,
    }
}

/// Returns what is wrong with a line that has a form.
fn line_problem(form: &'static str, line: &[u8], following: &[u8]) -> Problem {
    let mut words = Words::new(line);
    let _verb = words.take();
    for name in form.split(' ').skip(1) {
        if name == "TEXT" || name == "PATTERN" {
            return Problem("", "");
        }
        if name == "NAME" {
            return names_problem(words, line);
        }
        let Some(word) = words.take() else {
            return end_problem(line);
        };
        let problem = word_problem(name, word);
        if !problem.is_empty() {
            return Problem(name, problem);
        }
        if words.copy().has_no_words() && is_whole(word) {
            let problem = text_problem(form, name, word, following);
            return if problem.is_empty() {
                end_problem(line)
            } else {
                Problem(name, problem)
            };
        }
    }
    end_problem(line)
}

/// Returns what is wrong with the end of a line.
fn end_problem(line: &[u8]) -> Problem {
    match line.last() {
        Some(b' ') => Problem("the line", "ends with a space"),
        Some(b'\r') => Problem("the line", "ends with a carriage return"),
        _ => Problem("", ""),
    }
}

/// Returns whether a word is not empty, and does not end with the carriage return of its line.
fn is_whole(word: &[u8]) -> bool {
    !word.is_empty() && !word.ends_with(b"\r")
}

/// Returns what is wrong with a word, which has this name in the form of its line, or nothing.
fn word_problem(name: &str, word: &[u8]) -> &'static str {
    match name {
        "LABEL" | "[all]" | "WORD" => "",
        _ => number_problem(word),
    }
}

/// Returns what is wrong with a word that should be a number, or nothing. The end of a line is
/// judged by `end_problem`.
fn number_problem(word: &[u8]) -> &'static str {
    if !is_whole(word) || parse_number(word).is_some() {
        return "";
    }
    let digits = word.strip_prefix(b"-").unwrap_or(word);
    if !digits.iter().all(|byte| byte.is_ascii_digit()) || digits.iter().all(|byte| *byte == b'0') {
        "is no number"
    } else if digits.len() < word.len() {
        "is below 0"
    } else {
        "is over 18446744073709551615"
    }
}

/// Returns what is wrong with the text that follows a line, or nothing. `word` is the last word of
/// the line, and has this name in its form.
fn text_problem(form: &str, name: &str, word: &[u8], following: &[u8]) -> &'static str {
    if name == "WORD" {
        return "stands alone on none of the lines that follow";
    }
    let number = match parse_number(word) {
        Some(number) if name == "N" && form.contains("-bytes ") => number,
        _ => return "",
    };
    if number > MAX_BYTES as u64 {
        return "is over 67108864";
    }
    match following.get(number as usize) {
        Some(b'\n') => "",
        Some(_) => "bytes are not followed by the end of a line",
        None => "is more than the bytes that follow",
    }
}

/// Returns what is wrong with the names of a charter.
fn names_problem(mut words: Words<'_>, line: &[u8]) -> Problem {
    let mut last = None;
    let mut count = 0usize;
    while let Some(word) = words.take() {
        let Some(number) = parse_number(word) else {
            let problem = number_problem(word);
            return if problem.is_empty() {
                end_problem(line)
            } else {
                Problem("NAME", problem)
            };
        };
        match last {
            Some(before) if before == number => return Problem("NAME", "stands twice"),
            Some(before) if before > number => {
                return Problem("NAME", "is below the one before it");
            }
            _ => {}
        }
        last = Some(number);
        count = count.saturating_add(1);
    }
    if count > MAX_NAMES {
        return Problem("NAME", "stands more than 64 times");
    }
    Problem("", "")
}
