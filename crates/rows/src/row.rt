//! Rows: test cases of the program.

/// A row: a test case of the program, that is one or more command lines, an input, and what the
/// program is to print for them.
#[derive(Drop)]
pub struct Row {
    /// A sentence that states what the row shows.
    pub sentence: String,
    /// The command lines for which the row holds, as words.
    pub commands: Vec<Vec<String>>,
    pub input: Vec<u8>,
    pub output: Vec<u8>,
    /// The endings of the input for which the row holds, each appended to `input`; if there are
    /// none, `input` is the whole input.
    pub endings: Vec<Ending>,
    /// The number of lines of the output, if `output` is only its beginning.
    pub lines: Option<u64>,
    /// The expected standard error.
    pub stderr: ExpectedStderr,
    /// The exit status; `None` means 1 if a line of the output begins with `refused`, else 0.
    pub status: Option<u8>,
    pub mode: StreamMode,
    /// `files N`: how many calls the folder of `pages` answers (a call opens it or writes a file),
    /// if not all.
    pub folder_calls: Option<u64>,
    /// The outputs for prefixes of the input.
    pub truncations: Vec<Truncation>,
}

/// One of several endings of the input, and the ending of the output for it.
#[derive(Drop)]
pub struct Ending {
    pub input: Vec<u8>,
    pub output: Vec<u8>,
}

/// The expected text on standard error.
#[derive(Drop)]
pub enum ExpectedStderr {
    /// Not given: it is empty, or says that nodes recover; or any text, if the output ends with a
    /// line that begins with `refused C` or `bad line`, since the explanation is written there; or
    /// the line that there is no statement, if the output is `proved 0`.
    Unspecified,
    /// This text.
    Exactly(Vec<u8>),
    /// A text that is not empty and begins with this one.
    Beginning(Vec<u8>),
}

/// How the input is read and the output is written.
#[derive(Clone, Copy, PartialEq, Eq)]
pub enum StreamMode {
    /// The whole input is read, and the whole output is written.
    Whole,
    /// The input is truncated at each of its bytes in turn.
    Truncated,
    /// The input must not be read.
    NoReads,
    /// Each read fails in turn.
    FailingReads,
    /// Each write fails in turn.
    FailingWrites,
}

/// The output for the input truncated at the end of a line, before or after its line feed.
#[derive(Drop)]
pub struct Truncation {
    pub before_line_feed: usize,
    pub after: usize,
    pub output: Vec<u8>,
}
