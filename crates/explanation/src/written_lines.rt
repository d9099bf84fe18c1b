//! The lines of an explanation.

ghost use Rattle.std.specs.Prelude.{◌≡◌, ◌<◌, ◌≤◌, length, IfOk};
ghost use Rattle.explanation.specs.Cut.{cut_text};

use itoa::Buffer;
use mm_lex::Span;
use places::line_and_column;
use std::alloc::{AllocError, Global};

/// The largest number of bytes of an explanation.
pub const MAX_BYTES: usize = 65_536;

/// The last line of a truncated explanation.
const TRUNCATED_LINE: &[u8] = b"\n  the explanation is cut here: it has more than 65536 bytes\n";

/// The lines of an explanation, or none after a failure. Keeps at most `MAX_BYTES` + 1 bytes, the
/// last of which shows that there were too many, and drops the rest.
#[derive(Drop)]
pub(crate) struct Lines<'a> {
    bytes: Vec<u8>,
    /// The name of the file, which is written before each place, if there is one.
    name: Option<&'a str>,
    /// Whether an allocation failed, or a call that the explanation needs returned an error.
    has_failed: bool,
    /// The number of bytes at the start of the text that are the statements of a library, one on
    /// each line; only the rest is explained.
    library_len: usize,
}

impl<'a> Lines<'a> {
    /// Returns an explanation without lines.
    pub(crate) fn new(alloc: Global, name: Option<&'a str>, library_len: usize) -> Lines<'a> {
        Lines {
            bytes: Vec::new(alloc),
            name,
            has_failed: false,
            library_len,
        }
    }

    /// Returns the lines, at most 65,536 bytes. If more were pushed, the last line says that they
    /// are truncated.
    ///
    /// Errors: a failure was recorded, or an allocation fails.
    pub(crate) fn into_bytes(self) -> Result<Vec<u8>, AllocError>
        ensures short { IfOk result (λ bytes. length bytes.items ≤ MAX_BYTES) }
        ensures whole { length self.entry.bytes.items ≤ 65536
            → IfOk result (λ bytes. bytes.items ≡ self.entry.bytes.items) }
        ensures cut { 65536 < length self.entry.bytes.items
            → IfOk result (λ bytes. bytes.items ≡ cut_text self.entry.bytes.items) }
    {
        let Lines {
            mut bytes,
            has_failed,
            ..
        } = self;
        if has_failed {
            return Err(AllocError);
        }
        if bytes.len() > MAX_BYTES {
            bytes.truncate(MAX_BYTES - TRUNCATED_LINE.len());
            bytes.extend_from_slice(TRUNCATED_LINE)?;
        }
        Ok(bytes)
    }

    /// Returns the number of bytes at the start of the text that are the statements of a library.
    pub(crate) fn library_len(&self) -> usize {
        self.library_len
    }

    /// Records a failure, after which no lines are returned.
    pub(crate) fn fail(&mut self) {
        self.has_failed = true;
    }

    /// Returns the value of a result, or records a failure and returns `None` if it is an error of
    /// any kind.
    pub(crate) fn ok_or_fail<T, E: Drop>(&mut self, fallible: Result<T, E>) -> Option<T> {
        match fallible {
            Ok(value) => Some(value),
            Err(_) => {
                self.fail();
                None
            }
        }
    }

    /// Appends as many of the bytes as fit, and drops the rest.
    pub(crate) fn push(&mut self, bytes: &[u8]) {
        let space = (MAX_BYTES + 1).saturating_sub(self.bytes.len());
        let kept = bytes.get(..space).unwrap_or(bytes);
        if self.bytes.extend_from_slice(kept).is_err() {
            self.fail();
        }
    }

    /// Appends a number in decimal.
    pub(crate) fn push_number(&mut self, number: usize) {
        let mut buffer = Buffer::new();
        self.push(buffer.format(number).as_bytes());
    }

    /// Writes `LINE:COLUMN`, counted in the part that is explained, after the name of the file and
    /// a colon if there is a name; for an offset before that part, writes the number of the
    /// statement of the library at that offset.
    pub(crate) fn push_place(&mut self, text: &[u8], offset: usize) {
        let library_len = self.library_len;
        let within = offset.min(text.len());
        if within < library_len {
            self.push(b"statement ");
            self.push_number(line_and_column(text, within).line);
            self.push(b" of the library");
            return;
        }
        if let Some(name) = self.name {
            self.push(name.as_bytes());
            self.push(b":");
        }
        let explained = &text[library_len..];
        let place = line_and_column(explained, within - library_len);
        self.push_number(place.line);
        self.push(b":");
        self.push_number(place.column);
    }
}

/// Returns the token at a span, or an empty one if the span is not in the text.
pub(crate) fn token_in(text: &[u8], span: Span) -> &[u8] {
    match text.get(span.start..span.end) {
        Some(token) => token,
        None => b"",
    }
}
