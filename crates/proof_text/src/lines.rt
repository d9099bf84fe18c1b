//! Wraps words and letters into lines.
ghost use Rattle.std.specs.Prelude.{◌≤◌};

use std::alloc::{AllocError, Global};

/// The maximum number of bytes in a line.
pub(crate) const WIDTH: usize = 79;

/// The number of spaces at the beginning of each line but the first.
pub(crate) const INDENT: usize = 4;

/// A text that is written word by word, in lines of at most 79 bytes. A longer word has a line of
/// its own.
#[derive(Drop)]
pub(crate) struct Lines {
    text: Vec<u8>,
    /// The number of bytes in the last line.
    column: usize,
}

impl Lines {
    /// Returns a text with this first word, after two spaces.
    ///
    /// Errors: an allocation fails.
    pub(crate) fn new(alloc: Global, word: &[u8]) -> Result<Lines, AllocError> {
        let mut text = Vec::from_slice(alloc, b"  ")?;
        text.extend_from_slice(word)?;
        let column = text.len();
        Ok(Lines { text, column })
    }

    /// Appends a word: after a space, or on the next line if it does not fit.
    pub(crate) fn push_word(&mut self, word: &[u8]) -> Result<(), AllocError> {
        let column = self.column.saturating_add(1).saturating_add(word.len());
        if column > WIDTH {
            self.begin_line()?;
            self.text.extend_from_slice(word)?;
            self.column = self.column.saturating_add(word.len());
        } else {
            self.text.push(b' ')?;
            self.text.extend_from_slice(word)?;
            self.column = column;
        }
        Ok(())
    }

    /// Lets the next word begin a line.
    pub(crate) fn end_line(&mut self) {
        self.column = WIDTH;
    }

    /// Appends letters that may be parted anywhere: as many as fit in each line.
    pub(crate) fn push_letters(&mut self, letters: &[u8]) -> Result<(), AllocError> {
        let mut at = 0usize;
        while at < letters.len() {
            let end = at.saturating_add(self.letter_room()).min(letters.len());
            self.push_word(&letters[at..end])?;
            at = end;
        }
        Ok(())
    }

    /// Returns how many letters fit after a space, or on the next line if none do; at least one.
    fn letter_room(&self) -> usize
        ensures { 1 ≤ result }
    {
        let room = WIDTH.saturating_sub(self.column).saturating_sub(1);
        if room == 0 { WIDTH - INDENT } else { room }
    }

    /// Begins a line.
    fn begin_line(&mut self) -> Result<(), AllocError> {
        self.text.extend_from_slice(b"\n    ")?;
        self.column = INDENT;
        Ok(())
    }

    /// Ends the last line, and returns the text.
    pub(crate) fn into_text(self) -> Result<Vec<u8>, AllocError> {
        let mut text = self.text;
        text.push(b'\n')?;
        Ok(text)
    }
}
