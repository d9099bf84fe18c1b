//! A reader and a writer that fail.
use std::alloc::{AllocError, Global};
use std::io::{self, ErrorKind, Read, Write};

/// A reader that returns one byte a call, and fails after some calls.
#[derive(Drop)]
pub struct FailingReader<'a> {
    text: &'a [u8],
    calls_left: usize,
    pub failed: bool,
}

impl<'a> FailingReader<'a> {
    /// Returns a reader that fails after `calls_left` calls.
    pub fn new(text: &'a [u8], calls_left: usize) -> FailingReader<'a> {
        FailingReader {
            text,
            calls_left,
            failed: false,
        }
    }
}

impl Read for FailingReader<'_> {
    fn read(&mut self, buf: &mut [u8]) -> io::Result<usize> {
        if self.calls_left == 0 {
            self.failed = true;
            return Err(io::Error::from(ErrorKind::Other));
        }
        self.calls_left -= 1;
        match self.text {
            [first, rest @ ..] => {
                if buf.is_empty() {
                    return Ok(0);
                }
                buf[0] = *first;
                self.text = rest;
                Ok(1)
            }
            [] => Ok(0),
        }
    }
}

/// A writer that takes one byte a call, and fails after some calls.
#[derive(Drop)]
pub struct FailingWriter {
    pub text: Vec<u8>,
    calls_left: usize,
    pub failed: bool,
    /// Whether it was called again after the failure.
    pub called_again: bool,
}

impl FailingWriter {
    /// Returns a writer that fails after `calls_left` calls.
    pub fn new(alloc: Global, calls_left: usize) -> FailingWriter {
        FailingWriter {
            text: Vec::new(alloc),
            calls_left,
            failed: false,
            called_again: false,
        }
    }
}

impl Write for FailingWriter {
    fn write(&mut self, buf: &[u8]) -> io::Result<usize> {
        if self.calls_left == 0 {
            self.called_again = self.failed;
            self.failed = true;
            return Err(io::Error::from(ErrorKind::Other));
        }
        self.calls_left -= 1;
        match buf {
            [first, ..] => {
                self.text.push(*first).map_err(AllocError::from)?;
                Ok(1)
            }
            [] => Ok(0),
        }
    }

    fn flush(&mut self) -> io::Result<()> {
        Ok(())
    }
}
