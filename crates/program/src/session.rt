//! The lines that `serve` answers: those of a script that is read whole, or those of a session
//! (`serve --live`), in which each line is answered before the next one is read.
ghost use Rattle.std.specs.Prelude.{◌≤◌, OnOk, vec_len};

use crate::scripts::{LineSource, read_script, split_line};
use commands::{
    ExpectedLine, LINE_FEED, Line, ScriptFault, ServeLine, SessionLine, TextEnd, parse_script,
    text_end,
};
use questions::Fault;
use std::alloc::{AllocError, Global};
use std::io::{BufRead, BufReader, ErrorKind, Read};
use std::vec::IntoIter;

/// A line that `serve` answers, or the fault that is printed in its place.
pub type ServedLine = Result<SessionLine, Fault>;

/// The lines of a script that was read whole.
#[derive(Drop)]
pub struct Script {
    lines: IntoIter<ServeLine>,
}

impl Script {
    /// Reads a script.
    ///
    /// Errors: the input cannot be read; a line is bad; an allocation fails.
    pub fn read<I: Read>(alloc: Global, input: &mut I) -> Result<Script, Fault> {
        Ok(Script {
            lines: read_script(alloc, input)?.into_iter(),
        })
    }
}

impl LineSource<ServedLine> for Script {
    fn next_line(&mut self) -> Result<Option<ServedLine>, Fault> {
        match self.lines.next() {
            Some(line) => Ok(Some(Ok(SessionLine::Serve(line)))),
            None => Ok(None),
        }
    }

    fn is_live(&self) -> bool {
        false
    }
}

/// The lines of a session that are not read yet.
#[derive(Drop)]
pub struct Session<'a, I: Read> {
    alloc: Global,
    input: BufReader<&'a mut I>,
    /// The bytes of the line that was read last, and of the lines after it that are the text that
    /// it submits.
    text: Vec<u8>,
    /// How many lines were read, with the empty ones and those of texts.
    number: usize,
}

impl<I: Read> LineSource<ServedLine> for Session<'_, I> {
    /// Reads the next line, with the lines of its text, and parses it. An empty line is a bad one.
    fn next_line(&mut self) -> Result<Option<ServedLine>, Fault> {
        self.text.clear();
        if !self.read_line()? {
            return Ok(None);
        }
        let number = self.number;
        self.read_text()?;
        Ok(Some(self.parse_line(number)))
    }

    fn is_live(&self) -> bool {
        true
    }
}

impl<'a, I: Read> Session<'a, I> {
    /// Begins a session. Reads nothing yet.
    ///
    /// Errors: an allocation fails.
    pub fn new(alloc: Global, input: &'a mut I) -> Result<Self, Fault> {
        Ok(Session {
            alloc,
            input: BufReader::new(alloc, input).map_err(|_| Fault::Memory(AllocError))?,
            text: Vec::new(alloc),
            number: 0,
        })
    }

    /// Parses the line that was read last, which has this number.
    fn parse_line(&self, number: usize) -> ServedLine {
        let expected = match parse_script::<SessionLine>(self.alloc, self.text.as_slice()) {
            Ok(mut lines) => match lines.pop() {
                Some(line) => return Ok(line),
                None => ExpectedLine::EMPTY,
            },
            Err(ScriptFault::Memory) => return Err(Fault::Memory(AllocError)),
            Err(ScriptFault::BadLine { .. }) => {
                let (line, following) = split_line(self.text.as_slice());
                SessionLine::expected(line, following)
            }
        };
        Err(Fault::BadSessionLine { number, expected })
    }

    /// Appends the lines that are the text of the line, if it has its text on the lines that
    /// follow.
    fn read_text(&mut self) -> Result<(), Fault> {
        // The line feed included.
        let line_length = self.text.len();
        match text_end(split_line(self.text.as_slice()).0) {
            None => Ok(()),
            Some(TextEnd::AfterBytes(count)) => {
                self.read_bytes(line_length.saturating_add(count as usize).saturating_add(1))
            }
            Some(TextEnd::AtWord(word)) => {
                let word = Vec::from_slice(self.alloc, word)?;
                self.read_until(word.as_slice())
            }
        }
    }

    /// Appends lines until there are `wanted` bytes in all, or the input ends.
    fn read_bytes(&mut self, wanted: usize) -> Result<(), Fault> {
        for _ in 0..u64::MAX {
            if self.text.len() >= wanted || !self.read_line()? {
                break;
            }
        }
        Ok(())
    }

    /// Appends lines up to the first that is the word alone, or to the end of the input.
    fn read_until(&mut self, word: &[u8]) -> Result<(), Fault> {
        for _ in 0..u64::MAX {
            let start = self.text.len();
            if !self.read_line()? || split_line(&self.text[start..]).0 == word {
                break;
            }
        }
        Ok(())
    }

    /// Appends the next line with its line feed, which the last may lack. Returns `false` if the
    /// input has ended.
    fn read_line(&mut self) -> Result<bool, Fault>
        ensures { OnOk result (vec_len self.old.text ≤ vec_len self.new.text) }
    {
        match self.input.read_until(LINE_FEED, &mut self.text) {
            Ok(0) => Ok(false),
            Ok(_) => {
                self.number = self.number.saturating_add(1);
                Ok(true)
            }
            Err(error) if error.kind() == ErrorKind::OutOfMemory => {
                Err(Fault::Memory(AllocError))
            }
            Err(_) => Err(Fault::Input),
        }
    }
}
