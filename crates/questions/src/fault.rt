//! Why a command ends without its answer.
use crate::streams::print;
use commands::ExpectedLine;
use extract::ExtractFault;
use library::AskFault;
use net::StepFault;
use proof_pages::WriteFault;
use proof_text::TextFault;
use std::alloc::AllocError;
use std::io::{self, Write};
use thiserror::Error;

/// The message for a run with more steps than a picture shows.
const LONG_RUN: &[u8] =
    b"the run has more steps than the 200 of a picture; give --events M, and --from N for later ones\n";

/// Why a command, or a line of a script, has no answer. Its text is the line that is printed.
#[derive(Debug, Drop, Error)]
pub enum Fault {
    /// A read of the input failed.
    #[error("refused Input")]
    Input,
    /// An allocation failed; no other variant says so.
    #[error("refused Memory")]
    Memory(#[from(alloc)] AllocError),
    /// A question about a label has no answer.
    #[error("refused {0:?}")]
    Ask(AskFault),
    /// The database does not have a symbol of a pattern, or the pattern has none.
    #[error("refused NoSymbol")]
    NoSymbol,
    /// Assertions cannot be extracted.
    #[error("refused {0:?}")]
    Extract(ExtractFault),
    /// A node refuses what a line asks for.
    #[error("refused {0:?}")]
    Step(StepFault),
    /// The text of a proof is too large.
    #[error("refused TooLarge")]
    LongProof,
    /// A picture has no room for the steps of a run.
    #[error("refused TooLarge")]
    LongRun,
    /// A line is bad. `number` is that of the first bad line, counted from 1 with the empty lines.
    #[error("bad line {number}")]
    BadLine {
        number: usize,
        expected: ExpectedLine,
    },
    /// A line of a session is bad.
    #[error("bad line {number}: {expected}")]
    BadSessionLine {
        number: usize,
        expected: ExpectedLine,
    },
    /// A write failed: nothing more is printed.
    #[error("")]
    Output,
}

impl Fault {
    /// Writes the line of this fault, and flushes the output.
    ///
    /// Errors: `Output` if a write fails, and always if this fault is `Output`.
    pub fn write<O: Write>(&self, output: &mut O) -> Result<(), Fault> {
        if let Fault::Output = self {
            return Err(Fault::Output);
        }
        writeln!(output, "{self}")?;
        print(output, b"")
    }

    /// Returns the exit status of this fault: 2 for a bad line, else 1.
    pub fn status(&self) -> u8 {
        match self {
            Fault::BadLine { .. } | Fault::BadSessionLine { .. } => 2,
            _ => 1,
        }
    }

    /// Writes the line of this fault, and returns the exit status: 1 if the line cannot be written.
    pub fn print<O: Write>(&self, output: &mut O) -> u8 {
        match self.write(output) {
            Ok(()) => self.status(),
            Err(_) => 1,
        }
    }

    /// Writes the line of this fault, and to `stderr` a sentence if the input, the output, a line of
    /// a script or a long run is at fault; returns the exit status, as `print` does.
    pub fn report<O: Write, F: Write>(&self, output: &mut O, stderr: &mut F) -> u8 {
        match self.write(output) {
            Ok(()) => {
                self.write_sentence(stderr);
                self.status()
            }
            Err(unwritten) => {
                unwritten.write_sentence(stderr);
                1
            }
        }
    }

    /// Writes the sentence of this fault to `stderr`, if it has one. Ignores a failed write.
    fn write_sentence<F: Write>(&self, stderr: &mut F) {
        let words = match self {
            Fault::Input => b"standard input cannot be read\n".as_slice(),
            Fault::Output => b"standard output cannot be written\n".as_slice(),
            Fault::LongRun => LONG_RUN,
            Fault::BadLine { number, expected } => {
                let _ = writeln!(stderr, "bad line {number}: {expected}");
                b"".as_slice()
            }
            _ => return,
        };
        let _ = print(stderr, words);
    }
}

impl From<io::Error> for Fault {
    /// Returns `Output`: `?` is for writes alone. A failed read returns `Input` by its own code.
    fn from(_error: io::Error) -> Fault {
        Fault::Output
    }
}

impl From<AskFault> for Fault {
    fn from(fault: AskFault) -> Fault {
        match fault {
            AskFault::Memory => Fault::Memory(AllocError),
            other => Fault::Ask(other),
        }
    }
}

impl From<ExtractFault> for Fault {
    fn from(fault: ExtractFault) -> Fault {
        match fault {
            ExtractFault::Memory => Fault::Memory(AllocError),
            other => Fault::Extract(other),
        }
    }
}

impl From<StepFault> for Fault {
    fn from(fault: StepFault) -> Fault {
        match fault {
            StepFault::Memory => Fault::Memory(AllocError),
            other => Fault::Step(other),
        }
    }
}

impl From<WriteFault> for Fault {
    fn from(fault: WriteFault) -> Fault {
        match fault {
            WriteFault::Memory => Fault::Memory(AllocError),
            WriteFault::Output => Fault::Output,
        }
    }
}

impl From<TextFault> for Fault {
    fn from(fault: TextFault) -> Fault {
        match fault {
            TextFault::TooLarge => Fault::LongProof,
            TextFault::Memory => Fault::Memory(AllocError),
        }
    }
}
