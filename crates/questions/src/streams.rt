//! Reading the input and printing.
use crate::fault::Fault;
use library::MAX_BYTES;
use std::alloc::Global;
use std::io::{ErrorKind, Read, Write};

/// How many bytes a read asks for.
const BUFFER_SIZE: usize = 65_536;

/// Reads a database: the whole input, or its first bytes, one more than a text may have.
pub fn read_text<I: Read>(alloc: Global, input: &mut I) -> Result<Vec<u8>, Fault> {
    read_at_most(alloc, input, MAX_BYTES + 1)
}

/// Reads the whole input, or its first `most` bytes.
///
/// Reserves room for the longest database first, if allocation succeeds, so that no byte of a
/// database is moved later; pages of memory that stay unused cost nothing.
pub fn read_at_most<I: Read>(alloc: Global, input: &mut I, most: usize) -> Result<Vec<u8>, Fault> {
    let mut text = Vec::new(alloc);
    let _ = text.reserve(most.min(MAX_BYTES));
    let mut buffer = vec![in alloc; 0u8; BUFFER_SIZE]?;
    for _ in 0..u64::MAX {
        let wanted = most.saturating_sub(text.len()).min(buffer.len());
        if wanted == 0 {
            return Ok(text);
        }
        match input.read(&mut buffer[..wanted]) {
            Ok(0) => return Ok(text),
            Ok(count) => text.extend_from_slice(&buffer[..count])?,
            Err(error) if error.kind() == ErrorKind::Interrupted => {}
            Err(_) => return Err(Fault::Input),
        }
    }
    Err(Fault::Input)
}

/// Writes a text and flushes the writer.
///
/// Errors: `Output` if the writer fails.
pub fn print<W: Write>(writer: &mut W, text: &[u8]) -> Result<(), Fault> {
    writer.write_all(text)?;
    writer.flush()?;
    Ok(())
}
