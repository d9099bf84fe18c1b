//! Reads a text that has bytes that are not allowed: each counts as a space.
ghost use Rattle.std.specs.Prelude.{◌≡◌, false, map, IfOk, OnOk};
ghost use Rattle.mm_lex.specs.Alphabet.{is_allowed};
ghost use Rattle.places.specs.RefusedBytes.{readable_byte, refused_runs, with_run};

use std::alloc::{AllocError, Global};

/// Returns the text with a space in place of each byte that is not allowed.
///
/// Errors: an allocation fails. Cost: the size of the text.
pub fn readable_text(alloc: Global, text: &[u8]) -> Result<Vec<u8>, AllocError>
    ensures { IfOk result (λ readable. readable.items ≡ map readable_byte text.now) }
{
    text.iter().map(|byte| readable_byte(*byte)).collect(alloc)
}

/// Returns the byte, or a space for one that is not allowed.
fn readable_byte(byte: u8) -> u8
    ensures { result ≡ readable_byte byte }
{
    if is_allowed(byte) { byte } else { b' ' }
}

/// Returns whether a text may have the byte.
fn is_allowed(byte: u8) -> bool
    ensures { result ≡ is_allowed byte }
{
    byte.is_ascii_graphic() || byte.is_ascii_whitespace()
}

/// Returns the offsets, ascending, at which runs of bytes that are not allowed begin.
///
/// Errors: an allocation fails. Cost: the size of the text.
pub fn refused_runs(alloc: Global, text: &[u8]) -> Result<Vec<usize>, AllocError>
    ensures { IfOk result (λ offsets. offsets.items ≡ refused_runs 0 false text.now) }
{
    let mut offsets = Vec::new(alloc);
    let mut is_inside = false;
    for (at, byte) in text.iter().enumerate() {
        let is_refused = !is_allowed(*byte);
        push_if_run_begins(&mut offsets, at, is_inside, is_refused)?;
        is_inside = is_refused;
    }
    Ok(offsets)
}

/// Appends the offset of a byte if a run begins there.
fn push_if_run_begins(
    offsets: &mut Vec<usize>,
    at: usize,
    was_refused: bool,
    is_refused: bool,
) -> Result<(), AllocError>
    ensures { OnOk result (offsets.new.items ≡ with_run offsets.old.items at was_refused is_refused) }
{
    if is_refused && !was_refused {
        offsets.push(at)?;
    }
    Ok(())
}
