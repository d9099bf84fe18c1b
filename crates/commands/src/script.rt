//! A script: the lines of one command.
ghost use Rattle.std.specs.Prelude.{◌≡◌, ◌++◌, [], ◌∷◌, Option, IsTrue};
ghost use Rattle.commands.specs.Scripts.{script_of, ParsesLine, ParsesScript};

use crate::bad_lines::ExpectedLine;
use crate::lines::Lines;
use std::alloc::Global;

/// The byte that ends a line.
pub const LINE_FEED: u8 = b'\n';

/// Why a line is not parsed.
#[derive(Debug, Drop, PartialEq, Eq)]
pub enum LineFault {
    /// The line is not one of its command, or the end of its text is missing.
    Bad,
    /// An allocation failed.
    Memory,
}

/// Why a script is not parsed.
#[derive(Debug, Drop, PartialEq, Eq)]
pub enum ScriptFault {
    /// A line is bad. `number` is that of the first bad line, counted from 1 with the empty lines.
    BadLine { number: usize },
    /// An allocation failed.
    Memory,
}

/// A line of a script of one command.
pub trait Line: Sized + Drop {
    ghost use Rattle.std.specs.Prelude.{ℕ, List, Option};

    /// The line that these bytes are by definition, given the lines that follow, and how many of
    /// those are its text; `None` if they are not a line of the command.
    ghost by_definition: { List ℕ → List (List ℕ) → Option (Self × ℕ) };

    /// Parses the bytes between two line feeds as a line, and takes the lines of its text.
    ///
    /// Errors: `Bad` if they are not a line of the command, or the end of its text is missing; else
    /// `Memory` if an allocation fails.
    fn parse<'a>(alloc: Global, line: &'a [u8], lines: &mut Lines<'a>) -> Result<Self, LineFault>
        ensures { ParsesLine (by_definition line.now lines.old.lines) lines.old lines.new result };

    /// Returns what may stand in place of a bad line. `following` are the bytes after the line.
    fn expected(line: &[u8], following: &[u8]) -> ExpectedLine;
}

/// Parses the lines of a script. Each ends with a line feed, which the last may lack; empty ones
/// are skipped.
///
/// Errors: `BadLine` with the number of the first bad line; else `Memory` if an allocation fails.
/// Cost: the size of the script.
pub fn parse_script<L: Line>(alloc: Global, script: &[u8]) -> Result<Vec<L>, ScriptFault>
    ensures { ParsesScript (script_of L.by_definition script.now) result }
{
    let mut rest = Lines::new(script);
    let mut lines = Vec::new(alloc);
    let mut is_out_of_memory = false;
    while let Some(line) = rest.take() {
        if line.is_empty() {
            continue;
        }
        let number = rest.number();
        match L::parse(alloc, line, &mut rest) {
            Ok(line) => is_out_of_memory |= !try_push(&mut lines, line),
            Err(LineFault::Bad) => return Err(ScriptFault::BadLine { number }),
            Err(LineFault::Memory) => is_out_of_memory = true,
        }
    }
    if is_out_of_memory {
        return Err(ScriptFault::Memory);
    }
    Ok(lines)
}

/// Appends a line. Returns whether the allocation succeeded.
fn try_push<L: Drop>(lines: &mut Vec<L>, line: L) -> bool
    ensures { IsTrue result → lines.new.items ≡ lines.old.items ++ line ∷ [] }
{
    lines.push(line).is_ok()
}
