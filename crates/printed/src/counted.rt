//! Answers of several lines, which begin with their line count, and logs of values that packets
//! carry.
ghost use Rattle.std.specs.Prelude.{◌≡◌, ◌++◌, OnOk};
ghost use Rattle.printed.specs.Counted.{counted_lines_text, carried_log_text, line_feeds_of};

use crate::packets::push_spaced_value;
use std::alloc::AllocError;
use text::push_number;
use world::Carried;

/// Appends a line of a word and the count of `lines`, and then `lines`, each with its line feed.
pub fn push_counted_lines(text: &mut Vec<u8>, word: &[u8], lines: &[u8]) -> Result<(), AllocError>
    ensures { OnOk result (text.new.items ≡ text.old.items ++ counted_lines_text word.now lines.now) }
{
    text.extend_from_slice(word)?;
    text.extend_from_slice(b" ")?;
    push_number(text, line_feeds(lines) as u64)?;
    text.extend_from_slice(b"\n")?;
    text.extend_from_slice(lines)
}

/// Counts the line feeds of a text.
fn line_feeds(text: &[u8]) -> usize
    ensures { result ≡ line_feeds_of text.now }
{
    text.iter().filter(|byte| **byte == b'\n').count()
}

/// Appends a log on one line, as `push_log` does. Here its entries are values that packets carry:
/// `serve` prints those that a node took over from its log.
pub fn push_carried_log(text: &mut Vec<u8>, entries: &[Option<Carried>]) -> Result<(), AllocError>
    ensures { OnOk result (text.new.items ≡ text.old.items ++ carried_log_text entries.now) }
{
    text.extend_from_slice(b"log")?;
    for entry in entries {
        push_spaced_value(text, entry)?;
    }
    text.extend_from_slice(b"\n")
}
