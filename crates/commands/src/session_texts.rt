//! The end of a text that a line of `serve` gives on the lines that follow it.
ghost use Rattle.std.specs.Prelude.{◌≡◌, option_map};
ghost use Rattle.commands.specs.SessionLines.{end_by, end_view, first_form, text_end_of, text_size};
ghost use Rattle.commands.specs.ServeLines.{add_form, submit_form};

use crate::line_words::Words;
use crate::serve_line::{added_form, submitted_form};
use crate::text_form::{TextForm, only_word};
use library::MAX_BYTES;

/// Where a text ends.
#[derive(Clone, Copy, Debug, PartialEq, Eq)]
pub enum TextEnd<'a> {
    /// At the first line that is this word alone.
    AtWord(&'a [u8]),
    /// At a line feed after this many bytes.
    AfterBytes(u64),
}

/// Returns where the text of a line ends. Returns `None` if the line has no text on the lines that
/// follow it, or is bad whatever lines follow, or if its text would be too long for any library.
/// Does not allocate.
pub fn text_end(line: &[u8]) -> Option<TextEnd<'_>>
    ensures { option_map end_view result ≡ text_end_of line.now }
{
    let mut words = Words::new(line);
    let form = text_form(words.take()?)?;
    // The node, author and serial number of the line.
    let _entry_id = words.take_entry_id()?;
    end_of(form, words)
}

/// Returns the form of the text that a verb gives, if it gives one.
fn text_form(verb: &[u8]) -> Option<TextForm>
    ensures { result ≡ first_form (submit_form verb.now) (add_form verb.now) }
{
    match submitted_form(verb) {
        Some(form) => Some(form),
        None => added_form(verb),
    }
}

/// Returns where a text in this form ends, given the words after its author and serial number.
fn end_of(form: TextForm, words: Words<'_>) -> Option<TextEnd<'_>>
    ensures { option_map end_view result ≡ end_by form words.entry }
{
    match form {
        TextForm::Rest => None,
        TextForm::Lines => Some(TextEnd::AtWord(only_word(words)?)),
        TextForm::Bytes => Some(TextEnd::AfterBytes(text_size(words.only_number()?)?)),
    }
}

/// Returns a number of bytes, if no text that has so many is too long.
fn text_size(number: u64) -> Option<u64>
    ensures { result ≡ text_size number }
{
    if number > MAX_BYTES as u64 {
        None
    } else {
        Some(number)
    }
}
