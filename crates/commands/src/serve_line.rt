//! The lines of `serve`.
ghost use Rattle.std.specs.Prelude.{◌≡◌};
ghost use Rattle.commands.specs.Scripts.{Parses, ParsesLine};
ghost use Rattle.commands.specs.ServeLines.{add_form, add_line_or_else, charter_line_or_else};
ghost use Rattle.commands.specs.ServeLines.{line_or_common_line};
ghost use Rattle.commands.specs.ServeLines.{serve_line_of};
ghost use Rattle.commands.specs.ServeLines.{serve_only_line, submit_form};

use crate::bad_lines::ExpectedLine;
use crate::common_line::{CommonLine, parse_common_line};
use crate::line_words::{NodeEntryId, Words};
use crate::lines::Lines;
use crate::offered_entry::{OfferedEntry, parse_charter_offer, parse_text_offer};
use crate::script::{Line, LineFault};
use crate::text_form::{TextForm, form_of};
use std::alloc::Global;

/// A line of a script of `serve`.
#[derive(Drop)]
pub enum ServeLine {
    /// A line that both commands have, or `submit`, `submit-lines` or `submit-bytes`, which offers
    /// a text.
    Common(CommonLine),
    /// `settle K AUTHOR SERIAL`: waits, up to a limit, for the verdict of the node's library.
    Settle(NodeEntryId),
    /// `add`, `add-lines`, `add-bytes` and `add-charter`: an entry is submitted, again and again up
    /// to a limit, until its verdict is known.
    Add(OfferedEntry),
    /// `health`: the state of each node, and how many events are taken.
    Health,
    /// `store K`: what node K keeps in its folder.
    Store { node: u8 },
}

impl Line for ServeLine {
    ghost by_definition = { serve_line_of };

    fn parse<'a>(
        alloc: Global,
        line: &'a [u8],
        lines: &mut Lines<'a>,
    ) -> Result<ServeLine, LineFault> {
        let mut words = Words::new(line);
        let verb = words.take().ok_or(LineFault::Bad)?;
        match submitted_form(verb) {
            Some(form) => {
                let offered = parse_text_offer(alloc, form, words, lines)?;
                Ok(ServeLine::Common(CommonLine::Offer(offered)))
            }
            None => parse_add_or_else(alloc, verb, words, lines),
        }
    }

    fn expected(line: &[u8], following: &[u8]) -> ExpectedLine {
        ExpectedLine::of_serve(line, following)
    }
}

/// Returns the form of the text that a verb submits, if it submits one.
pub(crate) fn submitted_form(verb: &[u8]) -> Option<TextForm>
    ensures { result ≡ submit_form verb.now }
{
    form_of(
        verb,
        b"submit".as_slice(),
        b"submit-lines".as_slice(),
        b"submit-bytes".as_slice(),
    )
}

/// Returns the form of the text that a verb adds, if it adds one.
pub(crate) fn added_form(verb: &[u8]) -> Option<TextForm>
    ensures { result ≡ add_form verb.now }
{
    form_of(
        verb,
        b"add".as_slice(),
        b"add-lines".as_slice(),
        b"add-bytes".as_slice(),
    )
}

/// Parses the words after a verb that submits no text: one that adds a text, or gives none.
fn parse_add_or_else<'a>(
    alloc: Global,
    verb: &[u8],
    words: Words<'a>,
    lines: &mut Lines<'a>,
) -> Result<ServeLine, LineFault>
    ensures { ParsesLine (add_line_or_else lines.old.lines verb.now words.entry)
        lines.old lines.new result }
{
    match added_form(verb) {
        Some(form) => {
            let offered = parse_text_offer(alloc, form, words, lines)?;
            Ok(ServeLine::Add(offered))
        }
        None => parse_charter_or_else(alloc, verb, words),
    }
}

/// Parses the words after a verb that gives no text: one that adds a charter, or another one.
fn parse_charter_or_else(
    alloc: Global,
    verb: &[u8],
    words: Words<'_>,
) -> Result<ServeLine, LineFault>
    ensures { Parses (charter_line_or_else verb.now words.entry) result }
{
    if verb == b"add-charter".as_slice() {
        let offered = parse_charter_offer(alloc, words)?;
        return Ok(ServeLine::Add(offered));
    }
    parse_without_text(alloc, verb, words)
}

/// Parses the words after a verb that gives no text and adds no charter.
fn parse_without_text(alloc: Global, verb: &[u8], words: Words<'_>) -> Result<ServeLine, LineFault>
    ensures { Parses (line_or_common_line (serve_only_line verb.now words.entry) verb.now words.entry) result }
{
    if let Some(line) = parse_serve_only(verb, words.copy()) {
        return Ok(line);
    }
    Ok(ServeLine::Common(parse_common_line(alloc, verb, words)?))
}

/// Parses the words after a verb that `play` does not have.
fn parse_serve_only(verb: &[u8], words: Words<'_>) -> Option<ServeLine>
    ensures { result ≡ serve_only_line verb.now words.entry }
{
    if verb == b"settle".as_slice() {
        Some(ServeLine::Settle(words.only_entry_id()?))
    } else if verb == b"health".as_slice() && words.copy().has_no_words() {
        Some(ServeLine::Health)
    } else if verb == b"store".as_slice() {
        Some(ServeLine::Store {
            node: words.only_node()?,
        })
    } else {
        None
    }
}
