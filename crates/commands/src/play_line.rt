//! The lines of `play`.
ghost use Rattle.std.specs.Prelude.{◌≡◌};
ghost use Rattle.commands.specs.Scripts.{Parses};
ghost use Rattle.commands.specs.PlayLines.{line_or_common_line, play_line_of, play_text_form};
ghost use Rattle.commands.specs.PlayLines.{play_only_line};

use crate::bad_lines::ExpectedLine;
use crate::common_line::{CommonLine, parse_common_line};
use crate::line_words::Words;
use crate::lines::Lines;
use crate::offered_entry::parse_text_offer;
use crate::script::{Line, LineFault};
use crate::text_form::{TextForm, form_of};
use std::alloc::Global;

/// A line of a script of `play`.
#[derive(Drop)]
pub enum PlayLine {
    /// A line that both commands have, or `offer`, `offer-lines` or `offer-bytes`, which offers a
    /// text.
    Common(CommonLine),
    /// `deliver N`: a packet is delivered. Packets count from 0 in the order of posting.
    Deliver { packet: u64 },
    /// `apply K`: the next entry of the node's log is applied.
    Apply { node: u8 },
    /// `show N`: a packet is shown. `show K LABEL` is a line that both commands have.
    Show { packet: u64 },
}

impl Line for PlayLine {
    ghost by_definition = { play_line_of };

    fn parse<'a>(
        alloc: Global,
        line: &'a [u8],
        lines: &mut Lines<'a>,
    ) -> Result<PlayLine, LineFault> {
        let mut words = Words::new(line);
        let verb = words.take().ok_or(LineFault::Bad)?;
        match text_form(verb) {
            Some(form) => {
                let offered = parse_text_offer(alloc, form, words, lines)?;
                Ok(PlayLine::Common(CommonLine::Offer(offered)))
            }
            None => parse_without_text(alloc, verb, words),
        }
    }

    fn expected(line: &[u8], following: &[u8]) -> ExpectedLine {
        ExpectedLine::of_play(line, following)
    }
}

/// Returns the form of the text that a verb offers, if it offers one.
fn text_form(verb: &[u8]) -> Option<TextForm>
    ensures { result ≡ play_text_form verb.now }
{
    form_of(
        verb,
        b"offer".as_slice(),
        b"offer-lines".as_slice(),
        b"offer-bytes".as_slice(),
    )
}

/// Parses the words after a verb that offers no text.
fn parse_without_text(alloc: Global, verb: &[u8], words: Words<'_>) -> Result<PlayLine, LineFault>
    ensures { Parses (line_or_common_line (play_only_line verb.now words.entry) verb.now words.entry) result }
{
    if let Some(line) = parse_play_only(verb, words.copy()) {
        return Ok(line);
    }
    Ok(PlayLine::Common(parse_common_line(alloc, verb, words)?))
}

/// Parses the words after a verb that `serve` does not have.
fn parse_play_only(verb: &[u8], words: Words<'_>) -> Option<PlayLine>
    ensures { result ≡ play_only_line verb.now words.entry }
{
    if verb == b"deliver".as_slice() {
        Some(PlayLine::Deliver {
            packet: words.only_number()?,
        })
    } else if verb == b"apply".as_slice() {
        Some(PlayLine::Apply {
            node: words.only_node()?,
        })
    } else if verb == b"show".as_slice() {
        Some(PlayLine::Show {
            packet: words.only_number()?,
        })
    } else {
        None
    }
}
