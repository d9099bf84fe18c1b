//! The lines that scripts of `play` and of `serve` have in common.
ghost use Rattle.std.specs.Prelude.{◌≡◌};
ghost use Rattle.commands.specs.Scripts.{Parses};
ghost use Rattle.commands.specs.CommonLines.{overview_line, common_line, common_line_without_label};

use crate::line_words::{NodeEntryId, NodePair, Words};
use crate::node_question::{NodeQuestion, label_question_kind, parse_question};
use crate::offered_entry::{OfferedEntry, parse_charter_offer};
use crate::script::LineFault;
use std::alloc::Global;

/// A line that both commands have: an event at a node, or a question.
#[derive(Drop)]
pub enum CommonLine {
    /// `charter K AUTHOR SERIAL NAME ..`, or a text by `offer` (`play`) or `submit` (`serve`): an
    /// entry is offered.
    Offer(OfferedEntry),
    /// `begin K`: the node begins a ballot.
    Begin { node: u8 },
    /// `restart K`: the node restarts.
    Restart { node: u8 },
    /// `list K`: the assertions of the node's library.
    List { node: u8 },
    /// `export K`: the statements of the node's library.
    Export { node: u8 },
    /// `log K`: the entries that the node learned (`play`), or took over from its log (`serve`).
    Log { node: u8 },
    /// `state K`: the role of the node, its promise, and what it learned and applied.
    State { node: u8 },
    /// `status K AUTHOR SERIAL`: the verdict of the node's library.
    Status(NodeEntryId),
    /// `why K AUTHOR SERIAL`: the reason why the node's library refused the entry.
    Why(NodeEntryId),
    /// `trace K LABEL`, `tree`, `usage`, `show` and `proof`: a question about a label; `find K
    /// PATTERN`.
    Ask(NodeQuestion),
    /// `compare J K`: which of two nodes has the library with more statements.
    Compare(NodePair),
    /// `events`: the history so far, as lines of `play`.
    Events,
}

/// Parses the words after a verb as a line that both commands have and that offers no text.
///
/// Errors: `Bad` if the verb and the words are no such line; else `Memory` if an allocation fails.
pub(crate) fn parse_common_line(
    alloc: Global,
    verb: &[u8],
    words: Words<'_>,
) -> Result<CommonLine, LineFault>
    ensures { Parses (common_line verb.now words.entry) result }
{
    if verb == b"charter".as_slice() {
        let offered = parse_charter_offer(alloc, words)?;
        return Ok(CommonLine::Offer(offered));
    }
    match label_question_kind(verb) {
        Some(kind) => {
            let question = parse_question(alloc, kind, words)?;
            Ok(CommonLine::Ask(question))
        }
        None => parse_without_label(verb, words).ok_or(LineFault::Bad),
    }
}

/// Parses the words after a verb that offers no entry and asks about no label.
fn parse_without_label(verb: &[u8], words: Words<'_>) -> Option<CommonLine>
    ensures { result ≡ common_line_without_label verb.now words.entry }
{
    if verb == b"begin".as_slice() {
        Some(CommonLine::Begin {
            node: words.only_node()?,
        })
    } else if verb == b"restart".as_slice() {
        Some(CommonLine::Restart {
            node: words.only_node()?,
        })
    } else if verb == b"status".as_slice() {
        Some(CommonLine::Status(words.only_entry_id()?))
    } else if verb == b"why".as_slice() {
        Some(CommonLine::Why(words.only_entry_id()?))
    } else if verb == b"compare".as_slice() {
        Some(CommonLine::Compare(words.only_pair()?))
    } else {
        parse_overview(verb, words)
    }
}

/// Parses a question about a whole library or log, about the state of a node or about the history.
fn parse_overview(verb: &[u8], words: Words<'_>) -> Option<CommonLine>
    ensures { result ≡ overview_line verb.now words.entry }
{
    if verb == b"list".as_slice() {
        Some(CommonLine::List {
            node: words.only_node()?,
        })
    } else if verb == b"export".as_slice() {
        Some(CommonLine::Export {
            node: words.only_node()?,
        })
    } else if verb == b"log".as_slice() {
        Some(CommonLine::Log {
            node: words.only_node()?,
        })
    } else if verb == b"state".as_slice() {
        Some(CommonLine::State {
            node: words.only_node()?,
        })
    } else if verb == b"events".as_slice() && words.has_no_words() {
        Some(CommonLine::Events)
    } else {
        None
    }
}
