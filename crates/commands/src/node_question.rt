//! Questions about a label, or a pattern, in the library of a node.
ghost use Rattle.std.specs.Prelude.{◌≡◌, option_map};
ghost use Rattle.commands.specs.Scripts.{Parses};
ghost use Rattle.commands.specs.NodeQuestions.{asked_of, label_question_kind_of, node_question_of};
ghost use Rattle.commands.specs.NodeQuestions.{pattern_of, usage_of};

use crate::line_words::Words;
use crate::script::LineFault;
use crate::text_form::only_word;
use bytes::Bytes;
use std::alloc::Global;

/// The kind of a question about a label. The label itself stands in `NodeQuestion`.
#[derive(Clone, Copy, Debug, PartialEq, Eq)]
pub enum LabelQuestionKind {
    /// `trace`: the `$a` that the `$p` rests on, directly or through other `$p`.
    Trace,
    /// `tree`: the derivation of the `$p`.
    Tree,
    /// `usage`: the `$p` whose proofs cite the statement.
    Usage,
    /// `usage` with `all` after the label: the `$p` that use the statement, also indirectly.
    UsageAll,
    /// `show`: the statement as a block of lines.
    Show,
    /// `proof`: the steps of the proof of the `$p`.
    Proof,
    /// `find`: the assertions that have a pattern, which stands in place of the label.
    Find,
}

/// A question about a label in the library of a node.
#[derive(Drop)]
pub struct NodeQuestion {
    pub node: u8,
    pub kind: LabelQuestionKind,
    /// The label; of `Find` the pattern.
    pub label: Bytes,
}

/// Returns the kind of question about a label that a verb asks, or `None` if it asks none.
pub(crate) fn label_question_kind(verb: &[u8]) -> Option<LabelQuestionKind>
    ensures { result ≡ label_question_kind_of verb.now }
{
    if verb == b"trace".as_slice() {
        Some(LabelQuestionKind::Trace)
    } else if verb == b"tree".as_slice() {
        Some(LabelQuestionKind::Tree)
    } else if verb == b"usage".as_slice() {
        Some(LabelQuestionKind::Usage)
    } else if verb == b"show".as_slice() {
        Some(LabelQuestionKind::Show)
    } else if verb == b"proof".as_slice() {
        Some(LabelQuestionKind::Proof)
    } else if verb == b"find".as_slice() {
        Some(LabelQuestionKind::Find)
    } else {
        None
    }
}

/// Parses `K LABEL`, the words after the verb, as a question of this kind. After the label of
/// `usage` the word `all` may follow; for `find` all words after the node are the pattern.
pub(crate) fn parse_question(
    alloc: Global,
    kind: LabelQuestionKind,
    mut words: Words<'_>,
) -> Result<NodeQuestion, LineFault>
    ensures { Parses (node_question_of kind words.entry) result }
{
    let node = words.take_node().ok_or(LineFault::Bad)?;
    let (kind, label) = asked(kind, words).ok_or(LineFault::Bad)?;
    let Ok(label) = Bytes::copy_from_slice(alloc, label) else {
        return Err(LineFault::Memory);
    };
    Ok(NodeQuestion { node, kind, label })
}

/// Returns the kind of a question of this kind or of one with `all`, and its label.
fn asked<'a>(kind: LabelQuestionKind, words: Words<'a>) -> Option<(LabelQuestionKind, &'a [u8])>
    ensures { option_map (λ a. (a.0, a.1.now)) result ≡ asked_of kind words.entry }
{
    match kind {
        LabelQuestionKind::Usage => usage_asked(words),
        LabelQuestionKind::Find => pattern_asked(words),
        _ => Some((kind, only_word(words)?)),
    }
}

/// Returns the kind and the label of a question that `usage` asks by these words.
fn usage_asked<'a>(mut words: Words<'a>) -> Option<(LabelQuestionKind, &'a [u8])>
    ensures { option_map (λ a. (a.0, a.1.now)) result ≡ usage_of words.entry }
{
    let label = words.take()?;
    if label.is_empty() {
        return None;
    }
    match words.take() {
        None => Some((LabelQuestionKind::Usage, label)),
        Some(word) => {
            if word == b"all".as_slice() && words.has_no_words() {
                Some((LabelQuestionKind::UsageAll, label))
            } else {
                None
            }
        }
    }
}

/// Returns the kind and the pattern of a question that `find` asks by these words: the rest of the
/// line, unless it is empty.
fn pattern_asked<'a>(words: Words<'a>) -> Option<(LabelQuestionKind, &'a [u8])>
    ensures { option_map (λ a. (a.0, a.1.now)) result ≡ pattern_of words.entry }
{
    let pattern = words.text();
    if pattern.is_empty() {
        return None;
    }
    Some((LabelQuestionKind::Find, pattern))
}
