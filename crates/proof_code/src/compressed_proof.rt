//! Compressed proofs.
ghost use Rattle.std.specs.Prelude.{◌≡◌, ◌↔◌, ◌<◌, ◌≤◌, ◌^◌, ◌++◌, length, take, drop, IsTrue};
ghost use Rattle.std.specs.Prelude.{IfOk, IfSome, Err};
ghost use Rattle.mm_lex.specs.Alphabet.{has_name};
ghost use Rattle.proof_code.specs.Writes.{is_unfinished, is_compressed, WritesFinishedCompressed};
ghost use Rattle.proof_code.specs.Writes.{IsMalformed};
ghost use Rattle.proof_code.specs.Reading.{share_label};
ghost use Rattle.proof_code.specs.LabelSets.{IsLabelSet};

use crate::fault::{CodeFault, is_unfinished};
use crate::items::Items;
use crate::reader::{Heading, Reader};
use mm_lex::{WordIter, Words};
use std::alloc::{AllocError, Global};
use std::collections::BTreeSet;

/// Returns whether the tokens are those of a compressed proof: whether the first one is `(`.
pub fn is_compressed(tokens: &Words) -> bool
    ensures { result ≡ is_compressed tokens.now }
{
    matches!(tokens.iter().next(), Some([b'(']))
}

/// Returns the items of a compressed proof. `mandatory` are the labels of the mandatory hypotheses
/// in frame order.
///
/// Errors: `Unfinished` if a token has the byte `?`, else `Malformed` if the tokens write no items,
/// both even if every allocation fails; else `Memory`. Cost: the sizes of the tokens and of the
/// mandatory labels, times the logarithm of their number (if an allocation fails, each listed label
/// may be compared with each mandatory one).
/// Source: Metamath, appendix B.
pub fn packed(alloc: Global, tokens: &Words, mandatory: &Words) -> Result<Items, CodeFault>
    requires { IsTrue (is_compressed tokens.now) }
    ensures items { IfOk result (λ items. WritesFinishedCompressed tokens.now mandatory.now items) }
    ensures unfinished { (result ≡ Err CodeFault.Unfinished) ↔ IsTrue (is_unfinished tokens.now) }
    ensures malformed { (result ≡ Err CodeFault.Malformed)
        ↔ IsMalformed tokens.now (WritesFinishedCompressed tokens.now mandatory.now) }
{
    if is_unfinished(tokens) {
        return Err(CodeFault::Unfinished);
    }
    let mut reader = Reader::new(alloc);
    let Some((heading, kept)) = reader.read_or_check(tokens, count_labels(mandatory)) else {
        return Err(CodeFault::Malformed);
    };
    let Heading { words, count } = heading;
    if shares_label(alloc, mandatory, words, count) {
        return Err(CodeFault::Malformed);
    }
    match (all_labels(alloc, tokens, mandatory, count), kept) {
        (Ok(labels), Ok(())) => Ok(Items::from_parts(labels, reader.into_numbers())),
        _ => Err(CodeFault::Memory),
    }
}

/// Returns how many labels there are: at most 2^62, since each takes at least a byte, and a space
/// is between two.
fn count_labels(labels: &Words) -> usize
    ensures count { result ≡ length labels.now }
    ensures few { result ≤ 2 ^ 62 }
{
    if labels.as_text().is_empty() {
        return 0;
    }
    labels.len()
}

/// Returns whether one of the first `count` words is a mandatory label.
fn shares_label(alloc: Global, mandatory: &Words, words: WordIter<'_>, count: usize) -> bool
    ensures { result ≡ share_label mandatory.now (take count words.entry) }
{
    let mut listed = words.take(count);
    match label_set(alloc, mandatory) {
        Some(names) => listed.any(|label| names.contains(label)),
        None => listed.any(|label| is_among(label, mandatory)),
    }
}

/// Returns whether a label is among others.
fn is_among(label: &[u8], labels: &Words) -> bool
    ensures { result ≡ has_name label.now labels.now }
{
    labels.iter().any(|other| label == other)
}

/// Returns the set of the labels, or `None` if an allocation fails.
///
/// Cost: the size of the labels, times the logarithm of their number.
#[tactic(auto, using(crate::proofs::LabelNameLemmas::names_more))]
pub fn label_set<'a>(alloc: Global, labels: &'a Words) -> Option<BTreeSet<&'a [u8]>>
    ensures { IfSome result (λ names. IsLabelSet names labels.entry.now) }
{
    let mut names = BTreeSet::new(alloc);
    let mut left = labels.iter();
    while let Some(label) = left.next() {
        let Ok(_) = names.insert(label) else {
            return None;
        };
    }
    Some(names)
}

/// Returns the mandatory labels, followed by the `count` labels that the tokens list.
fn all_labels(
    alloc: Global,
    tokens: &Words,
    mandatory: &Words,
    count: usize,
) -> Result<Words, AllocError>
    requires { count < length tokens.now }
    ensures { IfOk result (λ labels. labels ≡ mandatory.now ++ take count (drop 1 tokens.now)) }
{
    let mut labels = mandatory.copy(alloc)?;
    let mut words = tokens.iter();
    let _ = words.next();
    for _ in 0..count {
        let Some(label) = words.next() else {
            unreachable!();
        };
        labels.push(label)?;
    }
    Ok(labels)
}
