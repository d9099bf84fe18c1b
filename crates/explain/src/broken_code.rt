//! Finds the rule of proof code that tokens break.
ghost use Rattle.std.specs.Prelude.{◌≡◌, ◌++◌, ◌<◌, ◌≤◌, ◌^◌, List, length, false, IsTrue, IsFalse};
ghost use Rattle.std.specs.Prelude.{IfOk, IfSome, MatchOption};
ghost use Rattle.std.specs.List.{list_any, list_all};
ghost use Rattle.mm_lex.specs.Alphabet.{is_label, has_name};
ghost use Rattle.proof_code.specs.LabelSets.{IsLabelSet};
ghost use Rattle.proof_code.specs.declared.item.Item.{Item};
ghost use Rattle.proof_code.specs.Writes.{Writes, is_compressed, is_unfinished};
ghost use Rattle.explain.specs.Breaks.{IsFirst, IsBreak, has_fault, joined};

use crate::broken_letters::letter_break;
use crate::why::CodeBreak;
use mm_lex::{WordIter, Words, is_label};
use proof_code::{MAX_LABELS_OR_LETTERS, is_compressed, label_set};
use std::alloc::{AllocError, Global};
use std::collections::BTreeSet;

/// A fault of a token of a proof.
#[derive(Clone, Copy, Drop)]
pub(crate) enum TokenFault {
    /// The token has the byte `?`.
    Unfinished,
    /// The token is not a label.
    NotLabel,
    /// The token is not a label, or is the label of a mandatory hypothesis.
    NotListable,
}

/// Returns the rule of proof code that the tokens break. They must write no items under these
/// mandatory labels.
///
/// Errors: an allocation fails, or there are more than `MAX_LABELS_OR_LETTERS` tokens, mandatory
/// labels or letters. Cost: the tokens, times a logarithm of the number of mandatory labels.
pub(crate) fn code_break(
    alloc: Global,
    tokens: &Words,
    mandatory: &Words,
) -> Result<CodeBreak, AllocError>
    requires { (items : List Item) → ¬ Writes tokens.now mandatory.now items }
    ensures { IfOk result (IsBreak tokens.now mandatory.now) }
{
    if tokens.len() > MAX_LABELS_OR_LETTERS {
        return Err(AllocError);
    }
    if let Some((token, _)) = first_with_fault(
        &mut tokens.iter(),
        mandatory,
        None,
        TokenFault::Unfinished,
    ) {
        return Ok(CodeBreak::Unfinished { token });
    }
    if is_compressed(tokens) {
        return compressed_break(alloc, tokens, mandatory);
    }
    match first_with_fault(&mut tokens.iter(), mandatory, None, TokenFault::NotLabel) {
        Some((token, _)) => Ok(CodeBreak::NotLabel { token }),
        None => unreachable!(),
    }
}

/// Returns the rule that a compressed proof without the byte `?` breaks.
fn compressed_break(
    alloc: Global,
    tokens: &Words,
    mandatory: &Words,
) -> Result<CodeBreak, AllocError>
    requires compressed { IsTrue (is_compressed tokens.now) }
    requires finished { IsFalse (is_unfinished tokens.now) }
    requires few { length tokens.now ≤ 2 ^ 30 }
    requires none { (items : List Item) → ¬ Writes tokens.now mandatory.now items }
    ensures { IfOk result (IsBreak tokens.now mandatory.now) }
{
    match label_set(alloc, mandatory) {
        Some(mandatory_set) => code_break_with_set(alloc, tokens, mandatory, &mandatory_set),
        None => Err(AllocError),
    }
}

/// Returns the rule that a compressed proof without the byte `?` breaks, in its listed labels or in
/// its letters, given the mandatory labels also as a set.
fn code_break_with_set(
    alloc: Global,
    tokens: &Words,
    mandatory: &Words,
    mandatory_set: &BTreeSet<&[u8]>,
) -> Result<CodeBreak, AllocError>
    requires compressed { IsTrue (is_compressed tokens.now) }
    requires finished { IsFalse (is_unfinished tokens.now) }
    requires few { length tokens.now ≤ 2 ^ 30 }
    requires none { (items : List Item) → ¬ Writes tokens.now mandatory.now items }
    requires named { IsLabelSet mandatory_set.now mandatory.now }
    ensures { IfOk result (IsBreak tokens.now mandatory.now) }
{
    if mandatory.len() > MAX_LABELS_OR_LETTERS {
        return Err(AllocError);
    }
    let mut words = tokens.iter();
    let _ = words.next();
    // `listed` is the number of listed labels before `word`.
    let Some((listed, word)) = first_with_fault(
        &mut words,
        mandatory,
        Some(mandatory_set),
        TokenFault::NotListable,
    ) else {
        return Ok(CodeBreak::Unclosed);
    };
    if word == b")".as_slice() {
        let letters = join_letters(alloc, &mut words)?;
        if letters.len() > MAX_LABELS_OR_LETTERS {
            return Err(AllocError);
        }
        return match letter_break(letters.as_slice(), mandatory.len() + listed) {
            Some(broken) => Ok(CodeBreak::Letters(broken)),
            None => unreachable!(),
        };
    }
    let token = listed + 1;
    if is_label(word) {
        Ok(CodeBreak::Mandatory { token })
    } else {
        Ok(CodeBreak::NotLabel { token })
    }
}

/// Returns the index of the first token with this fault, and the token. Consumes the tokens up to
/// it.
///
/// Cost: linear in the tokens; for `NotListable` times the logarithm of the number of mandatory
/// labels if their set is given, else times that number.
fn first_with_fault<'a>(
    words: &mut WordIter<'a>,
    mandatory: &Words,
    mandatory_set: Option<&BTreeSet<&[u8]>>,
    fault: TokenFault,
) -> Option<(usize, &'a [u8])>
    requires few { length words.old < 2 ^ 64 }
    requires mandatory_set { IfSome mandatory_set (λ set. IsLabelSet set.now mandatory.now) }
    ensures { MatchOption result (list_any (has_fault mandatory.now fault) words.old ≡ false)
        (λ r. IsFirst (has_fault mandatory.now fault) words.old r.0 r.1.now words.new) }
{
    let mut index = 0usize;
    while let Some(word) = words.next() {
        if has_fault(word, mandatory, mandatory_set, fault) {
            return Some((index, word));
        }
        index += 1;
    }
    None
}

/// Returns whether the token has this fault.
fn has_fault(
    token: &[u8],
    mandatory: &Words,
    mandatory_set: Option<&BTreeSet<&[u8]>>,
    fault: TokenFault,
) -> bool
    requires { IfSome mandatory_set (λ set. IsLabelSet set.now mandatory.now) }
    ensures { result ≡ has_fault mandatory.now fault token.now }
{
    match fault {
        TokenFault::Unfinished => token.contains(&b'?'),
        TokenFault::NotLabel => !is_label(token),
        TokenFault::NotListable => !is_label(token) || has_label(mandatory, mandatory_set, token),
    }
}

/// Returns the letters of the tokens, joined.
///
/// Errors: an allocation fails.
fn join_letters(alloc: Global, words: &mut WordIter<'_>) -> Result<Vec<u8>, AllocError>
    ensures { IfOk result (λ letters. letters.items ≡ joined words.old) }
{
    let mut letters = Vec::new(alloc);
    while let Some(word) = words.next() {
        letters.extend_from_slice(word)?;
    }
    Ok(letters)
}

/// Returns whether a name is one of the labels, which may also be given as a set.
fn has_label(labels: &Words, label_set: Option<&BTreeSet<&[u8]>>, name: &[u8]) -> bool
    requires { IfSome label_set (λ set. IsLabelSet set.now labels.now) }
    ensures { result ≡ has_name name.now labels.now }
{
    match label_set {
        Some(label_set) => label_set.contains(name),
        None => labels.iter().any(|other| name == other),
    }
}
