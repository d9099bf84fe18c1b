//! Why a `$p` is not proved.

use crate::reason::Reason;
use proof_code::Items;

/// Why the tokens of a `$p` do not prove it.
#[derive(Drop)]
pub enum WhyUnproved {
    /// They write no items.
    Code(CodeBreak),
    /// They write these items, and the run over them has this first fault.
    Run { items: Items, reason: Reason },
}

/// The rule of proof code that tokens break; tokens are indexed from 0. Source: Metamath, 4.3 and
/// appendix B.
#[derive(Clone, Copy, Debug, Drop)]
pub enum CodeBreak {
    /// The first token with the byte `?`.
    Unfinished { token: usize },
    /// The first token that is not a label where a label is required.
    NotLabel { token: usize },
    /// The first listed label that is the label of a mandatory hypothesis.
    Mandatory { token: usize },
    /// No `)` follows the listed labels.
    Unclosed,
    /// The letters after `)` break a rule.
    Letters(LetterBreak),
}

/// The rule that the letters of a compressed proof break, and where. The letters are those of all
/// tokens after `)`, joined and indexed from 0.
#[derive(Clone, Copy, Debug, Drop)]
pub struct LetterBreak {
    /// The index of the letter that has the fault, or that begins the letter group with the fault.
    pub letter: usize,
    /// The fault there.
    pub fault: LetterFault,
}

/// A fault of the letters at an index. The letters before the index write items. For `NotLetter`,
/// letters U to Y that begin a letter group may stand between those and the index.
#[derive(Clone, Copy, Debug, Drop)]
pub enum LetterFault {
    /// The byte is not one of A to Z.
    NotLetter,
    /// No letter A to T ends the letters U to Y that begin here.
    NotEnded,
    /// A mark comes before any number.
    EarlyMark,
    /// The number of the letter group that begins here is greater than the count of labels and
    /// marks so far.
    TooGreat,
}
