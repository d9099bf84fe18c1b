//! Explains why the tokens of a proof cannot be read as citations, recalls and marks: which rule of
//! proof code they break.

use crate::item_spots::{Spot, letter_spot};
use crate::statement_symbols::token_at;
use crate::theorem::Theorem;
use crate::written_lines::Lines;
use explain::{CodeBreak, LetterFault};
use mm_lex::Words;
use proof_code::is_compressed;

/// The message for letters U to Y that no letter A to T ends.
const NOT_ENDED: &[u8] = b"a number is not ended: no letter A to T ends these letters U to Y";

/// Writes the rule that the tokens break, and where.
pub(crate) fn explain_break(lines: &mut Lines<'_>, theorem: &Theorem<'_>, broken: CodeBreak) {
    let proof = theorem.proof;
    match broken {
        CodeBreak::Unfinished { token } => {
            theorem.push_spot(lines, Spot { token, byte: 0 });
            lines.push(b" is not finished\n");
        }
        CodeBreak::NotLabel { token } => {
            push_unreadable_with(
                lines,
                theorem,
                Spot { token, byte: 0 },
                not_a_label_message(proof),
            );
        }
        CodeBreak::Mandatory { token } => push_mandatory(lines, theorem, token),
        CodeBreak::Unclosed => {
            let end = Spot {
                token: proof.len(),
                byte: 0,
            };
            push_unreadable_with(lines, theorem, end, b"no ) stands behind the listed labels");
        }
        CodeBreak::Letters(broken) => {
            let spot = letter_spot(proof, broken.letter);
            let message = letters_message(proof, spot, broken.fault);
            push_unreadable_with(lines, theorem, spot, message);
        }
    }
}

/// Writes that a listed label is the label of a mandatory hypothesis.
fn push_mandatory(lines: &mut Lines<'_>, theorem: &Theorem<'_>, token: usize) {
    push_unreadable(lines, theorem, Spot { token, byte: 0 });
    lines.push(token_at(theorem.proof, token));
    lines.push(b" is a mandatory hypothesis of ");
    lines.push(theorem.label);
    lines.push(b" and may not be listed\n");
}

/// Writes the place at which the tokens cannot be read, and the message that says why.
fn push_unreadable_with(lines: &mut Lines<'_>, theorem: &Theorem<'_>, spot: Spot, message: &[u8]) {
    push_unreadable(lines, theorem, spot);
    lines.push(message);
    lines.push(b"\n");
}

/// Writes the place at which the tokens cannot be read.
fn push_unreadable(lines: &mut Lines<'_>, theorem: &Theorem<'_>, spot: Spot) {
    theorem.push_spot(lines, spot);
    lines.push(b" cannot be read\n  ");
}

/// Returns the message for a token that is not a label.
fn not_a_label_message(proof: &Words) -> &'static [u8] {
    if is_compressed(proof) {
        b"this token is no label, and no ) stands before it"
    } else {
        b"this token is no label"
    }
}

/// Returns the message for a fault of the letters at a spot. A number that is not ended is named so
/// even if every number that begins like it is too great.
fn letters_message(proof: &Words, spot: Spot, fault: LetterFault) -> &'static [u8] {
    match fault {
        LetterFault::NotLetter => b"this is no letter of a compressed proof",
        LetterFault::NotEnded => NOT_ENDED,
        LetterFault::TooGreat if is_unended(proof, spot) => NOT_ENDED,
        LetterFault::EarlyMark => b"this Z marks a result, and none stands before it",
        LetterFault::TooGreat => b"this number is greater than all labels and marks have",
    }
}

/// Returns whether the letters from a spot to the end of the proof are all U to Y.
fn is_unended(proof: &Words, spot: Spot) -> bool {
    let mut token = 0usize;
    let mut rest = proof.iter();
    while let Some(letters) = rest.next() {
        let first = if token == spot.token { spot.byte } else { 0 };
        if token >= spot.token
            && letters
                .iter()
                .skip(first)
                .any(|letter| *letter < b'U' || *letter > b'Y')
        {
            return false;
        }
        token = token.saturating_add(1);
    }
    true
}
