//! Finds an item or a letter among the tokens of a proof.
//!
//! An item is a citation, a recall of a marked result, or a mark `Z`. The number of a citation is
//! that of its label; recalls are numbered after the labels; a mark has the number 0. In a normal
//! proof each token is an item, a citation. In a compressed proof the items are in the letters
//! after `)`: a citation or recall is a letter group, letters U to Y and then one of A to T, and
//! spaces do not count.

use mm_lex::Words;
use proof_code::is_compressed;

/// The index of a token of a proof and of a byte of the token, both from 0.
#[derive(Clone, Copy)]
pub(crate) struct Spot {
    pub(crate) token: usize,
    pub(crate) byte: usize,
}

/// Returns where the item at an index begins: at its token, its letter `Z`, or the first letter of
/// its letter group.
pub(crate) fn spot_of(proof: &Words, item: usize) -> Spot {
    if is_compressed(proof) {
        group_spot(proof, item)
    } else {
        Spot {
            token: item,
            byte: 0,
        }
    }
}

/// Returns where the letter group or mark at an index begins among the letters, or the end of the
/// tokens if there are fewer.
fn group_spot(proof: &Words, item: usize) -> Spot {
    let mut in_letters = false;
    let mut rest = proof.iter();
    let mut token = 0usize;
    let mut before = item;
    let mut begun = None;
    while let Some(letters) = rest.next() {
        if in_letters {
            for (byte, letter) in letters.iter().enumerate() {
                let begin = begun.unwrap_or(Spot { token, byte });
                begun = Some(begin);
                if ends_item(*letter) {
                    if before == 0 {
                        return begin;
                    }
                    before -= 1;
                    begun = None;
                }
            }
        }
        in_letters = in_letters || letters == b")".as_slice();
        token = token.saturating_add(1);
    }
    Spot { token, byte: 0 }
}

/// Returns where the letter at an index among those of all tokens after `)` is, or the end of the
/// tokens if there are fewer.
pub(crate) fn letter_spot(proof: &Words, letter: usize) -> Spot {
    let mut in_letters = false;
    let mut rest = proof.iter();
    let mut token = 0usize;
    let mut byte = letter;
    while let Some(letters) = rest.next() {
        if in_letters {
            if byte < letters.len() {
                return Spot { token, byte };
            }
            byte -= letters.len();
        }
        in_letters = in_letters || letters == b")".as_slice();
        token = token.saturating_add(1);
    }
    Spot { token, byte: 0 }
}

/// Returns whether a letter ends a letter group or is a mark.
fn ends_item(letter: u8) -> bool {
    letter.is_ascii_uppercase() && (letter <= b'T' || letter == b'Z')
}

/// Returns the step number of the item: the count of citations and recalls up to and including it.
/// For a mark it is the number of the step whose result it marks. Here a recall is a step, and so
/// is a repeated citation; in the tables of the crate `steps` neither is.
pub(crate) fn step_of(numbers: &[u32], item: usize) -> usize {
    numbers
        .iter()
        .take(item.saturating_add(1))
        .filter(|number| **number != 0)
        .count()
}
