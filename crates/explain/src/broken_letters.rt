//! Finds the rule that the letters of a compressed proof break.
ghost use Rattle.std.specs.Prelude.{◌≡◌, ℕ, ◌+◌, ◌*◌, ◌<◌, ◌≤◌, ◌^◌, List, length, Some, slice_get};
ghost use Rattle.std.specs.Prelude.{MatchOption, MatchResult};
ghost use Rattle.mm_lex.specs.Alphabet.{Name};
ghost use Rattle.proof_code.specs.declared.item.Item.{Item};
ghost use Rattle.proof_code.specs.Text.{starts_with_mark};
ghost use Rattle.proof_code.specs.Writes.{WritesRow};
ghost use Rattle.explain.specs.Breaks.{IsLetterBreak};
ghost use Rattle.explain.specs.LettersBefore.{IsReadTo};

use crate::why::{LetterBreak, LetterFault};

/// The state of reading before a letter.
#[derive(Clone, Copy, Drop)]
pub(crate) struct LetterState {
    /// The greatest number that a letter group may have here: the count of labels and marks so far.
    limit: usize,
    /// The value of the letters U to Y of the current letter group read so far.
    digits: usize,
    /// The index at which the current letter group begins, or at which the next one does.
    begin: usize,
}

/// Returns the rule that the letters break, or `None` if they write items. `label_count` is the
/// number of labels before the letters, mandatory and listed.
///
/// Cost: the letters.
pub(crate) fn letter_break(letters: &[u8], label_count: usize) -> Option<LetterBreak>
    requires { 5 * (label_count + length letters.now) + 200 < 2 ^ 64 }
    ensures { (names : List Name) → length names ≡ label_count
        → MatchOption result ((items : List Item) × WritesRow names letters.now items)
        (IsLetterBreak names letters.now) }
{
    if begins_with_mark(letters) {
        return Some(LetterBreak {
            letter: 0,
            fault: LetterFault::EarlyMark,
        });
    }
    let mut state = LetterState {
        limit: label_count,
        digits: 0,
        begin: 0,
    };
    for i in 0..letters.len() {
        match state.read(i, letters[i]) {
            Ok(next) => state = next,
            Err(broken) => return Some(broken),
        }
    }
    if state.digits == 0 {
        None
    } else {
        Some(state.broken(LetterFault::NotEnded))
    }
}

/// Returns whether the first letter is a mark.
fn begins_with_mark(letters: &[u8]) -> bool
    ensures { result ≡ starts_with_mark letters.now }
{
    matches!(letters, [b'Z', ..])
}

impl LetterState {
    /// Returns the state before the next letter, or the rule that this letter breaks.
    fn read(self, index: usize, letter: u8) -> Result<LetterState, LetterBreak>
        requires room { 5 * self.limit + 200 < 2 ^ 64 }
        requires index { index + 1 < 2 ^ 64 }
        requires small { 20 * self.digits ≤ self.limit }
        ensures { (label_count : ℕ) (letters : List ℕ)
            → IsReadTo label_count letters index self.limit self.digits self.begin
            → slice_get letters index ≡ Some letter
            → MatchResult result (λ next. IsReadTo label_count letters (index + 1) next.limit next.digits next.begin)
            (λ broken. (names : List Name) → length names ≡ label_count → IsLetterBreak names letters broken) }
    {
        match letter {
            b'A'..=b'T' => {
                if 20 * self.digits + usize::from(letter - 64) > self.limit {
                    return Err(self.broken(LetterFault::TooGreat));
                }
                Ok(LetterState {
                    digits: 0,
                    begin: index + 1,
                    ..self
                })
            }
            b'U'..=b'Y' => {
                let digits = 5 * self.digits + usize::from(letter - 84);
                // The least number of a group that begins so is 20 * digits + 1.
                if 20 * digits >= self.limit {
                    return Err(self.broken(LetterFault::TooGreat));
                }
                Ok(LetterState { digits, ..self })
            }
            b'Z' => {
                if self.digits != 0 {
                    return Err(self.broken(LetterFault::NotEnded));
                }
                Ok(LetterState {
                    limit: self.limit + 1,
                    digits: 0,
                    begin: index + 1,
                })
            }
            _ => Err(LetterBreak {
                letter: index,
                fault: LetterFault::NotLetter,
            }),
        }
    }

    /// Returns this fault at the beginning of the current letter group.
    fn broken(self, fault: LetterFault) -> LetterBreak
        ensures letter { result.letter ≡ self.begin }
        ensures fault { result.fault ≡ fault }
    {
        LetterBreak {
            letter: self.begin,
            fault,
        }
    }
}
