//! The lines of a script.
ghost use Rattle.std.specs.Prelude.{◌≡◌, ℕ, ◌+◌, [], ◌∷◌, Some, None, MatchOption};
ghost use Rattle.commands.specs.Pieces.{split_at};
ghost use Rattle.commands.specs.RemainingLines.{IsAdvanced};
ghost use Rattle.commands.specs.Texts.{bytes_before, lines_before};

use crate::pieces::Pieces;
use crate::script::LINE_FEED;
use std::marker::Model;

/// The lines of a script that are not taken yet. In contracts it is these lines and the number of
/// the last line taken.
#[derive(Drop)]
pub struct Lines<'a> {
    number: usize,
    rest: Pieces<'a, LINE_FEED>,
}

impl<'a> Model for Lines<'a> {
    ghost use Rattle.std.specs.Prelude.{◌+◌, ◌^◌, ◌<◌, length};
    ghost use Rattle.commands.specs.RemainingLines.{RemainingLines};

    ghost Value = { RemainingLines };

    ghost view = { λ l. record { number = l.number; lines = l.rest } };

    ghost invariant = { λ l. l.number + length l.rest < 2 ^ 64 };
}

impl<'a> Lines<'a> {
    /// Returns the lines of a script.
    #[tactic(auto, using(crate::proofs::TextsLemmas::lines_fit))]
    pub(crate) fn new(script: &'a [u8]) -> Lines<'a>
        ensures { result ≡ record { number = 0; lines = split_at LINE_FEED script.now } }
    {
        Lines {
            number: 0,
            rest: Pieces::new(script),
        }
    }

    /// Returns the number of the last line taken, counted from 1, or 0 if none was taken.
    pub(crate) fn number(&self) -> usize
        ensures { result ≡ self.now.number }
    {
        self.number
    }

    /// Takes the next line, which may be empty.
    pub(crate) fn take(&mut self) -> Option<&'a [u8]>
        ensures { MatchOption result
            (self.old.lines ≡ [])
            (λ line. (self.old.lines ≡ line.now ∷ self.new.lines)
            × (self.new.number ≡ self.old.number + 1)) }
    {
        let line = self.rest.take()?;
        self.number += 1;
        Some(line)
    }

    /// Takes the lines up to the first that is `word` alone, and returns those before it, each with
    /// its line feed. Returns `None` if there is no such line; the lines left are then not
    /// specified.
    pub(crate) fn take_lines(&mut self, word: &[u8]) -> Option<&'a [u8]>
        ensures { MatchOption result
            (lines_before word.now self.old.lines ≡ None)
            (λ text. (count : ℕ)
            × (lines_before word.now self.old.lines ≡ Some (text.now, count))
            × IsAdvanced count self.old self.new) }
    {
        let taken = self.rest.take_until(word)?;
        self.number += taken.count;
        Some(taken.text)
    }

    /// Takes `count` bytes and the line feed that follows them, and returns the bytes. Returns
    /// `None` if no line feed follows; the lines left are then not specified.
    pub(crate) fn take_bytes(&mut self, count: u64) -> Option<&'a [u8]>
        ensures { MatchOption result
            (bytes_before count self.old.lines ≡ None)
            (λ text. (taken : ℕ)
            × (bytes_before count self.old.lines ≡ Some (text.now, taken))
            × IsAdvanced taken self.old self.new) }
    {
        let taken = self.rest.take_bytes(count)?;
        self.number += taken.count;
        Some(taken.text)
    }
}
