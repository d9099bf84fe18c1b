//! The pieces of a text between separators of one byte: the lines of a script, the words of a line.
ghost use Rattle.std.specs.Prelude.{◌≡◌, [], ◌∷◌, ◌==◌, MatchOption, option_map, position};
ghost use Rattle.commands.specs.Pieces.{split_at, pieces_left};

use std::marker::Model;

/// The pieces of a text that are not taken yet. In contracts it is the list of them.
#[derive(Drop)]
pub(crate) struct Pieces<'a, const SEPARATOR: u8> {
    /// The bytes that are left, or `None` if the last piece was taken.
    pub rest: Option<&'a [u8]>,
}

impl<'a, const SEPARATOR: u8> Model for Pieces<'a, SEPARATOR> {
    ghost use Rattle.std.specs.Prelude.{ℕ, List, option_map};
    ghost use Rattle.commands.specs.Pieces.{pieces_left};

    ghost Value = { List (List ℕ) };

    ghost view = { λ p. pieces_left SEPARATOR (option_map (λ rest. rest.now) p.rest) };
}

impl<'a, const SEPARATOR: u8> Pieces<'a, SEPARATOR> {
    /// Returns the pieces of a text.
    pub fn new(text: &'a [u8]) -> Pieces<'a, SEPARATOR>
        ensures { result ≡ split_at SEPARATOR text.now }
    {
        Pieces { rest: Some(text) }
    }

    /// Returns a copy of the pieces that are left.
    pub fn copy(&self) -> Pieces<'a, SEPARATOR>
        ensures { result ≡ self.now }
    {
        Pieces { rest: self.rest }
    }

    /// Takes the next piece, which may be empty. Returns `None` if none is left.
    pub fn take(&mut self) -> Option<&'a [u8]>
        ensures { MatchOption result
            ((self.old ≡ []) × (self.new ≡ []))
            (λ piece. self.old ≡ piece.now ∷ self.new) }
    {
        let (piece, rest) = split_first_piece(self.rest?, SEPARATOR);
        self.rest = rest;
        Some(piece)
    }
}

/// Returns the bytes before the first separator, and those after it if there is one.
pub(crate) fn split_first_piece(bytes: &[u8], separator: u8) -> (&[u8], Option<&[u8]>)
    ensures { split_at separator bytes.now
        ≡ result.0.now ∷ pieces_left separator (option_map (λ rest. rest.now) result.1) }
{
    match find(bytes, separator) {
        Some(end) => (&bytes[..end], Some(&bytes[end + 1..])),
        None => (bytes, None),
    }
}

/// Returns the index of the first separator.
fn find(bytes: &[u8], separator: u8) -> Option<usize>
    ensures { result ≡ position (λ b. b == separator) bytes.now }
{
    bytes.iter().position(|byte| *byte == separator)
}
