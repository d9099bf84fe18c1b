//! Patterns of symbols.
ghost use Rattle.std.specs.Prelude.{◌≡◌, ◌↔◌, map, option_map, IfErr, IfOk, IsTrue};
ghost use Rattle.finding.specs.PatternWords.{words_in};
ghost use Rattle.finding.specs.Parsing.{ArePattern, IsParseError};
ghost use Rattle.finding.specs.Matches.{Matches, part_of};
ghost use Rattle.finding.specs.DeclaredSymbols.{undeclared};

use crate::declared_symbols::undeclared_part;
use crate::matching::is_in;
use crate::part::Part;
use crate::words::{first_unknown_word, has_symbol, parts_of};
use mm_read::Stmt;
use std::alloc::{AllocError, Global};
use std::marker::Model;

/// The error of parsing a pattern.
#[derive(Clone, Copy, Debug, Drop)]
pub enum PatternFault<'a> {
    /// The first word that has a `$` and is neither `$?` nor `$*`.
    UnknownWord(&'a [u8]),
    /// No word is a symbol.
    NoSymbol,
    /// An allocation failed.
    Memory,
}

/// A pattern of symbols. Contracts see the list of its parts.
#[derive(Drop)]
pub struct Pattern<'a> {
    parts: Vec<Part<'a>>,
}

impl<'a> Model for Pattern<'a> {
    ghost use Rattle.std.specs.Prelude.{List, map};
    ghost use Rattle.finding.specs.Matches.{Part};
    ghost use Rattle.finding.specs.Segments.{part_view};

    ghost Value = { List Part };

    ghost view = { λ a. map part_view a.parts.items };
}

impl<'a> Pattern<'a> {
    /// Parses a pattern: words separated by white space. `$?` matches any one symbol, `$*` any
    /// number of symbols, and any other word the symbol that it spells.
    ///
    /// Errors: `UnknownWord` with the first word that has a `$` and is neither `$?` nor `$*`; else
    /// `NoSymbol` if no word is a symbol; else `Memory` if an allocation fails. The first two are
    /// returned even if every allocation fails. Cost: the size of the text. Source: `search` of the
    /// program metamath.
    pub fn parse(alloc: Global, text: &'a str) -> Result<Pattern<'a>, PatternFault<'a>>
        ensures parts { IfOk result (λ parts. parts ≡ map part_of (words_in text.now)) }
        ensures pattern { IfOk result (λ _. ArePattern (words_in text.now)) }
        ensures error { IfErr result (λ fault. IsParseError (words_in text.now) fault) }
    {
        let bytes = text.as_bytes();
        if let Some(word) = first_unknown_word(bytes) {
            return Err(PatternFault::UnknownWord(word));
        }
        if !has_symbol(bytes) {
            return Err(PatternFault::NoSymbol);
        }
        match parts_of(alloc, bytes) {
            Ok(parts) => Ok(Pattern { parts }),
            Err(AllocError) => Err(PatternFault::Memory),
        }
    }

    /// Returns whether the pattern matches a contiguous run of the symbols. Does not allocate.
    ///
    /// Cost: at most the number of symbols times the number of parts, even with `$*`.
    pub fn is_in(&self, symbols: &[&[u8]]) -> bool
        ensures { IsTrue result ↔ Matches self.now (map (λ s. s.now) symbols.now) }
    {
        is_in(self.parts.as_slice(), symbols)
    }

    /// Returns the first symbol of the pattern that no `$c` and no `$v` of the statements declares;
    /// `None` if each is declared. Does not allocate.
    ///
    /// Cost: the declarations, once for each symbol of the pattern.
    #[tactic(auto, using(crate::proofs::DeclaredLemmas::undeclared_here, crate::proofs::DeclaredLemmas::undeclared_on, crate::proofs::DeclaredLemmas::undeclared_none))]
    pub fn undeclared_symbol(&self, statements: &[Stmt]) -> Option<&'a [u8]>
        ensures { option_map (λ x. x.now) result ≡ undeclared statements.now self.now }
    {
        let parts = self.parts.as_slice();
        for part in parts {
            if let Some(name) = undeclared_part(*part, statements) {
                return Some(name);
            }
        }
        None
    }
}
