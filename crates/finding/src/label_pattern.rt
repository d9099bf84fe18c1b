//! Patterns of labels.
ghost use Rattle.std.specs.Prelude.{◌≡◌, ◌↔◌, ◌∷◌, map, IfOk, IsTrue};
ghost use Rattle.finding.specs.LabelPatterns.{byte_part, end_name, names_to_end, parts_to_end};
ghost use Rattle.finding.specs.LabelPatterns.{IsLike};
ghost use Rattle.finding.specs.Matches.{symbol};
ghost use Rattle.finding.specs.Segments.{part_view};

use crate::matching::is_in;
use crate::part::Part;
use std::alloc::{AllocError, Global};
use std::marker::Model;
use std::slice::from_ref;

/// A pattern of labels: `*` stands for any number of bytes, any other byte for itself. Contracts
/// see its bytes.
#[derive(Drop)]
pub struct LabelPattern<'a> {
    text: &'a [u8],
}

impl<'a> Model for LabelPattern<'a> {
    ghost use Rattle.std.specs.Prelude.{ℕ, List};

    ghost Value = { List ℕ };

    ghost view = { λ a. a.text.now };
}

impl<'a> LabelPattern<'a> {
    /// Returns the pattern with this text. Does not allocate.
    pub fn new(text: &'a str) -> LabelPattern<'a>
        ensures { result ≡ text.now }
    {
        LabelPattern {
            text: text.as_bytes(),
        }
    }

    /// Returns whether the pattern matches a whole label.
    ///
    /// Errors: an allocation fails. Cost: at most the length of the label times that of the
    /// pattern.
    pub fn matches(&self, alloc: Global, label: &[u8]) -> Result<bool, AllocError>
        ensures { IfOk result (λ is. IsTrue is ↔ IsLike self.now label.now) }
    {
        let parts = label_parts(alloc, self.text)?;
        let names = byte_names(alloc, label)?;
        Ok(is_in(parts.as_slice(), names.as_slice()))
    }
}

/// Returns the bytes of a pattern as parts, between two ends.
#[tactic(auto, using(crate::proofs::LabelPatternLemmas::views_on, crate::proofs::LabelPatternLemmas::views_end))]
fn label_parts(alloc: Global, pattern: &[u8]) -> Result<Vec<Part<'_>>, AllocError>
    ensures { IfOk result (λ parts. map part_view parts.items
        ≡ symbol end_name ∷ parts_to_end pattern.now) }
{
    let mut parts = Vec::new(alloc);
    parts.push(Part::Symbol(&[]))?;
    let mut rest = pattern;
    while let Some((byte, others)) = rest.split_first() {
        parts.push(byte_part(byte))?;
        rest = others;
    }
    parts.push(Part::Symbol(&[]))?;
    Ok(parts)
}

/// Returns a byte of a pattern as a part.
fn byte_part(byte: &u8) -> Part<'_>
    ensures { part_view result ≡ byte_part byte.now }
{
    if *byte == b'*' {
        Part::AnySequence
    } else {
        Part::Symbol(from_ref(byte))
    }
}

/// Returns the bytes of a label, each as a name, between two ends.
#[tactic(auto, using(crate::proofs::LabelPatternLemmas::views_on, crate::proofs::LabelPatternLemmas::views_end))]
fn byte_names(alloc: Global, label: &[u8]) -> Result<Vec<&[u8]>, AllocError>
    ensures { IfOk result (λ names. map (λ n. n.now) names.items ≡ end_name ∷ names_to_end label.now) }
{
    let mut names: Vec<&[u8]> = Vec::new(alloc);
    names.push(&[])?;
    let mut rest = label;
    while let Some((byte, others)) = rest.split_first() {
        names.push(from_ref(byte))?;
        rest = others;
    }
    names.push(&[])?;
    Ok(names)
}
