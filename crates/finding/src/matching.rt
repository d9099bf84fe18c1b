//! Matches a pattern with a contiguous run of the symbols of an expression.
//!
//! The `$*` divide the parts into segments, in which each part matches exactly one symbol. The
//! first index at which the symbols match a segment leaves the most symbols for the segments after
//! it, so no other index is tried.
ghost use Rattle.std.specs.Prelude.{◌≡◌, ◌↔◌, ◌+◌, ◌≤◌, IfSome, IsTrue, map, length};
ghost use Rattle.finding.specs.Matches.{Matches};
ghost use Rattle.finding.specs.Segments.{part_view, is_any_sequence, segment_len, matches_symbol};
ghost use Rattle.finding.specs.Segments.{matches_prefix, IsFirstMatch};

use crate::part::Part;

/// Returns whether the parts match a contiguous run of the symbols. Does not allocate.
///
/// Cost: at most the number of symbols times the number of parts.
pub(crate) fn is_in(parts: &[Part], symbols: &[&[u8]]) -> bool
    ensures { IsTrue result ↔ Matches (map part_view parts.now) (map (λ s. s.now) symbols.now) }
{
    // The parts from index `from` on are sought in the symbols from index `at` on.
    let mut from = 0;
    let mut at = 0;
    'segments: loop {
        let (_, left) = parts.split_at(from);
        let (_, rest) = symbols.split_at(at);
        let len = segment_len(left);
        let (segment, _) = left.split_at(len);
        let Some(index) = first_match(segment, rest) else {
            return false;
        };
        if len == left.len() {
            return true;
        }
        from += len + 1;
        at += index + len;
    }
}

/// Returns the number of parts before the first `$*`.
fn segment_len(parts: &[Part]) -> usize
    ensures count { result ≡ segment_len parts.now }
    ensures within { result ≤ length parts.now }
{
    for (i, part) in parts.iter().enumerate() {
        if is_any_sequence(part) {
            return i;
        }
    }
    parts.len()
}

/// Returns whether the part is `$*`.
fn is_any_sequence(part: &Part) -> bool
    ensures { result ≡ is_any_sequence part.now }
{
    matches!(part, Part::AnySequence)
}

/// Returns the first index from which the symbols match the parts of the segment, one symbol each.
fn first_match(segment: &[Part], symbols: &[&[u8]]) -> Option<usize>
    ensures first { IsFirstMatch segment.now (map (λ s. s.now) symbols.now) result }
    ensures within { IfSome result (λ index. index + length segment.now ≤ length symbols.now) }
{
    for index in 0..symbols.len() {
        if matches_prefix(segment, symbols.split_at(index).1) {
            return Some(index);
        }
    }
    if segment.is_empty() {
        Some(symbols.len())
    } else {
        None
    }
}

/// Returns whether the first symbols match the parts, one symbol each.
fn matches_prefix(segment: &[Part], symbols: &[&[u8]]) -> bool
    ensures { result ≡ matches_prefix segment.now (map (λ s. s.now) symbols.now) }
{
    if segment.len() > symbols.len() {
        return false;
    }
    for (i, part) in segment.iter().enumerate() {
        if !matches_symbol(part, symbols[i]) {
            return false;
        }
    }
    true
}

/// Returns whether the part matches this one symbol.
fn matches_symbol(part: &Part, symbol: &[u8]) -> bool
    ensures { result ≡ matches_symbol part.now symbol.now }
{
    match part {
        Part::Symbol(name) => *name == symbol,
        Part::AnySymbol => true,
        Part::AnySequence => false,
    }
}
