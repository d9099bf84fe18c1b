//! Counts the labels that a compressed proof lists, sixteen bytes at a time.
ghost use Rattle.std.specs.Prelude.{◌≡◌, ◌==◌, ◌+◌, ◌≤◌, length, take, MatchOption, IfSome, None};
ghost use Rattle.std.specs.Prelude.{Some, true};
ghost use Rattle.std.specs.List.{count_by};
ghost use Rattle.proof_code.specs.Listing.{are_label_bytes_or_spaces, class_of, listed_count};

use std::simd::prelude::*;

/// How many bytes are compared at once.
const LANES: usize = 16;

/// Returns the count of the labels before the word `)`, and the letters after it, or `None` if
/// there is no `)` or if a word before it is not a label.
pub(crate) fn count_listed(text: &[u8]) -> Option<(usize, &[u8])>
    ensures listed_count { MatchOption result (listed_count true text.now ≡ None)
        (λ r. listed_count true text.now ≡ Some (r.0, r.1.now)) }
    ensures within { IfSome result (λ r. r.0 + length r.1.now ≤ length text.now) }
{
    let mut count = 0;
    let mut last = b' ';
    let mut at = 0;
    while text.len() - at >= LANES {
        let Some(spaces) = count_in_lanes(&text[at..]) else {
            break;
        };
        count += spaces;
        at += LANES;
        last = text[at - 1];
    }
    let (more, letters) = count_by_byte(&text[at..], last)?;
    Some((count + more, letters))
}

/// Returns the same as `count_listed`, byte by byte. `last` is the byte before the text.
fn count_by_byte(text: &[u8], last: u8) -> Option<(usize, &[u8])>
    ensures listed_count { MatchOption result (listed_count (last == 32) text.now ≡ None)
        (λ r. listed_count (last == 32) text.now ≡ Some (r.0, r.1.now)) }
    ensures within { IfSome result (λ r. r.0 + length r.1.now ≤ length text.now) }
{
    let mut count = 0;
    let mut before = last;
    for (index, byte) in text.iter().enumerate() {
        let class = class_of(*byte);
        if class == OTHER {
            if before != b' ' {
                return None;
            }
            return match &text[index..] {
                [b')'] => Some((count, &[])),
                [b')', b' ', letters @ ..] => Some((count, letters)),
                _ => None,
            };
        }
        count += usize::from(class);
        before = *byte;
    }
    None
}

/// Returns how many of the first 16 bytes are spaces, or `None` if one is neither a byte of a label
/// nor a space.
fn count_in_lanes(text: &[u8]) -> Option<usize>
    requires room { 16 ≤ length text.now }
    ensures listed { IfSome result (λ spaces. are_label_bytes_or_spaces (take 16 text.now) ≡ true) }
    ensures few { IfSome result (λ spaces. spaces ≤ 16) }
    ensures spaces { IfSome result (λ spaces. spaces ≡ count_by (λ b. b == 32) (take 16 text.now)) }
{
    let bytes = u8x16::from_slice(text);
    let letters = (bytes | u8x16::splat(32)) - u8x16::splat(b'a');
    let signs = bytes - u8x16::splat(b'-');
    let others = bytes.simd_ne(u8x16::splat(b' '))
        & letters.simd_gt(u8x16::splat(25))
        & (signs.simd_gt(u8x16::splat(12)) | signs.simd_eq(u8x16::splat(2)))
        & bytes.simd_ne(u8x16::splat(b'_'));
    if others.to_bitmask() != 0 {
        return None;
    }
    let spaces = bytes.simd_eq(u8x16::splat(b' '));
    Some(spaces.to_bitmask().count_ones() as usize)
}

/// The class of a byte that is neither a byte of a label nor a space.
const OTHER: u8 = 2;

/// Returns the class of a byte: 0 if a label may have it, 1 for a space, 2 for the others.
fn class_of(byte: u8) -> u8
    ensures class { result ≡ class_of byte }
    ensures bound { result ≤ 2 }
{
    match byte {
        b'A'..=b'Z' | b'a'..=b'z' | b'0'..=b'9' | b'-' | b'_' | b'.' => 0,
        b' ' => 1,
        _ => OTHER,
    }
}
