//! Measures a prefix of a text in which single spaces separate symbols, many bytes at a time.
ghost use Rattle.std.specs.Prelude.{◌≡◌, ◌+◌, ◌-◌, ◌<◌, ◌≤◌, not, length, take, drop};
ghost use Rattle.std.specs.List.{prefix_len};
ghost use Rattle.mm_lex.specs.Stored.SpacedPrefix.{spaced_prefix_len, ends_here, lanes_end};

use crate::lanes::LANES;
use std::simd::prelude::*;

/// Returns the length of a prefix of a text in which single spaces separate symbols; a single space
/// may precede the first one.
///
/// The prefix ends at the first byte below the space, at the first `$`, or at the first space that
/// is followed by a byte of at most `$` or by the end of the text. So it also ends at a space in
/// front of a symbol that begins with `!`, `"` or `#`, and its last symbol may be only the
/// beginning of a token.
pub(crate) fn count_spaced_prefix(text: &[u8]) -> usize
    ensures count { result ≡ spaced_prefix_len text.now }
    ensures within { result ≤ length text.now }
{
    let mut at = 0;
    while text.len() - at > LANES {
        let count = count_prefix_in_lanes(&text[at..]);
        if count < LANES {
            return at + count;
        }
        at += LANES;
    }
    at + count_prefix_one_by_one(&text[at..])
}

/// Returns how many of the first 16 bytes precede the one at which the prefix ends, or 16 if it
/// does not end at any of them.
fn count_prefix_in_lanes(text: &[u8]) -> usize
    requires room { 16 < length text.now }
    ensures count { result ≡ prefix_len not (lanes_end (take 16 text.now) (take 16 (drop 1 text.now))) }
    ensures within { result ≤ 16 }
{
    let bytes = u8x16::from_slice(text);
    let next = u8x16::from_slice(&text[1..]);
    let spaces = bytes.simd_le(u8x16::splat(b' ')) & next.simd_le(u8x16::splat(b'$'));
    let others = bytes.simd_lt(u8x16::splat(b' ')) | bytes.simd_eq(u8x16::splat(b'$'));
    let mask = (others | spaces).to_bitmask();
    if mask == 0 {
        LANES
    } else {
        mask.trailing_zeros() as usize
    }
}

/// Returns the length of the prefix, testing byte by byte.
fn count_prefix_one_by_one(text: &[u8]) -> usize
    ensures count { result ≡ spaced_prefix_len text.now }
    ensures within { result ≤ length text.now }
{
    let mut at = 0;
    while at < text.len() {
        if is_end(text, at) {
            return at;
        }
        at += 1;
    }
    at
}

/// Returns whether the prefix ends at the byte `at`.
fn is_end(text: &[u8], at: usize) -> bool
    requires { at < length text.now }
    ensures { result ≡ ends_here (drop at text.now) }
{
    let byte = text[at];
    let next = if at + 1 < text.len() {
        text[at + 1]
    } else {
        b' '
    };
    byte < b' ' || byte == b'$' || (byte <= b' ' && next <= b'$')
}
