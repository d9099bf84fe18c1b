//! Counts the visible or the white bytes at the start of a text. Visible bytes are compared 16 at a
//! time; the first 16 white bytes are compared at once, and any further ones one by one.
ghost use Rattle.std.specs.Prelude.{◌≡◌, ◌+◌, ◌-◌, ◌≤◌, not, length, take, drop, nat_le, nat_lt};
ghost use Rattle.std.specs.List.{position, position_or_len};
ghost use Rattle.mm_lex.specs.Alphabet.{is_white};
ghost use Rattle.mm_lex.specs.Tokens.{HasOnlyAllowedBytes};

use std::simd::prelude::*;

/// How many bytes are compared at once.
pub(crate) const LANES: usize = 16;

/// Returns the number of bytes before the first white one, in a text whose bytes are all allowed.
pub(crate) fn count_visible(text: &[u8]) -> usize
    requires { HasOnlyAllowedBytes text.now }
    ensures count { result ≡ position_or_len is_white text.now }
    ensures within { result ≤ length text.now }
{
    let mut at = 0;
    while text.len() - at >= LANES {
        let count = count_visible_in_lanes(&text[at..]);
        at += count;
        if count < LANES {
            return at;
        }
    }
    at + count_visible_one_by_one(&text[at..])
}

/// Returns how many of the first 16 bytes precede the first one that is at most 0x20, or 16 if none
/// is. If all bytes are allowed, these are the visible bytes before the first white one.
fn count_visible_in_lanes(text: &[u8]) -> usize
    requires room { 16 ≤ length text.now }
    ensures count { result ≡ position_or_len (λ b. nat_le b 32) (take 16 text.now) }
    ensures within { result ≤ 16 }
{
    let bytes = u8x16::from_slice(text);
    let mask = bytes.simd_le(u8x16::splat(b' ')).to_bitmask();
    if mask == 0 {
        LANES
    } else {
        mask.trailing_zeros() as usize
    }
}

/// Returns the number of bytes before the first one that is not white, in a text whose bytes are
/// all allowed.
pub(crate) fn count_white(text: &[u8]) -> usize
    requires { HasOnlyAllowedBytes text.now }
    ensures count { result ≡ position_or_len (λ b. not (is_white b)) text.now }
    ensures within { result ≤ length text.now }
{
    if text.len() >= LANES {
        let count = count_white_in_lanes(text);
        if count < LANES {
            return count;
        }
    }
    first_not_white(text).unwrap_or(text.len())
}

/// Returns how many of the first 16 bytes precede the first one above 0x20, or 16 if none is. If
/// all bytes are allowed, these are the white bytes before the first visible one.
fn count_white_in_lanes(text: &[u8]) -> usize
    requires room { 16 ≤ length text.now }
    ensures count { result ≡ position_or_len (λ b. nat_lt 32 b) (take 16 text.now) }
    ensures within { result ≤ 16 }
{
    let bytes = u8x16::from_slice(text);
    let mask = bytes.simd_gt(u8x16::splat(b' ')).to_bitmask();
    if mask == 0 {
        LANES
    } else {
        mask.trailing_zeros() as usize
    }
}

/// Returns the index of the first byte that is not white, or `None`.
fn first_not_white(text: &[u8]) -> Option<usize>
    ensures { result ≡ position (λ b. not (is_white b)) text.now }
{
    text.iter().position(|b| !b.is_ascii_whitespace())
}

/// Returns the number of bytes before the first white one, testing byte by byte.
fn count_visible_one_by_one(text: &[u8]) -> usize
    ensures count { result ≡ position_or_len is_white text.now }
    ensures within { result ≤ length text.now }
{
    first_white(text).unwrap_or(text.len())
}

/// Returns the index of the first white byte, or `None`.
fn first_white(text: &[u8]) -> Option<usize>
    ensures { result ≡ position is_white text.now }
{
    text.iter().position(|b| b.is_ascii_whitespace())
}
