//! Finds cuts of a text: offsets at which it may be cut in two.
ghost use Rattle.std.specs.Prelude.{◌+◌, ◌<◌, ◌≤◌, drop, length, IfSome, IsTrue};
ghost use Rattle.mm_lex.specs.Alphabet.{is_empty_or_starts_white};
ghost use Rattle.read_pool.specs.Cut.{IsCut};

/// The least average length of the parts of a text, and also the length that is searched for a cut,
/// both in bytes. A single part may be shorter, even empty, since a cut is where a statement seems
/// to end.
pub(crate) const MIN_AVERAGE_PART_BYTES: usize = 1 << 20;

/// Returns a cut at or after `near`: an offset that no word of the text crosses.
///
/// The cut is the end of the first `$.` that a white byte follows and that seems to be outside
/// comments: no `$)` follows it before the next `$(` or the end of the bytes searched. If there is
/// no such `$.`, the cut is the end of the text. Cost: at most `MIN_AVERAGE_PART_BYTES`.
pub(crate) fn cut_near(text: &[u8], near: usize) -> usize
    ensures { IsCut text.now result }
{
    let end = text
        .len()
        .saturating_sub(2)
        .min(near.saturating_add(MIN_AVERAGE_PART_BYTES));
    let mut found = None;
    for at in near..end {
        match &text[at..at + 2] {
            b"$." if found.is_none() => found = cut_if_white(text, at + 2),
            b"$)" => found = None,
            b"$(" => {
                if let Some(cut) = found {
                    return cut;
                }
            }
            _ => {}
        }
    }
    found.unwrap_or(text.len())
}

/// Returns the offset `at` as a cut, or `None` if the byte at it is not white.
fn cut_if_white(text: &[u8], at: usize) -> Option<usize>
    requires { at < length text.now }
    ensures { IfSome result (IsCut text.now) }
{
    if text[at].is_ascii_whitespace() {
        Some(at)
    } else {
        None
    }
}
