//! The heading of a part of a database: a comment that begins with a title between two lines of
//! `####`, `#*#*`, `=-=-` or `-.-.`.
ghost use Rattle.std.specs.Prelude.{◌≡◌, ◌≤◌, length, option_map, IfSome};
ghost use Rattle.mm_lex.specs.Comments.{runs_after};
ghost use Rattle.markup.specs.Headings.{level_of, title_to, title_span, with_title, heading_of};

use mm_lex::Span;
use text::next_run;

/// The heading of a part of a database.
#[derive(Clone, Copy, Drop)]
pub struct Heading<'a> {
    /// 1 for `####`, 2 for `#*#*`, 3 for `=-=-`, 4 for `-.-.`.
    pub level: u8,
    pub title: &'a [u8],
}

/// Returns the heading that a comment begins with, if it begins with one; `comment` has the bytes
/// between the delimiters. A word that begins with the four bytes of a level begins the heading,
/// and the next such word ends it; the title is what stands between them.
///
/// Does not allocate. Cost: the size of the comment up to the end of its heading.
/// Source: the program metamath, which makes its table of contents from such comments.
pub fn heading_of(comment: &[u8]) -> Option<Heading<'_>>
    ensures { option_map (λ h. (h.level, h.title.now)) result ≡ heading_of comment.now }
{
    let Some(first) = next_run(comment, 0) else {
        return None;
    };
    let level = level_of(&comment[first.start..first.end]);
    if level == 0 {
        return None;
    }
    with_title(comment, level, title_span(comment, level, first.end))
}

/// Returns a heading with the title at a span, if there is one.
fn with_title(comment: &[u8], level: u8, span: Option<Span>) -> Option<Heading<'_>>
    requires { IfSome span (λ s. (s.start ≤ s.end) × (s.end ≤ length comment.now)) }
    ensures { option_map (λ h. (h.level, h.title.now)) result ≡ with_title comment.now level span }
{
    match span {
        Some(span) => Some(Heading {
            level,
            title: &comment[span.start..span.end],
        }),
        None => None,
    }
}

/// Returns the span of the words from `at` on up to the next one of this level; `None` if there is
/// no such word, or no other before it.
fn title_span(comment: &[u8], level: u8, at: usize) -> Option<Span>
    requires { at ≤ length comment.now }
    ensures span { result ≡ title_span comment.now level (runs_after comment.now at) }
    ensures within { IfSome result (λ s. (s.start ≤ s.end) × (s.end ≤ length comment.now)) }
{
    let Some(first) = next_run(comment, at) else {
        return None;
    };
    if level_of(&comment[first.start..first.end]) == level {
        return None;
    }
    title_to(comment, level, first)
}

/// Returns the span from the beginning of a run to the end of the last run before the next one of
/// this level; `None` if no later run has the level.
fn title_to(comment: &[u8], level: u8, first: Span) -> Option<Span>
    requires { (first.start ≤ first.end) × (first.end ≤ length comment.now) }
    ensures span { result
        ≡ title_to comment.now level first.start first.end (runs_after comment.now first.end) }
    ensures within { IfSome result (λ s. (s.start ≤ s.end) × (s.end ≤ length comment.now)) }
{
    let start = first.start;
    let mut end = first.end;
    while let Some(run) = next_run(comment, end) {
        if level_of(&comment[run.start..run.end]) == level {
            return Some(Span { start, end });
        }
        end = run.end;
    }
    None
}

/// Returns the level whose four bytes a word begins with, or 0 if it begins with none.
fn level_of(word: &[u8]) -> u8
    ensures { result ≡ level_of word.now }
{
    if word.starts_with(b"####") {
        1
    } else if word.starts_with(b"#*#*") {
        2
    } else if word.starts_with(b"=-=-") {
        3
    } else if word.starts_with(b"-.-.") {
        4
    } else {
        0
    }
}
