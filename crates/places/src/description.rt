//! Finds the descriptions of statements: the comments that precede them.
ghost use Rattle.std.specs.Prelude.{◌≡◌, ◌++◌, ◌-◌, ◌<◌, ◌≤◌, ℕ, length, slice_index, IfOk, IsTrue};
ghost use Rattle.std.specs.Prelude.{OnOk};
ghost use Rattle.std.specs.Option.{option_to_list};
ghost use Rattle.mm_lex.specs.Alphabet.{is_white};
ghost use Rattle.mm_lex.specs.Comments.{runs_after};
ghost use Rattle.mm_read.specs.Statements.{Database};
ghost use Rattle.mm_read.specs.Reads.{Reads};
ghost use Rattle.places.specs.Descriptions.{AreDescriptions};
ghost use Rattle.places.specs.Walk.{CanSkip, SkipsRuns, state_after_run};
ghost use Rattle.places.specs.Walk.{description_of_begun_statement, walk_over};

use crate::statement_tokens::ends_statement;
use memchr::memchr;
use mm_lex::Span;
use std::alloc::{AllocError, Global};
use text::next_run;

/// The state of a walk over the runs of a text, between two runs.
#[derive(Clone, Copy, Drop)]
enum WalkState {
    /// Inside the comment whose contents begin at `start`.
    Inside {
        start: usize,
        /// Whether the next token begins a statement.
        next_begins_statement: bool,
    },
    /// Outside comments.
    Outside {
        /// The contents of the last comment since the last token.
        last_comment: Option<Span>,
        /// Whether the next token begins a statement.
        next_begins_statement: bool,
    },
}

/// Returns the span of the description of each statement, in order, of a text that reads as
/// statements: the contents of the last comment before the statement's first token and after the
/// statement before it, or `None` if there is no comment.
///
/// Errors: an allocation fails. Cost: the size of the text, however many statements it has.
/// Source: Metamath, 4.4.
pub fn descriptions(alloc: Global, text: &[u8]) -> Result<Vec<Option<Span>>, AllocError>
    ensures { (S : Database) → Reads text.now S
        → IfOk result (λ list. AreDescriptions text.now S list.items) }
{
    let mut list = Vec::new(alloc);
    let mut walk = WalkState::Outside {
        last_comment: None,
        next_begins_statement: true,
    };
    let mut at = 0;
    while let Some(span) = next_run(text, skip_runs(text, at, walk)) {
        let word = &text[span.start..span.end];
        push_description_if_begun(&mut list, walk, word)?;
        walk = state_after_run(walk, word, span);
        at = span.end;
    }
    Ok(list)
}

/// Returns the offset from which the walk goes on, after runs that it can skip because they change
/// nothing.
///
/// Does not allocate. Cost: the bytes up to the next `$`.
fn skip_runs(text: &[u8], at: usize, walk: WalkState) -> usize
    requires { at ≤ length text.now }
    ensures within { (at ≤ result) × (result ≤ length text.now) }
    ensures same { walk_over text.now walk (runs_after text.now at)
        ≡ walk_over text.now walk (runs_after text.now result) }
{
    if can_skip(walk) {
        skip_to_run_with_dollar(text, at)
    } else {
        at
    }
}

/// Returns `true` only if every run up to the next one with `$` leaves the walk as it is and begins
/// no statement.
fn can_skip(walk: WalkState) -> bool
    ensures { IsTrue result → CanSkip walk }
{
    match walk {
        WalkState::Inside { .. } => true,
        WalkState::Outside {
            last_comment,
            next_begins_statement,
        } => last_comment.is_none() && !next_begins_statement,
    }
}

/// Returns the offset after the last white byte between `at` and the next `$` or the end of the
/// text, or `at` if there is no such byte.
fn skip_to_run_with_dollar(text: &[u8], at: usize) -> usize
    requires { at ≤ length text.now }
    ensures { SkipsRuns text.now at result }
{
    let (_, rest) = text.split_at(at);
    let (plain, _) = rest.split_at(count_before_dollar(rest));
    at + after_last_white(plain)
}

/// Returns the number of bytes before the first `$`, or of all bytes if there is none.
fn count_before_dollar(text: &[u8]) -> usize
    ensures within { result ≤ length text.now }
    ensures no_dollar { (k : ℕ) → k < result → slice_index text.now k ≡ 36 → ⊥ }
{
    match memchr(b'$', text) {
        Some(dollar) => dollar,
        None => text.len(),
    }
}

/// Returns the offset after the last white byte, or 0 if there is none.
fn after_last_white(text: &[u8]) -> usize
    ensures within { result ≤ length text.now }
    ensures white { 0 < result → IsTrue (is_white (slice_index text.now (result - 1))) }
{
    for i in (0..text.len()).rev() {
        if text[i].is_ascii_whitespace() {
            return i + 1;
        }
    }
    0
}

/// Appends the description of the statement that begins with this word, if one does.
fn push_description_if_begun(
    list: &mut Vec<Option<Span>>,
    walk: WalkState,
    word: &[u8],
) -> Result<(), AllocError>
    ensures { OnOk result (list.new.items ≡ list.old.items ++ description_of_begun_statement walk word.now) }
{
    match description_of_begun_statement(walk, word) {
        Some(description) => {
            list.push(description)?;
            Ok(())
        }
        None => Ok(()),
    }
}

/// Returns `None` if no statement begins with this word, `Some(None)` if one without a description
/// does, else `Some` of its description.
fn description_of_begun_statement(walk: WalkState, word: &[u8]) -> Option<Option<Span>>
    ensures { option_to_list result ≡ description_of_begun_statement walk word.now }
{
    match walk {
        WalkState::Inside { .. } => None,
        WalkState::Outside {
            last_comment,
            next_begins_statement,
        } => {
            if word == b"$(".as_slice() {
                None
            } else if next_begins_statement {
                Some(last_comment)
            } else {
                None
            }
        }
    }
}

/// Returns the state of the walk after this run, whose word is `word`.
fn state_after_run(walk: WalkState, word: &[u8], run: Span) -> WalkState
    ensures { result ≡ state_after_run walk word.now run }
{
    match walk {
        WalkState::Inside {
            start,
            next_begins_statement,
        } => {
            if word == b"$)".as_slice() {
                let last_comment = Some(Span {
                    start,
                    end: run.start,
                });
                WalkState::Outside {
                    last_comment,
                    next_begins_statement,
                }
            } else {
                walk
            }
        }
        WalkState::Outside {
            next_begins_statement,
            ..
        } => {
            if word == b"$(".as_slice() {
                WalkState::Inside {
                    start: run.end,
                    next_begins_statement,
                }
            } else {
                WalkState::Outside {
                    last_comment: None,
                    next_begins_statement: ends_statement(word),
                }
            }
        }
    }
}
