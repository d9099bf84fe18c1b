//! The headings and the statements of a text, in order.
ghost use Rattle.std.specs.Prelude.{◌≡◌, ◌++◌, ◌≤◌, map, length, option_map, IfOk, IfSome, OnOk};
ghost use Rattle.markup.specs.Ends.{ends_statement};
ghost use Rattle.markup.specs.IndexItems.{item_view, walk_after_run, items_of_run, items_of};
ghost use Rattle.markup.specs.IndexItems.{heading_items, comment_after, ended_after};

use crate::headings::{Heading, heading_of};
use mm_lex::Span;
use std::alloc::{AllocError, Global};
use text::next_run;

/// A heading, or a statement by its index, from 0.
#[derive(Clone, Copy, Drop)]
pub enum IndexItem<'a> {
    Heading(Heading<'a>),
    Statement(usize),
}

/// The state of a walk over the runs of a text, between two runs.
#[derive(Clone, Copy, Drop)]
struct Walk {
    /// The offset at which the contents of the comment here begin; `None` outside comments.
    comment: Option<usize>,
    /// The number of statements that have ended.
    ended: usize,
}

/// Returns the headings of the comments of a text and its statements, in order; a statement stands
/// at its end. The text is meant to be one that reads as statements.
///
/// Errors: an allocation fails. Cost: the size of the text.
pub fn index_items<'a>(alloc: Global, text: &'a [u8]) -> Result<Vec<IndexItem<'a>>, AllocError>
    ensures { IfOk result (λ items. map item_view items.items ≡ items_of text.now) }
{
    let mut items = Vec::new(alloc);
    let mut walk = Walk {
        comment: None,
        ended: 0,
    };
    let mut at = 0;
    while let Some(span) = next_run(text, at) {
        push_items_of_run(&mut items, text, walk, span)?;
        let next = walk_after_run(walk, &text[span.start..span.end], span)?;
        walk = next;
        at = span.end;
    }
    Ok(items)
}

/// Appends what a run completes: the heading of a comment that it ends, or the statement that it
/// ends.
fn push_items_of_run<'a>(
    items: &mut Vec<IndexItem<'a>>,
    text: &'a [u8],
    walk: Walk,
    run: Span,
) -> Result<(), AllocError>
    requires comment { IfSome walk.comment (λ start. start ≤ run.start) }
    requires run { (run.start ≤ run.end) × (run.end ≤ length text.now) }
    ensures { OnOk result (map item_view items.new.items
        ≡ map item_view items.old.items ++ items_of_run text.now walk run) }
{
    let word = &text[run.start..run.end];
    match walk.comment {
        Some(start) => {
            if word == b"$)".as_slice() {
                push_heading(items, heading_of(&text[start..run.start]))
            } else {
                Ok(())
            }
        }
        None => {
            if ends_statement(word) {
                items.push(IndexItem::Statement(walk.ended))?;
            }
            Ok(())
        }
    }
}

/// Appends a heading, if there is one.
fn push_heading<'a>(
    items: &mut Vec<IndexItem<'a>>,
    heading: Option<Heading<'a>>,
) -> Result<(), AllocError>
    ensures { OnOk result (map item_view items.new.items
        ≡ map item_view items.old.items ++ heading_items (option_map (λ h. (h.level, h.title.now)) heading.entry)) }
{
    if let Some(heading) = heading {
        items.push(IndexItem::Heading(heading))?;
    }
    Ok(())
}

/// Returns the state of the walk after a run.
///
/// Errors: there are more statements than a `usize` counts.
fn walk_after_run(walk: Walk, word: &[u8], run: Span) -> Result<Walk, AllocError>
    ensures { IfOk result (λ next. next ≡ walk_after_run walk word.now run) }
{
    let comment = comment_after(walk.comment, word, run);
    let ended = ended_after(walk.comment, walk.ended, word)?;
    Ok(Walk { comment, ended })
}

/// Returns where the contents of the comment after a run begin, if there is one.
fn comment_after(comment: Option<usize>, word: &[u8], run: Span) -> Option<usize>
    ensures { result ≡ comment_after comment word.now run }
{
    match comment {
        Some(start) => {
            if word == b"$)".as_slice() {
                None
            } else {
                Some(start)
            }
        }
        None => {
            if word == b"$(".as_slice() {
                Some(run.end)
            } else {
                None
            }
        }
    }
}

/// Returns how many statements have ended after a run.
fn ended_after(comment: Option<usize>, ended: usize, word: &[u8]) -> Result<usize, AllocError>
    ensures { IfOk result (λ next. next ≡ ended_after comment ended word.now) }
{
    match comment {
        Some(_) => Ok(ended),
        None => {
            if ends_statement(word) {
                ended.checked_add(1).ok_or(AllocError)
            } else {
                Ok(ended)
            }
        }
    }
}

/// Returns whether a token ends a statement: `$.`, or `${` or `$}`, which are statements of one
/// token.
fn ends_statement(word: &[u8]) -> bool
    ensures { result ≡ ends_statement word.now }
{
    word == b"$.".as_slice() || word == b"${".as_slice() || word == b"$}".as_slice()
}
