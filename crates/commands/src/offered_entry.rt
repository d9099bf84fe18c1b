//! Entries that a line offers at a node.
ghost use Rattle.std.specs.Prelude.{◌≡◌, Some, None, MatchResult, is_some};
ghost use Rattle.commands.specs.declared.script.LineFault.TheVariants.{Bad};
ghost use Rattle.commands.specs.Scripts.{Parses, ParsesLine};
ghost use Rattle.commands.specs.OfferedEntry.{text_offer, charter_offer, charter_authors_of};
ghost use Rattle.commands.specs.OfferedEntry.{numbers_of, rises};

use crate::line_words::Words;
use crate::lines::Lines;
use crate::script::LineFault;
use crate::text_form::{TextForm, take_text};
use bytes::Bytes;
use library::{Entry, MAX_NAMES, Names, Submission};
use std::alloc::{AllocError, Global};
use text::parse_number;

/// An entry, and the node at which it is offered.
#[derive(Drop)]
pub struct OfferedEntry {
    pub node: u8,
    pub entry: Entry,
}

/// Parses `K AUTHOR SERIAL` and a text in this form, and takes the lines that are the text.
pub(crate) fn parse_text_offer<'a>(
    alloc: Global,
    form: TextForm,
    mut words: Words<'a>,
    lines: &mut Lines<'a>,
) -> Result<OfferedEntry, LineFault>
    ensures { ParsesLine (text_offer form words.entry lines.old.lines)
        lines.old lines.new result }
{
    let entry_id = words.take_entry_id().ok_or(LineFault::Bad)?;
    let text = take_text(form, words, lines).ok_or(LineFault::Bad)?;
    let Ok(text) = Bytes::copy_from_slice(alloc, text) else {
        return Err(LineFault::Memory);
    };
    Ok(OfferedEntry {
        node: entry_id.node,
        entry: Entry::Text(Submission {
            author: entry_id.author,
            serial: entry_id.serial,
            text,
        }),
    })
}

/// Parses `K AUTHOR SERIAL NAME ..`. Each `NAME` is the number of an author that the charter lists.
pub(crate) fn parse_charter_offer(
    alloc: Global,
    mut words: Words<'_>,
) -> Result<OfferedEntry, LineFault>
    ensures { Parses (charter_offer words.entry) result }
{
    let entry_id = words.take_entry_id().ok_or(LineFault::Bad)?;
    if !are_charter_authors(words.copy()) {
        return Err(LineFault::Bad);
    }
    let names = Names::new(parse_numbers(alloc, words)?).ok_or(LineFault::Bad)?;
    Ok(OfferedEntry {
        node: entry_id.node,
        entry: Entry::Charter {
            author: entry_id.author,
            serial: entry_id.serial,
            names,
        },
    })
}

/// Returns whether the words that are left are the authors of a charter (`Names`): 1 to 64 numbers,
/// each greater than the one before it. Does not allocate.
fn are_charter_authors(mut words: Words<'_>) -> bool
    ensures { result ≡ is_some (charter_authors_of words.entry) }
{
    let mut count = 0usize;
    let mut last = None;
    while let Some(word) = words.take() {
        let Some(number) = parse_number(word) else {
            return false;
        };
        if count >= MAX_NAMES || !is_above(number, last) {
            return false;
        }
        count += 1;
        last = Some(number);
    }
    count > 0
}

/// Returns whether a number is greater than the last one, or there is no last one.
fn is_above(number: u64, last: Option<u64>) -> bool
    ensures { result ≡ rises last number }
{
    match last {
        Some(last) => last < number,
        None => true,
    }
}

/// Parses each of the words as a number.
fn parse_numbers(alloc: Global, mut words: Words<'_>) -> Result<Vec<u64>, LineFault>
    ensures { MatchResult result
        (λ numbers. numbers_of words.entry ≡ Some numbers.items)
        (λ fault. fault ≡ Bad → numbers_of words.entry ≡ None) }
{
    let mut numbers = Vec::new(alloc);
    while let Some(word) = words.take() {
        let Some(number) = parse_number(word) else {
            return Err(LineFault::Bad);
        };
        if numbers.push(number).is_err() {
            return Err(LineFault::Memory);
        }
    }
    Ok(numbers)
}
