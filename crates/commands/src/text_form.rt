//! The forms in which a line gives a text.
ghost use Rattle.std.specs.Prelude.{◌≡◌, ℕ, ◌==◌, ◌≤◌, Some, None, MatchOption, length, drop};
ghost use Rattle.std.specs.Prelude.{count_by, option_map, slice_index, IsTrue, ◌<◌};
ghost use Rattle.commands.specs.Pieces.{split_at};
ghost use Rattle.commands.specs.RemainingLines.{IsAdvanced};
ghost use Rattle.commands.specs.Texts.{bytes_before, form_by, lines_before, one_word, text_in_form};

use crate::line_words::Words;
use crate::lines::Lines;
use crate::pieces::Pieces;
use crate::script::LINE_FEED;

/// How a line gives the text that it offers.
#[derive(Clone, Copy, Debug, PartialEq, Eq)]
pub enum TextForm {
    /// The rest of the line.
    Rest,
    /// The lines that follow, each with its line feed, up to the first that is a given word alone.
    Lines,
    /// A given number of bytes that follow the line, and then a line feed.
    Bytes,
}

/// Returns the form of the text that a verb gives, if it is one of three verbs: `rest` for a text
/// on the line, `lines` for one on the lines that follow, `bytes` for one of a given number of
/// bytes.
pub(crate) fn form_of(verb: &[u8], rest: &[u8], lines: &[u8], bytes: &[u8]) -> Option<TextForm>
    ensures { result ≡ form_by rest.now lines.now bytes.now verb.now }
{
    if verb == rest {
        Some(TextForm::Rest)
    } else if verb == lines {
        Some(TextForm::Lines)
    } else if verb == bytes {
        Some(TextForm::Bytes)
    } else {
        None
    }
}

/// Returns the text that the words give, and takes the lines that are the text. Returns `None` if
/// the words give no text in this form, or its end is missing.
pub(crate) fn take_text<'a>(
    form: TextForm,
    words: Words<'a>,
    lines: &mut Lines<'a>,
) -> Option<&'a [u8]>
    ensures { MatchOption result
        (text_in_form form words.entry lines.old.lines ≡ None)
        (λ text. (count : ℕ)
        × (text_in_form form words.entry lines.old.lines ≡ Some (text.now, count))
        × IsAdvanced count lines.old lines.new) }
{
    match form {
        TextForm::Rest => Some(words.text()),
        TextForm::Lines => lines.take_lines(only_word(words)?),
        TextForm::Bytes => lines.take_bytes(words.only_number()?),
    }
}

/// Returns the only word that is left, if it is not empty.
pub(crate) fn only_word<'a>(mut words: Words<'a>) -> Option<&'a [u8]>
    ensures { option_map (λ word. word.now) result ≡ one_word words.entry }
{
    let word = words.take()?;
    if word.is_empty() || words.take().is_some() {
        return None;
    }
    Some(word)
}

/// A text that was taken, and the count of the lines that were taken with it. The line of the word
/// that ends a text counts too.
#[derive(Clone, Copy, Debug)]
pub(crate) struct TakenText<'a> {
    pub text: &'a [u8],
    pub count: usize,
}

impl<'a> Pieces<'a, LINE_FEED> {
    /// Takes the lines up to the first that is `word` alone, and returns those before it, each with
    /// its line feed. Returns `None` if there is no such line.
    pub fn take_until(&mut self, word: &[u8]) -> Option<TakenText<'a>>
        ensures text { MatchOption result
            (lines_before word.now self.old ≡ None)
            (λ t. lines_before word.now self.old ≡ Some (t.text.now, t.count)) }
        ensures rest { MatchOption result
            (length self.new ≤ length self.old)
            (λ t. (t.count ≤ length self.old) × (self.new ≡ drop t.count self.old)) }
    {
        let (taken, rest) = lines_until(self.rest?, word)?;
        *self = rest;
        Some(taken)
    }

    /// Takes `count` bytes and the line feed that follows them, and returns the bytes. Returns
    /// `None` if no line feed follows.
    pub fn take_bytes(&mut self, count: u64) -> Option<TakenText<'a>>
        ensures text { MatchOption result
            (bytes_before count self.old ≡ None)
            (λ t. bytes_before count self.old ≡ Some (t.text.now, t.count)) }
        ensures rest { MatchOption result
            (self.new ≡ self.old)
            (λ t. (t.count ≤ length self.old) × (self.new ≡ drop t.count self.old)) }
    {
        let all = self.rest?;
        let len = count as usize;
        if is_line_feed_at(all, len) {
            self.rest = Some(&all[len + 1..]);
            let text = &all[..len];
            return Some(TakenText {
                text,
                count: line_feeds(text) + 1,
            });
        }
        None
    }
}

/// Returns the lines before the first that is `word` alone, and those after it. Returns `None` if
/// there is no such line.
fn lines_until<'a>(all: &'a [u8], word: &[u8]) -> Option<(TakenText<'a>, Pieces<'a, LINE_FEED>)>
    ensures { MatchOption result
        (lines_before word.now (split_at LINE_FEED all.now) ≡ None)
        (λ found. (lines_before word.now (split_at LINE_FEED all.now)
        ≡ Some (found.0.text.now, found.0.count))
        × (found.0.count ≤ length (split_at LINE_FEED all.now))
        × (found.1 ≡ drop found.0.count (split_at LINE_FEED all.now))) }
{
    let mut lines: Pieces<'a, LINE_FEED> = Pieces::new(all);
    let mut len = 0usize;
    let mut count = 0usize;
    while let Some(line) = lines.take() {
        count += 1;
        if line == word {
            let text = &all[..len];
            return Some((TakenText { text, count }, lines));
        }
        len += line.len() + 1;
    }
    None
}

/// Returns whether the byte at this index is a line feed.
#[tactic(auto, using(std::proofs::lemmas::List::get_or_past))]
fn is_line_feed_at(bytes: &[u8], index: usize) -> bool
    ensures feed { result ≡ (slice_index bytes.now index == LINE_FEED) }
    ensures inside { IsTrue result → index < length bytes.now }
{
    index < bytes.len() && bytes[index] == LINE_FEED
}

/// Counts the line feeds of a text.
pub(crate) fn line_feeds(text: &[u8]) -> usize
    ensures { result ≡ count_by (λ b. b == LINE_FEED) text.now }
{
    text.iter().filter(|byte| **byte == LINE_FEED).count()
}
