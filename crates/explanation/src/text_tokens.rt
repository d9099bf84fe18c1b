//! A text with the spans of its tokens.
ghost use Rattle.std.specs.Prelude.{◌≡◌, IfOk};
ghost use Rattle.std.specs.List.{All};
ghost use Rattle.mm_lex.specs.Tokens.{AreTokens, IsWordAt};
ghost use Rattle.places.specs.TokenSpans.{counted_token};
ghost use Rattle.explanation.specs.TokenPlaces.{start_or_end};

use mm_lex::{LexFault, Span, tokens};
use places::token_span_within;
use std::alloc::Global;
use std::marker::Model;

/// A text with the spans of its tokens.
#[derive(Drop)]
pub struct TextTokens<'a> {
    text: &'a [u8],
    spans: Vec<Span>,
}

impl<'a> Model for TextTokens<'a> {
    ghost use Rattle.std.specs.List.{All};
    ghost use Rattle.mm_lex.specs.Tokens.{IsWordAt};
    ghost use Rattle.explanation.specs.TokenPlaces.{SplitText};

    ghost Value = { SplitText };

    ghost view = { λ a. record { text = a.text.now; spans = a.spans.items } };

    ghost invariant = { λ a. All (IsWordAt a.text.now) a.spans.items };
}

impl<'a> TextTokens<'a> {
    /// Returns a text with the spans of its tokens.
    ///
    /// Errors: the bytes or comments of the text are faulty, or an allocation fails. Cost: linear
    /// in the text.
    pub fn new(alloc: Global, text: &'a [u8]) -> Result<TextTokens<'a>, LexFault>
        ensures text { IfOk result (λ tokens. tokens.text ≡ text.now) }
        ensures tokens { IfOk result (λ tokens. AreTokens text.now tokens.spans) }
    {
        let spans = tokens(alloc, text)?;
        Ok(TextTokens { text, spans })
    }

    /// Returns a text with the spans of some of its tokens.
    pub fn of_spans(text: &'a [u8], spans: Vec<Span>) -> TextTokens<'a>
        requires { All (IsWordAt text.now) spans.items }
        ensures text { result.text ≡ text.now }
        ensures spans { result.spans ≡ spans.items }
    {
        TextTokens { text, spans }
    }

    /// Returns the text.
    pub fn text(&self) -> &'a [u8]
        ensures { result.now ≡ self.now.text }
    {
        self.text
    }

    /// Returns the spans of its tokens.
    pub fn spans(&self) -> &[Span]
        ensures spans { result.now ≡ self.now.spans }
        ensures words { All (IsWordAt self.now.text) result.now }
    {
        self.spans.as_slice()
    }

    /// Returns the offset at which a token of a statement begins, or the end of the text if there
    /// is no such token. The statement and the token are counted from 1, as by
    /// `places::token_span`.
    pub(crate) fn start_of(&self, statement: usize, token: usize) -> usize
        ensures { result
            ≡ start_or_end self.now.text (counted_token self.now.text self.now.spans statement token) }
    {
        match self.span_of(statement, token) {
            Some(span) => span.start,
            None => self.text.len(),
        }
    }

    /// Returns the span of a token of a statement, if there is one.
    #[tactic(auto, using(places::proofs::TokenSpanLemmas::statement_zero, places::proofs::TokenSpanLemmas::token_zero, places::proofs::TokenSpanLemmas::counted_is))]
    fn span_of(&self, statement: usize, token: usize) -> Option<Span>
        ensures { result ≡ counted_token self.now.text self.now.spans statement token }
    {
        if statement == 0 {
            return None;
        }
        if token == 0 {
            return None;
        }
        token_span_within(self.text, self.spans.as_slice(), statement, token)
    }
}
