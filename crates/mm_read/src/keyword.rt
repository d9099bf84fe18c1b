//! The keywords that decide the shape of a statement.
ghost use Rattle.std.specs.Prelude.{◌≡◌, ◌≤◌, [], ◌∷◌, IsTrue, length};
ghost use Rattle.mm_lex.specs.Alphabet.{word};
ghost use Rattle.mm_lex.specs.Words.{is_word};
ghost use Rattle.mm_read.specs.StatementParts.{IsKeyword};

use mm_lex::Span;

/// A keyword that decides the shape of a statement, named as that shape of `Stmt`; or `Other` for
/// any other token, even `$=` and `$.`.
#[derive(Clone, Copy)]
pub enum Keyword {
    Open,
    Close,
    Const,
    Var,
    Disj,
    Float,
    Ess,
    Axiom,
    Prove,
    Other,
}

/// Returns the keyword that this token is, or `Other`.
pub fn keyword_of(token: &[u8]) -> Keyword
    ensures { IsKeyword result token.now }
{
    match token {
        [b'$', letter] => keyword_of_letter(*letter),
        _ => Keyword::Other,
    }
}

/// Returns the keyword of `$` (byte 36) and this letter, or `Other`.
fn keyword_of_letter(letter: u8) -> Keyword
    ensures { IsKeyword result (36 ∷ letter ∷ []) }
{
    match letter {
        b'{' => Keyword::Open,
        b'}' => Keyword::Close,
        b'c' => Keyword::Const,
        b'v' => Keyword::Var,
        b'd' => Keyword::Disj,
        b'f' => Keyword::Float,
        b'e' => Keyword::Ess,
        b'a' => Keyword::Axiom,
        b'p' => Keyword::Prove,
        _ => Keyword::Other,
    }
}

/// Returns the bytes of the token at a span of the text.
pub fn token_bytes(text: &[u8], span: Span) -> &[u8]
    requires ordered { span.start ≤ span.end }
    requires within { span.end ≤ length text.now }
    ensures { result.now ≡ word text.now span }
{
    &text[span.start..span.end]
}
