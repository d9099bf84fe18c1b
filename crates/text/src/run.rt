//! The next run of a text.
ghost use Rattle.std.specs.Prelude.{◌≡◌, ◌≤◌, [], ◌∷◌, not, length, MatchOption, IfSome};
ghost use Rattle.std.specs.List.{position, position_or_len};
ghost use Rattle.mm_lex.specs.Alphabet.{is_white, IsPartOfRun};
ghost use Rattle.mm_lex.specs.Comments.{runs_after};

use mm_lex::Span;

/// Returns the next run of bytes that are not white, from `at` on, or `None` if only white bytes
/// are left.
///
/// Does not allocate. Cost: the bytes from `at` to the end of the run.
pub fn next_run(text: &[u8], at: usize) -> Option<Span>
    requires { at ≤ length text.now }
    ensures run { MatchOption result (runs_after text.now at ≡ [])
        (λ s. runs_after text.now at ≡ s ∷ runs_after text.now s.end) }
    ensures is_run { IfSome result (λ s. IsPartOfRun text.now s) }
    ensures later { IfSome result (λ s. at ≤ s.start) }
{
    let (_, rest) = text.split_at(at);
    let white = count_white(rest);
    if white == rest.len() {
        return None;
    }
    let (_, from_run) = rest.split_at(white);
    let nonwhite = count_nonwhite(from_run);
    let start = at + white;
    Some(Span {
        start,
        end: start + nonwhite,
    })
}

/// Returns how many bytes at the start of a text are white.
fn count_white(text: &[u8]) -> usize
    ensures count { result ≡ position_or_len (λ b. not (is_white b)) text.now }
    ensures within { result ≤ length text.now }
{
    first_nonwhite(text).unwrap_or(text.len())
}

fn first_nonwhite(text: &[u8]) -> Option<usize>
    ensures { result ≡ position (λ b. not (is_white b)) text.now }
{
    text.iter().position(|b| !b.is_ascii_whitespace())
}

/// Returns how many bytes at the start of a text are not white.
fn count_nonwhite(text: &[u8]) -> usize
    ensures count { result ≡ position_or_len is_white text.now }
    ensures within { result ≤ length text.now }
{
    first_white(text).unwrap_or(text.len())
}

fn first_white(text: &[u8]) -> Option<usize>
    ensures { result ≡ position is_white text.now }
{
    text.iter().position(|b| b.is_ascii_whitespace())
}
