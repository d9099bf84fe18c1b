//! The part of a normal proof that depends on no unknown result.
ghost use Rattle.std.specs.Prelude.{◌≡◌, ℕ, ◌+◌, ◌-◌, ◌<◌, ◌≤◌, ◌∷◌, ◌++◌, [], IfOk, IsTrue, MatchBool};
ghost use Rattle.std.specs.Prelude.{MatchOption, Some, None, is_none, length, take};
ghost use Rattle.std.specs.List.{list_any};
ghost use Rattle.mm_lex.specs.Words.{is_word};
ghost use Rattle.steps.specs.KnownPart.{CitesLast, IsEnd, IsKnownPart, IsUncitable, KnowsToken};
ghost use Rattle.steps.specs.KnownPart.{Takes, known_of};

use frame::{Frames, Meaning};
use mm_lex::Words;
use std::alloc::{AllocError, Global};

/// The tokens of a normal proof that depend on no `?`, and the results on the stack after them.
#[derive(Drop)]
pub struct KnownPart {
    /// The tokens that depend on no `?`.
    pub tokens: Words,
    /// How many more of them there may be.
    pub left: usize,
    /// For each result on the stack its index among those that these tokens leave, or `None` if it
    /// is not known.
    pub stack: Vec<Option<usize>>,
    /// How many results these tokens leave.
    pub height: usize,
}

/// Returns the part of a normal proof of the statement at a position that depends on no unknown
/// result, a token with `?` being one, up to the first token that cannot be cited or finds too few
/// results, and with at most so many tokens.
///
/// Errors: an allocation fails. Cost: for each token a look-up, and that of `Frames::mandatory`.
/// Source: Metamath, 4.3.
pub fn known_part(
    alloc: Global,
    frames: &Frames,
    at: usize,
    tokens: &Words,
    limit: usize,
) -> Result<KnownPart, AllocError>
    requires { (1 ≤ at) × (at ≤ length frames.now.statements) }
    ensures { IfOk result (IsKnownPart frames.now.statements at tokens.now limit) }
{
    let mut known = KnownPart {
        tokens: Words::new(alloc),
        left: limit,
        stack: Vec::new(alloc),
        height: 0,
    };
    let mut rest = tokens.iter();
    while let Some(token) = rest.next() {
        if !known.push_token(alloc, frames, at, token)? {
            return Ok(known);
        }
    }
    Ok(known)
}

impl KnownPart {
    /// Takes one token more, or returns `false`, and changes nothing, if it ends the part.
    ///
    /// Errors: an allocation fails.
    fn push_token(
        &mut self,
        alloc: Global,
        frames: &Frames,
        at: usize,
        token: &[u8],
    ) -> Result<bool, AllocError>
        requires position { (1 ≤ at) × (at ≤ length frames.now.statements) }
        requires word { IsTrue (is_word token.now) }
        ensures knows { (limit : ℕ) → self.old.left + length self.old.tokens ≡ limit
            → IfOk result (λ was. MatchBool was
            (KnowsToken frames.now.statements at token.now (known_of self.old) (known_of self.new))
            (IsEnd frames.now.statements at limit token.now (known_of self.old) × (self.new ≡ self.old))) }
        ensures left { IfOk result
            (λ was. self.new.left + length self.new.tokens ≡ self.old.left + length self.old.tokens) }
    {
        if token.contains(&b'?') {
            self.stack.push(None)?;
            return Ok(true);
        }
        match count_taken(alloc, frames, at, token)? {
            Some(count) if count <= self.stack.len() => self.push_citation(token, count),
            _ => Ok(false),
        }
    }

    /// Takes a citation that takes the last `count` results, or returns `false`, and changes
    /// nothing, if they are known and there are tokens enough.
    ///
    /// Errors: an allocation fails.
    fn push_citation(&mut self, token: &[u8], count: usize) -> Result<bool, AllocError>
        requires word { IsTrue (is_word token.now) }
        requires count { count ≤ length self.old.stack.items }
        ensures cites { IfOk result (λ was. MatchBool was
            (CitesLast token.now count (known_of self.old) (known_of self.new))
            ((self.old.left ≡ 0) × (self.new ≡ self.old))) }
        ensures left { IfOk result
            (λ was. self.new.left + length self.new.tokens ≡ self.old.left + length self.old.tokens) }
    {
        let keep = self.stack.len() - count;
        if has_unknown(&self.stack[keep..]) {
            self.stack.truncate(keep);
            self.stack.push(None)?;
            return Ok(true);
        }
        if self.left == 0 {
            return Ok(false);
        }
        let index = self.height.saturating_sub(count);
        self.height = index.checked_add(1).ok_or(AllocError)?;
        self.tokens.push(token)?;
        self.left -= 1;
        self.stack.truncate(keep);
        self.stack.push(Some(index))?;
        Ok(true)
    }
}

/// Returns whether one of the results is not known.
fn has_unknown(results: &[Option<usize>]) -> bool
    ensures { result ≡ list_any is_none results.now }
{
    results.iter().any(|known| known.is_none())
}

/// Returns how many results a citation of a label takes, or `None` if it cannot be cited.
///
/// Errors: an allocation fails.
fn count_taken(
    alloc: Global,
    frames: &Frames,
    at: usize,
    label: &[u8],
) -> Result<Option<usize>, AllocError>
    requires { (1 ≤ at) × (at ≤ length frames.now.statements) }
    ensures { IfOk result (λ count. MatchOption count
        (IsUncitable frames.now.statements at label.now) (Takes frames.now.statements at label.now)) }
{
    let Some(position) = frames.position(label) else {
        return Ok(None);
    };
    match frames.meaning(at, position) {
        Meaning::Hypothesis(_) => Ok(Some(0)),
        Meaning::Assertion => {
            let mut mandatory = Vec::new(alloc);
            frames.mandatory(position, &mut mandatory)?;
            Ok(Some(mandatory.len()))
        }
        Meaning::Nothing => Ok(None),
    }
}
