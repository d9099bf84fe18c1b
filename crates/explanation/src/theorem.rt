//! A `$p` of a text: its parts, and where its proof is.
ghost use Rattle.std.specs.Prelude.{◌≡◌, IfSome, Some};
ghost use Rattle.scope.specs.Active.{stmt_at};

use crate::item_spots::Spot;
use crate::statement_symbols::label_of;
use crate::text_tokens::TextTokens;
use crate::written_lines::Lines;
use mm_lex::Words;
use mm_read::Stmt;
use unproved::{LeftOut, text_position};

/// A `$p` of a text that parses as these statements.
#[derive(Clone, Copy)]
pub(crate) struct Theorem<'a> {
    pub(crate) tokens: &'a TextTokens<'a>,
    pub(crate) statements: &'a [Stmt],
    /// The statements of the text that are left out of these.
    pub(crate) left_out: &'a [LeftOut],
    /// Its position among the statements, counted from 1.
    pub(crate) at: usize,
    pub(crate) label: &'a [u8],
    pub(crate) expr: &'a Words,
    pub(crate) proof: &'a Words,
}

impl<'a> Theorem<'a> {
    /// Returns the `$p` at a position, or `None` if there is no `$p`.
    pub(crate) fn new(
        tokens: &'a TextTokens<'a>,
        statements: &'a [Stmt],
        left_out: &'a [LeftOut],
        at: usize,
    ) -> Option<Theorem<'a>>
        ensures position { IfSome result (λ theorem. theorem.at ≡ at) }
        ensures parts { IfSome result (λ theorem. stmt_at statements.now theorem.at
            ≡ Some (Stmt.Prove theorem.label.now theorem.expr.now theorem.proof.now)) }
    {
        let index = at.checked_sub(1)?;
        let Some(Stmt::Prove { label, expr, proof }) = statements.get(index) else {
            return None;
        };
        Some(Theorem {
            tokens,
            statements,
            left_out,
            at,
            label: label.as_bytes(),
            expr,
            proof,
        })
    }

    /// Writes `LINE:COLUMN: the proof of LABEL` for a byte of a token of the proof, or for the `$.`
    /// after the last token.
    pub(crate) fn push_spot(&self, lines: &mut Lines<'_>, spot: Spot) {
        let token = self.expr.len().saturating_add(4).saturating_add(spot.token);
        let position = text_position(self.left_out, self.at);
        let start = self.tokens.start_of(position, token);
        lines.push_place(self.tokens.text(), start.saturating_add(spot.byte));
        lines.push(b": the proof of ");
        lines.push(self.label);
    }

    /// Writes `LINE:COLUMN: the proof of LABEL` for the `$.`.
    pub(crate) fn push_end(&self, lines: &mut Lines<'_>) {
        let token = self.proof.len();
        self.push_spot(lines, Spot { token, byte: 0 });
    }

    /// Returns the label of the statement at a position, or an empty one if there is none.
    pub(crate) fn label_at(&self, at: usize) -> &'a [u8] {
        match self.statements.get(at.saturating_sub(1)) {
            Some(stmt) => label_of(stmt),
            None => b"",
        }
    }

    /// Returns the typecode of the `$f` at a position, or an empty one if that statement is not a
    /// `$f`.
    pub(crate) fn typecode_at(&self, at: usize) -> &'a [u8] {
        match self.statements.get(at.saturating_sub(1)) {
            Some(Stmt::Float { constant, .. }) => constant.as_bytes(),
            _ => b"",
        }
    }

    /// Returns whether the statement at a position is a `$f` or `$e`.
    pub(crate) fn is_hypothesis(&self, at: usize) -> bool {
        matches!(
            self.statements.get(at.saturating_sub(1)),
            Some(Stmt::Float { .. }) | Some(Stmt::Ess { .. })
        )
    }
}
