//! Consecutive statements as jobs of a pool.
use frame::Frames;
use mm_read::Stmt;
use std::alloc::AllocError;
use std::marker::Model;
use verify::{Answer, Checker, Meter};
use verify_pool::Work;

/// The statements at positions `start + 1` to `end`; the job of index `i` is the one at
/// `start + 1 + i`. Contracts see all statements, `start` and `end`.
#[derive(Drop)]
pub(crate) struct StatementRange<'a> {
    pub(crate) frames: &'a Frames,
    pub(crate) statements: &'a [Stmt],
    pub(crate) start: usize,
    pub(crate) end: usize,
}

impl<'a> Model for StatementRange<'a> {
    ghost use Rattle.unproved.specs.StatementRanges.{IsRangeWithFrames, RangeView};

    ghost Value = { RangeView };

    ghost view = { λ a. record { statements = a.statements.now; start = a.start; end = a.end } };

    ghost invariant = { λ a. IsRangeWithFrames a.frames.now.statements a.statements.now a.start a.end };
}

impl<'a> Work for StatementRange<'a> {
    ghost use Rattle.std.specs.Prelude.{◌-◌};
    ghost use Rattle.unproved.specs.StatementRanges.{IsProvedIn};

    ghost count = { λ range. range.end - range.start };

    ghost right = { IsProvedIn };

    ghost work = { λ _ _. 0 };

    fn count(&self) -> usize {
        self.end - self.start
    }

    fn judge(
        &self,
        index: usize,
        checker: &mut Checker,
        _meter: &mut Meter,
    ) -> Result<Answer, AllocError> {
        let at = self.start + index + 1;
        match &self.statements[at - 1] {
            Stmt::Prove { proof, .. } => {
                let mut meter = Meter::new(None);
                checker.prove(self.frames, at, proof, &mut meter)
            }
            _ => Ok(Answer::Proved),
        }
    }
}
