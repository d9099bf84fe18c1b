//! The least `$p` of a text that is not proved or is too costly. (The crate `unproved` finds all of
//! a database that are not proved.)
ghost use Rattle.std.specs.Prelude.{◌≡◌, ◌≤◌, false, length, IfOk};
ghost use Rattle.library.specs.ProofJobs.{IsProofStop, JudgesProofs};
ghost use Rattle.scope.specs.Active.{bares};
ghost use Rattle.verify.specs.Metered.{is_past};

use crate::queries::is_provable;
use frame::Frames;
use mm_read::Stmt;
use std::alloc::AllocError;
use std::marker::Model;
use verify::{Answer, Checker, Meter};
use verify_pool::{Checkers, Outcome, Work};

/// The `$p` to be judged, by position, as jobs for a pool of workers. Contracts see all statements
/// and the positions of these `$p`.
#[derive(Drop)]
pub(crate) struct Proofs<'a> {
    frames: &'a Frames,
    statements: &'a [Stmt],
    positions: Vec<usize>,
}

impl<'a> Model for Proofs<'a> {
    ghost use Rattle.library.specs.ProofJobs.{ProofsAt, AreProofs};

    ghost Value = { ProofsAt };

    ghost view = { λ a. record { statements = a.statements.now; positions = a.positions.items } };

    ghost invariant = { λ a. AreProofs a.statements.now a.frames.now.statements a.positions.items };
}

impl<'a> Work for Proofs<'a> {
    ghost use Rattle.std.specs.Prelude.{length};
    ghost use Rattle.library.specs.ProofJobs.{IsRightProof, work_of_proof};

    ghost count = { λ proofs. length proofs.positions };

    ghost right = { IsRightProof };

    ghost work = { work_of_proof };

    fn count(&self) -> usize {
        self.positions.len()
    }

    fn judge(
        &self,
        index: usize,
        checker: &mut Checker,
        meter: &mut Meter,
    ) -> Result<Answer, AllocError> {
        let at = self.positions[index];
        match &self.statements[at - 1] {
            Stmt::Prove { proof, .. } => checker.prove(self.frames, at, proof, meter),
            _ => Ok(Answer::Proved),
        }
    }
}

/// Judges the `$p` after the first `start` statements in order and counts their proofs on the
/// meter, up to the first that is not proved or with which the count is past the limit. The outcome
/// has the position of that `$p` in place of an index. `judge` judges proofs in order.
///
/// Errors: an allocation fails. Cost: that of the proofs, and one pass over these statements.
pub(crate) fn judge_proofs<
    F: Fn(&Proofs<'_>, &mut Checkers, &mut Meter) -> Result<Outcome, AllocError>,
>(
    judge: &F,
    frames: &Frames,
    statements: &[Stmt],
    start: usize,
    checkers: &mut Checkers,
    meter: &mut Meter,
) -> Result<Outcome, AllocError>
    requires judges { JudgesProofs (F.pre judge.now) (F.post judge.now) }
    requires same { frames.now.statements ≡ bares statements.now }
    requires begins { start ≤ length statements.now }
    requires within { is_past meter.old ≡ false }
    ensures { IfOk result (IsProofStop statements.now start meter.old meter.new) }
{
    let mut positions = Vec::new(checkers.alloc());
    for index in start..statements.len() {
        if is_provable(&statements[index]) {
            positions.push(index + 1)?;
        }
    }
    let proofs = Proofs {
        frames,
        statements,
        positions,
    };
    match judge(&proofs, checkers, meter)? {
        Outcome::AllRight => Ok(Outcome::AllRight),
        Outcome::Wrong(index) => Ok(Outcome::Wrong(proofs.positions[index])),
        Outcome::TooCostly(index) => Ok(Outcome::TooCostly(proofs.positions[index])),
    }
}
