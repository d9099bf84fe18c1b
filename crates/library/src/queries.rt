//! Questions on a label: the axioms of a `$p`, the items of its proof and the derivation that they
//! spell; the theorems that use a statement.
ghost use Rattle.std.specs.Prelude.{◌≡◌, ◌≢◌, ◌↔◌, ◌⊎◌, Ok, Err, IfOk, MatchResult};
ghost use Rattle.frame.specs.AtPosition.{HasLabelsOnce};
ghost use Rattle.library.specs.Good.{Good};
ghost use Rattle.library.specs.Queries.{HasNoLabel, NamesProvable, NamesNoProvable, IsTrace};
ghost use Rattle.library.specs.Queries.{IsUsage, IsProofOf, IsTreeOf, IsNoProvable};
ghost use Rattle.scope.specs.Active.{bares, is_provable};
ghost use Rattle.verify.specs.Derivations.{Derivation, derivation_of};
ghost use Rattle.verify.specs.Right.{IsSmall};

use crate::axioms_used::{axioms_used, items_of};
use crate::checked_database::CheckedDatabase;
use crate::cited_by::citing_labels;
use crate::library::Library;
use frame::Frames;
use mm_lex::Word;
use mm_read::Stmt;
use proof_code::Items;
use std::alloc::AllocError;
use verify::{Tree, TreeFault, derivation};

/// Why a question on a label has no answer.
#[derive(Clone, Copy, Debug, Drop, PartialEq, Eq)]
pub enum AskFault {
    /// No statement has the label.
    NoLabel,
    /// The statement with the label is no `$p`.
    NotProvable,
    /// The derivation has more than 65,536 nodes (`MAX_NODES` of `verify`) or a depth above 1,024
    /// (`MAX_DEPTH`).
    TooLarge,
    /// An allocation failed.
    Memory,
}

impl From<AllocError> for AskFault {
    ghost use Rattle.library.specs.declared.queries.AskFault.TheVariants.{Memory};

    ghost from_gives = { λ _ fault. fault ≡ Memory };

    fn from(_error: AllocError) -> AskFault {
        AskFault::Memory
    }
}

impl Library {
    /// Returns the labels of the `$a` on which the proof of the `$p` with the label rests: those
    /// that it cites, and those on which the proofs of the `$p` that it cites rest. Each is
    /// returned once, in the order of the library.
    ///
    /// Errors: `NoLabel` if no statement has the label, `NotProvable` if the one that has it is no
    /// `$p`, both even if every allocation fails; else `Memory`. Cost: that of the proof and of
    /// those that it rests on, each read once, and a byte for each statement before the `$p`.
    /// Source: Metamath, 4.2.6 and appendix B.
    pub fn trace(&self, label: &[u8]) -> Result<Vec<Word>, AskFault>
        ensures labels { IfOk result (λ labels. IsTrace self.now.replica.statements label.now labels.items) }
        ensures no_label { (result ≡ Err AskFault.NoLabel) ↔ HasNoLabel self.now.replica.statements label.now }
        ensures not_provable { (result ≡ Err AskFault.NotProvable)
            ↔ NamesNoProvable self.now.replica.statements label.now }
        ensures never_too_large { result ≢ Err AskFault.TooLarge }
    {
        let at = provable_position(self.database(), label)?;
        Ok(axioms_used(self.database(), at)?)
    }

    /// Returns the labels of the `$p` whose proofs cite the statement with the label, a hypothesis
    /// or an assertion, each once, in the order of the library; with `all` also of those that use
    /// it through other `$p`.
    ///
    /// Errors: `NoLabel` if no statement has the label, even if every allocation fails; else
    /// `Memory`. Cost: a byte for each statement, and the proofs after the one with the label. Each
    /// of these is read once, or twice if it lists a label that is sought: this label or, with
    /// `all`, that of a `$p` found before.
    /// Source: Metamath, 4.2.6 and appendix B.
    pub fn usage(&self, label: &[u8], all: bool) -> Result<Vec<Word>, AskFault>
        ensures labels { IfOk result (λ labels. IsUsage self.now.replica.statements label.now all labels.items) }
        ensures no_label { (result ≡ Err AskFault.NoLabel) ↔ HasNoLabel self.now.replica.statements label.now }
        ensures any_kind { result ≢ Err AskFault.NotProvable }
        ensures never_too_large { result ≢ Err AskFault.TooLarge }
    {
        let database = self.database();
        match database.frames().position(label) {
            Some(at) => Ok(citing_labels(database, at, all)?),
            None => Err(AskFault::NoLabel),
        }
    }

    /// Returns the position of the `$p` with the label, and the items that the tokens of its proof
    /// write, which are right.
    ///
    /// Errors: those of `trace`. Cost: the proof's own size. Source: Metamath, 4.2.6 and appendix
    /// B.
    pub fn items(&self, label: &[u8]) -> Result<(usize, Items), AskFault>
        ensures items { IfOk result (λ found. IsProofOf self.now.replica.statements label.now found.0 found.1) }
        ensures no_label { (result ≡ Err AskFault.NoLabel) ↔ HasNoLabel self.now.replica.statements label.now }
        ensures not_provable { (result ≡ Err AskFault.NotProvable)
            ↔ NamesNoProvable self.now.replica.statements label.now }
        ensures never_too_large { result ≢ Err AskFault.TooLarge }
    {
        let at = provable_position(self.database(), label)?;
        match items_of(self.database(), at)? {
            Some(items) => Ok((at, items)),
            None => unreachable!(),
        }
    }

    /// Returns the frames of the statements, no two of which have the same label.
    pub fn frames(&self) -> &Frames
        ensures same { result.now.statements ≡ bares self.now.replica.statements }
        ensures once { HasLabelsOnce result.now.statements }
    {
        self.database().frames()
    }

    /// Returns the derivation that the proof of the `$p` with the label spells.
    ///
    /// Errors: `NoLabel` and `NotProvable` as for `trace`; `TooLarge` if the derivation has more
    /// than 65,536 nodes or a depth above 1,024; `Memory` if an allocation fails, even if the
    /// derivation is too large.
    /// Cost: a check of the proof, and the tree. Source: Metamath, 4.2.6 and appendix B.
    pub fn tree(&self, label: &[u8]) -> Result<Tree, AskFault>
        ensures tree { IfOk result (λ tree. IsTreeOf self.now.replica.statements label.now (derivation_of tree)) }
        ensures within_limits { IfOk result (λ tree. IsSmall (derivation_of tree)) }
        ensures no_label { (result ≡ Err AskFault.NoLabel) ↔ HasNoLabel self.now.replica.statements label.now }
        ensures not_provable { (result ≡ Err AskFault.NotProvable)
            ↔ NamesNoProvable self.now.replica.statements label.now }
        ensures large { (t : Derivation) → IsTreeOf self.now.replica.statements label.now t → ¬ IsSmall t
            → (result ≡ Err AskFault.TooLarge) ⊎ (result ≡ Err AskFault.Memory) }
        ensures only_large { result ≡ Err AskFault.TooLarge → (t : Derivation)
            × IsTreeOf self.now.replica.statements label.now t × (¬ IsSmall t) }
    {
        let database = self.database();
        let frames = database.frames();
        match self.items(label) {
            Ok((at, items)) => match derivation(database.alloc(), frames, at, &items) {
                Ok(tree) => Ok(tree),
                Err(TreeFault::TooLarge) => Err(AskFault::TooLarge),
                Err(TreeFault::Memory) => Err(AskFault::Memory),
                Err(TreeFault::Wrong) => unreachable!(),
            },
            Err(fault) => Err(fault),
        }
    }
}

/// Returns the position of the `$p` with the label.
///
/// Errors: `NoLabel` if no statement has the label, `NotProvable` if it is no `$p`.
fn provable_position(database: &CheckedDatabase, label: &[u8]) -> Result<usize, AskFault>
    ensures found { MatchResult result
        (λ at. NamesProvable database.now label.now at × (¬ NamesNoProvable database.now label.now))
        (IsNoProvable database.now label.now) }
    ensures good { Good database.now }
{
    let Some(at) = database.frames().position(label) else {
        return Err(AskFault::NoLabel);
    };
    if is_provable(database.statement(at)) {
        Ok(at)
    } else {
        Err(AskFault::NotProvable)
    }
}

/// Returns whether the statement is a `$p`.
pub(crate) fn is_provable(statement: &Stmt) -> bool
    ensures { result ≡ is_provable statement.now }
{
    matches!(statement, Stmt::Prove { .. })
}
