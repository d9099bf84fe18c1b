//! Who listens to the run over the items of a proof.

ghost use Rattle.std.specs.Prelude.{OnOk};
ghost use Rattle.verify.specs.Walk.{CitesAssertion, CitesHypothesis, Hears, IsMark, IsRecall};

use std::alloc::AllocError;
use subst::SymbolRange;

/// Hears of each item of a proof that was done, in order. Each method takes any call; a listener
/// that is told of a run from its beginning follows it.
///
/// Errors of its methods: an allocation fails.
pub trait Listener {
    ghost use Rattle.verify.specs.Walk.{Walk};

    /// What the listener has is right for the walk so far.
    ghost follows: { Walk → Self → Type 0 };

    /// The hypothesis at a position was cited, and its result is in that range of the symbols.
    fn hypothesis(&mut self, position: usize, range: SymbolRange) -> Result<(), AllocError>
        ensures { OnOk result (Hears follows (CitesHypothesis position range) self.old self.new) };

    /// The assertion at a position was cited, which took `count` results for its mandatory
    /// hypotheses, and its result is in that range of the symbols.
    fn assertion(
        &mut self,
        position: usize,
        count: usize,
        range: SymbolRange,
    ) -> Result<(), AllocError>
        ensures { OnOk result (Hears follows (CitesAssertion position count range) self.old self.new) };

    /// The last result was marked.
    fn mark(&mut self) -> Result<(), AllocError>
        ensures { OnOk result (Hears follows IsMark self.old self.new) };

    /// The marked result at an index, from 0, was recalled.
    fn recall(&mut self, index: usize) -> Result<(), AllocError>
        ensures { OnOk result (Hears follows (IsRecall index) self.old self.new) };
}

/// A listener that does nothing.
#[derive(Drop)]
pub struct Silent;

impl Listener for Silent {
    ghost follows = { λ w s. Unit {0} };

    #[inline(always)]
    fn hypothesis(&mut self, _position: usize, _range: SymbolRange) -> Result<(), AllocError> {
        Ok(())
    }

    #[inline(always)]
    fn assertion(
        &mut self,
        _position: usize,
        _count: usize,
        _range: SymbolRange,
    ) -> Result<(), AllocError> {
        Ok(())
    }

    #[inline(always)]
    fn mark(&mut self) -> Result<(), AllocError> {
        Ok(())
    }

    #[inline(always)]
    fn recall(&mut self, _index: usize) -> Result<(), AllocError> {
        Ok(())
    }
}
