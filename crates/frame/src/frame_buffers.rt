//! Buffers for the parts of an assertion, which are reused.
ghost use Rattle.std.specs.Prelude.{◌≡◌, length, false};
ghost use Rattle.entries.specs.Entries.{AreShapedParts, assertion_of, no_parts};

use crate::pair_buffer::PairBuffer;
use entries::{AssertionParts, BufferPart};
use std::alloc::Global;
use std::marker::Model;

/// The mandatory hypotheses and pairs of an assertion, in buffers that are reused for one
/// assertion after another.
///
/// Contracts see them in the form in which the parts of an assertion are kept (`Assertion` of
/// `entries`).
#[derive(Drop)]
pub struct FrameBuffers {
    /// Whether the parts are whole, as `AssertionParts` says.
    pub(crate) whole: bool,
    /// For the mandatory pairs of one variable after another. A buffer only: contracts do not see
    /// it.
    pub(crate) pair_buffer: PairBuffer,
    /// The positions of the hypotheses, in order.
    pub(crate) hypotheses: Vec<u32>,
    /// Each hypothesis as one number: the variable of a `$f`, or the position of a `$e`.
    pub(crate) numbered_hypotheses: Vec<u32>,
    /// The typecode of each hypothesis.
    pub(crate) typecodes: Vec<u32>,
    /// The lists of the mandatory pairs, one after another.
    pub(crate) grouped_variables: Vec<u32>,
    /// For each list, its range in `grouped_variables`.
    pub(crate) groups: Vec<BufferPart>,
}

impl Model for FrameBuffers {
    ghost use Rattle.std.specs.Prelude.{length, map};
    ghost use Rattle.entries.specs.Entries.{Assertion};
    ghost use Rattle.entries.specs.Hypotheses.{decoded_hypothesis};
    ghost use Rattle.entries.specs.Stored.Spans.{cut, AreSpansIn};

    ghost Value = { Assertion };

    ghost view = { λ a. record {
      whole = a.whole;
      hypotheses = a.hypotheses.items;
      numbered_hypotheses = map decoded_hypothesis a.numbered_hypotheses.items;
      typecodes = a.typecodes.items;
      groups = cut a.grouped_variables.items a.groups.items;
    } };

    ghost invariant = { λ a. AreSpansIn (length a.grouped_variables.items) a.groups.items };
}

impl FrameBuffers {
    /// Returns empty buffers. Does not allocate.
    pub fn new(alloc: Global) -> FrameBuffers {
        FrameBuffers {
            whole: false,
            pair_buffer: PairBuffer::new(alloc),
            hypotheses: Vec::new(alloc),
            numbered_hypotheses: Vec::new(alloc),
            typecodes: Vec::new(alloc),
            grouped_variables: Vec::new(alloc),
            groups: Vec::new(alloc),
        }
    }

    /// Returns the parts of a statement with these symbols, in the form in which they are kept.
    pub(crate) fn parts<'a>(&'a self, symbols: &'a [u32]) -> AssertionParts<'a>
        requires numbered_hypotheses { length self.now.numbered_hypotheses ≡ length self.now.hypotheses }
        requires typecodes { length self.now.typecodes ≡ length self.now.hypotheses }
        ensures shaped { AreShapedParts result }
        ensures symbols { result.symbols.now ≡ symbols.now }
        ensures assertion { assertion_of result ≡ self.now }
    {
        AssertionParts {
            whole: self.whole,
            symbols,
            hypotheses: &self.hypotheses,
            numbered_hypotheses: &self.numbered_hypotheses,
            typecodes: &self.typecodes,
            grouped_variables: &self.grouped_variables,
            groups: &self.groups,
        }
    }

    /// Empties the buffers, which keep their capacity.
    pub(crate) fn clear(&mut self)
        ensures { self.new ≡ no_parts false }
    {
        self.whole = false;
        self.hypotheses.clear();
        self.numbered_hypotheses.clear();
        self.typecodes.clear();
        self.grouped_variables.clear();
        self.groups.clear();
    }
}
