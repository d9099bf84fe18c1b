//! A view of lists of numbers that are stored in one buffer.
ghost use Rattle.std.specs.Prelude.{◌≡◌, ◌<◌, length, slice_get, Some};
ghost use Rattle.entries.specs.Stored.Spans.{cut, AreSpansIn};

use crate::buffer_part::{BufferPart, item, part};
use std::marker::Model;

/// A view of lists of numbers: `spans` says where each of them stands in the buffer `numbers`.
/// Contracts see the list of the lists.
#[derive(Drop)]
pub struct Groups<'a> {
    pub(crate) spans: &'a [BufferPart],
    pub(crate) numbers: &'a [u32],
}

impl<'a> Model for Groups<'a> {
    ghost use Rattle.std.specs.Prelude.{ℕ, List, length};

    ghost Value = { List (List ℕ) };

    ghost use Rattle.entries.specs.Stored.Spans.{cut, AreSpansIn};

    ghost view = { λ a. cut a.numbers.now a.spans.now };

    ghost invariant = { λ a. AreSpansIn (length a.numbers.now) a.spans.now };
}

impl<'a> Groups<'a> {
    /// Returns the lists that are these parts of the numbers.
    pub fn new(spans: &'a [BufferPart], numbers: &'a [u32]) -> Groups<'a>
        requires { AreSpansIn (length numbers.now) spans.now }
        ensures { result ≡ cut numbers.now spans.now }
    {
        Groups { spans, numbers }
    }

    /// Returns a view of the same lists.
    ///
    /// It saves time: a view that is passed by reference has to lie in memory, so a caller passes a
    /// copy to a function that it seldom calls, and its own view may stay in registers.
    #[inline(always)]
    pub fn copy(&self) -> Groups<'a>
        ensures { result ≡ self.now }
    {
        Groups {
            spans: self.spans,
            numbers: self.numbers,
        }
    }

    /// Returns how many lists there are.
    pub fn len(&self) -> usize
        ensures { result ≡ length self.now }
    {
        self.spans.len()
    }

    /// Returns the list at an index, from 0.
    pub fn get(&self, index: usize) -> &'a [u32]
        requires { index < length self.now }
        ensures { slice_get self.now index ≡ Some result.now }
    {
        let span = item(self.spans, index);
        part(self.numbers, span.from as usize, span.to as usize)
    }
}
