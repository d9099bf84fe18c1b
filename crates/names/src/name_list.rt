//! The names by code, one after the other in one buffer.
ghost use Rattle.std.specs.Prelude.{◌≡◌, ◌+◌, ◌<◌, ◌≤◌, [], ◌∷◌, ◌++◌, take, length, slice_get};
ghost use Rattle.std.specs.Prelude.{Some, IfOk, OnOk, OnErr};
ghost use Rattle.names.specs.Codes.{name_at};
ghost use Rattle.names.specs.Stored.NameList.{names_from, start_of, AreAscendingEnds};

use entries::buffer_part::to_u32;
use entries::give_back;
use std::alloc::{AllocError, Global};
use std::marker::Model;

/// A list of names: the name at an index, from 0, is the one with that code. Its bytes begin in the
/// buffer where those of the name before it end.
#[derive(Drop)]
pub struct NameList {
    bytes: Vec<u8>,
    ends: Vec<u32>,
}

impl Model for NameList {
    ghost use Rattle.std.specs.Prelude.{ℕ, List, length};
    ghost use Rattle.names.specs.Stored.NameList.{names_from, AreAscendingEnds};

    ghost Value = { List (List ℕ) };

    ghost view = { λ a. names_from a.bytes.items 0 a.ends.items };

    ghost invariant = { λ a. AreAscendingEnds (length a.bytes.items) 0 a.ends.items };
}

impl NameList {
    /// Returns an empty list.
    pub(crate) fn new(alloc: Global) -> NameList
        ensures { result ≡ [] }
    {
        NameList {
            bytes: Vec::new(alloc),
            ends: Vec::new(alloc),
        }
    }

    /// Returns an equal list.
    pub(crate) fn copy(&self, alloc: Global) -> Result<NameList, AllocError>
        ensures { IfOk result (λ name_list. name_list ≡ self.now) }
    {
        let bytes = Vec::from_slice(alloc, self.bytes.as_slice())?;
        let ends = Vec::from_slice(alloc, self.ends.as_slice())?;
        Ok(NameList { bytes, ends })
    }

    /// Returns how many names there are.
    pub(crate) fn len(&self) -> usize
        ensures { result ≡ length self.now }
    {
        self.ends.len()
    }

    /// Returns the name at an index.
    pub(crate) fn get(&self, index: usize) -> &[u8]
        requires { index < length self.now }
        ensures { result.now ≡ name_at self.now index }
    {
        part(self.bytes.as_slice(), self.ends.as_slice(), index)
    }

    /// Appends a name, which gets the next index.
    ///
    /// Errors: an allocation fails, or the names would have 2^32 bytes; the list is then unchanged.
    pub(crate) fn push(&mut self, name: &[u8]) -> Result<(), AllocError>
        ensures ok { OnOk result (self.new ≡ self.old ++ name.now ∷ []) }
        ensures err { OnErr result (self.new ≡ self.old) }
    {
        let from = self.bytes.as_slice().len();
        self.bytes.extend_from_slice(name)?;
        let to = self.bytes.as_slice().len();
        let pushed = push_end(&mut self.ends, to);
        if pushed.is_err() {
            self.bytes.truncate(from);
            return Err(AllocError);
        }
        Ok(())
    }

    /// Reserves capacity for `more` names, but not for their bytes, if allocation succeeds.
    pub(crate) fn reserve(&mut self, more: usize)
        ensures { self.new ≡ self.old }
    {
        let _ = self.ends.reserve(more);
    }

    /// Truncates to the first `len` names.
    pub(crate) fn truncate(&mut self, len: usize)
        ensures { self.new ≡ take len self.old }
    {
        if len < self.ends.len() {
            let from = start(self.ends.as_slice(), len);
            self.bytes.truncate(from);
            self.ends.truncate(len);
        }
    }

    /// Shrinks each buffer of which less than a quarter is used (`give_back`).
    pub(crate) fn shrink(&mut self)
        ensures { self.new ≡ self.old }
    {
        give_back(&mut self.bytes);
        give_back(&mut self.ends);
    }
}

/// Appends where a name ends.
fn push_end(ends: &mut Vec<u32>, end: usize) -> Result<(), AllocError>
    ensures ok { OnOk result (ends.new.items ≡ ends.old.items ++ end ∷ []) }
    ensures err { OnErr result (ends.new.items ≡ ends.old.items) }
{
    let end = to_u32(end)?;
    ends.push(end)?;
    Ok(())
}

/// Returns the name at an index.
fn part<'a>(bytes: &'a [u8], ends: &[u32], index: usize) -> &'a [u8]
    requires index { index < length ends.now }
    requires ascending { AreAscendingEnds (length bytes.now) 0 ends.now }
    ensures { result.now ≡ name_at (names_from bytes.now 0 ends.now) index }
{
    let from = start(ends, index);
    let to = item(ends, index);
    &bytes[from..to as usize]
}

/// Returns where the name at an index begins.
fn start(ends: &[u32], index: usize) -> usize
    requires { index ≤ length ends.now }
    ensures { result ≡ start_of 0 ends.now index }
{
    if index == 0 {
        0
    } else {
        item(ends, index - 1) as usize
    }
}

/// Returns the item at an index.
pub(crate) fn item<T: Copy>(items: &[T], index: usize) -> T
    requires { index < length items.now }
    ensures { slice_get items.now index ≡ Some result }
{
    items[index]
}
