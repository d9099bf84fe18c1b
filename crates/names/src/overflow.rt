//! Names that found no slot in the table.
ghost use Rattle.std.specs.Prelude.{◌≡◌, ◌≢◌, IsTrue, None, Some, OnOk};
ghost use Rattle.mm_lex.specs.Alphabet.{Name};
ghost use Rattle.names.specs.Stored.Keys.{AreBytes};
ghost use Rattle.names.specs.Stored.Overflow.{code_in_overflow};

use crate::keys::{LEAST_HASHED_LEN, key};
use std::alloc::{AllocError, Global};
use std::collections::BTreeMap;

/// The codes of the names that found no slot, in sorted maps from the keys of short names and from
/// the bytes of others. A look-up compares a name with few others, even if an adversary chose the
/// names.
#[derive(Drop)]
pub struct Overflow {
    pub short: BTreeMap<u64, u32>,
    pub long: BTreeMap<Vec<u8>, u32>,
}

impl Overflow {
    /// Returns an empty overflow.
    pub(crate) fn new(alloc: Global) -> Overflow {
        Overflow {
            short: BTreeMap::new(alloc),
            long: BTreeMap::new(alloc),
        }
    }

    /// Returns whether the overflow has no name.
    pub(crate) fn is_empty(&self) -> bool
        ensures { IsTrue result → (x : Name) → code_in_overflow self.now x ≡ None }
    {
        self.short.is_empty() && self.long.is_empty()
    }

    /// Returns the code of a name, or `None` if it is not in the overflow.
    pub(crate) fn get(&self, name: &[u8]) -> Option<u32>
        ensures { result ≡ code_in_overflow self.now name.now }
    {
        if name.len() < LEAST_HASHED_LEN {
            self.short.get(&key(name)).copied()
        } else {
            self.long.get(name).copied()
        }
    }

    /// Records the code of a name.
    pub(crate) fn insert(&mut self, alloc: Global, name: &[u8], code: u32) -> Result<(), AllocError>
        ensures inserted { OnOk result (code_in_overflow self.new name.now ≡ Some code) }
        ensures others { (x : Name) → AreBytes x → x ≢ name.now
            → code_in_overflow self.new x ≡ code_in_overflow self.old x }
    {
        if name.len() < LEAST_HASHED_LEN {
            self.short.insert(key(name), code)?;
            return Ok(());
        }
        let name_copy = Vec::from_slice(alloc, name)?;
        self.long.insert(name_copy, code)?;
        Ok(())
    }

    /// Removes a name.
    pub(crate) fn remove(&mut self, name: &[u8])
        ensures { (x : Name) → AreBytes x → x ≢ name.now → code_in_overflow self.new x ≡ code_in_overflow self.old x }
    {
        if name.len() < LEAST_HASHED_LEN {
            self.short.remove(&key(name));
        } else {
            self.long.remove(name);
        }
    }
}
