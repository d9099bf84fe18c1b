//! The list of names, which also finds the code of a name.
ghost use Rattle.std.specs.Prelude.{◌≡◌, ◌<◌, ◌≤◌, ◌^◌, [], ◌∷◌, ◌++◌, length, take, IfOk, IfSome};
ghost use Rattle.std.specs.Prelude.{OnOk, OnErr, false};
ghost use Rattle.mm_lex.specs.Alphabet.{has_name};
ghost use Rattle.names.specs.Codes.{name_at, code_of, AreDistinct};

use crate::keys::{IN_OVERFLOW, key};
use crate::name_keys::NameKeys;
use crate::name_list::NameList;
use crate::table::{FIRST_SLOTS, NO_NAME, Slot, build_slots, free_slot_index, make_slot, search};
use std::alloc::{AllocError, Global};
use std::marker::Model;

/// A list of distinct names. The code of a name is its index. Contracts see the list.
///
/// The bytes of all names are in one buffer. A hash table maps a name's key to its code; a name of
/// at most seven bytes shares its key with no other. A name for which 32 probes meet no free slot
/// goes into the overflow, which looks names up in sorted maps.
#[derive(Drop)]
pub struct NameTable {
    name_list: NameList,
    name_keys: NameKeys,
    slots: Vec<Slot>,
    /// An upper bound on the number of slots that are taken, those of removed names included.
    taken: usize,
}

impl Model for NameTable {
    ghost use Rattle.std.specs.Prelude.{ℕ, List, length, ◌<◌, ◌^◌};
    ghost use Rattle.names.specs.Codes.{AreDistinct};
    ghost use Rattle.names.specs.Stored.Table.{IsTable};

    ghost Value = { List (List ℕ) };

    ghost view = { λ a. a.name_list };

    ghost invariant = { λ a. (length a.name_list < 2 ^ 32) × (AreDistinct a.name_list × IsTable a.slots.items a.name_keys a.name_list) };
}

impl NameTable {
    /// Returns an empty list.
    pub fn new(alloc: Global) -> NameTable
        ensures { result ≡ [] }
    {
        NameTable {
            name_list: NameList::new(alloc),
            name_keys: NameKeys::new(alloc),
            slots: Vec::new(alloc),
            taken: 0,
        }
    }

    /// Returns an equal list.
    ///
    /// Errors: an allocation fails. Cost: the size of all names.
    pub fn copy(&self, alloc: Global) -> Result<NameTable, AllocError>
        ensures { IfOk result (λ names. names ≡ self.now) }
    {
        let name_list = self.name_list.copy(alloc)?;
        let mut name_keys = NameKeys::of(alloc, &name_list)?;
        let slots = build_slots(alloc, &name_list, &mut name_keys, 0)?;
        let taken = name_list.len();
        Ok(NameTable {
            name_list,
            name_keys,
            slots,
            taken,
        })
    }

    /// Returns how many names there are.
    pub fn len(&self) -> usize
        ensures { result ≡ length self.now }
    {
        self.name_list.len()
    }

    /// Returns the code of a name, or `None` if it has none.
    ///
    /// Cost: one pass over the name, and at most 32 slots of the hash table, at each of which the
    /// name may be compared with another; if it is not found there, also the logarithm of the
    /// number of names in the overflow, in comparisons.
    #[inline(always)]
    pub fn find(&self, name: &[u8]) -> Option<usize>
        ensures code { result ≡ code_of self.now name.now }
        ensures fits { IfSome result (λ n. n < 2 ^ 32) }
        ensures distinct { AreDistinct self.now }
    {
        let slots = self.slots.as_slice();
        search(slots, &self.name_keys, &self.name_list, name)
    }

    /// Returns the name of a code.
    pub fn name(&self, code: usize) -> &[u8]
        requires { code < length self.now }
        ensures { result.now ≡ name_at self.now code }
    {
        self.name_list.get(code)
    }

    /// Returns the code of a name, and appends the name if it has none.
    ///
    /// Errors: an allocation fails, or there are 2^32 - 1 names already; the list is then
    /// unchanged.
    /// Cost: that of `find`, and if the name is new that of `add`.
    pub fn find_or_add(&mut self, alloc: Global, name: &[u8]) -> Result<usize, AllocError>
        ensures name { IfOk result (λ n. (n < length self.new) × (name_at self.new n ≡ name.now)) }
        ensures known { IfOk result (λ n. n < length self.old → self.new ≡ self.old) }
        ensures fresh { IfOk result (λ n. length self.old ≤ n → self.new ≡ self.old ++ name.now ∷ []) }
        ensures distinct { AreDistinct self.new }
        ensures err { OnErr result (self.new ≡ self.old) }
    {
        match self.find(name) {
            Some(found) => Ok(found),
            None => {
                let added = self.add(alloc, name)?;
                Ok(added)
            }
        }
    }

    /// Appends a name that is not in the list, and returns its code.
    ///
    /// Errors: an allocation fails, or there are 2^32 - 1 names already; the list is then
    /// unchanged.
    /// Cost: that of `find`; the number of names if the hash table grows.
    pub fn add(&mut self, alloc: Global, name: &[u8]) -> Result<usize, AllocError>
        requires { has_name name.now self.old ≡ false }
        ensures code { IfOk result (λ n. n ≡ length self.old) }
        ensures fits { IfOk result (λ n. n < 2 ^ 32) }
        ensures ok { OnOk result (self.new ≡ self.old ++ name.now ∷ []) }
        ensures err { OnErr result (self.new ≡ self.old) }
    {
        self.make_room(alloc, 1)?;
        let code = self.name_list.len();
        if code >= NO_NAME as usize {
            return Err(AllocError);
        }
        let key = key(name);
        match free_slot_index(self.slots.as_slice(), key) {
            Some(at) => {
                self.name_keys.push(code, key)?;
                self.name_list.push(name)?;
                self.slots[at] = make_slot(key, code as u32);
                self.taken = self.taken.saturating_add(1);
            }
            None => {
                self.name_keys.push(code, IN_OVERFLOW)?;
                self.name_keys.overflow.insert(alloc, name, code as u32)?;
                self.name_list.push(name)?;
            }
        }
        Ok(code)
    }

    /// Reserves capacity for `more` names, if allocation succeeds, so that adding them makes no new
    /// hash table.
    ///
    /// Cost: a constant; if it allocates, the number of names and `more`.
    pub fn reserve(&mut self, alloc: Global, more: usize)
        ensures { self.new ≡ self.old }
    {
        self.name_list.reserve(more);
        self.name_keys.reserve(more);
        let _ = self.make_room(alloc, more);
    }

    /// Makes a new hash table if `more` further names would take more than seven eighths of this
    /// one.
    fn make_room(&mut self, alloc: Global, more: usize) -> Result<(), AllocError>
        ensures { self.new ≡ self.old }
    {
        if self.taken.saturating_add(more) > self.slots.len() / 8 * 7 {
            self.rebuild(alloc, more)?;
        }
        Ok(())
    }

    /// Makes a new hash table, with capacity for twice the present number of names, or for `more`
    /// further names if `more` exceeds that number.
    fn rebuild(&mut self, alloc: Global, more: usize) -> Result<(), AllocError>
        ensures { self.new ≡ self.old }
    {
        self.slots = build_slots(alloc, &self.name_list, &mut self.name_keys, more)?;
        self.taken = self.name_list.len();
        Ok(())
    }

    /// Truncates to the first `len` names. Does not allocate. The slots of removed names stay taken
    /// until a new hash table is made.
    ///
    /// Cost: constant; if the overflow has a name, the number of removed names.
    pub fn truncate(&mut self, len: usize)
        ensures { self.new ≡ take len self.old }
    {
        if len >= self.name_list.len() {
            return;
        }
        self.name_keys.truncate(&self.name_list, len);
        self.name_list.truncate(len);
    }

    /// Frees unused memory: shrinks a buffer of which less than a quarter is used
    /// (`entries::give_back`), and makes a new hash table if there are more than eight slots for
    /// each name, and more than 128 in all. If an allocation fails, the buffer or the hash table
    /// stays.
    ///
    /// Cost: constant; if memory is freed, the size of all names.
    pub fn shrink(&mut self, alloc: Global)
        ensures { self.new ≡ self.old }
    {
        self.name_list.shrink();
        self.name_keys.shrink(self.name_list.len());
        if self.slots.len() / 8 > self.name_list.len().max(FIRST_SLOTS) {
            let _ = self.rebuild(alloc, 0);
        }
    }
}
