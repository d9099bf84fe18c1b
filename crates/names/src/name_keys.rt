//! The keys of names by code, and the overflow of names that found no slot in the table.
ghost use Rattle.std.specs.Prelude.{◌≡◌, ◌≢◌, ℕ, ◌<◌, ◌≤◌, ◌^◌, length, get_or, slice_set, Some};
ghost use Rattle.std.specs.Prelude.{IfOk, OnOk, OnErr, true};
ghost use Rattle.mm_lex.specs.Alphabet.{Name};
ghost use Rattle.names.specs.Codes.{name_at, AreDistinct};
ghost use Rattle.names.specs.Stored.Keys.{AreBytes, key_of};
ghost use Rattle.names.specs.Stored.Overflow.{code_in_overflow};
ghost use Rattle.names.specs.Stored.Table.{AreNameKeys};
ghost use Rattle.names.specs.declared.keys.TheConstants.{IN_OVERFLOW};

use crate::keys::{IN_OVERFLOW, key};
use crate::name_list::NameList;
use crate::overflow::Overflow;
use entries::give_back;
use std::alloc::{AllocError, Global};

/// The key of each name by its code, or `IN_OVERFLOW` if the name is in the overflow; and the
/// overflow. Keys after that of the last name have no meaning.
#[derive(Drop)]
pub struct NameKeys {
    pub keys: Vec<u64>,
    pub overflow: Overflow,
}

impl NameKeys {
    /// Returns an empty list of keys and an empty overflow.
    pub(crate) fn new(alloc: Global) -> NameKeys {
        NameKeys {
            keys: Vec::new(alloc),
            overflow: Overflow::new(alloc),
        }
    }

    /// Returns the keys of the names, with an empty overflow.
    pub(crate) fn of(alloc: Global, name_list: &NameList) -> Result<NameKeys, AllocError>
        ensures { IfOk result (λ name_keys. AreNameKeys name_keys name_list.now) }
    {
        let mut name_keys = NameKeys::new(alloc);
        for code in 0..name_list.len() {
            name_keys.push(code, key(name_list.get(code)))?;
        }
        Ok(name_keys)
    }

    /// Returns whether the name of a code has this key, and is not in the overflow.
    pub(crate) fn has(&self, name_list: &NameList, code: u32, key: u64) -> bool
        requires name_keys { AreNameKeys self.now name_list.now }
        requires not_overflow { key ≢ IN_OVERFLOW }
        ensures { result ≡ true → (code < length name_list.now) × AreBytes (name_at name_list.now code)
            × (key_of (name_at name_list.now code) ≡ key) }
    {
        (code as usize) < name_list.len() && self.keys[code as usize] == key
    }

    /// Records the key of the next name, whose code is `code`.
    pub(crate) fn push(&mut self, code: usize, key: u64) -> Result<(), AllocError>
        requires { code ≤ length self.old.keys.items }
        ensures overflow { self.new.overflow ≡ self.old.overflow }
        ensures same { (k : ℕ) → k < code → get_or self.new.keys.items k 0 ≡ get_or self.old.keys.items k 0 }
        ensures count { code ≤ length self.new.keys.items }
        ensures more { OnOk result (code < length self.new.keys.items) }
        ensures last { OnOk result (get_or self.new.keys.items code 0 ≡ key) }
    {
        self.keys.truncate(code);
        self.keys.push(key)?;
        Ok(())
    }

    /// Reserves capacity for the keys of `more` names, if allocation succeeds.
    pub(crate) fn reserve(&mut self, more: usize)
        ensures keys { self.new.keys.items ≡ self.old.keys.items }
        ensures overflow { self.new.overflow ≡ self.old.overflow }
    {
        let _ = self.keys.reserve(more);
    }

    /// Moves a name for which the table has no free slot into the overflow.
    pub(crate) fn put_in_overflow(
        &mut self,
        alloc: Global,
        code: usize,
        name: &[u8],
    ) -> Result<(), AllocError>
        requires there { code < length self.old.keys.items }
        requires few { code < 2 ^ 32 }
        ensures keys { OnOk result (self.new.keys.items ≡ slice_set self.old.keys.items code IN_OVERFLOW) }
        ensures inserted { OnOk result (code_in_overflow self.new.overflow name.now ≡ Some code) }
        ensures others { (x : Name) → AreBytes x → x ≢ name.now
            → code_in_overflow self.new.overflow x ≡ code_in_overflow self.old.overflow x }
        ensures err { OnErr result (self.new.keys ≡ self.old.keys) }
    {
        self.overflow.insert(alloc, name, code as u32)?;
        self.keys[code] = IN_OVERFLOW;
        Ok(())
    }

    /// Truncates to the first `count` keys, and shrinks the list if less than a quarter of its
    /// capacity is then used (`give_back`).
    pub(crate) fn shrink(&mut self, count: usize)
        requires { count ≤ length self.old.keys.items }
        ensures overflow { self.new.overflow ≡ self.old.overflow }
        ensures same { (k : ℕ) → k < count → get_or self.new.keys.items k 0 ≡ get_or self.old.keys.items k 0 }
        ensures count { count ≤ length self.new.keys.items }
    {
        self.keys.truncate(count);
        give_back(&mut self.keys);
    }

    /// Removes the names with the code `len` or a greater one from the overflow. The list of keys
    /// keeps its length: keys after the last name have no meaning.
    pub(crate) fn truncate(&mut self, name_list: &NameList, len: usize)
        requires name_keys { AreNameKeys self.old name_list.now }
        requires distinct { AreDistinct name_list.now }
        requires within { len ≤ length name_list.now }
        ensures keys { self.new.keys ≡ self.old.keys }
        ensures codes { (k : ℕ) → k < len
            → code_in_overflow self.new.overflow (name_at name_list.now k)
            ≡ code_in_overflow self.old.overflow (name_at name_list.now k) }
    {
        if self.overflow.is_empty() {
            return;
        }
        for code in len..name_list.len() {
            if self.keys[code] == IN_OVERFLOW {
                self.overflow.remove(name_list.get(code));
            }
        }
    }
}
