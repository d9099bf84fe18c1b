//! The hash table in which the codes of names are found.
ghost use Rattle.std.specs.Prelude.{◌≡◌, ◌≢◌, ◌+◌, ◌⊎◌, ℕ, ◌<◌, ◌≤◌, ◌^◌, [], length, get_or, IfOk};
ghost use Rattle.std.specs.Prelude.{OnOk, IfSome, None, true, false};
ghost use Rattle.mm_lex.specs.Alphabet.{Name};
ghost use Rattle.names.specs.Codes.{name_at, code_of, AreDistinct};
ghost use Rattle.names.specs.Stored.Keys.{key_of};
ghost use Rattle.names.specs.Stored.Overflow.{code_in_overflow};
ghost use Rattle.names.specs.Stored.Table.{half_of, slot_of, slot_index_of, IsProbedSlot, AreFound};
ghost use Rattle.names.specs.Stored.Table.{AreNameKeys, OverflowGrows, AreReachable, AreUnused};
ghost use Rattle.names.specs.Stored.Table.{IsFirstFreeSlot};
ghost use Rattle.names.specs.declared.keys.TheConstants.{IN_OVERFLOW};
ghost use Rattle.names.specs.declared.table.TheConstants.{MAX_PROBES};

use crate::keys::{IN_OVERFLOW, LEAST_HASHED_LEN, hash, key, scramble, short_key};
use crate::name_keys::NameKeys;
use crate::name_list::{NameList, item};
use crate::overflow::Overflow;
use std::alloc::{AllocError, Global};

/// Marks a free slot.
pub(crate) const NO_NAME: u32 = 4294967295;

/// How many slots are probed for one name at most. If none of them is free, the name goes into the
/// overflow.
pub(crate) const MAX_PROBES: usize = 32;

/// How many slots the first table has.
pub(crate) const FIRST_SLOTS: usize = 16;

/// How many values the lower half of a key can have: the half is the key modulo this.
const HALVES: u64 = 0x1_0000_0000;

/// A slot of the table: the lower half of the key of a name, and the code of the name, or `NO_NAME`
/// if the slot is free. `NameKeys` has the whole key.
///
/// The slot of a removed name stays taken: its code is then that of no name, or of another one. A
/// search therefore also compares the key or the bytes of the name that has the code now.
#[derive(Clone, Copy, Drop)]
pub struct Slot {
    pub half: u32,
    pub code: u32,
}

/// Returns the lower half of a key.
fn half(key: u64) -> u32
    ensures { result ≡ half_of key }
{
    (key % HALVES) as u32
}

/// Returns the slot of a name with this key.
pub(crate) fn make_slot(key: u64, code: u32) -> Slot
    ensures { result ≡ slot_of key code }
{
    Slot {
        half: half(key),
        code,
    }
}

/// Returns the index of the slot that a step of a search probes: that of step 0 is `scramble` of
/// the key modulo `len`, and that of step n is n slots after that of step n - 1, where slot 0
/// follows the last one. `len` is a power of two.
fn slot_index(key: u64, step: usize, len: usize) -> usize
    requires some { 0 < len }
    requires near { step < MAX_PROBES }
    ensures index { result ≡ slot_index_of key step len }
    ensures inside { result < len }
{
    (scramble(key) as usize).wrapping_add(step * (step + 1) / 2) & (len - 1)
}

/// Returns how many steps a search takes at most.
fn max_steps(len: usize) -> usize
    ensures within { result ≤ len }
    ensures near { result ≤ MAX_PROBES }
    ensures all { (len ≤ result) ⊎ (MAX_PROBES ≤ result) }
{
    if len < MAX_PROBES { len } else { MAX_PROBES }
}

/// Returns the slot that a step probes.
fn probe(slots: &[Slot], key: u64, step: usize) -> Slot
    requires within { step < length slots.now }
    requires near { step < MAX_PROBES }
    ensures { IsProbedSlot slots.now key step result }
{
    item(slots, slot_index(key, step, slots.len()))
}

/// Returns the code of a name, or `None` if it has none. Most short names are in the first slot
/// that it probes; it then reads no bytes of the names in the list.
#[inline(always)]
pub(crate) fn search(
    slots: &[Slot],
    name_keys: &NameKeys,
    name_list: &NameList,
    name: &[u8],
) -> Option<usize>
    requires found { AreFound slots.now name_keys.now.overflow name_list.now }
    requires name_keys { AreNameKeys name_keys.now name_list.now }
    requires distinct { AreDistinct name_list.now }
    requires few { length name_list.now < 2 ^ 32 }
    ensures { result ≡ code_of name_list.now name.now }
{
    if slots.is_empty() || name.is_empty() || name.len() >= LEAST_HASHED_LEN {
        return search_long(slots, name_keys, name_list, name);
    }
    let key = short_key(name);
    let slot = probe(slots, key, 0);
    if slot.half == half(key) && name_keys.has(name_list, slot.code, key) {
        return Some(slot.code as usize);
    }
    if is_absent(slot, name_keys) {
        return None;
    }
    search_slots(slots, name_keys, name_list, name)
}

/// Returns the code of a name, quickly if it is long and in the first slot that it probes.
#[inline(never)]
fn search_long(
    slots: &[Slot],
    name_keys: &NameKeys,
    name_list: &NameList,
    name: &[u8],
) -> Option<usize>
    requires found { AreFound slots.now name_keys.now.overflow name_list.now }
    requires name_keys { AreNameKeys name_keys.now name_list.now }
    requires distinct { AreDistinct name_list.now }
    requires few { length name_list.now < 2 ^ 32 }
    ensures { result ≡ code_of name_list.now name.now }
{
    if slots.is_empty() || name.len() < LEAST_HASHED_LEN {
        return search_slots(slots, name_keys, name_list, name);
    }
    let key = hash(name);
    let slot = probe(slots, key, 0);
    if slot.half == half(key) && has_name_at(name_list, slot.code, name) {
        return Some(slot.code as usize);
    }
    if is_absent(slot, name_keys) {
        return None;
    }
    search_slots(slots, name_keys, name_list, name)
}

/// Returns the code of a name by a search slot by slot.
#[inline(never)]
fn search_slots(
    slots: &[Slot],
    name_keys: &NameKeys,
    name_list: &NameList,
    name: &[u8],
) -> Option<usize>
    requires found { AreFound slots.now name_keys.now.overflow name_list.now }
    requires name_keys { AreNameKeys name_keys.now name_list.now }
    requires distinct { AreDistinct name_list.now }
    requires few { length name_list.now < 2 ^ 32 }
    ensures { result ≡ code_of name_list.now name.now }
{
    let key = key(name);
    let half = half(key);
    for step in 0..max_steps(slots.len()) {
        let slot = probe(slots, key, step);
        if slot.code == NO_NAME {
            return search_overflow(&name_keys.overflow, name_list, name);
        }
        if slot.half == half && is_name(name_keys, name_list, slot.code, key, name) {
            return Some(slot.code as usize);
        }
    }
    search_overflow(&name_keys.overflow, name_list, name)
}

/// Returns whether the slot is free and the overflow is empty. If so, a name for which this slot is
/// probed first has no code.
fn is_absent(slot: Slot, name_keys: &NameKeys) -> bool
    ensures { result ≡ true → (slot.code ≡ NO_NAME) × ((x : Name) → code_in_overflow name_keys.now.overflow x ≡ None) }
{
    slot.code == NO_NAME && name_keys.overflow.is_empty()
}

/// Returns the code of a name in the overflow, or `None` if it is not there. Compares the name,
/// because after a failed `add` the overflow may have a name that is not in the list.
fn search_overflow(overflow: &Overflow, name_list: &NameList, name: &[u8]) -> Option<usize>
    requires { AreDistinct name_list.now }
    ensures some { IfSome result (λ n. code_of name_list.now name.now ≡ Some n) }
    ensures none { result ≡ None → (k : ℕ) → k < length name_list.now → name_at name_list.now k ≡ name.now
        → code_in_overflow overflow.now name.now ≢ Some k }
{
    if overflow.is_empty() {
        return None;
    }
    match overflow.get(name) {
        Some(code) if has_name_at(name_list, code, name) => Some(code as usize),
        _ => None,
    }
}

/// Returns whether a code is that of the name with this key. Compares the bytes of the names,
/// unless the name is short and the code has this key.
fn is_name(name_keys: &NameKeys, name_list: &NameList, code: u32, key: u64, name: &[u8]) -> bool
    requires name_keys { AreNameKeys name_keys.now name_list.now }
    requires key { key ≡ key_of name.now }
    requires not_overflow { key ≢ IN_OVERFLOW }
    ensures yes { result ≡ true → (code < length name_list.now) × (name_at name_list.now code ≡ name.now) }
    ensures no { result ≡ false → code < length name_list.now → name_at name_list.now code ≡ name.now → ⊥ }
{
    if name.len() < LEAST_HASHED_LEN && name_keys.has(name_list, code, key) {
        return true;
    }
    has_name_at(name_list, code, name)
}

/// Returns whether the list has the name at a code.
fn has_name_at(name_list: &NameList, code: u32, name: &[u8]) -> bool
    ensures yes { result ≡ true → (code < length name_list.now) × (name_at name_list.now code ≡ name.now) }
    ensures no { result ≡ false → code < length name_list.now → name_at name_list.now code ≡ name.now → ⊥ }
{
    (code as usize) < name_list.len() && name_list.get(code as usize) == name
}

/// Returns the index of the first free slot that a search for this key probes, or `None` if it
/// probes none.
pub(crate) fn free_slot_index(slots: &[Slot], key: u64) -> Option<usize>
    ensures { IfSome result (IsFirstFreeSlot slots.now key) }
{
    for step in 0..max_steps(slots.len()) {
        if probe(slots, key, step).code == NO_NAME {
            return Some(slot_index(key, step, slots.len()));
        }
    }
    None
}

/// Makes new slots for the names, with capacity for twice their number, or for `more` further names
/// if `more` exceeds that number. A name in the overflow stays there.
pub(crate) fn build_slots(
    alloc: Global,
    name_list: &NameList,
    name_keys: &mut NameKeys,
    more: usize,
) -> Result<Vec<Slot>, AllocError>
    requires few { length name_list.now < 2 ^ 32 }
    requires distinct { AreDistinct name_list.now }
    requires name_keys { AreNameKeys name_keys.old name_list.now }
    ensures name_keys { AreNameKeys name_keys.new name_list.now }
    ensures overflow_grows { OverflowGrows name_keys.old name_keys.new }
    ensures reachable { IfOk result
        (λ slots. AreReachable (length name_list.now) slots.items name_keys.new name_list.now) }
{
    let mut slots = free_slots(alloc, slots_for(name_list.len(), more))?;
    for code in 0..name_list.len() {
        insert_or_overflow(alloc, &mut slots, name_list, name_keys, code)?;
    }
    Ok(slots)
}

/// Finds a slot for the name of a code, or puts the name into the overflow.
fn insert_or_overflow(
    alloc: Global,
    slots: &mut Vec<Slot>,
    name_list: &NameList,
    name_keys: &mut NameKeys,
    code: usize,
) -> Result<(), AllocError>
    requires code { code < length name_list.now }
    requires few { length name_list.now < 2 ^ 32 }
    requires distinct { AreDistinct name_list.now }
    requires name_keys { AreNameKeys name_keys.old name_list.now }
    requires reachable { AreReachable code slots.old.items name_keys.old name_list.now }
    ensures name_keys { AreNameKeys name_keys.new name_list.now }
    ensures overflow_grows { OverflowGrows name_keys.old name_keys.new }
    ensures reachable { OnOk result (AreReachable (code + 1) slots.new.items name_keys.new name_list.now) }
{
    let key = name_keys.keys[code];
    if key == IN_OVERFLOW {
        return Ok(());
    }
    match free_slot_index(slots.as_slice(), key) {
        Some(at) => {
            slots[at] = make_slot(key, code as u32);
            Ok(())
        }
        None => name_keys.put_in_overflow(alloc, code, name_list.get(code)),
    }
}

/// Returns `count` free slots.
fn free_slots(alloc: Global, count: usize) -> Result<Vec<Slot>, AllocError>
    ensures { IfOk result (λ slots. AreUnused slots.items) }
{
    let free = make_slot(0, NO_NAME);
    let mut slots = Vec::new(alloc);
    slots.resize(count, free)?;
    Ok(slots)
}

/// Returns the length of a table of which seven eighths are enough for twice `count` names, or for
/// `count` and `more` names if `more` exceeds `count`.
fn slots_for(count: usize, more: usize) -> usize {
    let name_count = count.saturating_add(count.max(more));
    let wanted = name_count
        .saturating_add(name_count.div_ceil(7))
        .max(FIRST_SLOTS);
    wanted.checked_next_power_of_two().unwrap_or(wanted)
}
