//! What the nodes of a folder keep, as lines.
ghost use Rattle.std.specs.Prelude.{◌≡◌, ◌++◌, IfOk, IfSome, IsTrue, OnOk, codes, count_by, decimal, is_some, false};
ghost use Rattle.std.specs.Prelude.{flat_map, option_map, string_bytes};
ghost use Rattle.slots.specs.FiniteMap.{entry_at};
ghost use Rattle.keep_folders.specs.StoredLines.{damage_text, damaged_line, good_line, kept_line};
ghost use Rattle.keep_folders.specs.StoredLines.{node_text};

use crate::keep_folder::{FolderRefusal, KeepFolder, KeptNode};
use std::alloc::AllocError;
use synod::{Ballot, Keep, Record, Value};
use text::push_number;

/// Appends a line for each node of a folder that nothing has open: its number, the bytes of its
/// files, and its promise, at how many slots it accepted an entry, and `good`, or why it is damaged.
/// Returns whether all nodes are good.
///
/// Errors: the folder cannot be used; an allocation fails.
pub fn push_stored<V: Value, F: KeepFolder<V>>(
    text: &mut Vec<u8>,
    path: &str,
    folder: &mut F,
) -> Result<bool, FolderRefusal> {
    let terms = folder.terms(path)?;
    let nodes = folder.open(path, &terms)?;
    let mut are_good = true;
    for (k, node) in (0u8..=u8::MAX).zip(nodes) {
        let bytes = folder.bytes(k)?;
        are_good = push_node(text, k, bytes, node)? && are_good;
    }
    Ok(are_good)
}

/// Appends the line of a node, and returns whether the node is good.
fn push_node<V: Value, K: Keep<V>>(
    text: &mut Vec<u8>,
    k: u8,
    bytes: u64,
    node: KeptNode<K>,
) -> Result<bool, AllocError>
    ensures good { IfOk result
        (λ good. IsTrue good → text.new.items ≡ text.old.items ++ good_line k bytes (K.kept node.keep)) }
    ensures damaged { OnOk result (IfSome node.damage (λ damage. text.new.items
        ≡ text.old.items ++ node_text k ++ damaged_line bytes (string_bytes damage))) }
    ensures told { IfOk result (λ good. IfSome node.damage (λ _. good ≡ false)) }
{
    let KeptNode { mut keep, damage } = node;
    push_node_start(text, k)?;
    if let Some(damage) = damage {
        push_damaged_line(text, bytes, damage.as_str())?;
        return Ok(false);
    }
    match keep.load() {
        Ok(record) => {
            push_good_line(text, bytes, &record)?;
            Ok(true)
        }
        Err(_) => {
            push_damaged_line(text, bytes, "down")?;
            Ok(false)
        }
    }
}

/// Appends the number of a node.
fn push_node_start(text: &mut Vec<u8>, k: u8) -> Result<(), AllocError>
    ensures { OnOk result (text.new.items ≡ text.old.items ++ node_text k) }
{
    push_number(text, u64::from(k))?;
    text.extend_from_slice(b" ")
}

/// Appends what a good node keeps, on a line.
fn push_good_line<V: Value>(
    text: &mut Vec<u8>,
    bytes: u64,
    stored: &Record<V>,
) -> Result<(), AllocError>
    ensures { OnOk result (text.new.items ≡ text.old.items
        ++ kept_line bytes stored.now.kept.promise (count_by is_some stored.now.kept.accepted) (codes "good")) }
{
    push_kept_line(
        text,
        bytes,
        stored.promise(),
        stored.accepted_count(),
        b"good",
    )
}

/// Appends what a node keeps, on a line: the bytes of its files, the ballot that it promised, at how
/// many slots it accepted an entry, and how it is.
///
/// Errors: an allocation fails.
pub fn push_kept_line(
    text: &mut Vec<u8>,
    bytes: u64,
    promise: Ballot,
    slots: u32,
    state: &[u8],
) -> Result<(), AllocError>
    ensures { OnOk result (text.new.items ≡ text.old.items ++ kept_line bytes promise slots state.now) }
{
    push_count(text, b"bytes ", bytes)?;
    push_count(text, b" promise ", promise.round)?;
    push_count(text, b".", u64::from(promise.node))?;
    push_count(text, b" slots ", u64::from(slots))?;
    push_line_end(text, state)
}

/// Appends the bytes of a damaged node's files, and why it is damaged, on a line.
///
/// Errors: an allocation fails.
pub fn push_damaged_line(text: &mut Vec<u8>, bytes: u64, damage: &str) -> Result<(), AllocError>
    ensures { OnOk result (text.new.items ≡ text.old.items ++ damaged_line bytes damage.now) }
{
    push_count(text, b"bytes ", bytes)?;
    push_line_end(text, damage.as_bytes())
}

/// Appends a number after a word.
fn push_count(text: &mut Vec<u8>, word: &[u8], count: u64) -> Result<(), AllocError>
    ensures { OnOk result (text.new.items ≡ text.old.items ++ word.now ++ decimal count) }
{
    text.extend_from_slice(word)?;
    push_number(text, count)
}

/// Appends a space and the end of a line.
fn push_line_end(text: &mut Vec<u8>, state: &[u8]) -> Result<(), AllocError>
    ensures { OnOk result (text.new.items ≡ text.old.items ++ codes " " ++ state.now ++ codes "\n") }
{
    text.push(b' ')?;
    text.extend_from_slice(state)?;
    text.extend_from_slice(b"\n")
}

/// Appends a line for each damaged node: why it is damaged, after the path of its folder.
///
/// Errors: an allocation fails.
pub fn push_damages(
    text: &mut Vec<u8>,
    path: &str,
    damages: &[Option<String>],
) -> Result<(), AllocError>
    ensures { OnOk result (text.new.items ≡ text.old.items
        ++ flat_map (λ d. damage_text path.now (option_map (λ s. string_bytes s) d)) damages.now) }
{
    for damage in damages {
        push_damage(text, path, damage)?;
    }
    Ok(())
}

/// Appends why a node is damaged, if it is, on a line after the path of its folder.
fn push_damage(text: &mut Vec<u8>, path: &str, damage: &Option<String>) -> Result<(), AllocError>
    ensures { OnOk result (text.new.items ≡ text.old.items
        ++ damage_text path.now (option_map (λ s. string_bytes s) damage.now)) }
{
    let Some(damage) = damage else {
        return Ok(());
    };
    text.extend_from_slice(path.as_bytes())?;
    text.extend_from_slice(b": ")?;
    text.extend_from_slice(damage.as_bytes())?;
    text.extend_from_slice(b"\n")
}
