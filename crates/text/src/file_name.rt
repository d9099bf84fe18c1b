//! The name of the file of an assertion, and the names of the two other files of a site.
ghost use Rattle.std.specs.Prelude.{◌≡◌, ◌++◌, if◌then◌else◌, OnOk};
ghost use Rattle.std.specs.List.{list_any};
ghost use Rattle.mm_lex.specs.Alphabet.{has_name, name_eq};
ghost use Rattle.text.specs.FileNames.{escaped_byte, escaped, reserved, plus_if_reserved};
ghost use Rattle.text.specs.FileNames.{is_spelled, label_stem, position_stem, file_name};

use crate::push_number;
use mm_lex::is_label;
use std::alloc::AllocError;

/// The name of the file that lists all assertions.
pub const INDEX_FILE: &str = "index.html";

/// The name of the file that holds the style sheet of the site.
pub const STYLE_FILE: &str = "style.css";

/// The greatest length in bytes of a label that its file name spells, that is, has in it with some
/// bytes escaped. The file of a longer one is named by its position. Since a byte becomes two at
/// most, a file name has at most 205 bytes.
const MAX_SPELLED_LEN: usize = 100;

/// The labels that, followed by `.html`, would name a device of Windows or the index.
const RESERVED: [&[u8]; 25] = [
    b"index", b"con", b"prn", b"aux", b"nul", b"com0", b"com1", b"com2", b"com3", b"com4", b"com5",
    b"com6", b"com7", b"com8", b"com9", b"lpt0", b"lpt1", b"lpt2", b"lpt3", b"lpt4", b"lpt5",
    b"lpt6", b"lpt7", b"lpt8", b"lpt9",
];

/// Appends the name of the file of the assertion that has this label and whose statement has this
/// position.
///
/// The name spells a label of at most 100 bytes: each dot becomes `+.`, each uppercase letter
/// becomes `+` and its lowercase letter, and a reserved label gets a `+` at its end. For any other
/// label, the name is `+` and the position. The name ends with `.html`.
///
/// Errors: an allocation fails; the text is then unspecified. Cost: the length of the label.
/// Source: this project's choice; the names of devices are those of Windows.
pub fn push_file_name(text: &mut Vec<u8>, label: &[u8], position: usize) -> Result<(), AllocError>
    ensures { OnOk result (text.new.items ≡ text.old.items ++ file_name label.now position) }
{
    push_stem(text, label, position)?;
    text.extend_from_slice(b".html")
}

/// Appends the stem of the file name: the name without `.html`.
fn push_stem(text: &mut Vec<u8>, label: &[u8], position: usize) -> Result<(), AllocError>
    ensures { OnOk result (text.new.items
        ≡ text.old.items ++ (if is_spelled label.now then label_stem label.now else position_stem position)) }
{
    if is_spelled(label) {
        push_label_stem(text, label)
    } else {
        push_position_stem(text, position)
    }
}

/// Returns whether the file name spells the label: whether it is a label of at most 100 bytes.
fn is_spelled(label: &[u8]) -> bool
    ensures { result ≡ is_spelled label.now }
{
    label.len() <= MAX_SPELLED_LEN && is_label(label)
}

/// Appends the stem that spells a label.
fn push_label_stem(text: &mut Vec<u8>, label: &[u8]) -> Result<(), AllocError>
    ensures { OnOk result (text.new.items ≡ text.old.items ++ label_stem label.now) }
{
    push_escaped(text, label)?;
    push_plus_if_reserved(text, label)
}

/// Appends the bytes of a label, with dots and uppercase letters escaped.
fn push_escaped(text: &mut Vec<u8>, label: &[u8]) -> Result<(), AllocError>
    ensures { OnOk result (text.new.items ≡ text.old.items ++ escaped label.now) }
{
    for byte in label {
        push_escaped_byte(text, *byte)?;
    }
    Ok(())
}

/// Appends a byte of a label, escaped if it is a dot or an uppercase letter.
fn push_escaped_byte(text: &mut Vec<u8>, byte: u8) -> Result<(), AllocError>
    ensures { OnOk result (text.new.items ≡ text.old.items ++ escaped_byte byte) }
{
    if byte.is_ascii_uppercase() {
        text.extend_from_slice(&[b'+', byte + 32])
    } else if byte == b'.' {
        text.extend_from_slice(&[b'+', byte])
    } else {
        text.extend_from_slice(&[byte])
    }
}

/// Appends `+` if the label is reserved.
fn push_plus_if_reserved(text: &mut Vec<u8>, label: &[u8]) -> Result<(), AllocError>
    ensures { OnOk result (text.new.items ≡ text.old.items ++ plus_if_reserved label.now) }
{
    if is_reserved(label) {
        text.extend_from_slice(b"+")
    } else {
        text.extend_from_slice(b"")
    }
}

/// Returns whether the label is reserved.
fn is_reserved(label: &[u8]) -> bool
    ensures { result ≡ has_name label.now reserved }
{
    is_among(label, &RESERVED)
}

/// Returns whether the label is one of the names.
fn is_among(label: &[u8], names: &[&[u8]]) -> bool
    ensures { result ≡ list_any (λ name. name_eq label.now name.now) names.now }
{
    names.iter().any(|name| label == *name)
}

/// Appends the stem that is made from a position.
fn push_position_stem(text: &mut Vec<u8>, position: usize) -> Result<(), AllocError>
    ensures { OnOk result (text.new.items ≡ text.old.items ++ position_stem position) }
{
    text.extend_from_slice(b"+")?;
    push_number(text, position as u64)
}
