//! What a byte of a description stands for.
ghost use Rattle.std.specs.Prelude.{◌≡◌, ◌++◌, OnOk};
ghost use Rattle.markup.specs.Roles.{underscore_role, role_of, state_after, role_html};

use std::alloc::AllocError;
use text::push_html;

/// The state of a description between two of its bytes.
#[derive(Clone, Copy, Drop)]
pub(crate) struct State {
    /// Whether the text here is code: between two backquotes.
    pub is_code: bool,
    /// Whether the text here is emphasized: between two underscores.
    pub is_emphasized: bool,
    /// Whether the word before is a `~`, so that the next word is a label.
    pub is_before_label: bool,
}

/// What a byte of a word stands for.
#[derive(Clone, Copy, Drop)]
pub(crate) enum ByteRole {
    /// The beginning of code.
    CodeStart,
    /// The end of code.
    CodeEnd,
    /// The beginning of emphasis.
    EmphasisStart,
    /// The end of emphasis.
    EmphasisEnd,
    /// The byte itself.
    Itself,
}

/// Returns what a byte stands for, between the bytes before and after it. A backquote begins or
/// ends code; an underscore outside code may begin or end emphasis.
pub(crate) fn role_of(state: State, before: u8, byte: u8, after: u8) -> ByteRole
    ensures { result ≡ role_of state before byte after }
{
    if byte == b'`' {
        if state.is_code {
            ByteRole::CodeEnd
        } else {
            ByteRole::CodeStart
        }
    } else if byte == b'_' && !state.is_code {
        underscore_role(state.is_emphasized, before, after)
    } else {
        ByteRole::Itself
    }
}

/// Returns what an underscore stands for: it begins emphasis if a letter or digit follows and none
/// precedes, and ends emphasis if none follows.
fn underscore_role(is_emphasized: bool, before: u8, after: u8) -> ByteRole
    ensures { result ≡ underscore_role is_emphasized before after }
{
    if is_emphasized {
        if after.is_ascii_alphanumeric() {
            ByteRole::Itself
        } else {
            ByteRole::EmphasisEnd
        }
    } else if !before.is_ascii_alphanumeric() && after.is_ascii_alphanumeric() {
        ByteRole::EmphasisStart
    } else {
        ByteRole::Itself
    }
}

/// Returns the state after a byte with this role.
pub(crate) fn state_after(state: State, role: ByteRole) -> State
    ensures { result ≡ state_after state role }
{
    match role {
        ByteRole::CodeStart => State {
            is_code: true,
            is_emphasized: state.is_emphasized,
            is_before_label: state.is_before_label,
        },
        ByteRole::CodeEnd => State {
            is_code: false,
            is_emphasized: state.is_emphasized,
            is_before_label: state.is_before_label,
        },
        ByteRole::EmphasisStart => State {
            is_code: state.is_code,
            is_emphasized: true,
            is_before_label: state.is_before_label,
        },
        ByteRole::EmphasisEnd => State {
            is_code: state.is_code,
            is_emphasized: false,
            is_before_label: state.is_before_label,
        },
        ByteRole::Itself => state,
    }
}

/// Appends the tag that a byte with this role stands for, or the byte itself, escaped.
pub(crate) fn push_role(page: &mut Vec<u8>, role: ByteRole, byte: u8) -> Result<(), AllocError>
    ensures { OnOk result (page.new.items ≡ page.old.items ++ role_html role byte) }
{
    match role {
        ByteRole::CodeStart => page.extend_from_slice(b"<code>"),
        ByteRole::CodeEnd => page.extend_from_slice(b"</code>"),
        ByteRole::EmphasisStart => page.extend_from_slice(b"<em>"),
        ByteRole::EmphasisEnd => page.extend_from_slice(b"</em>"),
        ByteRole::Itself => push_html(page, &[byte]),
    }
}
