//! A description of a statement as HTML.
ghost use Rattle.std.specs.Prelude.{◌≡◌, ◌++◌, if◌then◌else◌, [], IfOk, OnOk};
ghost use Rattle.markup.specs.Descriptions.{is_tilde, label_html, run_html, state_after_run};
ghost use Rattle.markup.specs.Descriptions.{end_html, description_html};

use crate::byte_roles::State;
use crate::page_link::push_page_link;
use crate::word::push_word;
use std::alloc::AllocError;
use text::{next_run, push_html};

/// Says which labels have pages.
pub trait LabelPages {
    /// The position of the assertion with the label, if it has a page.
    ghost page_of: { Self → List ℕ → Option ℕ };

    ghost use Rattle.std.specs.Prelude.{◌≡◌, ℕ, List, Option};

    /// Returns the position of the assertion with a label, or `None` if the label has no page.
    fn page_of(&self, label: &[u8]) -> Option<usize>
        ensures { result ≡ page_of self.now label.now };
}

/// Appends a description as HTML, each of its words after a space: `~ LABEL` as a link, if the
/// label has a page; the text between two backquotes as code; the text between two underscores as
/// emphasis. All bytes are escaped.
///
/// Errors: an allocation fails; the page is then unspecified. Cost: the size of the description,
/// and the look-up of each label.
/// Source: Metamath, 4.4.
pub fn push_description<L: LabelPages>(
    page: &mut Vec<u8>,
    text: &[u8],
    labels: &L,
) -> Result<(), AllocError>
    ensures { OnOk result (page.new.items
        ≡ page.old.items ++ description_html (L.page_of labels.now) text.now) }
{
    let mut state = State {
        is_code: false,
        is_emphasized: false,
        is_before_label: false,
    };
    let mut at = 0;
    while let Some(span) = next_run(text, at) {
        let word = &text[span.start..span.end];
        let next = push_run(page, labels, state, word)?;
        state = next;
        at = span.end;
    }
    push_end(page, state)
}

/// Appends a word, and returns the state after it.
fn push_run<L: LabelPages>(
    page: &mut Vec<u8>,
    labels: &L,
    state: State,
    word: &[u8],
) -> Result<State, AllocError>
    ensures written { IfOk result (λ _. page.new.items
        ≡ page.old.items ++ run_html (L.page_of labels.now) state word.now) }
    ensures state { IfOk result (λ after. after ≡ state_after_run state word.now) }
{
    if state.is_before_label {
        push_label(page, labels.page_of(word), word)?;
        return Ok(with_label(state, false));
    }
    if is_tilde(state, word) {
        return Ok(with_label(state, true));
    }
    page.extend_from_slice(b" ")?;
    push_word(page, state, word)
}

/// Returns the state with another `is_before_label`.
fn with_label(state: State, is_before_label: bool) -> State
    ensures { result ≡ record state { is_before_label = is_before_label } }
{
    State {
        is_code: state.is_code,
        is_emphasized: state.is_emphasized,
        is_before_label,
    }
}

/// Returns whether a word outside code is a `~`.
fn is_tilde(state: State, word: &[u8]) -> bool
    ensures { result ≡ is_tilde state word.now }
{
    !state.is_code && word == b"~".as_slice()
}

/// Appends a label after a space: as a link if it has a page, else with its `~`.
fn push_label(page: &mut Vec<u8>, position: Option<usize>, label: &[u8]) -> Result<(), AllocError>
    ensures { OnOk result (page.new.items ≡ page.old.items ++ label_html position label.now) }
{
    match position {
        Some(position) => {
            page.extend_from_slice(b" ")?;
            push_page_link(page, label, position)
        }
        None => {
            page.extend_from_slice(b" ~ ")?;
            push_html(page, label)
        }
    }
}

/// Appends a `~` without a label, and the end tags of code and emphasis that the description does
/// not end.
fn push_end(page: &mut Vec<u8>, state: State) -> Result<(), AllocError>
    ensures { OnOk result (page.new.items ≡ page.old.items ++ end_html state) }
{
    page.extend_from_slice(text_if(state.is_before_label, b" ~"))?;
    page.extend_from_slice(text_if(state.is_code, b"</code>"))?;
    page.extend_from_slice(text_if(state.is_emphasized, b"</em>"))
}

/// Returns a text if a condition holds, else the empty text.
fn text_if(condition: bool, text: &[u8]) -> &[u8]
    ensures { result.now ≡ (if condition then text.now else []) }
{
    if condition { text } else { &[] }
}
