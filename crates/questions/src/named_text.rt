//! A text with the name of its file.

/// A text, and the name of its file, which is printed before each line and column.
#[derive(Clone, Copy)]
pub struct NamedText<'a> {
    pub name: Option<&'a str>,
    pub bytes: &'a [u8],
}
