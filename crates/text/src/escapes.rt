//! Escapes bytes for an HTML page, and for a quoted label in the DOT language of Graphviz.
ghost use Rattle.std.specs.Prelude.{◌≡◌, ◌++◌, OnOk};
ghost use Rattle.text.specs.Escapes.{html_byte, html_text, ReadsAs, quoted_byte, quoted_text};

use std::alloc::AllocError;

/// Appends the bytes as text of a page, so that none of them is read as markup: `&`, `<`, `>` and
/// `"` become character references.
///
/// Errors: an allocation fails; the page is then unspecified. Cost: the number of bytes.
pub fn push_html(page: &mut Vec<u8>, bytes: &[u8]) -> Result<(), AllocError>
    ensures written { OnOk result (page.new.items ≡ page.old.items ++ html_text bytes.now) }
    ensures reads { ReadsAs (html_text bytes.now) bytes.now }
{
    for byte in bytes {
        push_html_byte(page, *byte)?;
    }
    Ok(())
}

/// Appends a byte, or its character reference if it is one of `&`, `<`, `>` and `"`.
fn push_html_byte(page: &mut Vec<u8>, byte: u8) -> Result<(), AllocError>
    ensures { OnOk result (page.new.items ≡ page.old.items ++ html_byte byte) }
{
    if byte == b'&' {
        page.extend_from_slice(b"&amp;")
    } else if byte == b'<' {
        page.extend_from_slice(b"&lt;")
    } else if byte == b'>' {
        page.extend_from_slice(b"&gt;")
    } else if byte == b'"' {
        page.extend_from_slice(b"&quot;")
    } else {
        page.extend_from_slice(&[byte])
    }
}

/// Appends the bytes as the inside of a quoted label in the DOT language: with a `\` before each
/// `"` and `\`. A quoted string that is no label keeps both bytes of `\\`.
///
/// Errors: an allocation fails; the text is then unspecified. Cost: the number of bytes.
pub fn push_quoted(text: &mut Vec<u8>, bytes: &[u8]) -> Result<(), AllocError>
    ensures { OnOk result (text.new.items ≡ text.old.items ++ quoted_text bytes.now) }
{
    for byte in bytes {
        push_quoted_byte(text, *byte)?;
    }
    Ok(())
}

/// Appends a byte, after a `\` if it is `"` or `\`.
fn push_quoted_byte(text: &mut Vec<u8>, byte: u8) -> Result<(), AllocError>
    ensures { OnOk result (text.new.items ≡ text.old.items ++ quoted_byte byte) }
{
    if byte == b'"' || byte == b'\\' {
        text.extend_from_slice(&[b'\\', byte])
    } else {
        text.extend_from_slice(&[byte])
    }
}
