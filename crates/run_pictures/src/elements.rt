//! The elements of a picture: lines, points and texts.
ghost use Rattle.std.specs.Prelude.{◌≡◌, ◌≤◌, ◌++◌, OnOk};
ghost use Rattle.run_pictures.specs.Elements.{arrow_curve, arrow_element, arrow_path, break_element};
ghost use Rattle.run_pictures.specs.Elements.{circle_element, node_element, node_name, row_start, span};
ghost use Rattle.run_pictures.specs.Elements.{stump_element, stump_text, two_numbered};

use crate::grid::{column_x, row_y, start_y, stump_x};
use std::alloc::AllocError;
use text::{push_html, push_number};

/// Appends two numbers, each after some text.
#[tactic(auto, unfolding(crate::specs::Elements::two_numbered))]
pub(crate) fn push_two_numbered(
    text: &mut Vec<u8>,
    before: &[u8],
    x: u64,
    between: &[u8],
    y: u64,
) -> Result<(), AllocError>
    ensures { OnOk result (text.new.items ≡ text.old.items ++ two_numbered before.now x between.now y) }
{
    text.extend_from_slice(before)?;
    push_number(text, x)?;
    text.extend_from_slice(between)?;
    push_number(text, y)
}

/// Appends the line of a node, down to `bottom`, and the name of the node above it.
pub(crate) fn push_node(text: &mut Vec<u8>, bottom: u64, node: u8) -> Result<(), AllocError>
    ensures { OnOk result (text.new.items ≡ text.old.items ++ node_element bottom node) }
{
    let x = column_x(node);
    push_two_numbered(text, b"<path class=\"l\" d=\"M", x, b" 34V", bottom)?;
    text.extend_from_slice(b"\"/>\n")?;
    push_node_name(text, x, node)
}

/// Appends the name of a node, above its line.
#[tactic(auto, unfolding(crate::specs::Elements::node_name))]
fn push_node_name(text: &mut Vec<u8>, x: u64, node: u8) -> Result<(), AllocError>
    ensures { OnOk result (text.new.items ≡ text.old.items ++ node_name x node) }
{
    let number = node as u64;
    push_two_numbered(
        text,
        b"<text class=\"h\" x=\"",
        x,
        b"\" y=\"22\">node ",
        number,
    )?;
    text.extend_from_slice(b"</text>\n")
}

/// Appends the arrow of a packet from node `from` to node `to`, which is delivered in a row and was
/// posted in row `start`, or above the first one.
pub(crate) fn push_arrow(
    text: &mut Vec<u8>,
    from: u8,
    start: Option<u8>,
    to: u8,
    row: u8,
) -> Result<(), AllocError>
    ensures { OnOk result (text.new.items ≡ text.old.items ++ arrow_element from start to row) }
{
    push_two_numbered(text, b"<path d=\"M", column_x(from), b" ", start_y(start))?;
    push_arrow_path(text, from, start, to, row)?;
    text.extend_from_slice(b"\" marker-end=\"url(#a)\"/>\n")
}

/// Appends the path of an arrow after its beginning: straight between two nodes, bent from a node to
/// itself.
#[tactic(auto, unfolding(crate::specs::Elements::arrow_path))]
fn push_arrow_path(
    text: &mut Vec<u8>,
    from: u8,
    start: Option<u8>,
    to: u8,
    row: u8,
) -> Result<(), AllocError>
    ensures { OnOk result (text.new.items ≡ text.old.items ++ arrow_path from start to row) }
{
    if from == to {
        push_arrow_curve(text, column_x(to), start_y(start), row_y(row))
    } else {
        push_two_numbered(text, b"L", column_x(to), b" ", row_y(row))
    }
}

/// Appends the bent path of an arrow from a node to itself, from `start` to `end`.
fn push_arrow_curve(text: &mut Vec<u8>, x: u64, start: u64, end: u64) -> Result<(), AllocError>
    requires { 30 ≤ x }
    ensures { OnOk result (text.new.items ≡ text.old.items ++ arrow_curve x start end) }
{
    push_two_numbered(text, b"C", x - 30, b" ", start)?;
    push_two_numbered(text, b" ", x - 30, b" ", end)?;
    push_two_numbered(text, b" ", x, b" ", end)
}

/// Appends a stump from a node in a row towards a node, with a title, whose markup is escaped.
pub(crate) fn push_stump(
    text: &mut Vec<u8>,
    node: u8,
    row: u8,
    to: u8,
    title: &[u8],
) -> Result<(), AllocError>
    ensures { OnOk result (text.new.items ≡ text.old.items ++ stump_element node row to title.now) }
{
    let y = row_y(row);
    push_two_numbered(text, b"<path class=\"s\" d=\"M", column_x(node), b" ", y)?;
    push_two_numbered(text, b"L", stump_x(node, to), b" ", y + 9)?;
    text.extend_from_slice(b"\"><title>")?;
    push_html(text, title)?;
    text.extend_from_slice(b"</title></path>\n")
}

/// Appends words below the end of a stump.
pub(crate) fn push_stump_text(
    text: &mut Vec<u8>,
    node: u8,
    row: u8,
    to: u8,
    words: &[u8],
) -> Result<(), AllocError>
    ensures { OnOk result (text.new.items ≡ text.old.items ++ stump_text node row to words.now) }
{
    let x = stump_x(node, to);
    push_two_numbered(
        text,
        b"<text class=\"n\" x=\"",
        x,
        b"\" y=\"",
        row_y(row) + 18,
    )?;
    text.extend_from_slice(b"\">")?;
    text.extend_from_slice(words)?;
    text.extend_from_slice(b"</text>\n")
}

/// Appends a break of a node's line in a row.
pub(crate) fn push_break(text: &mut Vec<u8>, node: u8, row: u8) -> Result<(), AllocError>
    ensures { OnOk result (text.new.items ≡ text.old.items ++ break_element node row) }
{
    let (x, y) = (column_x(node), row_y(row));
    push_two_numbered(text, b"<path class=\"g\" d=\"M", x, b" ", y - 8)?;
    push_two_numbered(
        text,
        b"v16\"/>\n<path class=\"b\" d=\"M",
        x - 7,
        b" ",
        y - 8,
    )?;
    push_two_numbered(text, b"h14M", x - 7, b" ", y + 8)?;
    text.extend_from_slice(b"h14\"/>\n")
}

/// Appends the point of a node in a row; `class` is a whole attribute of the element with a space
/// before it, or empty.
pub(crate) fn push_circle(
    text: &mut Vec<u8>,
    class: &[u8],
    node: u8,
    row: u8,
) -> Result<(), AllocError>
    ensures { OnOk result (text.new.items ≡ text.old.items ++ circle_element class.now node row) }
{
    text.extend_from_slice(b"<circle")?;
    text.extend_from_slice(class)?;
    push_two_numbered(text, b" cx=\"", column_x(node), b"\" cy=\"", row_y(row))?;
    text.extend_from_slice(b"\" r=\"4\"/>\n")
}

/// Appends the number of a row at the left, and the start of its text.
pub(crate) fn push_row_start(
    text: &mut Vec<u8>,
    number: u64,
    node: u8,
    row: u8,
) -> Result<(), AllocError>
    ensures { OnOk result (text.new.items ≡ text.old.items ++ row_start number node row) }
{
    let y = row_y(row) + 4;
    push_two_numbered(text, b"<text class=\"r\" x=\"40\" y=\"", y, b"\">", number)?;
    push_two_numbered(
        text,
        b"</text>\n<text x=\"",
        column_x(node) + 10,
        b"\" y=\"",
        y,
    )?;
    text.extend_from_slice(b"\">")
}

/// Appends words to the text of a row, after `start`, which begins their style, with markup escaped;
/// nothing if there are no words.
pub(crate) fn push_span(text: &mut Vec<u8>, start: &[u8], words: &[u8]) -> Result<(), AllocError>
    ensures { OnOk result (text.new.items ≡ text.old.items ++ span start.now words.now) }
{
    if words.is_empty() {
        return Ok(());
    }
    text.extend_from_slice(start)?;
    push_html(text, words)?;
    text.extend_from_slice(b"</tspan>")
}
