//! The coordinates of a picture, in pixels from its upper left corner. `specs/Elements` has them as
//! numbers.
ghost use Rattle.std.specs.Prelude.{◌≡◌};
ghost use Rattle.run_pictures.specs.Elements.{column_x, row_y, start_y, stump_x, picture_width};

/// The x coordinate of the first column.
const FIRST_COLUMN_X: u64 = 80;

/// The distance from a column to the next.
const COLUMN_WIDTH: u64 = 200;

/// The y coordinate of the first row.
const FIRST_ROW_Y: u64 = 60;

/// The distance from a row to the next.
const ROW_HEIGHT: u64 = 28;

/// The y coordinate at which the lines of nodes begin, and the arrows from above the first row.
const TOP_EDGE: u64 = 34;

/// How far a stump goes sideways for each column from its node to that of its receiver.
const STUMP_WIDTH: u64 = 44;

/// How far a stump from a node to itself goes to the left; also added to the width of a stump to a
/// node at the left.
const OWN_STUMP_WIDTH: u64 = 22;

/// The greatest width of a character of a label.
const CHARACTER_WIDTH: u64 = 7;

/// The space at the right of the longest text.
const MARGIN: u64 = 40;

/// Returns the x coordinate of the column of a node.
pub(crate) fn column_x(node: u8) -> u64
    ensures { result ≡ column_x node }
{
    FIRST_COLUMN_X + COLUMN_WIDTH * u64::from(node)
}

/// Returns the y coordinate of a row.
pub(crate) fn row_y(row: u8) -> u64
    ensures { result ≡ row_y row }
{
    FIRST_ROW_Y + ROW_HEIGHT * u64::from(row)
}

/// Returns the y coordinate at which an arrow from a row begins, or from above the first one.
pub(crate) fn start_y(row: Option<u8>) -> u64
    ensures { result ≡ start_y row }
{
    match row {
        Some(row) => row_y(row),
        None => TOP_EDGE,
    }
}

/// Returns the x coordinate at which a stump from one node towards another ends.
pub(crate) fn stump_x(from: u8, to: u8) -> u64
    ensures { result ≡ stump_x from to }
{
    if from < to {
        column_x(from) + STUMP_WIDTH * u64::from(to - from)
    } else {
        column_x(from) - OWN_STUMP_WIDTH - STUMP_WIDTH * u64::from(from - to)
    }
}

/// Returns the width of a picture of `nodes` nodes whose longest text has this many characters.
pub(crate) fn picture_width(nodes: u8, characters: u32) -> u64
    ensures { result ≡ picture_width nodes characters }
{
    column_x(nodes.saturating_sub(1)) + CHARACTER_WIDTH * u64::from(characters) + MARGIN
}
