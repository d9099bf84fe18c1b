//! The style of a picture: dark lines on white, and texts with a white outline above the lines.
ghost use Rattle.std.specs.Prelude.{◌≡◌};
ghost use Rattle.run_pictures.specs.Picture.{style};

/// The part after the height: the style, the head of an arrow, and the background.
///
/// The classes of texts: `h` the name of a node, `r` the number of a row, `n` the numbers of a
/// stump, `p` the label of an arrow, `k` a note. Those of lines: `l` the line of a node, `s` a
/// stump, `g` the gap of a break, `b` the bars beside it. Those of points: `y` for an entry that is
/// added, `x` for one that is refused.
const STYLE: &[u8] =
    b"\">\n<style>\ntext{font:11px ui-monospace,monospace;fill:#1c1c21;paint-order:stroke;stroke:#fff;stroke-width:4px;stroke-linejoin:round}\n.h{font-weight:bold;text-anchor:middle}\n.r{fill:#63636e;text-anchor:end}\n.n{font-size:9px;fill:#b45309;text-anchor:middle}\n.p{fill:#1d4ed8}\n.k{fill:#15803d}\npath{fill:none;stroke:#1d4ed8;stroke-width:1.2}\n.l{stroke:#a0a0ab}\n.s{stroke:#b45309;stroke-dasharray:3 2}\n.b{stroke:#1c1c21;stroke-width:1.6}\n.g{stroke:#fff;stroke-width:4}\ncircle{fill:#1c1c21}\n.y{fill:#15803d}\n.x{fill:#b91c1c}\n</style>\n<defs><marker id=\"a\" viewBox=\"0 0 8 8\" refX=\"13\" refY=\"4\" markerWidth=\"8\" markerHeight=\"8\" markerUnits=\"userSpaceOnUse\" orient=\"auto\"><path d=\"M0 0L8 4L0 8z\" style=\"fill:#1d4ed8;stroke:none\"/></marker></defs>\n<rect width=\"100%\" height=\"100%\" fill=\"#fff\"/>\n";

/// Returns the part after the height.
#[tactic(auto, unfolding(crate::specs::Picture::style))]
pub(crate) fn style() -> &'static [u8]
    ensures { result.now ≡ style }
{
    STYLE
}
