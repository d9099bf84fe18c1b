//! Draws a picture of a run: a row for each event and for each application of an entry, an arrow
//! for each delivery of a packet, and a stump, the beginning of an arrow, for each packet that a
//! shown step posts and no shown step delivers.
//!
//! The main contracts: a `Run` records exactly the steps of the events in its history and the
//! applications of entries (`specs/Steps`, `specs/RunView`), and `draw` returns exactly the bytes
//! that `specs/Picture` defines for a range of these steps. Markup in words of a script is escaped.
//!
//! Terms: each node has a *weight*, and a set of nodes is a quorum if it has more than half of the
//! total weight. A node *posts* packets when it takes an event; the packets of all nodes are
//! numbered from 0 in the order of posting. The log of a node has entries in consecutive *slots*,
//! from 0; `log_len_before` and `log_len_after` count its entries, so that a value learned beyond a
//! gap counts when the gap is filled. To *apply* an entry is to give it to the library of the node,
//! which returns a verdict.
//!
//! Reading order: `step`, `specs/Steps` and `specs/RunView`, `run` (a world whose steps are
//! recorded), `step_range` (the steps that are shown), `specs/Posts` and `stumps`, `labels`, `grid`
//! and `elements` (coordinates, parts of SVG), `style`, `specs/Picture`, `rows`, `drawing`.
#![tactic(auto)]

mod drawing;
mod elements;
mod grid;
mod labels;
mod rows;
mod run;
mod step;
mod step_range;
mod stumps;
mod style;

pub use drawing::{PictureFault, draw};
pub use run::Run;
pub use step::{Act, Step};
pub use step_range::StepRange;
