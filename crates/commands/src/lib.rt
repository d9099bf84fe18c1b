//! The parsers of command lines, and of the lines of the scripts of `play` and `serve`.
//!
//! Crates above use `parse_command_line`, which returns the `Request` of a command line, and
//! `parse_script`. The main contract: `parse_script` returns the lines by the definition of the
//! command's lines (`specs/PlayLines`, `specs/ServeLines`, `specs/SessionLines`), or the number of
//! the first bad line. No other crate depends on `clap`.
//!
//! Reading order: `request` (the request of a command line), `weights` (numbers of a command line),
//! `grammar` (its commands and options) with `script_help`, `hints` (on files among the words),
//! `picture_options`, `command_line`; `pieces` (a text between separators), `line_words` (the words
//! of a line), `lines` (the lines of a script), `text_form` (a text on the line or on those that
//! follow), `offered_entry`, `node_question` (labels), `common_line`, `play_line`, `serve_line`
//! and `session_line` (the request of a line), `session_texts` (where a text ends), `script` (all
//! lines), `bad_lines` (what is wrong with a line).
//!
//! In a clause `a.old` and `a.new` are a `&mut` argument before and after the call, `a.now` is what
//! a shared reference refers to, and `a.entry` an owned argument as it is passed.
#![tactic(auto)]

mod bad_lines;
mod command_line;
mod common_line;
mod grammar;
mod hints;
mod line_words;
mod lines;
mod node_question;
mod offered_entry;
mod picture_options;
mod pieces;
mod play_line;
mod request;
mod script;
mod script_help;
mod serve_line;
mod session_line;
mod session_texts;
mod text_form;
mod weights;

pub use bad_lines::ExpectedLine;
pub use command_line::parse_command_line;
pub use common_line::CommonLine;
pub use grammar::VERSION;
pub use line_words::{NodeEntryId, NodePair};
pub use lines::Lines;
pub use node_question::{LabelQuestionKind, NodeQuestion};
pub use offered_entry::OfferedEntry;
pub use play_line::PlayLine;
pub use request::{
    CommandLineFault, DatabaseQuestion, PicturedSteps, PlayOptions, ProofForm, ProofQuestion,
    ProofTextForm, Question, Request, ServeOptions, SiteRequest, WorkRequest,
};
pub use script::{LINE_FEED, Line, LineFault, ScriptFault, parse_script};
pub use script_help::SERVE_LINES_HELP;
pub use serve_line::ServeLine;
pub use session_line::SessionLine;
pub use session_texts::{TextEnd, text_end};
pub use weights::{MAX_WORKERS, WorkerCount};
