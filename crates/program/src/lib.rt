//! The program `mmlib`: from a command line, an input and an output to an exit status.
//!
//! Everywhere `output` is the writer of the standard output, and `stderr` that of the standard
//! error. `rt` is the host's runtime, which gives memory, threads and waiting; `main` passes its
//! `HostRuntime`. The commands that ask about a database are those of the crate `questions`.
//!
//! Reading order: `command_line` (`run`, which does what a command line asks for); `scripts` (the
//! lines of a script, answered one by one), `added_texts` (the texts that a library added, and the
//! descriptions in them), `node_answers` (about the library of a node), `why` (why a node refused
//! an entry), `play`, `play_picture` (the picture of a run); `served_weather`,
//! `served_nodes`, `desk_answers`, `session` (the lines of a script of `serve`, or of
//! `serve --live`) and `serve`.
#![tactic(auto)]

mod added_texts;
mod command_line;
mod desk_answers;
mod memory_keeps;
mod node_answers;
mod play;
mod play_picture;
mod recovery;
mod scripts;
mod serve;
mod served_nodes;
mod served_weather;
mod session;
mod stored;
mod why;

pub use command_line::run;
pub use memory_keeps::MemoryKeeps;
