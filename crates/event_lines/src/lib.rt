//! The history of a run as a script of `play`, which has a line for each event. The bytes of an
//! offered text that has a line feed follow its line.
//!
//! The main contract: `push_events` appends a line `events N` and then N lines to an answer, which
//! are parsed as exactly the lines of `play` for these events, in order. `Carried` is an offered
//! entry as a value that packets carry.
//!
//! In a clause `text.old` and `text.new` are the text before and after the call, `a.now` is what a
//! shared reference `a` refers to, `text.items` are the bytes of a vector, `OnOk result P` says P
//! if the result is `Ok`, and `IfOk result P` says P of the value of such a result.
#![tactic(auto)]

mod events;
mod offers;

pub use events::push_events;
