//! Judges many proofs in parallel, with the answer of one thread.
//!
//! The main contract: `judge_all` returns the index of the first job that is not right, or with
//! which the work is past the limit of a meter, whatever the number of workers. `judge_here`
//! returns it on the calling thread; `check_all` returns the first that is not right for proofs
//! that are given as their items.
//!
//! Reading order: `work` (jobs by index), `outcome`, `pool_size`, `gate` (what a thread passes
//! before each job), `checkers` (reused from text to text), `stripes` (the jobs of one worker),
//! `pool` (all of them), `job` (proofs with their items), `laws`.
#![tactic(auto)]

mod checkers;
mod gate;
mod job;
pub mod laws;
mod outcome;
mod pool;
mod pool_size;
mod stripes;
mod work;

pub use checkers::Checkers;
pub use gate::{Gate, LightGate, OpenGate, Place};
pub use job::{Job, check_all};
pub use outcome::Outcome;
pub use pool::{judge_all, judge_here};
pub use pool_size::{MAX_WORKERS, PoolSize};
pub use work::Work;
