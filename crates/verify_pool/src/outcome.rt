//! The outcome of many jobs.

/// The outcome of jobs that are judged and counted in order.
#[derive(Clone, Copy, Debug, PartialEq, Eq)]
pub enum Outcome {
    /// Each job is right, and all of them together are within the limit.
    AllRight,
    /// The job of this index, from 0, is the first that is not right; up to it, the work is within
    /// the limit.
    Wrong(usize),
    /// The work is past the limit with the job of this index, from 0, and each job before it is
    /// right. It is not known whether it is right itself.
    TooCostly(usize),
}
