//! Why a node refuses an event.

/// Why a node refused an event. The node is unchanged.
///
/// An offer returns the first that applies of `TooLong`, `LogFull`, `Busy` and `Memory`; a begin,
/// the first of `RoundsSpent` and `Memory`. For a packet and for a restart there is only `Memory`.
/// An acceptor that refuses a ballot posts a Nack, which is a packet and no `Refusal`.
#[derive(Clone, Copy, PartialEq, Eq)]
pub enum Refusal {
    /// 64 values are waiting.
    Busy = 1,
    /// No slot is left: the node leads and has no next slot to propose at, or it does not lead and
    /// its log is full.
    LogFull,
    /// No higher round exists.
    RoundsSpent,
    /// The value is longer than `MAX_VALUE_BYTES`.
    TooLong,
    /// An allocation failed.
    Memory,
}
