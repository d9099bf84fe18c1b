//! The weather: whether the network delivers, loses, repeats or delays a hint.

/// The fate of a hint in the network.
#[derive(Clone, Copy, PartialEq, Eq, Debug)]
pub enum Fate {
    /// Its packet is delivered.
    Pass,
    /// Its packet is lost.
    Drop,
    /// Its packet is delivered twice.
    Twice,
    /// It is delayed: appended to the hints that wait now, and given a fate again when it is taken.
    Later,
}

/// Decides how the network treats each hint. A node's thread asks it each time that it takes a hint
/// from its channel, so once more for each delay.
pub trait Weather {
    /// Returns the fate of the hint of packet `number`. (The turns of `adding` are others: calls of
    /// `yield_now`.)
    fn turn(&mut self, number: u64) -> Fate;
}

/// A weather that loses, repeats and delays nothing.
#[derive(Clone, Copy, Debug)]
pub struct Clear;

impl Weather for Clear {
    fn turn(&mut self, _number: u64) -> Fate {
        Fate::Pass
    }
}
