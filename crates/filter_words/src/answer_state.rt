//! How far the reading of an answer has come.
use crate::reply::BreakCause;

/// The most bytes of packets in one answer. The two answers of a handshake count as one.
pub const MOST_ANSWER: u64 = 536_870_912;

/// Where the reading of an answer stands, packet by packet: `P` says in which part of it, `G` how it ended well.
#[derive(PartialEq, Eq, Drop)]
pub enum AnswerState<P, G> {
    /// More packets belong to it.
    On(P),
    /// It is whole, and good.
    Done(G),
    /// Its last packet is the first after which no continuation is good.
    Broken(BreakCause),
    /// A packet stands after its end.
    Late,
}
