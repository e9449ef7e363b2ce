//! Packets of Git's protocols, gitprotocol-common(5) under "pkt-line Format": a reader, which takes the bytes in pieces
//! of any length, and writers.
#![tactic(auto)]

mod laws;
mod length;
mod reader;
mod writer;

pub use laws::{
    fault_stays, given_so_far, no_packet, one_answer, one_reading, prefix_free, spells,
};
pub use reader::{Next, PktFault, PktReader};
pub use writer::{push_content, push_flush, push_line, push_payload};
