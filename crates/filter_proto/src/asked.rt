//! How far the reading of a reply has come.
use edge_kit::SendFault;
use filter_words::{Reply, ReplyPhase};

/// How far the reading of a reply has come.
#[derive(Drop)]
pub(crate) struct Reading {
    pub room: u64,
    pub phase: ReplyPhase,
    pub put: Result<(), SendFault>,
}

/// What came of a request, and of the puts of its content.
#[derive(Drop)]
pub struct Asked {
    pub reply: Reply,
    /// An error only if a put failed or ran out of memory. What came after that was read and dropped.
    pub put: Result<(), SendFault>,
}

/// What one more packet, or more bytes, made of a reply.
#[derive(Clone, Copy)]
pub(crate) enum Step {
    On,
    End(Reply),
}
